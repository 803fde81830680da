// The pieces of a format.

/// What a conversion makes of a symbol.
#[derive(Clone, Copy)]
pub enum Style {
    /// `%s`: its text, a string without quotes.
    Bare,
    /// `%d`, `%i`: a whole number.
    Whole,
    /// `%f`: a number with places behind the point.
    Fixed,
    /// `%g`: a number with significant digits.
    General,
}

/// A conversion.
#[derive(Clone, Copy)]
pub struct Conversion {
    pub style: Style,
    /// The text stands at the left of its width.
    pub left: bool,
    /// Zeros stand between the sign and the digits, up to the width.
    pub zeros: bool,
    /// The least number of characters.
    pub width: u32,
    pub precision: Option<u32>,
}

/// A piece of a format.
#[derive(Clone, Copy)]
pub enum Piece {
    /// A character that is printed as it is.
    Character(char),
    Value(Conversion),
    /// What is no conversion and no character; nothing behind it is a piece.
    Bad,
}
