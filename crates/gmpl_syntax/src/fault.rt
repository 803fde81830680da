// The first fault of a model.

/// What is wrong with a statement.
#[derive(Clone, Copy, Debug, PartialEq, Eq)]
pub enum SyntaxFaultKind {
    /// A byte that begins no token.
    BadByte,
    /// A string that does not end on its line.
    UnendedString,
    /// A comment that does not end.
    UnendedComment,
    /// A number that doesn't fit.
    TooWide,
    /// Tokens that no statement allows.
    NotAStatement,
    /// The text ends inside a statement.
    Unended,
    /// More than 50 parentheses, braces, brackets, `if`, iterations, signs, `not` and exponents are open at a place.
    TooDeep,
    /// A name that no statement before has declared.
    Undeclared,
    /// A name that is declared again.
    Declared,
    /// A function, suffix, driver or form that is left out.
    Unsupported,
    /// A part of a kind that its place does not take.
    WrongKind,
    /// A part of a dimension that its place does not take, or of one above 20.
    WrongDimension,
}

/// The first fault: the number of its statement, counted from 1, the line of the statement's first token, from 1, and what is
/// wrong. A statement inside a `for` has that one's number and line.
#[derive(Clone, Copy, Debug, PartialEq, Eq)]
pub struct SyntaxFault {
    pub statement: usize,
    pub line: usize,
    pub kind: SyntaxFaultKind,
}
