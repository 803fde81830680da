// The tokens of a text.
ghost use Rattle.std.specs.Prelude.{◌≡◌};
ghost use Rattle.cplex_lp_tokens.specs.Tokens.{as_section, as_stray, is_later_section, is_later, is_name, is_colon, is_before_colon, is_before_name};

use std::marker::Model;

/// The sections that words begin.
#[derive(Clone, Copy)]
pub enum Section {
    Minimize,
    Maximize,
    Constraints,
    Bounds,
    General,
    Binary,
    End,
}

impl Section {
    // After the constraints.
    fn is_later(self) -> bool
        ensures { result ≡ is_later_section self }
    {
        match self {
            Section::Bounds | Section::General | Section::Binary => true,
            Section::Minimize | Section::Maximize | Section::Constraints | Section::End => false,
        }
    }
}

/// `<` and `<=`, `>` and `>=`, `=`.
#[derive(Clone, Copy)]
pub enum Relation {
    AtMost,
    AtLeast,
    Exactly,
}

/// What a token is.
#[derive(Clone, Copy)]
pub enum TokenKind {
    /// The words of a section, as the first of a line.
    SectionWords(Section),
    Word,
    Literal,
    Plus,
    Minus,
    Colon,
    Compared(Relation),
    /// A byte that begins no token, or the word of a part that is left out.
    Stray,
}

impl TokenKind {
    /// A word, which may be a name.
    pub fn is_name(self) -> bool
        ensures { result ≡ is_name self }
    {
        match self {
            TokenKind::Word => true,
            _ => false,
        }
    }

    // The words of a section after the constraints.
    pub(crate) fn is_later(self) -> bool
        ensures { result ≡ is_later self }
    {
        match self {
            TokenKind::SectionWords(section) => section.is_later(),
            _ => false,
        }
    }

    /// `:`.
    pub fn is_colon(self) -> bool
        ensures { result ≡ is_colon self }
    {
        match self {
            TokenKind::Colon => true,
            _ => false,
        }
    }
}

/// A token with the number of its line.
#[derive(Drop)]
pub struct Token<'a> {
    line: usize,
    kind: TokenKind,
    text: &'a str,
}

impl<'a> Model for Token<'a> {
    ghost use Rattle.cplex_lp_tokens.specs.Tokens.{Token as TokenOf};

    ghost Value = { TokenOf };

    ghost view = { λ t. record { line = t.line; kind = t.kind; text = t.text.now } };
}

impl<'a> Token<'a> {
    // A token of this kind and text.
    pub(crate) fn new(line: usize, kind: TokenKind, text: &'a str) -> Self
        ensures { result ≡ record { line = line; kind = kind; text = text.now } }
    {
        Token { line, kind, text }
    }

    /// The number of its line, from 1 on.
    pub fn line(&self) -> usize
        ensures { result ≡ self.now.line }
    {
        self.line
    }

    /// What it is.
    pub fn kind(&self) -> TokenKind
        ensures { result ≡ self.now.kind }
    {
        self.kind
    }

    /// Its bytes, or nothing where they are no text.
    pub fn text(&self) -> &'a str
        ensures { result.now ≡ self.now.text }
    {
        self.text
    }

    // It is made the words of a section.
    pub(crate) fn make_section(&mut self, section: Section)
        ensures { self.new ≡ as_section section self.old }
    {
        self.kind = TokenKind::SectionWords(section);
    }

    // It may not stand where it does.
    pub(crate) fn make_stray(&mut self)
        ensures { self.new ≡ as_stray self.old }
    {
        self.kind = TokenKind::Stray;
    }
}

/// A colon comes next.
pub fn is_before_colon(rest: &[Token]) -> bool
    ensures { result ≡ is_before_colon rest.now }
{
    match rest {
        [] => false,
        [next, ..] => next.kind().is_colon(),
    }
}

/// A name comes next.
pub fn is_before_name(rest: &[Token]) -> bool
    ensures { result ≡ is_before_name rest.now }
{
    match rest {
        [] => false,
        [next, ..] => next.kind().is_name(),
    }
}
