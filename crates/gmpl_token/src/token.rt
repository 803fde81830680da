// Tokens, and the first place where none can stand.
ghost use Rattle.std.specs.Prelude.{◌≡◌};

use crate::TokenKind;
use std::marker::Model;

/// A token: its kind, where it begins, as a number of bytes from the text's start, the number of its line, counted from 1,
/// and its text as it is written, a string's quotes included.
#[derive(Drop)]
pub struct Token<'a> {
    kind: TokenKind,
    at: usize,
    line: usize,
    text: &'a str,
}

impl<'a> Model for Token<'a> {
    ghost use Rattle.gmpl_token.specs.Token.{Token as TokenOf};

    ghost Value = { TokenOf };

    ghost view = { λ t. record { kind = t.kind; at = t.at; line = t.line; text = t.text.now } };
}

impl<'a> Token<'a> {
    /// A token.
    pub fn new(kind: TokenKind, at: usize, line: usize, text: &'a str) -> Self
        ensures { result ≡ record { kind = kind; at = at; line = line; text = text.now } }
    {
        Token {
            kind,
            at,
            line,
            text,
        }
    }

    /// Its kind.
    pub fn kind(&self) -> TokenKind
        ensures { result ≡ self.now.kind }
    {
        self.kind
    }

    /// How many bytes of the text stand before it.
    pub fn at(&self) -> usize
        ensures { result ≡ self.now.at }
    {
        self.at
    }

    /// The number of its line, from 1.
    pub fn line(&self) -> usize
        ensures { result ≡ self.now.line }
    {
        self.line
    }

    /// Its text, as it is written.
    pub fn text(&self) -> &'a str
        ensures { result.now ≡ self.now.text }
    {
        self.text
    }
}

/// Why no token can stand at a place.
#[derive(Clone, Copy, Debug, PartialEq, Eq)]
pub enum LexFaultKind {
    /// A byte that begins no token, a letter right after a number, a carriage return without a line feed, or a string that
    /// isn't UTF-8.
    BadByte,
    /// A string that does not end on its line.
    UnendedString,
    /// A comment that does not end.
    UnendedComment,
    /// A number that doesn't fit.
    TooWide,
}

/// The first place where a token should stand and none can: how many bytes stand before it, its line, from 1, and why.
#[derive(Clone, Copy, Debug, PartialEq, Eq)]
pub struct LexFault {
    pub at: usize,
    pub line: usize,
    pub kind: LexFaultKind,
}

/// The tokens of a text in order, up to its end or its first fault.
#[derive(Drop)]
pub struct Tokens<'a> {
    items: Vec<Token<'a>>,
    fault: Option<LexFault>,
}

impl<'a> Model for Tokens<'a> {
    ghost use Rattle.gmpl_token.specs.Token.{Tokens as TokensOf};

    ghost Value = { TokensOf };

    ghost view = { λ t. record { items = t.items.items; fault = t.fault } };
}

impl<'a> Tokens<'a> {
    /// Tokens, which end at a fault or at the text's end. It takes no memory.
    pub fn from_vec(items: Vec<Token<'a>>, fault: Option<LexFault>) -> Self
        ensures { result ≡ record { items = items.entry.items; fault = fault } }
    {
        Tokens { items, fault }
    }

    /// The tokens, for reading.
    pub fn as_slice(&self) -> &[Token<'a>]
        ensures { result.now ≡ self.now.items }
    {
        &self.items
    }

    /// The tokens, without the fault. It takes no memory.
    pub fn into_vec(self) -> Vec<Token<'a>>
        ensures { result.items ≡ self.entry.items }
    {
        let Tokens { items, .. } = self;
        items
    }

    /// Why there are no more; none where the text is at its end.
    pub fn fault(&self) -> Option<LexFault>
        ensures { result ≡ self.now.fault }
    {
        self.fault
    }
}
