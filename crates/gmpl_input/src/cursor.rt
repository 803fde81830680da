// A place among the tokens.
ghost use Rattle.std.specs.Prelude.{◌≡◌, ◌+◌, ◌<◌, ◌^◌, drop, length};
ghost use Rattle.gmpl_input.specs.Input as spec;
ghost use Rattle.gmpl_input.specs.Rules as rules;
ghost use Rattle.gmpl_input.specs.Rules.{Reads};

use crate::error::ParseError;
use gmpl_syntax::SyntaxFaultKind;
use gmpl_token::{Token, TokenKind};
use std::marker::Model;

/// The token that may come next is of this kind.
#[tactic(auto, unfolding(crate::specs::Input::same_kind))]
pub fn is_kind(wanted: TokenKind, found: Option<TokenKind>) -> bool
    ensures { result ≡ spec.is_kind wanted found }
{
    match found {
        Some(kind) => kind == wanted,
        None => false,
    }
}

// The tokens behind so many.
fn behind<'s, 'a>(tokens: &'s [Token<'a>], count: usize) -> &'s [Token<'a>]
    ensures { result.now ≡ drop count tokens.now }
{
    if count <= tokens.len() {
        &tokens[count..]
    } else {
        &[]
    }
}

/// The tokens that are left, and why there are no more behind them. It owns the tokens, so that the memory of those that it has gone
/// behind can be given back.
#[derive(Drop)]
pub struct Cursor<'a> {
    tokens: Vec<Token<'a>>,
    // how many of them stand before the next
    at: usize,
    end: SyntaxFaultKind,
}

impl<'a> Model for Cursor<'a> {
    ghost use Rattle.std.specs.Prelude.{drop};
    ghost use Rattle.gmpl_input.specs.Input.{Input};

    ghost Value = { Input };

    ghost view = { λ c. record { rest = drop c.at c.tokens.items; end = c.end } };
}

impl<'a> Cursor<'a> {
    /// Before these tokens, behind which stands no other for the given cause.
    pub fn new(tokens: Vec<Token<'a>>, end: SyntaxFaultKind) -> Self
        ensures { result ≡ record { rest = tokens.entry.items; end = end } }
    {
        Cursor { tokens, at: 0, end }
    }

    /// The tokens that are left.
    pub fn rest(&self) -> &[Token<'a>]
        ensures { result.now ≡ self.now.rest }
    {
        behind(&self.tokens, self.at)
    }

    /// How many tokens are left: so many that one more can be counted.
    pub fn left(&self) -> usize
        ensures count { result ≡ length self.now.rest }
        ensures countable { result + 1 < 2 ^ 64 }
    {
        self.rest().len()
    }

    /// Gives back the memory of the tokens that it has gone behind, where they are at least half of all.
    pub fn give_back(&mut self)
        ensures { self.new ≡ self.old }
    {
        let left = self.left();
        if self.at < left || self.tokens.len() < self.at {
            return;
        }
        self.tokens.rotate_left(self.at);
        self.tokens.truncate(left);
        self.tokens.shrink_to_fit();
        self.at = 0;
    }

    /// The kind of the next token.
    #[tactic(auto, unfolding(crate::specs::Input::kind))]
    pub fn peek(&self) -> Option<TokenKind>
        ensures { result ≡ spec.kind self.now }
    {
        match self.rest() {
            [] => None,
            [first, ..] => Some(first.kind()),
        }
    }

    /// The kind of the token behind the next.
    #[tactic(auto, unfolding(crate::specs::Input::kind, crate::specs::Input::next))]
    pub fn peek_second(&self) -> Option<TokenKind>
        ensures { result ≡ spec.kind (spec.next self.now) }
    {
        match self.rest() {
            [_, second, ..] => Some(second.kind()),
            _ => None,
        }
    }

    /// The next token's text; none where there is no token.
    #[tactic(auto, unfolding(crate::specs::Input::spelling))]
    pub fn spelling(&self) -> &'a str
        ensures { result.now ≡ spec.spelling self.now }
    {
        match self.rest() {
            [] => "",
            [first, ..] => first.text(),
        }
    }

    /// The next token is of this kind.
    #[tactic(auto, unfolding(crate::specs::Input::sees))]
    pub fn sees(&self, kind: TokenKind) -> bool
        ensures { result ≡ spec.sees kind self.now }
    {
        is_kind(kind, self.peek())
    }

    /// Why no rule reads the next token.
    #[tactic(auto, unfolding(crate::specs::Input::refusal))]
    pub fn refuse(&self) -> ParseError
        ensures { result ≡ ParseError.Fault (spec.refusal self.now) }
    {
        match self.rest() {
            [] => ParseError::Fault(self.end),
            [_, ..] => ParseError::Fault(SyntaxFaultKind::NotAStatement),
        }
    }

    /// Goes behind the next token, whatever it is, and gives its text.
    #[tactic(auto, unfolding(crate::specs::Input::spelling, crate::specs::Input::next))]
    pub fn take(&mut self) -> &'a str
        ensures text { result.now ≡ spec.spelling self.old }
        ensures next { self.new ≡ spec.next self.old }
    {
        let text = self.spelling();
        if self.at < self.tokens.len() {
            self.at += 1;
        }
        text
    }

    /// Goes behind the next token if it is of this kind, and tells whether it is.
    #[tactic(auto, unfolding(crate::specs::Rules::after))]
    pub fn eat(&mut self, kind: TokenKind) -> bool
        ensures found { result ≡ spec.sees kind self.old }
        ensures after { self.new ≡ rules.after kind self.old }
    {
        let found = self.sees(kind);
        if found {
            self.take();
        }
        found
    }

    /// Goes behind the next token, which must be of this kind.
    #[tactic(auto, unfolding(crate::specs::Rules::expect))]
    pub fn expect(&mut self, kind: TokenKind) -> Result<(), ParseError>
        ensures { Reads (rules.expect kind self.old) result self.new }
    {
        if self.sees(kind) {
            self.take();
            Ok(())
        } else {
            Err(self.refuse())
        }
    }
}
