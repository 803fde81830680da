// A place among the tokens.
ghost use Rattle.std.specs.Prelude.{◌≡◌, length};
ghost use Rattle.gmpl_blocks.specs.Input as spec;
ghost use Rattle.gmpl_blocks.specs.Rules as rules;
ghost use Rattle.gmpl_blocks.specs.Rules.{Reads};

use crate::fault::{DataError, DataFaultKind};
use gmpl_token::{Token, TokenKind};
use std::marker::Model;

/// The token that may come next is of this kind.
#[tactic(auto, unfolding(crate::specs::Input::same_kind))]
pub fn is_kind(wanted: TokenKind, found: Option<TokenKind>) -> bool
    ensures { result ≡ spec.is_kind wanted found }
{
    match found {
        Some(kind) => kind == wanted,
        None => false,
    }
}

/// The tokens that are left, and why there are no more behind them.
#[derive(Drop)]
pub struct Cursor<'s, 'a> {
    rest: &'s [Token<'a>],
    end: DataFaultKind,
}

impl<'s, 'a> Model for Cursor<'s, 'a> {
    ghost use Rattle.gmpl_blocks.specs.Input.{Input};

    ghost Value = { Input };

    ghost view = { λ c. record { rest = c.rest.now; end = c.end } };
}

impl<'s, 'a> Cursor<'s, 'a> {
    /// Before these tokens, behind which stands no other for the given cause.
    pub fn new(rest: &'s [Token<'a>], end: DataFaultKind) -> Self
        ensures { result ≡ record { rest = rest.now; end = end } }
    {
        Cursor { rest, end }
    }

    /// The tokens that are left.
    pub fn rest(&self) -> &'s [Token<'a>]
        ensures { result.now ≡ self.now.rest }
    {
        self.rest
    }

    /// How many tokens are left.
    pub fn left(&self) -> usize
        ensures { result ≡ length self.now.rest }
    {
        self.rest.len()
    }

    /// The kind of the next token.
    #[tactic(auto, unfolding(crate::specs::Input::kind))]
    pub fn peek(&self) -> Option<TokenKind>
        ensures { result ≡ spec.kind self.now }
    {
        match self.rest {
            [] => None,
            [first, ..] => Some(first.kind()),
        }
    }

    /// The kind of the token behind the next.
    #[tactic(auto, unfolding(crate::specs::Input::kind, crate::specs::Input::next))]
    pub fn peek_second(&self) -> Option<TokenKind>
        ensures { result ≡ spec.kind (spec.next self.now) }
    {
        match self.rest {
            [_, second, ..] => Some(second.kind()),
            _ => None,
        }
    }

    /// The next token's text; none where there is no token.
    #[tactic(auto, unfolding(crate::specs::Input::spelling))]
    pub fn spelling(&self) -> &'a str
        ensures { result.now ≡ spec.spelling self.now }
    {
        match self.rest {
            [] => "",
            [first, ..] => first.text(),
        }
    }

    /// The next token is of this kind.
    #[tactic(auto, unfolding(crate::specs::Input::sees))]
    pub fn sees(&self, kind: TokenKind) -> bool
        ensures { result ≡ spec.sees kind self.now }
    {
        is_kind(kind, self.peek())
    }

    /// `(tr)` and a colon come next, without quotes.
    #[tactic(auto, unfolding(crate::specs::Input::sees_transposition))]
    pub fn sees_transposition(&self) -> bool
        ensures { result ≡ spec.sees_transposition self.now }
    {
        match self.rest {
            [open, word, close, colon, ..] => {
                is_kind(TokenKind::OpenParenthesis, Some(open.kind()))
                    && (is_kind(TokenKind::Name, Some(word.kind()))
                        && (word.text() == "tr"
                            && (is_kind(TokenKind::CloseParenthesis, Some(close.kind()))
                                && is_kind(TokenKind::Colon, Some(colon.kind())))))
            }
            _ => false,
        }
    }

    /// The line of the next token; `last` where there is none.
    #[tactic(auto, unfolding(crate::specs::Input::line))]
    pub fn line(&self, last: usize) -> usize
        ensures { result ≡ spec.line last self.now }
    {
        match self.rest {
            [] => last,
            [first, ..] => first.line(),
        }
    }

    /// Why no rule reads the next token.
    #[tactic(auto, unfolding(crate::specs::Input::refusal))]
    pub fn refuse(&self) -> DataError
        ensures { result ≡ DataError.Fault (spec.refusal self.now) }
    {
        match self.rest {
            [] => DataError::Fault(self.end),
            [_, ..] => DataError::Fault(DataFaultKind::BadForm),
        }
    }

    // What is wrong where the subscripts of a member are wanting: a bad token comes next, or the dimension is another.
    #[tactic(auto, unfolding(crate::specs::Input::wanting))]
    pub(crate) fn wanting(&self) -> DataFaultKind
        ensures { result ≡ spec.wanting self.now }
    {
        match self.rest {
            [_, ..] => DataFaultKind::WrongDimension,
            [] => match self.end {
                DataFaultKind::Unended => DataFaultKind::WrongDimension,
                end => end,
            },
        }
    }

    /// Goes behind the next token, whatever it is, and gives its text.
    #[tactic(auto, unfolding(crate::specs::Input::spelling, crate::specs::Input::next))]
    pub fn take(&mut self) -> &'a str
        ensures text { result.now ≡ spec.spelling self.old }
        ensures next { self.new ≡ spec.next self.old }
    {
        match self.rest {
            [] => "",
            [first, rest @ ..] => {
                self.rest = rest;
                first.text()
            }
        }
    }

    /// Goes behind the next token if it is of this kind, and tells whether it is.
    #[tactic(auto, unfolding(crate::specs::Rules::after))]
    pub fn eat(&mut self, kind: TokenKind) -> bool
        ensures found { result ≡ spec.sees kind self.old }
        ensures after { self.new ≡ rules.after kind self.old }
    {
        let found = self.sees(kind);
        if found {
            self.take();
        }
        found
    }

    /// Goes behind the next token, which must be of this kind.
    #[tactic(auto, unfolding(crate::specs::Rules::expect))]
    pub fn expect(&mut self, kind: TokenKind) -> Result<(), DataError>
        ensures { Reads (rules.expect kind self.old) result self.new }
    {
        if self.sees(kind) {
            self.take();
            Ok(())
        } else {
            Err(self.refuse())
        }
    }
}
