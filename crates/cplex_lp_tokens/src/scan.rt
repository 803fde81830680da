// The tokens of a line, from left to right.
ghost use Rattle.std.specs.Prelude.{◌≡◌, ◌++◌, ◌<◌, [], length, IfOk};
ghost use Rattle.cplex_lp_tokens.specs.Tokens.{with_lexeme, tokens_after};

use crate::lexeme::lexeme_at;
use crate::lines::kept_text;
use crate::token::{Token, TokenKind};
use model_text::after;
use std::alloc::AllocError;

// The most tokens that are read at a time.
const MOST: usize = 256;

// The first tokens of a line of this number, and what is left of it. Two are there, or all.
pub(crate) fn scan<'a>(
    tokens: &mut Vec<Token<'a>>,
    line: usize,
    text: &'a [u8],
) -> Result<&'a [u8], AllocError>
    requires { tokens.old.items ≡ [] }
    ensures tokens { IfOk result (λ rest. tokens_after line 0 text.now ≡ tokens.new.items ++ tokens_after line 0 rest.now) }
    ensures two { IfOk result (λ rest. length tokens.new.items < 2 → rest.now ≡ []) }
    ensures less { IfOk result (λ rest. 0 < length text.now → length rest.now < length text.now) }
{
    let mut rest = text;
    while !rest.is_empty() && tokens.len() < MOST {
        let lexeme = lexeme_at(rest);
        push_lexeme(tokens, line, lexeme.kind, &rest[..lexeme.size])?;
        rest = after(rest, lexeme.size);
    }
    Ok(rest)
}

// One more token of these bytes; a blank is none.
fn push_lexeme<'a>(
    tokens: &mut Vec<Token<'a>>,
    line: usize,
    kind: Option<TokenKind>,
    bytes: &'a [u8],
) -> Result<(), AllocError>
    ensures { IfOk result (λ _. tokens.new.items ≡ tokens.old.items ++ with_lexeme line kind bytes.now []) }
{
    if let Some(kind) = kind {
        tokens.push(Token::new(line, kind, kept_text(bytes)))?;
    }
    Ok(())
}
