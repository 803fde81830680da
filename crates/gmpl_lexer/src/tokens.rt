// The tokens of a model text, from left to right.
ghost use Rattle.std.specs.Prelude.{◌≡◌, ◌≤◌, Ok, Err, length, IfOk, IfErr};
ghost use Rattle.std.specs.List.{count_by};
ghost use Rattle.fraction.specs.Literal.{read_of};
ghost use Rattle.gmpl_lexer.specs.Bytes.{is_line_feed};
ghost use Rattle.gmpl_lexer.specs.Tokens.{begins_behind, number_text, text_by_kind, token_text, tokens_of};

use crate::bytes::is_before_name;
use crate::lexeme::{LexemeKind, lexeme_at};
use fraction::{Frac, ReadFault};
use gmpl_token::{LexFault, LexFaultKind, Token, TokenKind, Tokens};
use model_text::after;
use std::alloc::{AllocError, Global};

// A statement may begin behind a token of this kind.
fn begins_behind(kind: TokenKind) -> bool
    ensures { result ≡ begins_behind kind }
{
    match kind {
        TokenKind::Semicolon => true,
        TokenKind::CloseBrace => true,
        _ => false,
    }
}

fn line_feeds(bytes: &[u8]) -> usize
    ensures value { result ≡ count_by is_line_feed bytes.now }
    ensures within { result ≤ length bytes.now }
{
    bytes.iter().filter(|b| **b == b'\n').count()
}

// The text of a number, which must fit, with no letter right after it.
fn number_text<'a>(text: &'a str, rest: &[u8]) -> Result<&'a str, LexFaultKind>
    ensures ok { IfOk result (λ t. number_text (read_of text.now) text.now rest.now ≡ Ok t.now) }
    ensures err { IfErr result (λ fault. number_text (read_of text.now) text.now rest.now ≡ Err fault) }
{
    match Frac::read(text) {
        Err(ReadFault::TooWide) => return Err(LexFaultKind::TooWide),
        Err(ReadFault::NotANumber) => {}
        Ok(_) => {}
    }
    if is_before_name(rest) {
        Err(LexFaultKind::BadByte)
    } else {
        Ok(text)
    }
}

// The text of a token of this kind, or what is wrong with it.
fn text_by_kind<'a>(kind: TokenKind, text: &'a str, rest: &[u8]) -> Result<&'a str, LexFaultKind>
    ensures ok { IfOk result (λ t. text_by_kind kind text.now rest.now ≡ Ok t.now) }
    ensures err { IfErr result (λ fault. text_by_kind kind text.now rest.now ≡ Err fault) }
{
    match kind {
        TokenKind::NumericLiteral => number_text(text, rest),
        _ => Ok(text),
    }
}

// The text of a token of this kind and of these bytes, or what is wrong with it.
fn token_text<'a>(kind: TokenKind, bytes: &'a [u8], rest: &[u8]) -> Result<&'a str, LexFaultKind>
    ensures ok { IfOk result (λ t. token_text kind bytes.now rest.now ≡ Ok t.now) }
    ensures err { IfErr result (λ fault. token_text kind bytes.now rest.now ≡ Err fault) }
{
    match str::from_utf8(bytes) {
        Ok(text) => text_by_kind(kind, text, rest),
        Err(_) => Err(LexFaultKind::BadByte),
    }
}

/// The tokens of a model text, up to its end or to the first place where none can stand.
pub fn read_tokens(alloc: Global, text: &[u8]) -> Result<Tokens<'_>, AllocError>
    ensures tokens { IfOk result (λ tokens. tokens ≡ tokens_of text.now) }
{
    let mut items = Vec::new(alloc);
    let mut begins = true;
    let mut line: usize = 1;
    let mut rest = text;
    while !rest.is_empty() {
        let at = text.len() - rest.len();
        let lexeme = lexeme_at(begins, rest);
        let bytes = &rest[..lexeme.size];
        rest = after(rest, lexeme.size);
        match lexeme.kind {
            LexemeKind::Gap => line += line_feeds(bytes),
            LexemeKind::Token(kind) => match token_text(kind, bytes, rest) {
                Ok(text) => {
                    items.push(Token::new(kind, at, line, text))?;
                    begins = begins_behind(kind);
                }
                Err(kind) => {
                    return Ok(Tokens::from_vec(items, Some(LexFault { at, line, kind })));
                }
            },
            LexemeKind::Bad(kind) => {
                return Ok(Tokens::from_vec(items, Some(LexFault { at, line, kind })));
            }
        }
    }
    Ok(Tokens::from_vec(items, None))
}
