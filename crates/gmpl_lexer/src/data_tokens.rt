// The tokens of a data section, from left to right.
ghost use Rattle.std.specs.Prelude.{◌≡◌, ◌≤◌, Ok, Err, length, IfOk, IfErr};
ghost use Rattle.std.specs.List.{count_by};
ghost use Rattle.fraction.specs.Literal.{read_of};
ghost use Rattle.gmpl_lexer.specs.Bytes.{is_line_feed};
ghost use Rattle.gmpl_lexer.specs.DataTokens.{symbol_kind, kind_by, token_kind, data_tokens};

use crate::LexemeKind;
use crate::symbols::data_lexeme_at;
use fraction::{Frac, ReadFault};
use gmpl_token::{LexFault, LexFaultKind, Token, TokenKind, Tokens};
use model_text::after;
use std::alloc::{AllocError, Global};

fn line_feeds(bytes: &[u8]) -> usize
    ensures value { result ≡ count_by is_line_feed bytes.now }
    ensures within { result ≤ length bytes.now }
{
    bytes.iter().filter(|b| **b == b'\n').count()
}

// A bare symbol that is a number must fit; any other is a string.
fn symbol_kind(text: &str) -> Result<TokenKind, LexFaultKind>
    ensures { result ≡ symbol_kind (read_of text.now) }
{
    match Frac::read(text) {
        Err(ReadFault::TooWide) => Err(LexFaultKind::TooWide),
        Err(ReadFault::NotANumber) => Ok(TokenKind::Name),
        Ok(_) => Ok(TokenKind::NumericLiteral),
    }
}

// The kind of a token of this text, or what is wrong with it.
fn kind_by(kind: TokenKind, text: &str) -> Result<TokenKind, LexFaultKind>
    ensures { result ≡ kind_by kind text.now }
{
    match kind {
        TokenKind::Name => symbol_kind(text),
        _ => Ok(kind),
    }
}

// A kind with the text that has it.
#[derive(Clone, Copy)]
struct KindAndText<'a> {
    kind: TokenKind,
    text: &'a str,
}

// The kind and the text of a token of these bytes, or what is wrong with it.
fn token_kind(kind: TokenKind, bytes: &[u8]) -> Result<KindAndText<'_>, LexFaultKind>
    ensures ok { IfOk result (λ s. token_kind kind bytes.now ≡ Ok s.kind) }
    ensures text { IfOk result (λ s. s.text.now ≡ bytes.now) }
    ensures err { IfErr result (λ fault. token_kind kind bytes.now ≡ Err fault) }
{
    match str::from_utf8(bytes) {
        Ok(text) => {
            let kind = kind_by(kind, text)?;
            Ok(KindAndText { kind, text })
        }
        Err(_) => Err(LexFaultKind::BadByte),
    }
}

/// The tokens of the data that begin behind so many bytes of a text, up to its end or to the first place where none can stand.
/// Their places are counted from the text's start, and their lines too. A bare symbol is a `Name` where it is a string, and a
/// `NumericLiteral` where it is a number, with its sign.
pub fn read_data_tokens(alloc: Global, text: &[u8], start: usize) -> Result<Tokens<'_>, AllocError>
    ensures tokens { IfOk result (λ tokens. tokens ≡ data_tokens start text.now) }
{
    let mut items = Vec::new(alloc);
    if start > text.len() {
        return Ok(Tokens::from_vec(items, None));
    }
    let mut line = 1 + line_feeds(&text[..start]);
    let mut rest = after(text, start);
    while !rest.is_empty() {
        let at = text.len() - rest.len();
        let lexeme = data_lexeme_at(rest);
        let bytes = &rest[..lexeme.size];
        rest = after(rest, lexeme.size);
        match lexeme.kind {
            LexemeKind::Gap => line += line_feeds(bytes),
            LexemeKind::Token(kind) => match token_kind(kind, bytes) {
                Ok(token) => items.push(Token::new(token.kind, at, line, token.text))?,
                Err(kind) => {
                    return Ok(Tokens::from_vec(items, Some(LexFault { at, line, kind })));
                }
            },
            LexemeKind::Bad(kind) => {
                return Ok(Tokens::from_vec(items, Some(LexFault { at, line, kind })));
            }
        }
    }
    Ok(Tokens::from_vec(items, None))
}
