// Data texts with their tokens, or with the first place where none can stand.
use crate::rows::{Subject, check};
use gmpl_lexer::read_data_tokens;
use gmpl_token::{LexFault, LexFaultKind, Token, TokenKind, Tokens};
use std::alloc::{AllocError, Global};
use std::test::Fail;

// A row has its tokens and its text, in which `$` is a line feed. A bare string is `w(..)`, a number `d(..)` and a string in
// quotes `s(..)`, delimiters are as they are written, and a fault is its kind behind `!`, its line and its place.
const TOKENS: &str = "\
w(a-b.c) w(_x) d(1) => a-b.c _x 1
d(-1) d(+2.5) d(1e3) d(.5) d(5.) => -1 +2.5 1e3 .5 5.
w(+) w(-) w(.) w(..) w(1..3) w(1e) w(e1) => + - . .. 1..3 1e e1
w(2x) w(1-1) w(--1) d(-.5e-1) => 2x 1-1 --1 -.5e-1
w(p) := d(1) , d(2) ; => p:=1,2;
w(a) : w(b) := d(1) => a:b:=1
( w(1-2) , * ) [ * ] => (1-2,*)[*]
s('a b') s(\"c\"\"d\") s('it''s') => 'a b' \"c\"\"d\" 'it''s'
w(a) w(b) => a # comment : ;$b
w(a) w(b) => a/* 1 $ 2 */b
w(data) ; w(end) ; => data; end;
!TooWide 1 0 => 1e99
!TooWide 1 0 => -1e99
w(1e99x) => 1e99x
w(a) !BadByte 1 2 => a {
w(a) !BadByte 2 2 => a${
w(a) !BadByte 1 1 => a=1
w(a) !BadByte 1 2 => a / b
!UnendedString 1 0 => 'a$'
w(a) !UnendedComment 2 2 => a$/* b
";

// Data that begin behind so many bytes of a text: each token's line and place are those of the whole; `-` stands for no token.
const PLACES: &str = "\
3:13 3:17 3:19 3:22 3:23 => 12 var x;$data;$set S := a;
- => 3 ab
";

fn word_text(kind: TokenKind) -> &'static str {
    match kind {
        TokenKind::Name => "w",
        TokenKind::NumericLiteral => "d",
        TokenKind::StringLiteral => "s",
        _ => "",
    }
}

fn token_text(alloc: Global, token: &Token) -> Result<String, AllocError> {
    let letter = word_text(token.kind());
    if letter.is_empty() {
        token.text().to_string(alloc)
    } else {
        format!(in alloc; "{letter}({})", token.text())
    }
}

fn fault_text(alloc: Global, fault: LexFault) -> Result<String, AllocError> {
    let kind = match fault.kind {
        LexFaultKind::BadByte => "BadByte",
        LexFaultKind::UnendedString => "UnendedString",
        LexFaultKind::UnendedComment => "UnendedComment",
        LexFaultKind::TooWide => "TooWide",
    };
    format!(in alloc; "!{kind} {} {}", fault.line, fault.at)
}

fn push_word(answer: &mut String, word: &str) -> Result<(), AllocError> {
    if !answer.is_empty() {
        answer.push(' ')?;
    }
    answer.push_str(word)
}

fn token_words(alloc: Global, tokens: &[Token]) -> Result<String, AllocError> {
    let mut answer = String::new(alloc);
    for token in tokens {
        let word = token_text(alloc, token)?;
        push_word(&mut answer, word.as_str())?;
    }
    Ok(answer)
}

fn answer_text(alloc: Global, tokens: &Tokens) -> Result<String, AllocError> {
    let mut answer = token_words(alloc, tokens.as_slice())?;
    if let Some(fault) = tokens.fault() {
        let word = fault_text(alloc, fault)?;
        push_word(&mut answer, word.as_str())?;
    }
    Ok(answer)
}

/// The tokens of a text, with its fault.
pub(crate) fn tokens_word(alloc: Global, text: &str) -> Result<String, AllocError> {
    let tokens = read_data_tokens(alloc, text.as_bytes(), 0)?;
    answer_text(alloc, &tokens)
}

#[test]
fn tokens_of_texts(rt: HostRuntime) -> Result<(), Fail> {
    check(&rt, rt.alloc(), &Subject::Tokens, TOKENS)
}

fn place_text(alloc: Global, token: &Token) -> Result<String, AllocError> {
    format!(in alloc; "{}:{}", token.line(), token.at())
}

fn place_words(alloc: Global, tokens: &[Token]) -> Result<String, AllocError> {
    let mut places = String::new(alloc);
    for token in tokens {
        let place = place_text(alloc, token)?;
        push_word(&mut places, place.as_str())?;
    }
    if places.is_empty() {
        places.push('-')?;
    }
    Ok(places)
}

/// The places of the tokens behind so many bytes of a text.
pub(crate) fn places_word(alloc: Global, asked: &str) -> Result<String, AllocError> {
    let (start, text) = asked.split_once(' ').unwrap_or((asked, ""));
    let start = start.parse::<usize>().unwrap_or(0);
    let tokens = read_data_tokens(alloc, text.as_bytes(), start)?;
    place_words(alloc, tokens.as_slice())
}

#[test]
fn tokens_behind_a_part(rt: HostRuntime) -> Result<(), Fail> {
    check(&rt, rt.alloc(), &Subject::Places, PLACES)
}
