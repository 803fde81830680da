// Model texts with their tokens, or with the first place where none can stand.
use crate::rows::{Subject, check, split};
use gmpl_lexer::read_tokens;
use gmpl_token::{LexFault, LexFaultKind, Token, TokenKind};
use std::alloc::{AllocError, Global};
use std::process::Abort;
use std::test::Fail;

// ---- tables: tokens, and the text, in which `$` is a line feed, `?` a carriage return and `%` a tab

// A name as n(..), a number as l(..), a text in quotes as s(..), `s.t.` where a statement begins as st; every other token as
// it is written where it has one spelling, and of two spellings as the first of them in the language. A fault is its kind
// after `!`.
const TOKENS: &str = "\
n(param) n(p1) := l(1) ; => param p1:=1;
 => %$# nothing? $/* */
n(_a) n(b_) n(C9d) => _a b_ C9d
n(x) n(y) => x%y?$
n(x) n(y) => x# { @ \" $y
n(x) n(y) => x/* ; @ $ \" /* // ** */y
n(x) => x/**/
n(x) * / n(y) => x * / y
n(x) => x # to the end
and by cross diff div else if in inter less mod not or symdiff then union within => and by cross diff div else if in inter less mod not or symdiff then union within
n(And) n(andx) n(ino) n(_in) n(forall) n(data) n(end) => And andx ino _in forall data end
** ** .. := <= >= <> <> = = & and or <- => ** ^ .. := <= >= <> != == = & && || <-
+ - * / < > not . , : ; ( ) [ ] { } ~ => + - * / < > ! . , : ; ( ) [ ] { } ~
** * <- n(x) => ***<-x
< = > n(x) => < = > x
<> = >= = : := => <>=>==::=
<- not = <> - => <-! = <>-
and & or => &&&||
.. . .. l(.5) => ... ...5
l(1) .. l(3) => 1..3
l(1.) .. l(.3) => 1. .. .3
l(1.5) l(.5) l(5.) l(0) l(007) => 1.5 .5 5. 0 007
l(1.5) . l(2.5) => 1.5 . 2.5
l(1.5) .. l(2) => 1.5..2
l(1e5) l(1E5) l(1.e+5) l(.1e-5) => 1e5 1E5 1.e+5 .1e-5
l(1e+05) + l(2) => 1e+05+2
- l(1) - + l(2) => -1-+2
n(x1) l(2) => x1 2
l(0e999999999999) => 0e999999999999
l(170141183460469231731687303715884105727) => 170141183460469231731687303715884105727
s(\"\") s('') s(\"a b\") s('a b') => \"\" '' \"a b\" 'a b'
s(\"it's\") s('say \"x\"') => \"it's\" 'say \"x\"'
s(\"a\"\"b\") s('c''d') s(\"\"\"\") s('''') => \"a\"\"b\" 'c''d' \"\"\"\" ''''
s('a') s(\"b\") => 'a'\"b\"
s(\"# /* ; @\") n(x) => \"# /* ; @\"x
s(\"\u{e9}\u{4e2d}\") => \"\u{e9}\u{4e2d}\"
st n(r) : n(x) ; st n(q) => s.t. r: x; s.t. q
n(x) ; st => x;$# and$/* so */ s.t.
{ } st n(r) => { } s.t. r
n(x) n(s) . n(t) . => x s.t.
n(s) . n(t) n(r) => s.t r
n(s) . n(t) . => s. t.
n(s) . n(t) . => s .t.
n(s) . => s.
";

// The first fault, with its line and how many bytes stand before it, after the tokens before it.
const FAULTS: &str = "\
!BadByte 1 0 => @
n(x) !BadByte 1 2 => x @ y
n(x) n(y) !BadByte 2 3 => x$y`
n(x) !BadByte 1 1 => x|y
n(x) !BadByte 1 1 => x\\
n(x) !BadByte 1 1 => x\u{e9}
n(x) !BadByte 1 1 => x?y
n(x) !BadByte 1 1 => x?
n(x) !BadByte 1 1 => x??$
n(x) !BadByte 2 3 => x?$?y
!BadByte 1 0 => 12x
!BadByte 1 0 => 1e
!BadByte 1 0 => 1.5_
!BadByte 1 0 => 1e+
!BadByte 1 0 => 0x1
l(1) .. !BadByte 1 3 => 1..3a
!TooWide 1 0 => 1e99
!TooWide 1 0 => 1e99x
!TooWide 1 0 => 1e-39
!TooWide 1 0 => 170141183460469231731687303715884105728
n(x) !TooWide 2 2 => x$1e999999999999
!UnendedString 1 0 => \"
!UnendedString 1 0 => '
!UnendedString 1 0 => \"x'
!UnendedString 1 0 => \"x\"\"
!UnendedString 1 0 => \"\"\"
n(x) !UnendedString 2 2 => x$'a$b'
!UnendedString 1 0 => \"x?$\"
!UnendedComment 1 0 => /*
!UnendedComment 1 0 => /*/
!UnendedComment 1 0 => /**
!UnendedComment 1 0 => /* * / $ *
n(x) ; !UnendedComment 2 4 => x;$ /* y$$ /
n(x) ; !UnendedComment 3 18 => x;# /*$/* a$ b */ /*$ \"
";

// ---- an answer in the words of the tables

// A token that has one spelling, or the first one.
fn delimiter_text(kind: TokenKind) -> &'static str {
    match kind {
        TokenKind::Power => "**",
        TokenKind::DotDot => "..",
        TokenKind::Assign => ":=",
        TokenKind::AtMost => "<=",
        TokenKind::AtLeast => ">=",
        TokenKind::Unequal => "<>",
        TokenKind::Arrow => "<-",
        TokenKind::Plus => "+",
        TokenKind::Minus => "-",
        TokenKind::Times => "*",
        TokenKind::Over => "/",
        TokenKind::Join => "&",
        TokenKind::Below => "<",
        TokenKind::Above => ">",
        TokenKind::Equal => "=",
        TokenKind::Point => ".",
        TokenKind::Comma => ",",
        TokenKind::Colon => ":",
        TokenKind::Semicolon => ";",
        TokenKind::OpenParenthesis => "(",
        TokenKind::CloseParenthesis => ")",
        TokenKind::OpenBracket => "[",
        TokenKind::CloseBracket => "]",
        TokenKind::OpenBrace => "{",
        TokenKind::CloseBrace => "}",
        TokenKind::Tilde => "~",
        kind => reserved_text(kind),
    }
}

fn reserved_text(kind: TokenKind) -> &'static str {
    match kind {
        TokenKind::SubjectTo => "st",
        TokenKind::And => "and",
        TokenKind::By => "by",
        TokenKind::Cross => "cross",
        TokenKind::Diff => "diff",
        TokenKind::Div => "div",
        TokenKind::Else => "else",
        TokenKind::If => "if",
        TokenKind::In => "in",
        TokenKind::Inter => "inter",
        TokenKind::Less => "less",
        TokenKind::Mod => "mod",
        TokenKind::Not => "not",
        TokenKind::Or => "or",
        TokenKind::Symdiff => "symdiff",
        TokenKind::Then => "then",
        TokenKind::Union => "union",
        TokenKind::Within => "within",
        _ => "?",
    }
}

fn token_text(alloc: Global, token: &Token) -> Result<String, AllocError> {
    let text = token.text();
    match token.kind() {
        TokenKind::Name => format!(in alloc; "n({text})"),
        TokenKind::NumericLiteral => format!(in alloc; "l({text})"),
        TokenKind::StringLiteral => format!(in alloc; "s({text})"),
        kind => delimiter_text(kind).to_string(alloc),
    }
}

fn fault_text(alloc: Global, fault: LexFault) -> Result<String, AllocError> {
    let kind = match fault.kind {
        LexFaultKind::BadByte => "BadByte",
        LexFaultKind::UnendedString => "UnendedString",
        LexFaultKind::UnendedComment => "UnendedComment",
        LexFaultKind::TooWide => "TooWide",
    };
    format!(in alloc; "!{kind} {} {}", fault.line, fault.at)
}

// One more word, behind a blank where it is not the first.
fn push_word(answer: &mut String, word: &str) -> Result<(), AllocError> {
    if !answer.is_empty() {
        answer.push(' ')?;
    }
    answer.push_str(word)
}

fn answer_text(alloc: Global, text: &[u8]) -> Result<String, AllocError> {
    let tokens = read_tokens(alloc, text)?;
    let mut answer = String::new(alloc);
    for token in tokens.as_slice() {
        push_word(&mut answer, token_text(alloc, token)?.as_str())?;
    }
    if let Some(fault) = tokens.fault() {
        push_word(&mut answer, fault_text(alloc, fault)?.as_str())?;
    }
    Ok(answer)
}

// A text as a table writes it.
fn written(alloc: Global, row: &str) -> Result<String, AllocError> {
    let mut text = String::new(alloc);
    for c in row.chars() {
        match c {
            '$' => text.push('\n')?,
            '?' => text.push('\r')?,
            '%' => text.push('\t')?,
            c => text.push(c)?,
        }
    }
    Ok(text)
}

pub(crate) fn token_row(alloc: Global, row: &str) -> Result<String, AllocError> {
    let (_, text) = split(row);
    let text = written(alloc, text)?;
    answer_text(alloc, text.as_bytes())
}

#[test]
fn tokens_of_texts(rt: HostRuntime) -> Result<(), Fail> {
    check(&rt, rt.alloc(), &Subject::Tokens, TOKENS)
}

#[test]
fn first_faults(rt: HostRuntime) -> Result<(), Fail> {
    check(&rt, rt.alloc(), &Subject::Tokens, FAULTS)
}

// A comment holds any bytes, and a string does not, ended or not. `~` is the byte 255 and `^` the byte 254.
const BYTES: &str = "\
n(x) n(y) => x # ~$/* ^ */ y
n(x) !BadByte 2 2 => x$\"~\"
n(x) !BadByte 2 3 => x$ \"~$
n(x) !BadByte 1 2 => x ~
";

fn bytes_of(alloc: Global, text: &str) -> Result<Vec<u8>, AllocError> {
    let mut bytes = Vec::new(alloc);
    for byte in text.bytes() {
        bytes.push(match byte {
            b'$' => b'\n',
            b'~' => 255,
            b'^' => 254,
            byte => byte,
        })?;
    }
    Ok(bytes)
}

pub(crate) fn byte_row(alloc: Global, row: &str) -> Result<String, AllocError> {
    let (_, text) = split(row);
    let bytes = bytes_of(alloc, text)?;
    answer_text(alloc, bytes.as_slice())
}

#[test]
fn bytes_that_are_no_text(rt: HostRuntime) -> Result<(), Fail> {
    check(&rt, rt.alloc(), &Subject::Bytes, BYTES)
}

// Where tokens stand: each with its line and how many bytes are before it.
#[test]
fn places_of_tokens(rt: HostRuntime) -> Result<(), Fail> {
    let tokens = read_tokens(rt.alloc(), b"a\n/* \n\n */ 'b' # ;\r\n\t1..c")?;
    let mut places = String::new(rt.alloc());
    for token in tokens.as_slice() {
        let place = format!(in rt.alloc(); " {}:{}", token.line(), token.at())?;
        places.push_str(place.as_str())?;
    }
    assert_eq!(rt; places.as_str(), " 1:0 4:11 5:21 5:22 5:24");
    assert!(rt; tokens.fault().is_none());
    Ok(())
}
