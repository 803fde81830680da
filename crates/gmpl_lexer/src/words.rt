// Delimiters and reserved names.
ghost use Rattle.std.specs.Prelude.{◌≡◌, ◌≤◌, length, IfSome};
ghost use Rattle.gmpl_lexer.specs.Words.{long_delimiter, bracket, short_delimiter, name_kind};

use gmpl_token::TokenKind;

// The delimiter of two bytes with which a text begins.
pub(crate) fn long_delimiter(text: &[u8]) -> Option<TokenKind>
    ensures value { result ≡ long_delimiter text.now }
    ensures within { IfSome result (λ _. 2 ≤ length text.now) }
{
    if text.starts_with(b"**") {
        Some(TokenKind::Power)
    } else if text.starts_with(b"..") {
        Some(TokenKind::DotDot)
    } else if text.starts_with(b":=") {
        Some(TokenKind::Assign)
    } else if text.starts_with(b"<=") {
        Some(TokenKind::AtMost)
    } else if text.starts_with(b">=") {
        Some(TokenKind::AtLeast)
    } else if text.starts_with(b"<>") {
        Some(TokenKind::Unequal)
    } else if text.starts_with(b"!=") {
        Some(TokenKind::Unequal)
    } else if text.starts_with(b"==") {
        Some(TokenKind::Equal)
    } else if text.starts_with(b"&&") {
        Some(TokenKind::And)
    } else if text.starts_with(b"||") {
        Some(TokenKind::Or)
    } else if text.starts_with(b"<-") {
        Some(TokenKind::Arrow)
    } else {
        None
    }
}

// The brackets, and what parts a list.
fn bracket(b: u8) -> Option<TokenKind>
    ensures { result ≡ bracket b }
{
    if b == b'(' {
        Some(TokenKind::OpenParenthesis)
    } else if b == b')' {
        Some(TokenKind::CloseParenthesis)
    } else if b == b'[' {
        Some(TokenKind::OpenBracket)
    } else if b == b']' {
        Some(TokenKind::CloseBracket)
    } else if b == b'{' {
        Some(TokenKind::OpenBrace)
    } else if b == b'}' {
        Some(TokenKind::CloseBrace)
    } else if b == b'.' {
        Some(TokenKind::Point)
    } else if b == b',' {
        Some(TokenKind::Comma)
    } else if b == b':' {
        Some(TokenKind::Colon)
    } else if b == b';' {
        Some(TokenKind::Semicolon)
    } else if b == b'~' {
        Some(TokenKind::Tilde)
    } else {
        None
    }
}

// The delimiter of one byte.
pub(crate) fn short_delimiter(b: u8) -> Option<TokenKind>
    ensures { result ≡ short_delimiter b }
{
    if b == b'+' {
        Some(TokenKind::Plus)
    } else if b == b'-' {
        Some(TokenKind::Minus)
    } else if b == b'*' {
        Some(TokenKind::Times)
    } else if b == b'/' {
        Some(TokenKind::Over)
    } else if b == b'^' {
        Some(TokenKind::Power)
    } else if b == b'&' {
        Some(TokenKind::Join)
    } else if b == b'<' {
        Some(TokenKind::Below)
    } else if b == b'>' {
        Some(TokenKind::Above)
    } else if b == b'=' {
        Some(TokenKind::Equal)
    } else if b == b'!' {
        Some(TokenKind::Not)
    } else {
        bracket(b)
    }
}

// The kind of a name, which may be reserved.
pub(crate) fn name_kind(text: &[u8]) -> TokenKind
    ensures { result ≡ name_kind text.now }
{
    if text == b"and".as_slice() {
        TokenKind::And
    } else if text == b"by".as_slice() {
        TokenKind::By
    } else if text == b"cross".as_slice() {
        TokenKind::Cross
    } else if text == b"diff".as_slice() {
        TokenKind::Diff
    } else if text == b"div".as_slice() {
        TokenKind::Div
    } else if text == b"else".as_slice() {
        TokenKind::Else
    } else if text == b"if".as_slice() {
        TokenKind::If
    } else if text == b"in".as_slice() {
        TokenKind::In
    } else if text == b"inter".as_slice() {
        TokenKind::Inter
    } else if text == b"less".as_slice() {
        TokenKind::Less
    } else if text == b"mod".as_slice() {
        TokenKind::Mod
    } else if text == b"not".as_slice() {
        TokenKind::Not
    } else if text == b"or".as_slice() {
        TokenKind::Or
    } else if text == b"symdiff".as_slice() {
        TokenKind::Symdiff
    } else if text == b"then".as_slice() {
        TokenKind::Then
    } else if text == b"union".as_slice() {
        TokenKind::Union
    } else if text == b"within".as_slice() {
        TokenKind::Within
    } else {
        TokenKind::Name
    }
}
