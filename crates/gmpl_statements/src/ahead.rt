// What is told of the next token, and of the end of the tokens.
ghost use Rattle.std.specs.Prelude.{◌≡◌};
ghost use Rattle.gmpl_input.specs.Input.{behind};
ghost use Rattle.gmpl_words.specs.Statements.{is_end as is_end_word, is_data as is_data_word};
ghost use Rattle.gmpl_statements.specs.Statements as spec;

use gmpl_input::{Cursor, is_kind};
use gmpl_syntax::{Statement, SyntaxFault, SyntaxFaultKind};
use gmpl_token::{LexFault, LexFaultKind, Token, TokenKind};
use gmpl_words::{is_data, is_end};

// ---- where the tokens end

fn fault_kind(kind: LexFaultKind) -> SyntaxFaultKind
    ensures { result ≡ spec.fault_kind kind }
{
    match kind {
        LexFaultKind::BadByte => SyntaxFaultKind::BadByte,
        LexFaultKind::UnendedString => SyntaxFaultKind::UnendedString,
        LexFaultKind::UnendedComment => SyntaxFaultKind::UnendedComment,
        LexFaultKind::TooWide => SyntaxFaultKind::TooWide,
    }
}

pub(crate) fn end_of(fault: Option<LexFault>) -> SyntaxFaultKind
    ensures { result ≡ spec.end_of fault }
{
    match fault {
        Some(fault) => fault_kind(fault.kind),
        None => SyntaxFaultKind::Unended,
    }
}

// A bad token where the statement of this number begins.
pub(crate) fn unread(number: usize, fault: Option<LexFault>) -> Option<SyntaxFault>
    ensures { result ≡ spec.unread number fault }
{
    match fault {
        Some(fault) => Some(SyntaxFault {
            statement: number,
            line: fault.line,
            kind: fault_kind(fault.kind),
        }),
        None => None,
    }
}

// ---- the next token

pub(crate) fn line_at(tokens: &[Token]) -> usize
    ensures { result ≡ spec.line_at tokens.now }
{
    match tokens {
        [] => 0,
        [first, ..] => first.line(),
    }
}

// Where the token behind the next stands.
pub(crate) fn second_place(tokens: &[Token]) -> usize
    ensures { result ≡ spec.place_at (behind tokens.now) }
{
    match tokens {
        [_, second, ..] => second.at(),
        _ => 0,
    }
}

#[tactic(auto, unfolding(crate::specs::Statements::is_last))]
pub(crate) fn is_end_statement(tokens: &Cursor<'_>) -> bool
    ensures { result ≡ spec.is_last is_end_word tokens.now }
{
    tokens.sees(TokenKind::Name)
        && (is_end(tokens.spelling()) && is_kind(TokenKind::Semicolon, tokens.peek_second()))
}

#[tactic(auto, unfolding(crate::specs::Statements::is_last))]
pub(crate) fn is_data_statement(tokens: &Cursor<'_>) -> bool
    ensures { result ≡ spec.is_last is_data_word tokens.now }
{
    tokens.sees(TokenKind::Name)
        && (is_data(tokens.spelling()) && is_kind(TokenKind::Semicolon, tokens.peek_second()))
}

pub(crate) fn is_solve(statement: &Statement) -> bool
    ensures { result ≡ spec.is_solve statement.now }
{
    match statement {
        Statement::Solve => true,
        _ => false,
    }
}
