// What the first token of a statement announces.
ghost use Rattle.std.specs.Prelude.{◌≡◌};
ghost use Rattle.gmpl_words.specs.Statements as spec;

use gmpl_token::TokenKind;

/// What a statement begins with.
#[derive(Clone, Copy, Debug, PartialEq, Eq)]
pub enum Beginning {
    Set,
    Param,
    Var,
    /// `s.t.`
    SubjectTo,
    /// `subject` or `subj`, which `to` follows.
    Subject,
    Minimize,
    Maximize,
    Table,
    Solve,
    Check,
    Display,
    Printf,
    For,
    /// Another name: a constraint's.
    Name,
    /// No name.
    Nothing,
}

// A statement that a `for` may hold, or a name that is no statement's word.
fn action_or_name(text: &str) -> Beginning
    ensures { result ≡ spec.action_or_name text.now }
{
    match text {
        "check" => Beginning::Check,
        "display" => Beginning::Display,
        "printf" => Beginning::Printf,
        "for" => Beginning::For,
        "table" => Beginning::Table,
        _ => Beginning::Name,
    }
}

fn name_beginning(text: &str) -> Beginning
    ensures { result ≡ spec.name_beginning text.now }
{
    match text {
        "set" => Beginning::Set,
        "param" => Beginning::Param,
        "var" => Beginning::Var,
        "subject" => Beginning::Subject,
        "subj" => Beginning::Subject,
        "minimize" => Beginning::Minimize,
        "maximize" => Beginning::Maximize,
        "solve" => Beginning::Solve,
        _ => action_or_name(text),
    }
}

/// What a statement begins with whose first token is of this kind and has this text.
pub fn begins_with(kind: Option<TokenKind>, text: &str) -> Beginning
    ensures { result ≡ spec.begins_with kind text.now }
{
    match kind {
        Some(TokenKind::SubjectTo) => Beginning::SubjectTo,
        Some(TokenKind::Name) => name_beginning(text),
        _ => Beginning::Nothing,
    }
}

/// The name behind `subject` and `subj`.
pub fn is_to(text: &str) -> bool
    ensures { result ≡ spec.is_to text.now }
{
    text == "to"
}

/// The name before the driver of a table that is read.
pub fn is_input(text: &str) -> bool
    ensures { result ≡ spec.is_input text.now }
{
    text == "IN"
}

/// The name before the driver of a table that is written.
pub fn is_output(text: &str) -> bool
    ensures { result ≡ spec.is_output text.now }
{
    text == "OUT"
}

/// The name of the statement that ends a model.
pub fn is_end(text: &str) -> bool
    ensures { result ≡ spec.is_end text.now }
{
    text == "end"
}

/// The name of the statement behind which a data section begins.
pub fn is_data(text: &str) -> bool
    ensures { result ≡ spec.is_data text.now }
{
    text == "data"
}
