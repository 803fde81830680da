// Whether braces are a statement's domain.
ghost use Rattle.std.specs.Prelude.{◌≡◌};
ghost use Rattle.gmpl_input.specs.Input.{kind_at, behind};
ghost use Rattle.gmpl_words.specs.Braces as spec;

use gmpl_input::is_kind;
use gmpl_token::{Token, TokenKind};

// What stands behind the brace that closes the first one.
fn behind_braces<'s, 'a>(tokens: &'s [Token<'a>]) -> &'s [Token<'a>]
    ensures { result.now ≡ spec.behind_braces 0 tokens.now }
{
    let mut depth: usize = 0;
    let mut rest = tokens;
    while let [first, more @ ..] = rest {
        rest = more;
        if is_kind(TokenKind::OpenBrace, Some(first.kind())) {
            depth += 1;
        } else if is_kind(TokenKind::CloseBrace, Some(first.kind())) {
            if depth < 2 {
                return rest;
            }
            depth -= 1;
        }
    }
    rest
}

fn is_denial(second: Option<TokenKind>) -> bool
    ensures { result ≡ spec.is_denial second }
{
    is_kind(TokenKind::In, second) || is_kind(TokenKind::Within, second)
}

fn begins_rest(kind: Option<TokenKind>, second: Option<TokenKind>) -> bool
    ensures { result ≡ spec.begins_rest kind second }
{
    match kind {
        Some(
            TokenKind::Colon
            | TokenKind::NumericLiteral
            | TokenKind::StringLiteral
            | TokenKind::Name
            | TokenKind::OpenParenthesis
            | TokenKind::OpenBrace
            | TokenKind::If
            | TokenKind::Plus
            | TokenKind::Minus,
        ) => true,
        Some(TokenKind::Not) => !is_denial(second),
        _ => false,
    }
}

fn second_kind(tokens: &[Token]) -> Option<TokenKind>
    ensures { result ≡ kind_at (behind tokens.now) }
{
    match tokens {
        [_, second, ..] => Some(second.kind()),
        _ => None,
    }
}

fn begins_at(tokens: &[Token]) -> bool
    ensures { result ≡ spec.begins_at tokens.now }
{
    match tokens {
        [] => false,
        [first, ..] => begins_rest(Some(first.kind()), second_kind(tokens)),
    }
}

/// The braces that come next are a statement's domain, and no expression.
pub fn is_domain(tokens: &[Token]) -> bool
    ensures { result ≡ spec.is_domain tokens.now }
{
    if is_kind(TokenKind::CloseBrace, second_kind(tokens)) {
        false
    } else {
        begins_at(behind_braces(tokens))
    }
}
