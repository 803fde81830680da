// What has no expressions in it.
ghost use Rattle.std.specs.Prelude.{◌≡◌, true};
ghost use Rattle.gmpl_resolved.specs.declared.expression.Expr.TheVariants as e;

use fraction::Frac;
use gmpl_resolved::Expr;
use gmpl_syntax::Suffix;
use gmpl_text::Text;

pub(crate) fn is_number(other: &Expr, number: Frac) -> bool
    ensures { result ≡ true → other.now ≡ e.Number number }
{
    match other {
        Expr::Number(own) => *own == number,
        _ => false,
    }
}

pub(crate) fn is_text(other: &Expr, text: &Text) -> bool
    ensures { result ≡ true → other.now ≡ e.Text text.now }
{
    match other {
        Expr::Text(own) => own == text,
        _ => false,
    }
}

pub(crate) fn same_suffix(one: Option<Suffix>, other: Option<Suffix>) -> bool
    ensures { result ≡ true → one ≡ other }
{
    match one {
        None => other.is_none(),
        Some(one) => match other {
            None => false,
            Some(other) => one == other,
        },
    }
}
