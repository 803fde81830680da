// How much of the stack evaluation may take.
ghost use Rattle.std.specs.Prelude.{◌≤◌};

use gmpl_resolved::Expr;
use gmpl_value::EvalFault;

/// What evaluation begins with: so many times 2 KB of the stack, about.
pub(crate) const ROOM: u32 = 3650;

/// What the domain, or a restriction, of a member takes beside the member itself.
pub(crate) const TEST: u32 = 3;

/// What an entry behind the first of an iteration takes.
pub(crate) const ENTRY: u32 = 2;

/// What a demand for a member takes.
pub(crate) const DEMAND: u32 = 3;

/// The room behind a part: none behind a fault, so that nothing more is evaluated there.
pub(crate) fn room_behind<T>(part: &Result<T, EvalFault>, room: u32) -> u32
    ensures { result ≤ room }
{
    match part {
        Ok(_) => room,
        Err(_) => 0,
    }
}

/// What an expression takes, beside its parts.
pub(crate) fn room_of(whole: &Expr) -> u32
    ensures some { 1 ≤ result }
{
    match whole {
        Expr::Number(_)
        | Expr::Text(_)
        | Expr::Group(_)
        | Expr::If(_, _, _)
        | Expr::Signed(_, _)
        | Expr::Not(_) => 1,
        Expr::Call(_, _) | Expr::Power(_, _) | Expr::Chain(_, _) | Expr::Range(_, _, _) => 2,
        Expr::Named(_, _, _) => DEMAND,
        Expr::Compared(_, _, _) | Expr::Braces(_) => 3,
        Expr::Iterated(_, _, _) => 4,
    }
}
