// Whether expressions are the same, part by part.
ghost use Rattle.std.specs.Prelude.{◌≡◌, true};
ghost use Rattle.gmpl_resolved.specs.declared.expression.Expr.TheVariants as e;

use crate::parts::{is_number, is_text, same_suffix};
use gmpl_resolved::{Component, Entry, Expr, Indexing, Link, Meaning};
use gmpl_syntax::{Function, Iteration, Operator, Relation, Sign, Suffix};
use sqlite_items::{Boxed, Items};

// How many parts may stand in one another and in lists. A text has fewer.
const ROOM: u32 = 100_000;

/// Whether two expressions are the same.
pub fn same_expr(one: &Expr, other: &Expr) -> bool
    ensures { result ≡ true → other.now ≡ one.now }
{
    same_within(ROOM, one, other)
}

// Whether two expressions are the same, as far as so many parts that stand in one another and in lists tell it.
#[cycle(same)]
fn same_within(room: u32, one: &Expr, other: &Expr) -> bool
    ensures { result ≡ true → other.now ≡ one.now }
{
    if room == 0 {
        return false;
    }
    let room = room - 1;
    match one {
        Expr::Number(number) => is_number(other, *number),
        Expr::Text(text) => is_text(other, text),
        Expr::Named(name, subscripts, suffix) => {
            is_named(room, other, *name, subscripts.as_slice(), *suffix)
        }
        Expr::Call(function, arguments) => is_call(room, other, *function, arguments.as_slice()),
        Expr::Group(parts) => is_group(room, other, parts.as_slice()),
        Expr::Braces(indexing) => is_braces(room, other, indexing),
        Expr::Iterated(iteration, indexing, body) => {
            is_iterated(room, other, *iteration, indexing, body.get())
        }
        Expr::If(condition, first, otherwise) => {
            is_if(room, other, condition.get(), first.get(), otherwise)
        }
        Expr::Signed(sign, part) => is_signed(room, other, *sign, part.get()),
        Expr::Power(base, exponent) => is_power(room, other, base.get(), exponent.get()),
        Expr::Chain(first, links) => is_chain(room, other, first.get(), links.as_slice()),
        Expr::Range(first, last, step) => is_range(room, other, first.get(), last.get(), step),
        Expr::Compared(relation, left, right) => {
            is_compared(room, other, *relation, left.get(), right.get())
        }
        Expr::Not(part) => is_not(room, other, part.get()),
    }
}

#[cycle(same)]
fn is_named(
    room: u32,
    other: &Expr,
    name: Meaning,
    subscripts: &[Expr],
    suffix: Option<Suffix>,
) -> bool
    ensures { result ≡ true → other.now ≡ e.Named name subscripts.now suffix }
{
    match other {
        Expr::Named(own, others, of_own) => {
            *own == name
                && same_suffix(*of_own, suffix)
                && same_all(room, subscripts, others.as_slice())
        }
        _ => false,
    }
}

#[cycle(same)]
fn is_call(room: u32, other: &Expr, function: Function, arguments: &[Expr]) -> bool
    ensures { result ≡ true → other.now ≡ e.Call function arguments.now }
{
    match other {
        Expr::Call(own, others) => *own == function && same_all(room, arguments, others.as_slice()),
        _ => false,
    }
}

#[cycle(same)]
fn is_group(room: u32, other: &Expr, parts: &[Expr]) -> bool
    ensures { result ≡ true → other.now ≡ e.Group parts.now }
{
    match other {
        Expr::Group(others) => same_all(room, parts, others.as_slice()),
        _ => false,
    }
}

#[cycle(same)]
fn is_braces(room: u32, other: &Expr, indexing: &Indexing) -> bool
    ensures { result ≡ true → other.now ≡ e.Braces indexing.now }
{
    match other {
        Expr::Braces(own) => same_indexing(room, indexing, own),
        _ => false,
    }
}

#[cycle(same)]
fn is_iterated(
    room: u32,
    other: &Expr,
    iteration: Iteration,
    indexing: &Indexing,
    body: &Expr,
) -> bool
    ensures { result ≡ true → other.now ≡ e.Iterated iteration indexing.now body.now }
{
    match other {
        Expr::Iterated(own, over, part) => {
            *own == iteration
                && same_indexing(room, indexing, over)
                && same_within(room, body, part.get())
        }
        _ => false,
    }
}

#[cycle(same)]
fn is_if(
    room: u32,
    other: &Expr,
    condition: &Expr,
    first: &Expr,
    otherwise: &Option<Boxed<Expr>>,
) -> bool
    ensures { result ≡ true → other.now ≡ e.If condition.now first.now otherwise.now }
{
    match other {
        Expr::If(own, then, or_else) => {
            same_within(room, condition, own.get())
                && same_within(room, first, then.get())
                && same_optional(room, otherwise, or_else)
        }
        _ => false,
    }
}

#[cycle(same)]
fn is_signed(room: u32, other: &Expr, sign: Sign, part: &Expr) -> bool
    ensures { result ≡ true → other.now ≡ e.Signed sign part.now }
{
    match other {
        Expr::Signed(own, of_own) => *own == sign && same_within(room, part, of_own.get()),
        _ => false,
    }
}

#[cycle(same)]
fn is_power(room: u32, other: &Expr, base: &Expr, exponent: &Expr) -> bool
    ensures { result ≡ true → other.now ≡ e.Power base.now exponent.now }
{
    match other {
        Expr::Power(own, of_own) => {
            same_within(room, base, own.get()) && same_within(room, exponent, of_own.get())
        }
        _ => false,
    }
}

#[cycle(same)]
fn is_chain(room: u32, other: &Expr, first: &Expr, links: &[Link]) -> bool
    ensures { result ≡ true → other.now ≡ e.Chain first.now links.now }
{
    match other {
        Expr::Chain(own, others) => {
            same_within(room, first, own.get()) && same_links(room, links, others.as_slice())
        }
        _ => false,
    }
}

#[cycle(same)]
fn is_range(room: u32, other: &Expr, first: &Expr, last: &Expr, step: &Option<Boxed<Expr>>) -> bool
    ensures { result ≡ true → other.now ≡ e.Range first.now last.now step.now }
{
    match other {
        Expr::Range(own, to, by) => {
            same_within(room, first, own.get())
                && same_within(room, last, to.get())
                && same_optional(room, step, by)
        }
        _ => false,
    }
}

#[cycle(same)]
fn is_compared(room: u32, other: &Expr, relation: Relation, left: &Expr, right: &Expr) -> bool
    ensures { result ≡ true → other.now ≡ e.Compared relation left.now right.now }
{
    match other {
        Expr::Compared(own, of_left, of_right) => {
            *own == relation
                && same_within(room, left, of_left.get())
                && same_within(room, right, of_right.get())
        }
        _ => false,
    }
}

#[cycle(same)]
fn is_not(room: u32, other: &Expr, part: &Expr) -> bool
    ensures { result ≡ true → other.now ≡ e.Not part.now }
{
    match other {
        Expr::Not(own) => same_within(room, part, own.get()),
        _ => false,
    }
}

// ---- lists and parts

#[cycle(same)]
fn same_optional(room: u32, one: &Option<Boxed<Expr>>, other: &Option<Boxed<Expr>>) -> bool
    ensures { result ≡ true → other.now ≡ one.now }
{
    match one {
        None => other.is_none(),
        Some(one) => match other {
            None => false,
            Some(other) => same_within(room, one.get(), other.get()),
        },
    }
}

#[cycle(same)]
fn same_all(room: u32, all: &[Expr], others: &[Expr]) -> bool
    ensures { result ≡ true → others.now ≡ all.now }
{
    if room == 0 {
        return false;
    }
    let room = room - 1;
    match all {
        [] => others.is_empty(),
        [one, rest @ ..] => match others {
            [] => false,
            [other, behind @ ..] => same_within(room, one, other) && same_all(room, rest, behind),
        },
    }
}

#[cycle(same)]
fn same_links(room: u32, all: &[Link], others: &[Link]) -> bool
    ensures { result ≡ true → others.now ≡ all.now }
{
    if room == 0 {
        return false;
    }
    let room = room - 1;
    match all {
        [] => others.is_empty(),
        [one, rest @ ..] => match others {
            [] => false,
            [other, behind @ ..] => same_link(room, one, other) && same_links(room, rest, behind),
        },
    }
}

#[cycle(same)]
fn same_link(room: u32, one: &Link, other: &Link) -> bool
    ensures { result ≡ true → other.now ≡ one.now }
{
    one.operator == other.operator && same_within(room, &one.operand, &other.operand)
}

#[cycle(same)]
fn same_indexing(room: u32, one: &Indexing, other: &Indexing) -> bool
    ensures { result ≡ true → other.now ≡ one.now }
{
    if same_list(room, &one.entries, &other.entries) {
        same_optional(room, &one.condition, &other.condition)
    } else {
        false
    }
}

#[cycle(same)]
fn same_list(room: u32, one: &Items<Entry>, other: &Items<Entry>) -> bool
    ensures { result ≡ true → other.now ≡ one.now }
{
    same_entries(room, one.as_slice(), other.as_slice())
}

#[cycle(same)]
fn same_entries(room: u32, all: &[Entry], others: &[Entry]) -> bool
    ensures { result ≡ true → others.now ≡ all.now }
{
    if room == 0 {
        return false;
    }
    let room = room - 1;
    match all {
        [] => others.is_empty(),
        [one, rest @ ..] => match others {
            [] => false,
            [other, behind @ ..] => same_entry(room, one, other)
                && same_entries(room, rest, behind),
        },
    }
}

#[cycle(same)]
fn same_entry(room: u32, one: &Entry, other: &Entry) -> bool
    ensures { result ≡ true → other.now ≡ one.now }
{
    same_index(room, &one.index, &other.index) && same_within(room, &one.set, &other.set)
}

#[cycle(same)]
fn same_index(room: u32, one: &Option<Items<Component>>, other: &Option<Items<Component>>) -> bool
    ensures { result ≡ true → other.now ≡ one.now }
{
    match one {
        None => other.is_none(),
        Some(one) => match other {
            None => false,
            Some(other) => same_components(room, one.as_slice(), other.as_slice()),
        },
    }
}

#[cycle(same)]
fn same_components(room: u32, all: &[Component], others: &[Component]) -> bool
    ensures { result ≡ true → others.now ≡ all.now }
{
    if room == 0 {
        return false;
    }
    let room = room - 1;
    match all {
        [] => others.is_empty(),
        [one, rest @ ..] => match others {
            [] => false,
            [other, behind @ ..] => same_component(room, one, other)
                && same_components(room, rest, behind),
        },
    }
}

#[cycle(same)]
fn same_component(room: u32, one: &Component, other: &Component) -> bool
    ensures { result ≡ true → other.now ≡ one.now }
{
    match one {
        Component::New => match other {
            Component::New => true,
            Component::Value(_) => false,
        },
        Component::Value(one) => match other {
            Component::New => false,
            Component::Value(other) => same_within(room, one, other),
        },
    }
}
