// Expressions with their names resolved.

use fraction::Frac;
use gmpl_syntax::{Function, Iteration, Operator, Relation, Sign, Suffix};
use gmpl_text::Text;
use sqlite_items::{Boxed, Items};

/// What a name means.
#[derive(Clone, Copy, Debug, PartialEq, Eq)]
pub enum Meaning {
    /// The index at this place of those in scope.
    Index(usize),
    /// The object at this place of those declared.
    Object(usize),
}

/// An expression. Each pair of parentheses is a `Group`.
#[cycle(resolved)]
#[derive(Drop)]
pub enum Expr {
    /// A number.
    Number(Frac),
    /// A string.
    Text(Text),
    /// An index or an object, with its subscripts (none: no brackets) and its suffix.
    Named(Meaning, Items<Expr>, Option<Suffix>),
    /// A function with its arguments.
    Call(Function, Items<Expr>),
    /// What stands in parentheses: one part, or the parts of a tuple.
    Group(Items<Expr>),
    /// What stands in braces: the elements of a set, or the entries of an indexing expression; none for `{}`.
    Braces(Indexing),
    /// `sum`, `prod` and the like over an indexing expression, with the expression that is iterated.
    Iterated(Iteration, Indexing, Boxed<Expr>),
    /// `if`, `then`, and `else` where it is written.
    If(Boxed<Expr>, Boxed<Expr>, Option<Boxed<Expr>>),
    Signed(Sign, Boxed<Expr>),
    /// A base and its exponent.
    Power(Boxed<Expr>, Boxed<Expr>),
    /// The parts of one level from left to right: the first, then each with the operator before it, at least one.
    Chain(Boxed<Expr>, Items<Link>),
    /// `..`: from where, up to where, and the step behind `by`.
    Range(Boxed<Expr>, Boxed<Expr>, Option<Boxed<Expr>>),
    Compared(Relation, Boxed<Expr>, Boxed<Expr>),
    Not(Boxed<Expr>),
}

/// A part of a chain behind the first, with the operator before it.
#[cycle(resolved)]
#[derive(Drop)]
pub struct Link {
    pub operator: Operator,
    pub operand: Expr,
}

/// What stands between braces: entries, and a condition behind a colon.
#[cycle(resolved)]
#[derive(Drop)]
pub struct Indexing {
    pub entries: Items<Entry>,
    pub condition: Option<Boxed<Expr>>,
}

/// An entry between braces: a set or an element, with the components of its index where it has one.
#[cycle(resolved)]
#[derive(Drop)]
pub struct Entry {
    pub index: Option<Items<Component>>,
    pub set: Expr,
}

/// A component of an index.
#[cycle(resolved)]
#[derive(Drop)]
pub enum Component {
    /// A new index, at the next place of those in scope from the right of its entry on.
    New,
    /// What the element's component must equal.
    Value(Expr),
}
