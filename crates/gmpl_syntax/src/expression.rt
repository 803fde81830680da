// Expressions as they are written.

use fraction::Frac;
use gmpl_text::Text;
use sqlite_items::{Boxed, Items};

/// A sign before an expression.
#[derive(Clone, Copy, Debug, PartialEq, Eq)]
pub enum Sign {
    Plus,
    Minus,
}

/// An operator between two parts of a chain. Each has one level, and a chain has operators of one level alone.
#[derive(Clone, Copy, Debug, PartialEq, Eq)]
pub enum Operator {
    Or,
    And,
    Union,
    Diff,
    Symdiff,
    Inter,
    Cross,
    /// `&`, which joins texts.
    Join,
    Plus,
    Minus,
    /// `less`: the difference, or 0 where it is negative.
    Less,
    Times,
    Over,
    Div,
    Mod,
}

/// How two expressions are compared, or a part with a set.
#[derive(Clone, Copy, Debug, PartialEq, Eq)]
pub enum Relation {
    Below,
    AtMost,
    Equal,
    AtLeast,
    Above,
    Unequal,
    In,
    NotIn,
    Within,
    NotWithin,
}

/// A function of arguments in parentheses.
#[derive(Clone, Copy, Debug, PartialEq, Eq)]
pub enum Function {
    Abs,
    Ceil,
    Floor,
    Trunc,
    Round,
    Max,
    Min,
    Card,
    Length,
    Substr,
    /// One of the language's functions that are not supported, with any arguments.
    LeftOut,
}

/// What goes over the elements of an indexing expression.
#[derive(Clone, Copy, Debug, PartialEq, Eq)]
pub enum Iteration {
    Sum,
    Prod,
    Min,
    Max,
    Setof,
    Forall,
    Exists,
}

/// What is asked of a variable, a constraint or an objective.
#[derive(Clone, Copy, Debug, PartialEq, Eq)]
pub enum Suffix {
    /// `.val`
    Value,
    /// `.lb`
    LowerBound,
    /// `.ub`
    UpperBound,
    /// `.dual`
    Dual,
    /// `.status`, which is not supported.
    LeftOut,
}

/// An expression. Each pair of parentheses is a `Group`, so that the tree has the text's order of operations.
#[cycle(syntax)]
#[derive(Drop)]
pub enum Expr {
    /// A number.
    Number(Frac),
    /// A string.
    Text(Text),
    /// A name with its subscripts (none: no brackets) and its suffix: an index, an object or a member.
    Named(Text, Items<Expr>, Option<Suffix>),
    /// A function with its arguments.
    Call(Function, Items<Expr>),
    /// What stands in parentheses: one part, or the parts of a tuple.
    Group(Items<Expr>),
    /// What stands in braces: the elements of a set, or the entries of an indexing expression; none for `{}`.
    Braces(Indexing),
    /// `sum`, `prod` and the like over an indexing expression, with the expression that is iterated.
    Iterated(Iteration, Indexing, Boxed<Expr>),
    /// `if`, `then`, and `else` where it is written.
    If(Boxed<Expr>, Boxed<Expr>, Option<Boxed<Expr>>),
    Signed(Sign, Boxed<Expr>),
    /// A base and its exponent.
    Power(Boxed<Expr>, Boxed<Expr>),
    /// The parts of one level from left to right: the first, then each with the operator before it, at least one.
    Chain(Boxed<Expr>, Items<Link>),
    /// `..`: from where, up to where, and the step behind `by`.
    Range(Boxed<Expr>, Boxed<Expr>, Option<Boxed<Expr>>),
    Compared(Relation, Boxed<Expr>, Boxed<Expr>),
    Not(Boxed<Expr>),
}

/// A part of a chain behind the first, with the operator before it.
#[cycle(syntax)]
#[derive(Drop)]
pub struct Link {
    pub operator: Operator,
    pub operand: Expr,
}

/// What stands between braces: entries, and a condition behind a colon.
#[cycle(syntax)]
#[derive(Drop)]
pub struct Indexing {
    pub entries: Items<Entry>,
    pub condition: Option<Boxed<Expr>>,
}

/// An entry between braces: a set or an element, with the components of the index before `in` where it has one.
#[cycle(syntax)]
#[derive(Drop)]
pub struct Entry {
    pub index: Option<Items<Component>>,
    pub set: Expr,
}

/// A component of an index.
#[cycle(syntax)]
#[derive(Drop)]
pub enum Component {
    /// A name alone: a new index where the name means nothing else.
    Name(Text),
    /// Any other expression, which the element's component must equal.
    Value(Expr),
}
