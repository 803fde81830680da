// Statements with their names resolved.

use crate::expression::{Expr, Indexing};
use fraction::Frac;
use gmpl_syntax::{Direction, Relation, SyntaxFault};
use gmpl_text::Text;
use sqlite_items::{Boxed, Items};

/// The name that a statement declares, with the domain of its subscripts where it has one. The indices of the domain are in
/// scope in the rest of the statement.
#[derive(Drop)]
pub struct Head {
    pub name: Text,
    pub domain: Option<Indexing>,
}

/// What a statement says of the set, parameter or variable that it declares.
#[derive(Drop)]
pub enum Attribute {
    /// `dimen`, of a set.
    Dimension(Frac),
    /// A relation to an expression: of a set `within`, of a parameter the six comparisons and `in`, of a variable `<=`, `=` and
    /// `>=`.
    Restriction(Relation, Expr),
    /// `:=`, of a set or a parameter.
    Assigned(Expr),
    /// `default`, of a set or a parameter.
    Default(Expr),
    /// Of a parameter or a variable.
    Integer,
    /// Of a parameter or a variable.
    Binary,
    /// Of a parameter.
    Symbolic,
}

/// A statement that declares a set, a parameter or a variable.
#[derive(Drop)]
pub struct Declaration {
    pub head: Head,
    pub attributes: Items<Attribute>,
}

/// A constraint: two sides, or three with the same relation between each two.
#[derive(Drop)]
pub struct Constraint {
    pub head: Head,
    pub left: Expr,
    pub relation: Relation,
    pub right: Expr,
    pub last: Option<Expr>,
}

#[derive(Drop)]
pub struct Objective {
    pub direction: Direction,
    pub head: Head,
    pub form: Expr,
}

/// A statement that declares an object. A constraint and an objective stand apart, so that a declaration takes no more memory
/// than it wants.
#[derive(Drop)]
pub enum Statement {
    Set(Declaration),
    Param(Declaration),
    Var(Declaration),
    Constraint(Boxed<Constraint>),
    Objective(Boxed<Objective>),
}

/// A field that a table writes: an expression, and the field's name.
#[derive(Drop)]
pub struct OutputColumn {
    pub value: Expr,
    pub field: Text,
}

/// `table OUT`: a record for each element of the domain, written to a file. The indices of the domain are in scope in the columns,
/// and not in the name of the file.
#[derive(Drop)]
pub struct TableOutput {
    pub file: Expr,
    pub domain: Indexing,
    pub columns: Items<OutputColumn>,
}

/// A parameter to which a table gives values, by its place among the objects, with the field that they stand in.
#[derive(Drop)]
pub struct InputColumn {
    pub parameter: usize,
    pub field: Text,
}

/// `table IN`: the file that is read, the place of the set that the keys join, where there is one, the fields that make the key,
/// and the columns.
#[derive(Drop)]
pub struct TableInput {
    pub file: Expr,
    pub set: Option<usize>,
    pub keys: Items<Text>,
    pub columns: Items<InputColumn>,
}

/// A statement that is executed and declares nothing. It may stand in a `for`.
#[cycle(actions)]
#[derive(Drop)]
pub enum Action {
    /// A domain, and what has to hold at each of its elements.
    Check(Option<Indexing>, Expr),
    /// A domain, and what is shown at each of its elements: expressions, or the names of objects alone.
    Display(Option<Indexing>, Items<Expr>),
    /// A domain, and what is printed at each of its elements: a format, and behind it its arguments.
    Printf(Option<Indexing>, Items<Expr>),
    TableOutput(TableOutput),
    /// The domains of one or more heads, the outer first, then what they govern.
    For(Items<Indexing>, Items<Action>),
}

/// What is done where a statement stands that declares nothing.
#[derive(Drop)]
pub enum Step {
    Action(Action),
    /// What a table gives is added to the data. It stands before `solve`.
    TableInput(TableInput),
    /// The problem is solved.
    Solve,
}

/// A step with its statement.
#[derive(Drop)]
pub struct NumberedStep {
    /// Of the statement, counted from 1.
    pub number: usize,
    /// Of the statement's first token, counted from 1.
    pub line: usize,
    pub step: Step,
}

/// A statement that declares an object, behind the steps that stand between it and the declaration before it. The place of an
/// object is that of its statement among those that declare.
#[derive(Drop)]
pub struct Numbered {
    pub steps: Items<NumberedStep>,
    /// Of the statement, counted from 1.
    pub number: usize,
    /// Of the statement's first token, counted from 1.
    pub line: usize,
    pub statement: Statement,
}

/// The statements of a model in order, up to its end or to the first bad one.
#[derive(Drop)]
pub struct Statements {
    pub items: Items<Numbered>,
    /// The steps behind the last declaration.
    pub steps: Items<NumberedStep>,
    /// The first bad statement.
    pub fault: Option<SyntaxFault>,
}
