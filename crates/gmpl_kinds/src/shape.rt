// What an expression is, and the objects that it names.

/// What an expression is. The dimension of a set is not known where any serves, as that of `{}`.
#[derive(Clone, Copy, Debug, PartialEq, Eq)]
pub enum Shape {
    /// A number or a symbol.
    Scalar,
    /// What is true or false.
    Logic,
    /// A set, with the dimension of its elements.
    SetOf(Option<usize>),
    /// An element with so many components, two or more.
    Tuple(usize),
}

/// The objects of a model.
#[derive(Clone, Copy, Debug, PartialEq, Eq)]
pub enum Sort {
    Set,
    Param,
    Var,
    Constraint,
    Objective,
}

/// A declared object: how many subscripts it takes, and the dimension of its elements where it is a set.
#[derive(Clone, Copy, Debug, PartialEq, Eq)]
pub struct Object {
    pub sort: Sort,
    pub subscripts: usize,
    pub elements: Option<usize>,
}

/// Where an expression stands, and the object that its statement declares, where a name may mean it there. The dimension of a
/// set is not known before its statement is judged.
#[derive(Clone, Copy, Debug, PartialEq, Eq)]
pub struct Site {
    pub position: Position,
    pub own: Option<Object>,
}

/// Among which statements, and in which of their parts.
#[derive(Clone, Copy, Debug, PartialEq, Eq)]
pub enum Position {
    /// Before `solve`, and neither in a constraint nor in an objective.
    Constant,
    /// In a constraint or an objective: it may hold variables.
    Linear,
    /// Behind `solve`: it may hold variables, constraints and objectives, and suffixes.
    Solved,
}

/// What braces without index hold, so far: elements of one dimension, or sets whose dimensions add up.
#[derive(Clone, Copy)]
pub(crate) enum Gathered {
    Nothing,
    Elements(usize),
    Dimensions(usize),
}
