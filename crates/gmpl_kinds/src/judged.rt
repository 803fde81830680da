// What a whole is, by what its parts were judged to be: the first fault of a part is the whole's.
ghost use Rattle.std.specs.Prelude.{◌≡◌, None, Ok, Some};
ghost use Rattle.gmpl_kinds.specs.Demands as demand;
ghost use Rattle.gmpl_kinds.specs.Demands.{and_then};
ghost use Rattle.gmpl_kinds.specs.Kinds as spec;
ghost use Rattle.gmpl_kinds.specs.declared.shape.Shape.TheVariants.{Tuple as tuple_shape};

use crate::demands::{
    add_dimensions, as_branch, as_logic, as_scalar, as_set, gathered, iterated_by, joined, left_of,
    or_one, part_of, related, right_of, same_branch, same_dimension,
};
use crate::shape::{Gathered, Shape};
use gmpl_syntax::{Iteration, Operator, Relation, SyntaxFaultKind};

/// A number or a symbol.
pub(crate) fn scalar(part: Result<Shape, SyntaxFaultKind>) -> Result<Shape, SyntaxFaultKind>
    ensures { result ≡ and_then part demand.as_scalar }
{
    as_scalar(part?)
}

/// What is true or false.
pub(crate) fn logic(part: Result<Shape, SyntaxFaultKind>) -> Result<Shape, SyntaxFaultKind>
    ensures { result ≡ and_then part demand.as_logic }
{
    as_logic(part?)
}

/// The dimension of a set.
pub(crate) fn set(part: Result<Shape, SyntaxFaultKind>) -> Result<Option<usize>, SyntaxFaultKind>
    ensures { result ≡ and_then part demand.as_set }
{
    as_set(part?)
}

/// `Scalar` where both are.
pub(crate) fn both_scalars(
    first: Result<Shape, SyntaxFaultKind>,
    second: Result<Shape, SyntaxFaultKind>,
) -> Result<Shape, SyntaxFaultKind>
    ensures { result ≡ spec.both_scalars first second }
{
    scalar(first)?;
    scalar(second)
}

/// An `if`, with its other branch where it has one.
pub(crate) fn conditional(
    condition: Result<Shape, SyntaxFaultKind>,
    first: Result<Shape, SyntaxFaultKind>,
    other: Option<Result<Shape, SyntaxFaultKind>>,
) -> Result<Shape, SyntaxFaultKind>
    ensures { result ≡ spec.conditional condition first other }
{
    logic(condition)?;
    let first = as_branch(first?)?;
    match other {
        None => Ok(first),
        Some(other) => same_branch(first, as_branch(other?)?),
    }
}

/// A range, with its step where it has one.
pub(crate) fn range(
    first: Result<Shape, SyntaxFaultKind>,
    last: Result<Shape, SyntaxFaultKind>,
    step: Option<Result<Shape, SyntaxFaultKind>>,
) -> Result<Shape, SyntaxFaultKind>
    ensures { result ≡ spec.range first last step }
{
    both_scalars(first, last)?;
    match step {
        None => Ok(Shape::SetOf(Some(1))),
        Some(step) => {
            scalar(step)?;
            Ok(Shape::SetOf(Some(1)))
        }
    }
}

/// The two sides of a relation.
pub(crate) fn compared(
    relation: Relation,
    left: Result<Shape, SyntaxFaultKind>,
    right: Result<Shape, SyntaxFaultKind>,
) -> Result<Shape, SyntaxFaultKind>
    ensures { result ≡ spec.compared relation left right }
{
    let left = left_of(relation, left?)?;
    let right = right_of(relation, right?)?;
    related(left, right)
}

/// A chain so far, with one more part behind an operator.
pub(crate) fn linked(
    before: Shape,
    operator: Operator,
    operand: Result<Shape, SyntaxFaultKind>,
) -> Result<Shape, SyntaxFaultKind>
    ensures { result ≡ and_then (and_then operand (demand.part_of operator)) (demand.joined operator before) }
{
    let part = part_of(operator, operand?)?;
    joined(operator, before, part)
}

/// What is iterated over an indexing expression of this dimension.
pub(crate) fn iterated(
    iteration: Iteration,
    dimension: Result<usize, SyntaxFaultKind>,
    body: Result<Shape, SyntaxFaultKind>,
) -> Result<Shape, SyntaxFaultKind>
    ensures { result ≡ and_then dimension (λ _. and_then body (demand.iterated_by iteration)) }
{
    dimension?;
    iterated_by(iteration, body?)
}

// ---- tuples, entries and braces

/// How many parts a tuple has with this one.
pub(crate) fn counted(
    before: usize,
    part: Result<Shape, SyntaxFaultKind>,
) -> Result<usize, SyntaxFaultKind>
    ensures { result ≡ and_then (and_then part demand.as_scalar) (λ _. demand.add_dimensions before 1) }
{
    scalar(part)?;
    add_dimensions(before, 1)
}

/// A tuple of so many parts.
pub(crate) fn tuple(count: Result<usize, SyntaxFaultKind>) -> Result<Shape, SyntaxFaultKind>
    ensures { result ≡ and_then count (λ n. Ok (tuple_shape n)) }
{
    Ok(Shape::Tuple(count?))
}

/// The dimension of the entries so far with that of one more.
pub(crate) fn added(
    before: usize,
    more: Result<usize, SyntaxFaultKind>,
) -> Result<usize, SyntaxFaultKind>
    ensures { result ≡ and_then more (demand.add_dimensions before) }
{
    add_dimensions(before, more?)
}

/// The dimension of entries under a condition.
pub(crate) fn under(
    dimension: Result<usize, SyntaxFaultKind>,
    condition: Option<Result<Shape, SyntaxFaultKind>>,
) -> Result<usize, SyntaxFaultKind>
    ensures { result ≡ and_then dimension (λ n. and_then (spec.holds condition) (λ _. Ok n)) }
{
    let dimension = dimension?;
    match condition {
        None => Ok(dimension),
        Some(condition) => {
            logic(condition)?;
            Ok(dimension)
        }
    }
}

/// The dimension of an entry without an index.
pub(crate) fn plain_entry(
    elements: Result<Shape, SyntaxFaultKind>,
) -> Result<usize, SyntaxFaultKind>
    ensures { result ≡ and_then (and_then elements demand.as_set) (λ n. Ok (demand.or_one n)) }
{
    Ok(or_one(set(elements)?))
}

/// The dimension of an entry with an index of so many components, judged as its set is.
pub(crate) fn indexed_entry(
    index: Result<Shape, SyntaxFaultKind>,
    count: usize,
    elements: Result<Shape, SyntaxFaultKind>,
) -> Result<usize, SyntaxFaultKind>
    ensures { result ≡ and_then index (λ _. and_then (and_then elements demand.as_set) (λ n. and_then (demand.same_dimension (Some count) n) (λ _. Ok count))) }
{
    index?;
    same_dimension(Some(count), set(elements)?)?;
    Ok(count)
}

/// What braces hold so far with one more part.
pub(crate) fn gathered_with(
    so_far: Gathered,
    part: Result<Shape, SyntaxFaultKind>,
) -> Result<Gathered, SyntaxFaultKind>
    ensures { result ≡ and_then part (demand.gathered so_far) }
{
    gathered(so_far, part?)
}

/// The elements of an indexing expression.
pub(crate) fn set_of_dimension(
    dimension: Result<usize, SyntaxFaultKind>,
) -> Result<Shape, SyntaxFaultKind>
    ensures { result ≡ demand.set_of_dimension dimension }
{
    Ok(Shape::SetOf(Some(dimension?)))
}
