// What a place asks of its part.
ghost use Rattle.std.specs.Prelude.{◌≡◌};
ghost use Rattle.gmpl_kinds.specs.Demands as spec;

use crate::shape::{Gathered, Shape};
use gmpl_syntax::{Iteration, Operator, Relation, SyntaxFaultKind};

const MOST_COMPONENTS: usize = 20;

/// A dimension of at most 20; above that `WrongDimension`.
pub(crate) fn within_most(n: usize) -> Result<usize, SyntaxFaultKind>
    ensures { result ≡ spec.within_most n }
{
    if MOST_COMPONENTS < n {
        Err(SyntaxFaultKind::WrongDimension)
    } else {
        Ok(n)
    }
}

pub(crate) fn add_dimensions(a: usize, b: usize) -> Result<usize, SyntaxFaultKind>
    ensures { result ≡ spec.add_dimensions a b }
{
    match a.checked_add(b) {
        Some(sum) => within_most(sum),
        None => Err(SyntaxFaultKind::WrongDimension),
    }
}

/// The dimension that two sets have in common, or `WrongDimension`.
pub fn same_dimension(a: Option<usize>, b: Option<usize>) -> Result<Option<usize>, SyntaxFaultKind>
    ensures { result ≡ spec.same_dimension a b }
{
    match (a, b) {
        (None, _) => Ok(b),
        (Some(_), None) => Ok(a),
        (Some(n), Some(m)) => {
            if n == m {
                Ok(a)
            } else {
                Err(SyntaxFaultKind::WrongDimension)
            }
        }
    }
}

fn crossed(a: Option<usize>, b: Option<usize>) -> Result<Option<usize>, SyntaxFaultKind>
    ensures { result ≡ spec.crossed a b }
{
    match (a, b) {
        (Some(n), Some(m)) => Ok(Some(add_dimensions(n, m)?)),
        _ => Ok(None),
    }
}

/// `Scalar`, or `WrongKind`.
pub fn as_scalar(shape: Shape) -> Result<Shape, SyntaxFaultKind>
    ensures { result ≡ spec.as_scalar shape }
{
    match shape {
        Shape::Scalar => Ok(Shape::Scalar),
        _ => Err(SyntaxFaultKind::WrongKind),
    }
}

/// `Logic`, of a number too, or `WrongKind`.
pub fn as_logic(shape: Shape) -> Result<Shape, SyntaxFaultKind>
    ensures { result ≡ spec.as_logic shape }
{
    match shape {
        Shape::Scalar | Shape::Logic => Ok(Shape::Logic),
        _ => Err(SyntaxFaultKind::WrongKind),
    }
}

/// The dimension of a set, or `WrongKind`.
pub fn as_set(shape: Shape) -> Result<Option<usize>, SyntaxFaultKind>
    ensures { result ≡ spec.as_set shape }
{
    match shape {
        Shape::SetOf(n) => Ok(n),
        _ => Err(SyntaxFaultKind::WrongKind),
    }
}

pub(crate) fn as_element(shape: Shape) -> Result<usize, SyntaxFaultKind>
    ensures { result ≡ spec.as_element shape }
{
    match shape {
        Shape::Scalar => Ok(1),
        Shape::Tuple(n) => Ok(n),
        _ => Err(SyntaxFaultKind::WrongKind),
    }
}

/// `Scalar` or a set, or `WrongKind`.
pub fn as_branch(shape: Shape) -> Result<Shape, SyntaxFaultKind>
    ensures { result ≡ spec.as_branch shape }
{
    match shape {
        Shape::Scalar => Ok(Shape::Scalar),
        Shape::SetOf(n) => Ok(Shape::SetOf(n)),
        _ => Err(SyntaxFaultKind::WrongKind),
    }
}

pub(crate) fn same_branch(a: Shape, b: Shape) -> Result<Shape, SyntaxFaultKind>
    ensures { result ≡ spec.same_branch a b }
{
    match (a, b) {
        (Shape::Scalar, Shape::Scalar) => Ok(Shape::Scalar),
        (Shape::SetOf(n), Shape::SetOf(m)) => Ok(Shape::SetOf(same_dimension(n, m)?)),
        _ => Err(SyntaxFaultKind::WrongKind),
    }
}

pub(crate) fn part_of(operator: Operator, shape: Shape) -> Result<Shape, SyntaxFaultKind>
    ensures { result ≡ spec.part_of operator shape }
{
    match operator {
        Operator::Or | Operator::And => as_logic(shape),
        Operator::Union | Operator::Diff | Operator::Symdiff | Operator::Inter | Operator::Cross =>
            Ok(Shape::SetOf(as_set(shape)?)),
        _ => as_scalar(shape),
    }
}

fn is_cross(operator: Operator) -> bool
    ensures { result ≡ spec.is_cross operator }
{
    match operator {
        Operator::Cross => true,
        _ => false,
    }
}

pub(crate) fn joined(operator: Operator, a: Shape, b: Shape) -> Result<Shape, SyntaxFaultKind>
    ensures { result ≡ spec.joined operator a b }
{
    match (a, b) {
        (Shape::SetOf(n), Shape::SetOf(m)) => {
            if is_cross(operator) {
                Ok(Shape::SetOf(crossed(n, m)?))
            } else {
                Ok(Shape::SetOf(same_dimension(n, m)?))
            }
        }
        _ => Ok(b),
    }
}

pub(crate) fn iterated_by(iteration: Iteration, body: Shape) -> Result<Shape, SyntaxFaultKind>
    ensures { result ≡ spec.iterated_by iteration body }
{
    match iteration {
        Iteration::Setof => Ok(Shape::SetOf(Some(as_element(body)?))),
        Iteration::Forall | Iteration::Exists => as_logic(body),
        _ => as_scalar(body),
    }
}

pub(crate) fn left_of(relation: Relation, shape: Shape) -> Result<Shape, SyntaxFaultKind>
    ensures { result ≡ spec.left_of relation shape }
{
    match relation {
        Relation::In | Relation::NotIn => Ok(Shape::SetOf(Some(as_element(shape)?))),
        Relation::Within | Relation::NotWithin => Ok(Shape::SetOf(as_set(shape)?)),
        _ => as_scalar(shape),
    }
}

pub(crate) fn right_of(relation: Relation, shape: Shape) -> Result<Shape, SyntaxFaultKind>
    ensures { result ≡ spec.right_of relation shape }
{
    match relation {
        Relation::In | Relation::NotIn | Relation::Within | Relation::NotWithin => {
            Ok(Shape::SetOf(as_set(shape)?))
        }
        _ => as_scalar(shape),
    }
}

pub(crate) fn related(left: Shape, right: Shape) -> Result<Shape, SyntaxFaultKind>
    ensures { result ≡ spec.related left right }
{
    match (left, right) {
        (Shape::SetOf(n), Shape::SetOf(m)) => {
            same_dimension(n, m)?;
            Ok(Shape::Logic)
        }
        _ => Ok(Shape::Logic),
    }
}

/// A dimension that is not known counts 1.
pub fn or_one(dimension: Option<usize>) -> usize
    ensures { result ≡ spec.or_one dimension }
{
    match dimension {
        None => 1,
        Some(n) => n,
    }
}

pub(crate) fn gathered(so_far: Gathered, shape: Shape) -> Result<Gathered, SyntaxFaultKind>
    ensures { result ≡ spec.gathered so_far shape }
{
    match so_far {
        Gathered::Nothing => match shape {
            Shape::SetOf(n) => Ok(Gathered::Dimensions(within_most(or_one(n))?)),
            _ => Ok(Gathered::Elements(as_element(shape)?)),
        },
        Gathered::Elements(n) => {
            same_dimension(Some(n), Some(as_element(shape)?))?;
            Ok(Gathered::Elements(n))
        }
        Gathered::Dimensions(n) => {
            let more = or_one(as_set(shape)?);
            Ok(Gathered::Dimensions(add_dimensions(n, more)?))
        }
    }
}

pub(crate) fn gathered_shape(all: Gathered) -> Shape
    ensures { result ≡ spec.gathered_shape all }
{
    match all {
        Gathered::Nothing => Shape::SetOf(None),
        Gathered::Elements(n) | Gathered::Dimensions(n) => Shape::SetOf(Some(n)),
    }
}
