// Relations between two values.
ghost use Rattle.std.specs.Prelude.{◌≡◌};
ghost use Rattle.gmpl_value.specs.Outcome.{Gives};
ghost use Rattle.gmpl_operations.specs.Relations as spec;

use crate::value::Value;
use gmpl_syntax::Relation;
use gmpl_value::{EvalFault, Symbol};
use std::alloc::Global;
use std::cmp::Ordering;

fn is_less(order: Ordering) -> bool
    ensures { result ≡ spec.is_less order }
{
    match order {
        Ordering::Less => true,
        _ => false,
    }
}

fn is_equal(order: Ordering) -> bool
    ensures { result ≡ spec.is_equal order }
{
    match order {
        Ordering::Equal => true,
        _ => false,
    }
}

fn is_greater(order: Ordering) -> bool
    ensures { result ≡ spec.is_greater order }
{
    match order {
        Ordering::Greater => true,
        _ => false,
    }
}

fn stands(relation: Relation, order: Ordering) -> bool
    ensures { result ≡ spec.stands relation order }
{
    match relation {
        Relation::Below => is_less(order),
        Relation::AtMost => !is_greater(order),
        Relation::Equal => is_equal(order),
        Relation::AtLeast => !is_less(order),
        Relation::Above => is_greater(order),
        Relation::Unequal => !is_equal(order),
        _ => false,
    }
}

/// Whether two symbols stand to each other as one of the six comparisons says.
pub fn compared(relation: Relation, left: &Symbol, right: &Symbol) -> bool
    ensures { result ≡ spec.compared relation left.now right.now }
{
    stands(relation, left.order(right))
}

/// The left side, as the relation takes it: an element, a set or a symbol.
pub fn left_side(alloc: Global, relation: Relation, left: Value) -> Result<Value, EvalFault>
    ensures { Gives result (spec.left_side relation left) }
{
    match relation {
        Relation::In | Relation::NotIn => Ok(Value::Group(left.into_tuple(alloc)?)),
        Relation::Within | Relation::NotWithin => Ok(Value::Elements(left.into_set()?)),
        _ => Ok(Value::Scalar(left.into_symbol()?)),
    }
}

fn member_of(alloc: Global, left: &Value, right: &Value) -> Result<bool, EvalFault>
    ensures { Gives result (spec.member_of left.now right.now) }
{
    let tuple = left.tuple(alloc)?;
    let set = right.set()?;
    Ok(set.contains(&tuple))
}

fn within(left: &Value, right: &Value) -> Result<bool, EvalFault>
    ensures { Gives result (spec.within left.now right.now) }
{
    let inner = left.set()?;
    let outer = right.set()?;
    Ok(inner.is_within(outer))
}

/// Whether one of the six comparisons holds between two symbols.
pub fn scalars_related(relation: Relation, left: &Value, right: &Value) -> Result<bool, EvalFault>
    ensures { Gives result (spec.scalars_related relation left.now right.now) }
{
    let left = left.symbol()?;
    let right = right.symbol()?;
    Ok(compared(relation, left, right))
}

/// Whether a relation holds between two values.
pub fn related(
    alloc: Global,
    relation: Relation,
    left: Value,
    right: Value,
) -> Result<bool, EvalFault>
    ensures { Gives result (spec.related relation left right) }
{
    are_related(alloc, relation, &left, &right)
}

fn are_related(
    alloc: Global,
    relation: Relation,
    left: &Value,
    right: &Value,
) -> Result<bool, EvalFault>
    ensures { Gives result (spec.related relation left.now right.now) }
{
    match relation {
        Relation::In => member_of(alloc, left, right),
        Relation::NotIn => Ok(!member_of(alloc, left, right)?),
        Relation::Within => within(left, right),
        Relation::NotWithin => Ok(!within(left, right)?),
        _ => scalars_related(relation, left, right),
    }
}
