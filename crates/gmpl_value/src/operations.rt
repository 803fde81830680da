// The operations on sets.
ghost use Rattle.std.specs.Prelude.{◌≡◌, List, filter, not, length};
ghost use Rattle.gmpl_value.specs.Follows.{Follows, Gives};
ghost use Rattle.gmpl_value.specs.Sets.{union_of, diff_of, inter_of, symdiff_of, cross_of, with_all, without, common, joined_with};

use crate::fault::SetFault;
use crate::set_value::SetValue;
use crate::tuple::Tuple;
use std::alloc::Global;

/// The first set, then what is new of the second.
#[tactic(auto, using(crate::proofs::SetLemmas::with_all_append, crate::proofs::SetLemmas::faults_then))]
pub fn union(alloc: Global, first: &SetValue, second: &SetValue) -> Result<SetValue, SetFault>
    ensures { Gives result (union_of first.now second.now) }
{
    let mut found = SetValue::new(alloc);
    add_all(alloc, &mut found, first)?;
    add_all(alloc, &mut found, second)?;
    Ok(found)
}

/// The elements of the first set that the second lacks, in the first's order.
pub fn diff(alloc: Global, first: &SetValue, second: &SetValue) -> Result<SetValue, SetFault>
    ensures { Gives result (diff_of first.now second.now) }
{
    let mut found = SetValue::new(alloc);
    add_without(alloc, &mut found, first, second)?;
    Ok(found)
}

/// The first set without the second, then the second without the first.
#[tactic(auto, using(crate::proofs::SetLemmas::with_all_append, crate::proofs::SetLemmas::faults_then))]
pub fn symdiff(alloc: Global, first: &SetValue, second: &SetValue) -> Result<SetValue, SetFault>
    ensures { Gives result (symdiff_of first.now second.now) }
{
    let mut found = SetValue::new(alloc);
    add_without(alloc, &mut found, first, second)?;
    add_without(alloc, &mut found, second, first)?;
    Ok(found)
}

/// The elements of both sets, in the first's order.
pub fn inter(alloc: Global, first: &SetValue, second: &SetValue) -> Result<SetValue, SetFault>
    ensures { Gives result (inter_of first.now second.now) }
{
    let mut found = SetValue::new(alloc);
    for tuple in first.elements() {
        if second.contains(tuple) {
            found.add(tuple.copied(alloc)?)?;
        }
    }
    Ok(found)
}

/// Each element of the first set joined with each of the second, the last place fastest.
#[tactic(auto, using(crate::proofs::SetLemmas::with_all_append, crate::proofs::SetLemmas::faults_then))]
pub fn cross(alloc: Global, first: &SetValue, second: &SetValue) -> Result<SetValue, SetFault>
    ensures { Gives result (cross_of first.now second.now) }
{
    let mut found = SetValue::new(alloc);
    for tuple in first.elements() {
        add_joined(alloc, &mut found, tuple, second)?;
    }
    Ok(found)
}

fn add_all(alloc: Global, found: &mut SetValue, set: &SetValue) -> Result<(), SetFault>
    ensures { Follows result found.new (with_all found.old set.now) }
{
    for tuple in set.elements() {
        found.add(tuple.copied(alloc)?)?;
    }
    Ok(())
}

fn add_without(
    alloc: Global,
    found: &mut SetValue,
    first: &SetValue,
    second: &SetValue,
) -> Result<(), SetFault>
    ensures { Follows result found.new (with_all found.old (without first.now second.now)) }
{
    for tuple in first.elements() {
        if !second.contains(tuple) {
            found.add(tuple.copied(alloc)?)?;
        }
    }
    Ok(())
}

fn add_joined(
    alloc: Global,
    found: &mut SetValue,
    tuple: &Tuple,
    second: &SetValue,
) -> Result<(), SetFault>
    ensures { Follows result found.new (with_all found.old (joined_with second.now tuple.now)) }
{
    for last in second.elements() {
        found.add(tuple.joined(alloc, last)?)?;
    }
    Ok(())
}
