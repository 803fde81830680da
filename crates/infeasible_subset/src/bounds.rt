// The bounds that a problem has, and those that weights use.
ghost use Rattle.std.specs.Prelude.{◌≡◌, ◌++◌, map, IfOk, OnOk, Option};
ghost use Rattle.rational.specs.Rational.{Rational};
ghost use Rattle.infeasible_subset.specs.Subsets.{side_used, row_used, column_used};
ghost use Rattle.infeasible_subset.specs.Listed.{if_there, row_bounds, column_bounds, all_bounds};

use crate::{Member, Side};
use certificate::{Item, LeafWeights};
use fraction::Frac;
use instance::{Column, Instance, Row};
use std::alloc::{AllocError, Global};

/// All bounds that a problem has: rows first, by place, the lower one before the upper one.
pub(crate) fn all_bounds(alloc: Global, problem: &Instance) -> Result<Vec<Member>, AllocError>
    ensures { IfOk result (λ members. members.items ≡ all_bounds problem.now) }
{
    let mut members = Vec::new(alloc);
    add_rows(&mut members, problem.rows())?;
    add_columns(&mut members, problem.columns())?;
    Ok(members)
}

fn add_rows(members: &mut Vec<Member>, rows: &[Row]) -> Result<(), AllocError>
    ensures { OnOk result (members.new.items ≡ members.old.items ++ row_bounds 0 rows.now) }
{
    let mut place = 0;
    for row in rows {
        add(members, row.lower(), Member::OfRow(place, Side::Lower))?;
        add(members, row.upper(), Member::OfRow(place, Side::Upper))?;
        place += 1;
    }
    Ok(())
}

fn add_columns(members: &mut Vec<Member>, columns: &[Column]) -> Result<(), AllocError>
    ensures { OnOk result (members.new.items ≡ members.old.items ++ column_bounds 0 columns.now) }
{
    let mut place = 0;
    for column in columns {
        add(
            members,
            column.lower(),
            Member::OfColumn(place, Side::Lower),
        )?;
        add(
            members,
            column.upper(),
            Member::OfColumn(place, Side::Upper),
        )?;
        place += 1;
    }
    Ok(())
}

// The member, if its bound is there.
fn add(members: &mut Vec<Member>, bound: Option<Frac>, member: Member) -> Result<(), AllocError>
    ensures { OnOk result (members.new.items ≡ members.old.items ++ if_there bound member) }
{
    match bound {
        None => Ok(()),
        Some(_) => {
            members.push(member)?;
            Ok(())
        }
    }
}

/// The bounds that weights use, by rows and then by columns.
pub(crate) fn used(alloc: Global, weights: &LeafWeights) -> Result<Vec<Member>, AllocError>
    ensures { IfOk result (λ members. members.items ≡ map row_used weights.now.rows ++ map column_used weights.now.columns) }
{
    let mut members = Vec::new(alloc);
    let used = weights.weights();
    add_rows_used(&mut members, used.rows().as_slice())?;
    add_columns_used(&mut members, used.columns().as_slice())?;
    Ok(members)
}

fn add_rows_used(members: &mut Vec<Member>, items: &[Item]) -> Result<(), AllocError>
    ensures { OnOk result (members.new.items ≡ members.old.items ++ map row_used items.now) }
{
    for item in items {
        members.push(row_used(item))?;
    }
    Ok(())
}

fn add_columns_used(members: &mut Vec<Member>, items: &[Item]) -> Result<(), AllocError>
    ensures { OnOk result (members.new.items ≡ members.old.items ++ map column_used items.now) }
{
    for item in items {
        members.push(column_used(item))?;
    }
    Ok(())
}

pub(crate) fn row_used(item: &Item) -> Member
    ensures { result ≡ row_used item.now }
{
    Member::OfRow(item.index as usize, side_used(item.weight))
}

pub(crate) fn column_used(item: &Item) -> Member
    ensures { result ≡ column_used item.now }
{
    Member::OfColumn(item.index as usize, side_used(item.weight))
}

// The side that a weight uses.
fn side_used(weight: Frac) -> Side
    ensures { result ≡ side_used weight }
{
    if weight.is_positive() {
        Side::Lower
    } else {
        Side::Upper
    }
}
