// The members that columns and rows come from.
ghost use Rattle.std.specs.Prelude.{◌≡◌, ◌++◌, map, IfOk, OnOk};
ghost use Rattle.gmpl_rows.specs.Draft.{row_member};
ghost use Rattle.gmpl_rows.specs.Problem as spec;

use crate::demanded::Demanded;
use crate::draft::{Draft, RowHead};
use crate::member_column::MemberColumn;
use crate::term::Bounds;
use gmpl_solution::Member;
use gmpl_value::Tuple;
use std::alloc::{AllocError, Global};

/// The member that a column comes from, with the column's own bounds: those of the member's first demand.
#[derive(Drop)]
pub struct ColumnMember {
    pub member: Member,
    pub bounds: Bounds,
}

// A member of the variable at a place, where it is a column.
fn push_used(
    alloc: Global,
    members: &mut Vec<ColumnMember>,
    statement: usize,
    subscripts: &Tuple,
    column: &MemberColumn,
) -> Result<(), AllocError>
    ensures { OnOk result (members.new.items ≡ members.old.items ++ spec.used_member statement subscripts.now column.now) }
{
    if column.is_used() {
        let member = Member {
            statement,
            subscripts: subscripts.copied(alloc)?,
        };
        members.push(ColumnMember {
            member,
            bounds: column.bounds(),
        })?;
    }
    Ok(())
}

// The members of the variable at a place that are columns.
fn push_members(
    alloc: Global,
    members: &mut Vec<ColumnMember>,
    statement: usize,
    demanded: &Demanded,
) -> Result<(), AllocError>
    ensures { OnOk result (members.new.items ≡ members.old.items ++ spec.used_members statement demanded.now.members demanded.now.columns) }
{
    for (place, subscripts) in demanded.members().iter().enumerate() {
        push_used(
            alloc,
            members,
            statement,
            subscripts,
            demanded.column(place),
        )?;
    }
    Ok(())
}

/// The members that the columns of the problem come from, in the columns' order.
pub fn column_members(alloc: Global, draft: &Draft) -> Result<Vec<ColumnMember>, AllocError>
    ensures { IfOk result (λ made. made.items ≡ spec.column_members draft.now) }
{
    let mut members = Vec::new(alloc);
    let mut left = draft.demanded();
    for (place, _object) in draft.objects().iter().enumerate() {
        let Some((first, rest)) = left.split_first() else {
            return Ok(members);
        };
        push_members(alloc, &mut members, place, first)?;
        left = rest;
    }
    Ok(members)
}

fn members_of(alloc: Global, heads: &[RowHead]) -> Result<Vec<Member>, AllocError>
    ensures { IfOk result (λ made. made.items ≡ map row_member heads.now) }
{
    let mut members = Vec::new(alloc);
    for head in heads {
        members.push(head.member(alloc)?)?;
    }
    Ok(members)
}

/// The members that the rows of the problem come from, in the rows' order.
pub fn row_members(alloc: Global, draft: &Draft) -> Result<Vec<Member>, AllocError>
    ensures { IfOk result (λ made. made.items ≡ spec.row_members draft.now) }
{
    members_of(alloc, draft.rows())
}
