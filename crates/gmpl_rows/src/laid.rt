// Columns in their order, with their coefficients.
ghost use Rattle.std.specs.Prelude.{◌≡◌, ◌++◌, OnOk, IfOk};
ghost use Rattle.std.specs.List.{IsDistinct};
ghost use Rattle.gmpl_value.specs.SymbolEquality.{tuple_eq};
ghost use Rattle.gmpl_member_names.specs.Narrow.{AreNarrow};
ghost use Rattle.gmpl_rows.specs.Problem.{laid_member, laid_in, laid_out};
ghost use Rattle.gmpl_rows.specs.Named.{AreUsedNarrow, AreApart};

use crate::declared::Declared;
use crate::demanded::Demanded;
use crate::member_column::{Cell, MemberColumn};
use crate::named::instance_name;
use gmpl_value::Tuple;
use instance::Column;
use std::alloc::{AllocError, Global};
use std::marker::Model;

// A column, and its coefficients by row.
#[derive(Drop)]
pub(crate) struct LaidColumn {
    column: Column,
    cells: Vec<Cell>,
}

impl Model for LaidColumn {
    ghost use Rattle.gmpl_rows.specs.Problem.{LaidColumn as LaidColumnOf};

    ghost Value = { LaidColumnOf };

    ghost view = { λ l. record { column = l.column; cells = l.cells.items } };
}

impl LaidColumn {
    pub(crate) fn cells(&self) -> &[Cell]
        ensures { result.now ≡ self.now.cells }
    {
        &self.cells
    }

    pub(crate) fn into_column(self) -> Column
        ensures { result ≡ self.column }
    {
        self.column
    }
}

// The columns of all variables.
pub(crate) fn lay_out(
    alloc: Global,
    declared: &[Declared],
    demanded: &[Demanded],
) -> Result<Vec<LaidColumn>, AllocError>
    ensures value { IfOk result (λ laid. laid.items ≡ laid_out declared.now demanded.now) }
    ensures apart { OnOk result (AreApart declared.now demanded.now) }
{
    let mut laid = Vec::new(alloc);
    let mut left = demanded;
    for object in declared {
        let Some((first, rest)) = left.split_first() else {
            return Ok(laid);
        };
        lay_variable(alloc, &mut laid, object, first)?;
        left = rest;
    }
    Ok(laid)
}

// The columns of one variable.
fn lay_variable(
    alloc: Global,
    laid: &mut Vec<LaidColumn>,
    object: &Declared,
    demanded: &Demanded,
) -> Result<(), AllocError>
    ensures value { OnOk result (laid.new.items ≡ laid.old.items ++ laid_in object.now demanded.now.members demanded.now.columns) }
    ensures narrow { OnOk result (AreUsedNarrow demanded.now.members demanded.now.columns) }
    ensures distinct { IsDistinct tuple_eq demanded.now.members }
{
    for (place, member) in demanded.members().iter().enumerate() {
        let column = demanded.column(place);
        if column.is_used() {
            laid.push(laid_member(alloc, object, member, column)?)?;
        }
    }
    Ok(())
}

fn laid_member(
    alloc: Global,
    object: &Declared,
    member: &Tuple,
    column: &MemberColumn,
) -> Result<LaidColumn, AllocError>
    ensures value { IfOk result (λ made. made ≡ laid_member object.now member.now column.now) }
    ensures narrow { OnOk result (AreNarrow member.now) }
{
    let name = instance_name(alloc, &object.name, member)?;
    let bounds = column.bounds();
    let mut cells = Vec::new(alloc);
    cells.extend_from_slice(column.cells())?;
    Ok(LaidColumn {
        column: Column::new(name, bounds.lower, bounds.upper, object.integer),
        cells,
    })
}
