// The columns and rows of a cost's auxiliary problem.
ghost use Rattle.std.specs.Prelude.{◌≡◌, ◌==◌, cond, IfOk};
ghost use Rattle.rational.specs.Rational.{zero_ℚ, neg_ℚ};
ghost use Rattle.milp.specs.Points.{sign_of};
ghost use Rattle.ranging.specs.CostAuxiliary.{entry_unless_zero};
ghost use Rattle.ranging.specs.BoundAuxiliary.{free_column};
ghost use Rattle.exact_ranges.specs.CostParts.{weight_column, weights_for, cost_columns, row_at, rows_from};

use crate::forms::add_unless_zero;
use crate::table::AtColumn;
use fraction::Frac;
use instance::{Column, Entries, Name, Row, signed};
use milp::Direction;
use std::alloc::{AllocError, Global};

/// A column that takes all numbers.
pub(crate) fn free_column(alloc: Global) -> Result<Column, AllocError>
    ensures { IfOk result (λ column. column ≡ free_column) }
{
    Ok(Column::new(Name::new(alloc, "")?, None, None, false))
}

fn weight_column(alloc: Global) -> Result<Column, AllocError>
    ensures { IfOk result (λ column. column ≡ weight_column) }
{
    let zero = Frac::zero();
    Ok(Column::new(Name::new(alloc, "")?, Some(zero), None, false))
}

/// The cost, and a weight for each form.
pub(crate) fn cost_columns(alloc: Global, forms: &[Entries]) -> Result<Vec<Column>, AllocError>
    ensures { IfOk result (λ columns. columns.items ≡ cost_columns forms.now) }
{
    let mut columns = Vec::new(alloc);
    columns.push(free_column(alloc)?)?;
    for _form in forms {
        columns.push(weight_column(alloc)?)?;
    }
    Ok(columns)
}

/// For each column the row that says that the weighted forms are the objective there, where the cost of column `unknown` is
/// the unknown one.
pub(crate) fn cost_rows(
    alloc: Global,
    direction: Direction,
    unknown: usize,
    table: &[AtColumn],
) -> Result<Vec<Row>, AllocError>
    ensures { IfOk result (λ rows. rows.items ≡ rows_from direction unknown 0 table.now) }
{
    let mut rows = Vec::new(alloc);
    let mut place = 0;
    for at in table {
        rows.push(row_at(alloc, direction, unknown, place, at)?)?;
        place += 1;
    }
    Ok(rows)
}

fn row_at(
    alloc: Global,
    direction: Direction,
    unknown: usize,
    place: usize,
    at: &AtColumn,
) -> Result<Row, AllocError>
    ensures { IfOk result (λ row. row ≡ row_at direction unknown place at.now) }
{
    let is_unknown = place == unknown;
    let given = if is_unknown { Frac::zero() } else { at.cost };
    let entries = row_entries(alloc, direction, is_unknown, at)?;
    Ok(Row::new(Name::new(alloc, "")?, Some(given), Some(given), entries))
}

fn row_entries(
    alloc: Global,
    direction: Direction,
    is_unknown: bool,
    at: &AtColumn,
) -> Result<Entries, AllocError>
    ensures { IfOk result (λ entries. entries ≡ entry_unless_zero 0 (cond is_unknown (neg_ℚ (sign_of direction)) zero_ℚ) at.now.weights) }
{
    let mut entries = Vec::new(alloc);
    add_unless_zero(&mut entries, 0, cost_coefficient(direction, is_unknown))?;
    entries.extend_from_slice(at.weights.as_slice())?;
    Ok(Entries::from_vec(entries))
}

fn cost_coefficient(direction: Direction, is_unknown: bool) -> Frac
    ensures { result ≡ cond is_unknown (neg_ℚ (sign_of direction)) zero_ℚ }
{
    if is_unknown {
        sign(direction).neg()
    } else {
        Frac::zero()
    }
}

fn sign(direction: Direction) -> Frac
    ensures { result ≡ sign_of direction }
{
    match direction {
        Direction::Min => Frac::one(),
        Direction::Max => Frac::whole(-1),
    }
}
