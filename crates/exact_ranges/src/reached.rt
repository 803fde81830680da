// The bounds that a point reaches.
ghost use Rattle.std.specs.Prelude.{negsuc, ◌≡◌, ◌≤◌, ◌++◌, length, Ok, IfOk, OnOk};
ghost use Rattle.rational.specs.Rational.{zero_ℚ, whole};
ghost use Rattle.milp.specs.Form.{sum_at};
ghost use Rattle.verdicts.specs.WeightedSums.{scaled};
ghost use Rattle.instance.specs.Sums.{sum_answer};
ghost use Rattle.exact_ranges.specs.ShownBest.{RowsFit};
ghost use Rattle.exact_ranges.specs.Reached.{if_reached, reached_by, unit_form, reached_columns, reached_rows, reached, does_reach};

use crate::forms::{number, signed_form, unit_form};
use fraction::Frac;
use instance::{Column, Entries, Entry, Instance, Row, sum};
use milp::Direction;
use std::alloc::{AllocError, Global};

/// The form of each bound that the point reaches, those of columns first; an upper bound's is negated.
pub(crate) fn reached(
    alloc: Global,
    problem: &Instance,
    x: &[Frac],
) -> Result<Vec<Entries>, AllocError>
    requires { RowsFit x.now problem.now.rows }
    ensures { IfOk result (λ forms. forms.items ≡ reached problem.now x.now) }
{
    problem.keeps_its_limits();
    let mut forms = Vec::new(alloc);
    add_columns(alloc, &mut forms, problem.columns(), x)?;
    add_rows(alloc, &mut forms, problem.rows(), x)?;
    Ok(forms)
}

fn add_columns(
    alloc: Global,
    forms: &mut Vec<Entries>,
    columns: &[Column],
    x: &[Frac],
) -> Result<(), AllocError>
    requires { length columns.now ≤ 1000000 }
    ensures { OnOk result (forms.new.items ≡ forms.old.items ++ reached_columns x.now 0 columns.now) }
{
    let mut place = 0;
    for column in columns {
        add_column(alloc, forms, column, place, x)?;
        place += 1;
    }
    Ok(())
}

fn add_rows(
    alloc: Global,
    forms: &mut Vec<Entries>,
    rows: &[Row],
    x: &[Frac],
) -> Result<(), AllocError>
    requires { RowsFit x.now rows.now }
    ensures { OnOk result (forms.new.items ≡ forms.old.items ++ reached_rows x.now rows.now) }
{
    for row in rows {
        add_row(alloc, forms, row, x)?;
    }
    Ok(())
}

fn add_column(
    alloc: Global,
    forms: &mut Vec<Entries>,
    column: &Column,
    place: u32,
    x: &[Frac],
) -> Result<(), AllocError>
    ensures { OnOk result (forms.new.items ≡ forms.old.items ++ reached_by (sum_at x.now (unit_form place)) (unit_form place) column.now.lower column.now.upper) }
{
    let form = unit_form(alloc, place)?;
    let value = unit_value(x, place);
    add_reached(alloc, forms, &form, value, column.lower(), column.upper())
}

fn add_row(alloc: Global, forms: &mut Vec<Entries>, row: &Row, x: &[Frac]) -> Result<(), AllocError>
    requires { sum_answer x.now zero_ℚ row.now.entries ≡ Ok (sum_at x.now row.now.entries) }
    ensures { OnOk result (forms.new.items ≡ forms.old.items ++ reached_by (sum_at x.now row.now.entries) row.now.entries row.now.lower row.now.upper) }
{
    let form = row.entries().as_slice();
    let value = sum_of(form, x);
    add_reached(alloc, forms, form, value, row.lower(), row.upper())
}

// The value of the form of a column: its number.
fn unit_value(x: &[Frac], column: u32) -> Frac
    ensures { result ≡ sum_at x.now (unit_form column) }
{
    number(x, column)
}

/// The value of a form whose sums fit.
pub(crate) fn sum_of(form: &[Entry], x: &[Frac]) -> Frac
    requires { sum_answer x.now zero_ℚ form.now ≡ Ok (sum_at x.now form.now) }
    ensures { result ≡ sum_at x.now form.now }
{
    match sum(form, x) {
        Ok(value) => value,
        Err(_) => unreachable!(),
    }
}

fn add_reached(
    alloc: Global,
    forms: &mut Vec<Entries>,
    form: &[Entry],
    value: Frac,
    lower: Option<Frac>,
    upper: Option<Frac>,
) -> Result<(), AllocError>
    ensures { OnOk result (forms.new.items ≡ forms.old.items ++ reached_by value form.now lower upper) }
{
    add_lower(alloc, forms, form, value, lower)?;
    add_upper(alloc, forms, form, value, upper)
}

fn add_lower(
    alloc: Global,
    forms: &mut Vec<Entries>,
    form: &[Entry],
    value: Frac,
    bound: Option<Frac>,
) -> Result<(), AllocError>
    ensures { OnOk result (forms.new.items ≡ forms.old.items ++ if_reached bound value form.now) }
{
    if !does_reach(bound, value) {
        return Ok(());
    }
    let copy = form.to_vec(alloc)?;
    forms.push(Entries::from_vec(copy))?;
    Ok(())
}

fn add_upper(
    alloc: Global,
    forms: &mut Vec<Entries>,
    form: &[Entry],
    value: Frac,
    bound: Option<Frac>,
) -> Result<(), AllocError>
    ensures { OnOk result (forms.new.items ≡ forms.old.items ++ if_reached bound value (scaled (whole (negsuc 0)) form.now)) }
{
    if !does_reach(bound, value) {
        return Ok(());
    }
    let negated = signed_form(alloc, form, Direction::Max)?;
    forms.push(Entries::from_vec(negated))?;
    Ok(())
}

fn does_reach(bound: Option<Frac>, value: Frac) -> bool
    ensures { result ≡ does_reach bound value }
{
    match bound {
        None => false,
        Some(b) => b == value,
    }
}
