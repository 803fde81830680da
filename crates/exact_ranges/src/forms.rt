// Linear forms.
ghost use Rattle.std.specs.Prelude.{◌≡◌, ◌++◌, ◌∷◌, [], IsTrue, IfOk, OnOk};
ghost use Rattle.milp.specs.Form.{number_at};
ghost use Rattle.milp.specs.Points.{sign_of};
ghost use Rattle.verdicts.specs.WeightedSums.{scaled, coefficient_of};
ghost use Rattle.cert_check.specs.Lookup.{entry_at};
ghost use Rattle.cert_check.specs.Parts.{ascending};
ghost use Rattle.ranging.specs.CostAuxiliary.{entry_unless_zero};
ghost use Rattle.exact_ranges.specs.Reached.{unit_form};

use fraction::Frac;
use instance::{Entries, Entry, signed};
use milp::Direction;
use std::alloc::{AllocError, Global};

/// The form that is one column.
pub(crate) fn unit_form(alloc: Global, column: u32) -> Result<Vec<Entry>, AllocError>
    ensures { IfOk result (λ form. form.items ≡ unit_form column) }
{
    let mut form = Vec::new(alloc);
    form.push(Entry {
        column,
        coefficient: Frac::one(),
    })?;
    Ok(form)
}

/// The entries of a form, negated where the greatest value is wanted.
pub(crate) fn signed_form(
    alloc: Global,
    form: &[Entry],
    direction: Direction,
) -> Result<Vec<Entry>, AllocError>
    ensures { IfOk result (λ made. made.items ≡ scaled (sign_of direction) form.now) }
{
    let mut made = Vec::new(alloc);
    for entry in form {
        made.push(Entry {
            column: entry.column,
            coefficient: signed(direction, entry.coefficient),
        })?;
    }
    Ok(made)
}

/// One more entry, where its coefficient is not 0.
pub(crate) fn add_unless_zero(
    entries: &mut Vec<Entry>,
    column: u32,
    coefficient: Frac,
) -> Result<(), AllocError>
    ensures { OnOk result (entries.new.items ≡ entries.old.items ++ entry_unless_zero column coefficient []) }
{
    if coefficient.is_zero() {
        return Ok(());
    }
    entries.push(Entry {
        column,
        coefficient,
    })?;
    Ok(())
}

// The coefficient of the column's first entry.
fn entry_at(form: &[Entry], column: u32) -> Option<Frac>
    ensures { result ≡ entry_at form.now column }
{
    for entry in form {
        if entry.column == column {
            return Some(entry.coefficient);
        }
    }
    None
}

/// The coefficient of a column in a form.
pub(crate) fn coefficient(form: &[Entry], column: u32) -> Frac
    requires { IsTrue (ascending 0 form.now) }
    ensures { result ≡ coefficient_of form.now column }
{
    match entry_at(form, column) {
        None => Frac::zero(),
        Some(coefficient) => coefficient,
    }
}

/// The number of a column in a point; 0 past the end.
pub(crate) fn number(x: &[Frac], column: u32) -> Frac
    ensures { result ≡ number_at x.now column }
{
    match x.get(column as usize) {
        Some(v) => *v,
        None => Frac::zero(),
    }
}
