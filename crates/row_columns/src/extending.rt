// A problem with a column for the whole form of each row that has one.
ghost use Rattle.std.specs.Prelude.{◌≡◌, ◌+◌, ◌++◌, [], true, length, map, IsTrue, IfOk, OnOk};
ghost use Rattle.std.specs.List.{list_all, AllByRecursion};
ghost use Rattle.verdicts.specs.Proves.{is_whole_form};
ghost use Rattle.instance.specs.WellFormed.{are_entries};
ghost use Rattle.certificate.specs.Written.{count_max};
ghost use Rattle.row_columns.specs.RowForms.{AreRowForms};
ghost use Rattle.row_columns.specs.Extended.{moved, moved_row, IsExtended};
ghost use Rattle.row_columns.specs.Extending.{column_names, row_names, AreWithin, form_columns, tying_rows};

use crate::columns::{add_columns, add_form_columns};
use crate::forms::Forms;
use crate::moving::moved;
use crate::names::prefix;
use crate::row_forms::row_forms;
use crate::rows::{add_moved_rows, add_tying_rows};
use instance::{Builder, Entries, Instance};
use std::alloc::{AllocError, Global};

/// A problem with columns for the whole forms of another one's rows, and these forms.
#[derive(Drop)]
pub struct Extension {
    pub problem: Instance,
    pub forms: Forms,
}

fn count_of(forms: &[Entries]) -> Result<u32, AllocError>
    ensures { IfOk result (λ count. count ≡ length forms.now) }
{
    match u32::try_from(forms.len()) {
        Ok(count) => Ok(count),
        Err(_) => Err(AllocError),
    }
}

// The columns of the extended problem, without rows.
fn with_columns(
    alloc: Global,
    problem: &Instance,
    prefix: &str,
    forms: &[Entries],
    count: u32,
) -> Result<Builder, AllocError>
    requires names { AreWithin (length prefix.now) (column_names problem.now.columns) }
    requires count { count ≡ length forms.now }
    ensures columns { IfOk result (λ made. made.columns ≡ form_columns prefix.now 0 forms.now ++ problem.now.columns) }
    ensures rows { IfOk result (λ made. made.rows ≡ []) }
{
    problem.keeps_its_limits();
    let mut builder = Builder::new(alloc)?;
    add_form_columns(alloc, &mut builder, prefix, forms)?;
    add_columns(alloc, &mut builder, problem.columns())?;
    Ok(builder)
}

// The rows of the extended problem.
fn add_rows(
    alloc: Global,
    builder: &mut Builder,
    problem: &Instance,
    prefix: &str,
    forms: &[Entries],
    count: u32,
) -> Result<(), AllocError>
    requires rows { builder.old.rows ≡ [] }
    requires size { length builder.old.columns ≡ count + length problem.now.columns }
    requires names { AreWithin (length prefix.now) (row_names problem.now.rows) }
    requires count { count ≡ length forms.now }
    requires whole { list_all (is_whole_form problem.now) forms.now ≡ true }
    requires ascending { AllByRecursion (λ form. IsTrue (are_entries count_max form)) forms.now }
    ensures { OnOk result (builder.new ≡ record builder.old { rows = map (moved_row count) problem.now.rows ++ tying_rows prefix.now count 0 forms.now }) }
{
    problem.keeps_its_limits();
    add_moved_rows(alloc, builder, problem.rows(), count)?;
    add_tying_rows(alloc, builder, prefix, forms, count)
}

// The objective of the extended problem.
fn set_objective(
    alloc: Global,
    builder: &mut Builder,
    problem: &Instance,
    count: u32,
) -> Result<(), AllocError>
    requires { length builder.old.columns ≡ count + length problem.now.columns }
    ensures { OnOk result (builder.new ≡ record builder.old { direction = problem.now.direction; objective_name = problem.now.objective_name; objective = moved count problem.now.objective; constant = problem.now.constant }) }
{
    problem.keeps_its_limits();
    let name = problem.objective_name().copy(alloc)?;
    let form = moved(alloc, problem.objective().as_slice(), count)?;
    builder.objective(problem.direction(), name, form, problem.constant());
    Ok(())
}

// The problem with a column for each of these forms.
fn extended(alloc: Global, problem: &Instance, forms: &[Entries]) -> Result<Instance, AllocError>
    requires whole { list_all (is_whole_form problem.now) forms.now ≡ true }
    requires ascending { AllByRecursion (λ form. IsTrue (are_entries count_max form)) forms.now }
    ensures { IfOk result (IsExtended problem.now forms.now) }
{
    let count = count_of(forms)?;
    let text = prefix(alloc, problem)?;
    let prefix = text.as_str();
    let mut builder = with_columns(alloc, problem, prefix, forms, count)?;
    add_rows(alloc, &mut builder, problem, prefix, forms, count)?;
    set_objective(alloc, &mut builder, problem, count)?;
    Ok(builder.done())
}

/// The problem with a column for the whole form of each of its rows that has one, before its own columns. Where it would
/// have more columns, rows or entries than a problem may, memory counts as wanting.
pub fn with_row_columns(alloc: Global, problem: &Instance) -> Result<Extension, AllocError>
    ensures forms { IfOk result (λ made. AreRowForms problem.now problem.now.rows made.forms) }
    ensures whole { IfOk result (λ made. list_all (is_whole_form problem.now) made.forms ≡ true) }
    ensures extended { IfOk result (λ made. IsExtended problem.now made.forms made.problem) }
{
    problem.keeps_its_limits();
    let forms = row_forms(alloc, problem, problem.rows())?;
    let problem = extended(alloc, problem, forms.as_slice())?;
    Ok(Extension { problem, forms })
}
