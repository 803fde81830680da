// The whole forms of rows.
ghost use Rattle.std.specs.Prelude.{◌≡◌, true, IsTrue, IfOk, OnOk};
ghost use Rattle.std.specs.List.{list_all};
ghost use Rattle.milp.specs.Problem.{Row as RowOf};
ghost use Rattle.instance.specs.WellFormed.{are_entries};
ghost use Rattle.certificate.specs.Written.{count_max};
ghost use Rattle.row_columns.specs.RowForms.{AreRowForms};
ghost use Rattle.row_columns.specs.Scaling.{IsFormAdded};

use crate::forms::Forms;
use crate::scaling::whole_form;
use instance::{Instance, Row};
use std::alloc::{AllocError, Global};

// The row's whole form at the end, if it has one.
fn add_form(
    alloc: Global,
    problem: &Instance,
    row: &Row,
    forms: &mut Forms,
) -> Result<(), AllocError>
    requires { IsTrue (are_entries count_max row.now.entries) }
    ensures { OnOk result (IsFormAdded problem.now row.now.entries forms.old forms.new) }
{
    match whole_form(alloc, problem, row.entries().as_slice())? {
        Some(form) => forms.push(form),
        None => Ok(()),
    }
}

/// The whole forms of these rows, in order.
pub(crate) fn row_forms(
    alloc: Global,
    problem: &Instance,
    rows: &[Row],
) -> Result<Forms, AllocError>
    requires { IsTrue (list_all (λ (r : RowOf). are_entries count_max r.entries) rows.now) }
    ensures { IfOk result (AreRowForms problem.now rows.now) }
{
    let mut forms = Forms::new(alloc);
    for row in rows {
        add_form(alloc, problem, row, &mut forms)?;
    }
    Ok(forms)
}
