// A problem with its entries by column.
ghost use Rattle.std.specs.Prelude.{◌≡◌, ◌<◌, IsTrue, length, slice_get};
ghost use Rattle.certificate.specs.Written.{AreItemsFrom};
ghost use Rattle.instance.specs.Sums.{form_of};
ghost use Rattle.cert_check.specs.Parts.{ascending};
ghost use Rattle.cert_check.specs.Sums.{products, item_products, with_products};

use crate::lookup::with_entries;
use crate::sums::with_coefficient;
use certificate::Item;
use fraction::{Frac, NoFit};
use instance::{EntriesByColumn, Entry, Instance};
use std::alloc::Global;
use std::marker::Model;

/// A problem, with its entries by column where they are wanted and there is memory for them.
#[derive(Drop)]
pub struct ByColumn<'a> {
    alloc: Global,
    problem: &'a Instance,
    entries: Option<EntriesByColumn>,
}

impl<'a> Model for ByColumn<'a> {
    ghost use Rattle.std.specs.Prelude.{IfSome};
    ghost use Rattle.milp.specs.Problem.{Problem};
    ghost use Rattle.instance.specs.ByColumn.{AreByColumn};

    ghost Value = { Problem };

    ghost view = { λ p. p.problem.now };

    ghost invariant = { λ p. IfSome p.entries (λ lists. AreByColumn lists p.problem.now.columns p.problem.now.rows) };
}

impl<'a> ByColumn<'a> {
    /// The problem, whose entries are gone over once.
    pub fn new(alloc: Global, problem: &'a Instance) -> Self
        ensures same { result ≡ problem.now }
    {
        ByColumn {
            alloc,
            problem,
            entries: problem.by_column().ok(),
        }
    }

    // The problem by row alone, for one test whose sums mostly fit.
    pub(crate) fn by_row(alloc: Global, problem: &'a Instance) -> Self
        ensures { result ≡ problem.now }
    {
        ByColumn {
            alloc,
            problem,
            entries: None,
        }
    }

    // Where memory for totals is taken from.
    pub(crate) fn alloc(&self) -> Global {
        self.alloc
    }

    // The problem.
    pub(crate) fn problem(&self) -> &'a Instance
        ensures { result.now ≡ self.now }
    {
        self.problem
    }

    // A total plus the weights of rows, each times the row's coefficient of a column: over the column's entries, or over
    // the weights where the entries are not there.
    pub(crate) fn with_rows(&self, items: &[Item], column: u32, start: Frac) -> Result<Frac, NoFit>
        requires column { column < length self.now.columns }
        requires items { AreItemsFrom 0 items.now }
        ensures { result ≡ with_products start (item_products (λ i. form_of (slice_get self.now.rows i)) items.now column) }
    {
        self.problem.keeps_its_limits();
        match &self.entries {
            Some(entries) => with_entries(start, entries.get(column), items),
            None => with_items(self.problem, items, column, start),
        }
    }
}

// The form of the row at a place, empty where there is none.
fn row_form(problem: &Instance, row: u32) -> &[Entry]
    ensures form { result.now ≡ form_of (slice_get problem.now.rows row) }
    ensures order { IsTrue (ascending 0 result.now) }
{
    problem.keeps_its_limits();
    match problem.rows().get(row as usize) {
        None => &[],
        Some(row) => row.entries().as_slice(),
    }
}

// A total plus a weight times the coefficient of a column in the row that it names.
fn with_item(problem: &Instance, item: Item, column: u32, total: Frac) -> Result<Frac, NoFit>
    ensures { result ≡ with_products total (products item.weight (form_of (slice_get problem.now.rows item.index)) column) }
{
    let form = row_form(problem, item.index);
    with_coefficient(total, item.weight, form, column)
}

// A total plus the weights of rows, each times the row's coefficient of a column, row by row.
fn with_items(problem: &Instance, items: &[Item], column: u32, start: Frac) -> Result<Frac, NoFit>
    ensures { result ≡ with_products start (item_products (λ i. form_of (slice_get problem.now.rows i)) items.now column) }
{
    let mut total = start;
    for item in items {
        total = with_item(problem, *item, column, total)?;
    }
    Ok(total)
}
