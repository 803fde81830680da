// Linear forms in the making.
ghost use Rattle.std.specs.Prelude.{◌≡◌, ℕ, ◌<◌, ◌++◌, ◌∷◌, [], Some, IsTrue, IfOk, OnOk, map};
ghost use Rattle.std.specs.Ordering.{nat_cmp};
ghost use Rattle.std.specs.BTreeMap.{get};
ghost use Rattle.fraction.specs.Answers.{add_answer};
ghost use Rattle.model_text.specs.Follows.{Follows, as_read};
ghost use Rattle.cplex_lp_draft.specs.Steps.{fitting_at};
ghost use Rattle.cplex_lp_draft.specs.Declaration.{added, entries_of};
ghost use Rattle.cplex_lp_draft.specs.Consistent.{are_terms, term_of, sum_with};

use fraction::Frac;
use instance::Entry;
use model_text::{FaultKind, FileFault, ReadError};
use std::alloc::{AllocError, Global};
use std::collections::BTreeMap;
use std::marker::Model;

// The sum of the terms of each column, zeros too, in order of column.
#[derive(Drop)]
pub(crate) struct Form {
    sums: BTreeMap<u32, Frac>,
}

impl Model for Form {
    ghost use Rattle.std.specs.Prelude.{List, map};
    ghost use Rattle.milp.specs.Form.{Entry as FormEntry};
    ghost use Rattle.std.specs.Ordering.{nat_cmp};
    ghost use Rattle.std.specs.BTreeMap.{IsOrdered};
    ghost use Rattle.cplex_lp_draft.specs.Consistent.{term_of};

    ghost Value = { List FormEntry };

    ghost view = { λ f. map term_of f.sums.entries };

    ghost invariant = { λ f. IsOrdered nat_cmp f.sums };
}

/// The sum of two numbers, or TooWide at a line.
pub fn sum_at(line: usize, a: Frac, b: Frac) -> Result<Frac, ReadError<FileFault>>
    ensures { result ≡ as_read (fitting_at line (add_answer a b)) }
{
    match a.add(b) {
        Ok(sum) => Ok(sum),
        Err(_) => Err(ReadError::Fault(FileFault {
            line,
            kind: FaultKind::TooWide,
        })),
    }
}

// A term added to those of its column, from the left.
fn sum_with(
    sums: &BTreeMap<u32, Frac>,
    line: usize,
    column: u32,
    value: Frac,
) -> Result<Frac, ReadError<FileFault>>
    ensures { result ≡ as_read (sum_with line (get nat_cmp sums.now column) value) }
{
    match sums.get(&column) {
        Some(before) => sum_at(line, *before, value),
        None => Ok(value),
    }
}

fn push_entry(entries: &mut Vec<Entry>, column: u32, coefficient: Frac) -> Result<(), AllocError>
    ensures { OnOk result (entries.new.items ≡ entries.old.items ++ entries_of (record { column = column; coefficient = coefficient } ∷ [])) }
{
    if !coefficient.is_zero() {
        entries.push(Entry {
            column,
            coefficient,
        })?;
    }
    Ok(())
}

// The sums as entries, but for zeros.
fn entries_in(alloc: Global, sums: &BTreeMap<u32, Frac>) -> Result<Vec<Entry>, AllocError>
    ensures { IfOk result (λ entries. entries.items ≡ entries_of (map term_of sums.now.entries)) }
{
    let mut entries = Vec::with_capacity(alloc, sums.len())?;
    for (column, coefficient) in sums {
        push_entry(&mut entries, *column, *coefficient)?;
    }
    Ok(entries)
}

impl Form {
    pub(crate) fn new(alloc: Global) -> Self
        ensures { result ≡ [] }
    {
        Form {
            sums: BTreeMap::new(alloc),
        }
    }

    // A term more; the fault is at its line.
    pub(crate) fn add(
        &mut self,
        line: usize,
        column: u32,
        value: Frac,
    ) -> Result<(), ReadError<FileFault>>
        ensures follows { Follows result self.new (added line column value self.old) }
        ensures terms { (count : ℕ) → column < count → IsTrue (are_terms count self.old) → IsTrue (are_terms count self.new) }
    {
        let sum = sum_with(&self.sums, line, column, value)?;
        match self.sums.insert(column, sum) {
            Ok(_) => Ok(()),
            Err(_) => Err(ReadError::NoMemory),
        }
    }

    // The entries but for zeros.
    pub(crate) fn entries(&self, alloc: Global) -> Result<Vec<Entry>, AllocError>
        ensures { IfOk result (λ entries. entries.items ≡ entries_of self.now) }
    {
        entries_in(alloc, &self.sums)
    }
}
