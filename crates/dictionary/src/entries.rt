// Entries in ascending order of column.
ghost use Rattle.std.specs.Prelude.{ℕ, [], ◌∷◌, ◌++◌, ◌+◌, ◌≤◌, ◌≡◌, ◌≢◌, length, take, drop, map, OnOk, IfOk, IfErr};
ghost use Rattle.rational.specs.Rational.{Rational, ◌+ℚ◌, ◌*ℚ◌};
ghost use Rattle.verdicts.specs.WeightedSums.{AllBelow, coefficient_of};
ghost use Rattle.dictionary.specs.Ascending.{IsAscending};
ghost use Rattle.dictionary.specs.Faults.{IfNoFit};
ghost use Rattle.dictionary.specs.Rows.{IsProductOrSum};
ghost use Rattle.dictionary.specs.Sparse.{entry_unless_zero, IsAdded, IsMerged, IsMergeFault};

use crate::fault::Fault;
use crate::row::mul_add;
use fraction::Frac;
use instance::Entry;
use std::alloc::{AllocError, Global};

// The place of the first entry whose column is at least this one.
pub(crate) fn first_from(form: &[Entry], column: usize) -> usize
    requires { IsAscending 0 form.now }
    ensures within { result ≤ length form.now }
    ensures before { AllBelow column (take result form.now) }
    ensures behind { IsAscending column (drop result form.now) }
{
    form.partition_point(|entry| (entry.column as usize) < column)
}

// The coefficient of a column in entries from it on.
pub(crate) fn first_coefficient(form: &[Entry], column: usize) -> Frac
    requires { IsAscending column form.now }
    ensures { result ≡ coefficient_of form.now column }
{
    match form.first() {
        Some(entry) if entry.column as usize == column => entry.coefficient,
        _ => Frac::zero(),
    }
}

// The coefficient of a column.
pub(crate) fn coefficient_of(form: &[Entry], column: usize) -> Frac
    requires { IsAscending 0 form.now }
    ensures { result ≡ coefficient_of form.now column }
{
    first_coefficient(&form[first_from(form, column)..], column)
}

// The entries behind the column, of those from it on.
fn behind(form: &[Entry], column: usize) -> &[Entry]
    requires { IsAscending column form.now }
    ensures ascending { IsAscending (column + 1) result.now }
    ensures others { (j : ℕ) → j ≢ column → coefficient_of result.now j ≡ coefficient_of form.now j }
    ensures below { (n : ℕ) → AllBelow n form.now → AllBelow n result.now }
{
    match form.split_first() {
        Some((entry, rest)) if entry.column as usize == column => rest,
        _ => form,
    }
}

// `old`, and `factor` times the entries of `added`. Coefficients that become 0 are left out.
pub(crate) fn merged(
    alloc: Global,
    old: &[Entry],
    factor: Frac,
    added: &[Entry],
) -> Result<Vec<Entry>, Fault>
    requires old { IsAscending 0 old.now }
    requires added { IsAscending 0 added.now }
    ensures ok { IfOk result (λ made. IsMerged old.now factor added.now made.items) }
    ensures err { IfErr result (IfNoFit (IsMergeFault old.now factor added.now)) }
{
    let mut entries = Vec::new(alloc);
    let mut rest = old;
    for entry in added {
        rest = add_entry(&mut entries, rest, factor, *entry)?;
    }
    entries.extend_from_slice(rest)?;
    Ok(entries)
}

// Adds `factor` times the entry to those of `done` and `rest`, and leaves what is behind its column in `rest`.
fn add_entry<'a>(
    done: &mut Vec<Entry>,
    rest: &'a [Entry],
    factor: Frac,
    entry: Entry,
) -> Result<&'a [Entry], Fault>
    requires ascending { IsAscending 0 (done.old.items ++ rest.now) }
    requires done { AllBelow entry.column done.old.items }
    ensures ok { IfOk result (λ behind. IsAdded (done.old.items ++ rest.now) factor entry done.new.items behind.now) }
    ensures err { IfErr result (IfNoFit (IsProductOrSum factor entry.coefficient (coefficient_of (done.old.items ++ rest.now) entry.column))) }
{
    let column = entry.column as usize;
    let (before, rest) = rest.split_at(first_from(rest, column));
    let number = mul_add(factor, entry.coefficient, first_coefficient(rest, column))?;
    extend(
        done,
        before,
        Entry {
            column: entry.column,
            coefficient: number,
        },
    )?;
    Ok(behind(rest, column))
}

// Appends these entries, and then this one, unless its coefficient is 0.
fn extend(done: &mut Vec<Entry>, before: &[Entry], entry: Entry) -> Result<(), AllocError>
    ensures { OnOk result (done.new.items ≡ (done.old.items ++ before.now) ++ entry_unless_zero entry) }
{
    done.extend_from_slice(before)?;
    if !entry.coefficient.is_zero() {
        done.push(entry)?;
    }
    Ok(())
}
