// Rows of numbers.
ghost use Rattle.std.specs.Prelude.{ℕ, pos, [], length, map, true, ◌≡◌, ◌≢◌, ◌<◌, OnOk, IfOk, IfErr};
ghost use Rattle.rational.specs.Rational.{Rational, neg_ℚ, ◌+ℚ◌, ◌*ℚ◌, ◌/ℚ◌};
ghost use Rattle.milp.specs.Form.{number_at};
ghost use Rattle.verdicts.specs.WeightedSums.{AllBelow, coefficient_of};
ghost use Rattle.dictionary.specs.Ascending.{IsAscending};
ghost use Rattle.dictionary.specs.Faults.{IfNoFit};
ghost use Rattle.dictionary.specs.Rows.{IsSolved, IsSubstituted, IsSolvingFault, IsSubstitutionFault, IsProductOrSum, IsQuotient};
ghost use Rattle.dictionary.specs.Sparse.{numbers_of, dividend_of, solved_entry};

use crate::entries::{coefficient_of, first_coefficient, first_from, merged};
use crate::fault::Fault;
use fraction::{Frac, NoFit};
use instance::Entry;
use std::alloc::Global;
use std::marker::Model;

/// A list of numbers, of which those other than 0 are kept, as entries of the places at which they stand.
#[derive(Drop)]
pub(crate) struct Row {
    width: usize,
    entries: Vec<Entry>,
}

impl Model for Row {
    ghost use Rattle.std.specs.Prelude.{List};
    ghost use Rattle.rational.specs.Rational.{Rational};
    ghost use Rattle.verdicts.specs.WeightedSums.{AllBelow};
    ghost use Rattle.dictionary.specs.Ascending.{IsAscending};
    ghost use Rattle.dictionary.specs.Sparse.{numbers_of};

    ghost Value = { List Rational };

    ghost view = { λ r. numbers_of r.width r.entries.items };

    ghost invariant = { λ r. IsAscending 0 r.entries.items × AllBelow r.width r.entries.items };
}

impl Row {
    /// A row without numbers. It takes no memory.
    pub(crate) fn new(alloc: Global) -> Self
        ensures { result ≡ [] }
    {
        Row {
            width: 0,
            entries: Vec::new(alloc),
        }
    }

    /// The row of this many numbers, 0 where no entry stands. It takes no memory.
    pub(crate) fn from_vec(width: usize, entries: Vec<Entry>) -> Self
        requires ascending { IsAscending 0 entries.items }
        requires below { AllBelow width entries.items }
        ensures { result ≡ numbers_of width entries.items }
    {
        Row { width, entries }
    }

    /// The number at a place.
    pub(crate) fn at(&self, place: usize) -> Frac
        requires { place < length self.now }
        ensures { result ≡ number_at self.now place }
    {
        coefficient_of(&self.entries, place)
    }

    /// Solves the row for the place `at`: the number there becomes 1 over itself, and each other one its quotient by it,
    /// with the sign turned.
    pub(crate) fn solve(&mut self, at: usize) -> Result<(), NoFit>
        requires inside { at < length self.old }
        requires some { (number_at self.old at).numerator ≢ pos 0 }
        ensures ok { OnOk result (IsSolved self.old at self.new) }
        ensures err { IfErr result (IsSolvingFault self.old at) }
    {
        let divisor = coefficient_of(&self.entries, at);
        solve(&mut self.entries, at, divisor)
    }

    /// Puts the row `solved` in for the place `at`.
    pub(crate) fn substitute(&mut self, alloc: Global, solved: &Row, at: usize) -> Result<(), Fault>
        requires same_length { length self.old ≡ length solved.now }
        requires inside { at < length self.old }
        ensures ok { OnOk result (IsSubstituted self.old solved.now at self.new) }
        ensures err { IfErr result (IfNoFit (IsSubstitutionFault self.old solved.now at)) }
    {
        let place = first_from(&self.entries, at);
        let factor = first_coefficient(&self.entries[place..], at);
        // times 0 it adds nothing
        if factor.is_zero() {
            return Ok(());
        }
        self.entries.remove(place);
        self.entries = merged(alloc, &self.entries, factor, &solved.entries)?;
        Ok(())
    }
}

// Solves each entry for the column `at`, at which the row's number is `divisor`.
fn solve(entries: &mut [Entry], at: usize, divisor: Frac) -> Result<(), NoFit>
    requires { divisor.numerator ≢ pos 0 }
    ensures ok { OnOk result (entries.new ≡ map (solved_entry at divisor) entries.old) }
    ensures err { IsAscending 0 entries.old → divisor ≡ coefficient_of entries.old at → (width : ℕ) → AllBelow width entries.old → IfErr result (IsSolvingFault (numbers_of width entries.old) at) }
    ensures columns { IsAscending 0 entries.old → IsAscending 0 entries.new }
    ensures below { (width : ℕ) → AllBelow width entries.old → AllBelow width entries.new }
{
    for i in 0..entries.len() {
        entries[i] = solved_entry(entries[i], at, divisor)?;
    }
    Ok(())
}

fn solved_entry(entry: Entry, at: usize, divisor: Frac) -> Result<Entry, NoFit>
    requires { divisor.numerator ≢ pos 0 }
    ensures ok { IfOk result (λ solved. solved ≡ solved_entry at divisor entry) }
    ensures err { IfErr result (IsQuotient (dividend_of at entry) divisor) }
{
    let coefficient = minus_quotient(dividend(entry, at), divisor)?;
    Ok(Entry {
        column: entry.column,
        coefficient,
    })
}

// The entry's coefficient, or -1 at the column `at`.
fn dividend(entry: Entry, at: usize) -> Frac
    ensures { result ≡ dividend_of at entry }
{
    if entry.column as usize == at {
        Frac::whole(-1)
    } else {
        entry.coefficient
    }
}

// -(a / b)
fn minus_quotient(a: Frac, b: Frac) -> Result<Frac, NoFit>
    requires { b.numerator ≢ pos 0 }
    ensures ok { IfOk result (λ v. v ≡ neg_ℚ (a /ℚ b)) }
    ensures err { IfErr result (IsQuotient a b) }
{
    Ok(a.div(b)?.neg())
}

// factor * a + b, or the first of the product and the sum that does not fit.
pub(crate) fn mul_add(factor: Frac, a: Frac, b: Frac) -> Result<Frac, NoFit>
    ensures ok { IfOk result (λ v. v ≡ factor *ℚ a +ℚ b) }
    ensures err { IfErr result (IsProductOrSum factor a b) }
{
    factor.mul_add(a, b)
}
