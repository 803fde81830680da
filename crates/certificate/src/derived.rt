// Derived rows, and what shows them.
ghost use Rattle.std.specs.Prelude.{◌≡◌, ◌<◌, ◌≤◌, [], ◌∷◌, ◌++◌, length, IsTrue, IfOk, OnOk, OnErr, IfErr};
ghost use Rattle.std.specs.List.{AllByRecursion};
ghost use Rattle.fraction.specs.Fits.{fits};
ghost use Rattle.instance.specs.WellFormed.{are_entries};
ghost use Rattle.certificate.specs.Written.{count_max, IsFormSplit, IsDerived, IsProof};
ghost use Rattle.certificate.specs.Values.{proof_of};

use crate::whole::parts_fit;
use crate::{Weights, WholeNumber};
use fraction::Frac;
use instance::{Entries, Entry};
use std::alloc::{AllocError, AllocFailed, Global};
use std::marker::Model;

/// Two cases that cover every feasible point: the form is at most `at` (the low side) or at least `at + 1` (the high
/// side). Each side has a weight of its own inequality, and weights of rows and columns.
#[derive(Drop)]
pub struct FormSplit {
    at: WholeNumber,
    form: Entries,
    low: Frac,
    low_weights: Weights,
    high: Frac,
    high_weights: Weights,
}

impl Model for FormSplit {
    ghost use Rattle.verdicts.specs.Certificate.{FormSplit as FormSplitOf};
    ghost use Rattle.certificate.specs.Written.{IsFormSplit};

    ghost Value = { FormSplitOf };

    ghost view = { λ s. record { at = s.at; form = s.form; low = s.low; low_weights = s.low_weights; high = s.high; high_weights = s.high_weights } };

    ghost invariant = { λ s. IsFormSplit (record { at = s.at; form = s.form; low = s.low; low_weights = s.low_weights; high = s.high; high_weights = s.high_weights }) };
}

impl FormSplit {
    /// The split of these parts. It takes no memory.
    pub fn new(
        at: WholeNumber,
        form: Entries,
        low: Frac,
        low_weights: Weights,
        high: Frac,
        high_weights: Weights,
    ) -> Self
        requires { IsTrue (are_entries count_max form) }
        ensures { result ≡ record { at = at; form = form; low = low; low_weights = low_weights; high = high; high_weights = high_weights } }
    {
        let _at = at.get();
        entries_fit(form.as_slice());
        parts_fit(low);
        let _low = low_weights.rows();
        parts_fit(high);
        let _high = high_weights.rows();
        FormSplit {
            at,
            form,
            low,
            low_weights,
            high,
            high_weights,
        }
    }

    /// The same split.
    pub fn copy(&self, alloc: Global) -> Result<Self, AllocError>
        ensures { IfOk result (λ copy. copy ≡ self.now) }
    {
        let at = self.at();
        let form = self.form.copy(alloc)?;
        let low_weights = self.low_weights.copy(alloc)?;
        let high_weights = self.high_weights.copy(alloc)?;
        Ok(FormSplit::new(at, form, self.low, low_weights, self.high, high_weights))
    }

    /// Where the cases part. All of the split has a text.
    pub fn at(&self) -> WholeNumber
        ensures at { result ≡ self.now.at }
        ensures written { IsFormSplit self.now }
    {
        self.at
    }

    /// The form whose value decides the case.
    pub fn form(&self) -> &Entries
        ensures { result.now ≡ self.now.form }
    {
        &self.form
    }

    /// The weight of `form <= at` on the low side.
    pub fn low(&self) -> Frac
        ensures { result ≡ self.now.low }
    {
        self.low
    }

    /// The other weights of the low side.
    pub fn low_weights(&self) -> &Weights
        ensures { result.now ≡ self.now.low_weights }
    {
        &self.low_weights
    }

    /// The weight of `form >= at + 1` on the high side.
    pub fn high(&self) -> Frac
        ensures { result ≡ self.now.high }
    {
        self.high
    }

    /// The other weights of the high side.
    pub fn high_weights(&self) -> &Weights
        ensures { result.now ≡ self.now.high_weights }
    {
        &self.high_weights
    }
}

/// What shows a derived row.
#[derive(Drop)]
pub enum Proof {
    /// A sum of weights.
    Plain(Weights),
    /// A sum of weights in each of two cases.
    BySplit(FormSplit),
}

impl Proof {
    /// The same proof.
    pub fn copy(&self, alloc: Global) -> Result<Self, AllocError>
        ensures { IfOk result (λ copy. proof_of copy ≡ proof_of self.now) }
    {
        match self {
            Proof::Plain(weights) => Ok(Proof::Plain(weights.copy(alloc)?)),
            Proof::BySplit(split) => Ok(Proof::BySplit(split.copy(alloc)?)),
        }
    }
}

// What shows a derived row has a text.
fn proof_has_text(proof: &Proof)
    ensures { IsProof (proof_of proof.now) }
{
    match proof {
        Proof::Plain(weights) => {
            let _rows = weights.rows();
        }
        Proof::BySplit(split) => {
            let _at = split.at();
        }
    }
}

// Each coefficient is within 128 bits.
pub(crate) fn entries_fit(form: &[Entry])
    ensures { AllByRecursion (λ e. IsTrue (fits e.coefficient)) form.now }
{
    for entry in form {
        parts_fit(entry.coefficient);
    }
}

/// A row that follows from those of the problem: the form is at least the bound at each feasible point.
#[derive(Drop)]
pub struct Derived {
    bound: Frac,
    form: Entries,
    proof: Proof,
}

impl Model for Derived {
    ghost use Rattle.verdicts.specs.Certificate.{Derived as DerivedOf};
    ghost use Rattle.certificate.specs.Written.{IsDerived};
    ghost use Rattle.certificate.specs.Values.{proof_of};

    ghost Value = { DerivedOf };

    ghost view = { λ d. record { bound = d.bound; form = d.form; proof = proof_of d.proof } };

    ghost invariant = { λ d. IsDerived (record { bound = d.bound; form = d.form; proof = proof_of d.proof }) };
}

impl Derived {
    /// The derived row of these parts. It takes no memory.
    pub fn new(bound: Frac, form: Entries, proof: Proof) -> Self
        requires { IsTrue (are_entries count_max form) }
        ensures { result ≡ record { bound = bound; form = form; proof = proof_of proof } }
    {
        parts_fit(bound);
        entries_fit(form.as_slice());
        proof_has_text(&proof);
        Derived { bound, form, proof }
    }

    /// The same derived row.
    pub fn copy(&self, alloc: Global) -> Result<Self, AllocError>
        ensures { IfOk result (λ copy. copy ≡ self.now) }
    {
        let bound = self.bound();
        let form = self.form.copy(alloc)?;
        let proof = self.proof.copy(alloc)?;
        Ok(Derived::new(bound, form, proof))
    }

    /// What the form is at least. All of the row has a text.
    pub fn bound(&self) -> Frac
        ensures bound { result ≡ self.now.bound }
        ensures written { IsDerived self.now }
    {
        self.bound
    }

    /// The form.
    pub fn form(&self) -> &Entries
        ensures { result.now ≡ self.now.form }
    {
        &self.form
    }

    /// What shows the row.
    pub fn proof(&self) -> &Proof
        ensures { proof_of result.now ≡ self.now.proof }
    {
        &self.proof
    }
}

/// Derived rows, at most 2^32 - 1 of them.
#[derive(Drop)]
pub struct DerivedRows {
    rows: Vec<Derived>,
}

impl Model for DerivedRows {
    ghost use Rattle.std.specs.Prelude.{List, length, ◌≤◌};
    ghost use Rattle.std.specs.List.{AllByRecursion};
    ghost use Rattle.verdicts.specs.Certificate.{Derived as DerivedOf};
    ghost use Rattle.certificate.specs.Written.{count_max, IsDerived};

    ghost Value = { List DerivedOf };

    ghost view = { λ d. d.rows.items };

    ghost invariant = { λ d. (length d.rows.items ≤ count_max) × AllByRecursion IsDerived d.rows.items };
}

impl DerivedRows {
    /// No derived rows.
    pub fn new(alloc: Global) -> Self
        ensures { result ≡ [] }
    {
        DerivedRows {
            rows: Vec::new(alloc),
        }
    }

    /// One more derived row, at the end. It comes back where memory is wanting.
    pub fn push(&mut self, row: Derived) -> Result<(), AllocFailed<Derived>>
        requires { length self.old < count_max }
        ensures ok { OnOk result (self.new ≡ self.old ++ row ∷ []) }
        ensures kept { OnErr result (self.new ≡ self.old) }
        ensures back { IfErr result (λ e. e.value ≡ row) }
    {
        let _bound = row.bound();
        self.rows.push(row)
    }

    /// The same derived rows.
    pub fn copy(&self, alloc: Global) -> Result<Self, AllocError>
        ensures { IfOk result (λ copy. copy ≡ self.now) }
    {
        let mut copy = DerivedRows::new(alloc);
        let rows = self.as_slice();
        for row in rows {
            let row = row.copy(alloc)?;
            copy.push(row)?;
        }
        Ok(copy)
    }

    /// The derived rows, for reading. All of them have a text.
    pub fn as_slice(&self) -> &[Derived]
        ensures rows { result.now ≡ self.now }
        ensures count { length self.now ≤ count_max }
        ensures written { AllByRecursion IsDerived self.now }
    {
        &self.rows
    }
}
