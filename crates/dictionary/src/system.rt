// Linear programs in the form that the simplex method works on.
ghost use Rattle.std.specs.Prelude.{ℕ, length, get_or, slice_get, Some, ◌≡◌, ◌<◌};
ghost use Rattle.basis.specs.System.{size, lower_of, upper_of, IsSystem};
ghost use Rattle.verdicts.specs.Proves.{lies_above, lies_below};
ghost use Rattle.dictionary.specs.Ascending.{AreAscending};
ghost use Rattle.dictionary.specs.Values.{passed_bound, can_rise, can_fall, can_raise};

use basis::Place;
use fraction::Frac;
use instance::Entries;
use std::marker::Model;

/// What a variable is at least and at most, where it has such bounds.
#[derive(Clone, Copy)]
pub struct Bounds {
    pub lower: Option<Frac>,
    pub upper: Option<Frac>,
}

impl Model for Bounds {
    ghost use Rattle.basis.specs.System.{Bounds as BoundsOf};

    ghost Value = { BoundsOf };

    ghost view = { λ b. record { lower = b.lower; upper = b.upper } };

    ghost inverse = { λ b. record { lower = b.lower; upper = b.upper } };
}

/// Columns, and then a variable for each form, with the bounds of all of them, and the objective, which is to be made small.
#[derive(Drop)]
pub struct System {
    columns: usize,
    forms: Vec<Entries>,
    bounds: Vec<Bounds>,
    objective: Entries,
}

impl Model for System {
    ghost use Rattle.basis.specs.System.{System as SystemOf, IsSystem};
    ghost use Rattle.dictionary.specs.Ascending.{AreAscending};

    ghost Value = { SystemOf };

    ghost view = { λ s. record { columns = s.columns; forms = s.forms.items; bounds = s.bounds.items; objective = s.objective } };

    ghost invariant = { λ s. IsSystem (record { columns = s.columns; forms = s.forms.items; bounds = s.bounds.items; objective = s.objective }) × AreAscending (record { columns = s.columns; forms = s.forms.items; bounds = s.bounds.items; objective = s.objective }) };
}

impl System {
    pub fn new(
        columns: usize,
        forms: Vec<Entries>,
        bounds: Vec<Bounds>,
        objective: Entries,
    ) -> System
        requires system { IsSystem (record { columns = columns; forms = forms.items; bounds = bounds.items; objective = objective }) }
        requires ascending { AreAscending (record { columns = columns; forms = forms.items; bounds = bounds.items; objective = objective }) }
        ensures { result ≡ record { columns = columns; forms = forms.items; bounds = bounds.items; objective = objective } }
    {
        System {
            columns,
            forms,
            bounds,
            objective,
        }
    }

    /// The number of columns, which are the first variables. All forms are over them, in ascending order, and all
    /// variables have their bounds.
    pub fn columns(&self) -> usize
        ensures count { result ≡ self.now.columns }
        ensures system { IsSystem self.now }
        ensures ascending { AreAscending self.now }
    {
        self.columns
    }

    /// The number of variables: the columns, and one for each form.
    pub fn variables(&self) -> usize
        ensures count { result ≡ size self.now }
        ensures system { IsSystem self.now }
    {
        self.bounds.len()
    }

    /// The forms, of which each has a variable after those of the columns.
    pub fn forms(&self) -> &[Entries]
        ensures { result.now ≡ self.now.forms }
    {
        &self.forms
    }

    /// The form that is to be made small.
    pub fn objective(&self) -> &Entries
        ensures { result.now ≡ self.now.objective }
    {
        &self.objective
    }

    /// The bounds of a variable.
    pub fn bounds(&self, v: usize) -> Bounds
        requires { v < size self.now }
        ensures { slice_get self.now.bounds v ≡ Some result }
    {
        self.bounds[v]
    }
}

/// The bound that x has passed, if it has.
pub fn passed(bounds: Bounds, x: Frac) -> Option<Place>
    ensures { result ≡ passed_bound bounds x }
{
    if !is_above(bounds.lower, x) {
        return Some(Place::AtLower);
    }
    if !is_below(bounds.upper, x) {
        return Some(Place::AtUpper);
    }
    None
}

fn is_above(bound: Option<Frac>, x: Frac) -> bool
    ensures { result ≡ lies_above bound x }
{
    match bound {
        None => true,
        Some(b) => b <= x,
    }
}

fn is_below(bound: Option<Frac>, x: Frac) -> bool
    ensures { result ≡ lies_below bound x }
{
    match bound {
        None => true,
        Some(b) => x <= b,
    }
}

/// A variable at x can leave its value, inside these bounds, so that what changes at this rate rises.
pub fn may_raise(bounds: Bounds, x: Frac, rate: Frac) -> bool
    ensures { result ≡ can_raise bounds x rate }
{
    if rate.is_positive() {
        return may_rise(bounds, x);
    }
    if rate.is_negative() {
        return may_fall(bounds, x);
    }
    false
}

fn may_rise(bounds: Bounds, x: Frac) -> bool
    ensures { result ≡ can_rise bounds x }
{
    match bounds.upper {
        None => true,
        Some(upper) => x < upper,
    }
}

fn may_fall(bounds: Bounds, x: Frac) -> bool
    ensures { result ≡ can_fall bounds x }
{
    match bounds.lower {
        None => true,
        Some(lower) => lower < x,
    }
}
