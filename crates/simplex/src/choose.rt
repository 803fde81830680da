// Bland's rule: which variable leaves, and which enters.
ghost use Rattle.std.specs.Prelude.{ℕ, length, true, false, None, ◌≡◌, ◌<◌, IfSome};
ghost use Rattle.milp.specs.Form.{number_at};
ghost use Rattle.basis.specs.System.{size};
ghost use Rattle.basis.specs.Dictionary.{IsBasic};
ghost use Rattle.basis.specs.Bland.{IsOutside, HasPassed, Mends, Improves, IsLeast};
ghost use Rattle.dictionary.specs.Table.{dictionary_of};
ghost use Rattle.dictionary.specs.Values.{can_mend};

use basis::Place;
use dictionary::{Bounds, Dictionary, System, may_raise, passed};
use fraction::Frac;

// The bound that the variable v has passed, if it is basic and has passed one.
fn outside(system: &System, dictionary: &Dictionary, values: &[Frac], v: usize) -> Option<Place>
    requires known { v < size system.now }
    requires places { length dictionary.now.places ≡ size system.now }
    requires values { length values.now ≡ size system.now }
    ensures some { IfSome result (λ p. IsOutside system.now dictionary.now.places (number_at values.now) v × HasPassed system.now (number_at values.now) v p) }
    ensures none { result ≡ None → ¬ (IsOutside system.now dictionary.now.places (number_at values.now) v) }
{
    if !dictionary.is_basic(v) {
        return None;
    }
    passed(system.bounds(v), values[v])
}

/// The least basic variable that is outside its bounds, and the bound that it has passed.
pub(crate) fn first_outside(
    system: &System,
    dictionary: &Dictionary,
    values: &[Frac],
) -> Option<(usize, Place)>
    requires places { length dictionary.now.places ≡ size system.now }
    requires values { length values.now ≡ size system.now }
    ensures some { IfSome result (λ o. IsLeast (IsOutside system.now dictionary.now.places (number_at values.now)) o.0 × HasPassed system.now (number_at values.now) o.0 o.1) }
    ensures none { result ≡ None → (v : ℕ) → ¬ (IsOutside system.now dictionary.now.places (number_at values.now) v) }
{
    for v in 0..values.len() {
        match outside(system, dictionary, values, v) {
            Some(place) => return Some((v, place)),
            None => {}
        }
    }
    None
}

// The resting variable q mends r, which has passed the bound of its place, or does not.
fn mends(
    system: &System,
    dictionary: &Dictionary,
    values: &[Frac],
    r: usize,
    place: Place,
    q: usize,
) -> bool
    requires known { q < size system.now }
    requires places { length dictionary.now.places ≡ size system.now }
    requires values { length values.now ≡ size system.now }
    requires basic { IsBasic dictionary.now.places r }
    ensures yes { result ≡ true → Mends system.now dictionary.now.places (number_at values.now) (dictionary_of dictionary.now) r place q }
    ensures no { result ≡ false → ¬ (Mends system.now dictionary.now.places (number_at values.now) (dictionary_of dictionary.now) r place q) }
{
    if dictionary.is_basic(q) {
        return false;
    }
    let rate = dictionary.rate(q, r);
    mends_at(place, system.bounds(q), values[q], rate)
}

// A variable at x, inside these bounds, can go so that one that changes at this rate comes back to the bound of the place.
fn mends_at(place: Place, bounds: Bounds, x: Frac, rate: Frac) -> bool
    ensures { result ≡ can_mend place bounds x rate }
{
    match place {
        Place::AtLower => may_raise(bounds, x, rate),
        Place::AtUpper => may_raise(bounds, x, rate.neg()),
        _ => false,
    }
}

/// The least resting variable that mends r, which has passed the bound of its place.
pub(crate) fn first_mending(
    system: &System,
    dictionary: &Dictionary,
    values: &[Frac],
    r: usize,
    place: Place,
) -> Option<usize>
    requires places { length dictionary.now.places ≡ size system.now }
    requires values { length values.now ≡ size system.now }
    requires basic { IsBasic dictionary.now.places r }
    ensures some { IfSome result (IsLeast (Mends system.now dictionary.now.places (number_at values.now) (dictionary_of dictionary.now) r place)) }
    ensures none { result ≡ None → (q : ℕ) → ¬ (Mends system.now dictionary.now.places (number_at values.now) (dictionary_of dictionary.now) r place q) }
{
    for q in 0..values.len() {
        if mends(system, dictionary, values, r, place, q) {
            return Some(q);
        }
    }
    None
}

// The variable q rests, and can go so that the objective falls, or does not.
fn improves(system: &System, dictionary: &Dictionary, values: &[Frac], q: usize) -> bool
    requires known { q < size system.now }
    requires places { length dictionary.now.places ≡ size system.now }
    requires values { length values.now ≡ size system.now }
    ensures yes { result ≡ true → Improves system.now dictionary.now.places (number_at values.now) (dictionary_of dictionary.now) q }
    ensures no { result ≡ false → ¬ (Improves system.now dictionary.now.places (number_at values.now) (dictionary_of dictionary.now) q) }
{
    if dictionary.is_basic(q) {
        return false;
    }
    let gain = dictionary.gain(q);
    may_raise(system.bounds(q), values[q], gain.neg())
}

/// The least resting variable that improves the objective.
pub(crate) fn first_improving(
    system: &System,
    dictionary: &Dictionary,
    values: &[Frac],
) -> Option<usize>
    requires places { length dictionary.now.places ≡ size system.now }
    requires values { length values.now ≡ size system.now }
    ensures some { IfSome result (IsLeast (Improves system.now dictionary.now.places (number_at values.now) (dictionary_of dictionary.now))) }
    ensures none { result ≡ None → (q : ℕ) → ¬ (Improves system.now dictionary.now.places (number_at values.now) (dictionary_of dictionary.now) q) }
{
    for q in 0..values.len() {
        if improves(system, dictionary, values, q) {
            return Some(q);
        }
    }
    None
}
