// The ratio test: the first variable that reaches a bound.
ghost use Rattle.std.specs.Prelude.{pos, length, ◌≡◌, ◌≢◌, ◌<◌, option_map, IfOk, IfErr};
ghost use Rattle.rational.specs.Rational.{Rational, ◌+ℚ◌, ◌*ℚ◌};
ghost use Rattle.milp.specs.Form.{number_at};
ghost use Rattle.basis.specs.System.{size};
ghost use Rattle.basis.specs.Dictionary.{IsResting};
ghost use Rattle.simplex.specs.Ratio.{turned, bound_ahead, along, IsStepFault, IsLengthFault, IsReachOf, IsFirstReach, sooner_reach, sooner_of};
ghost use Rattle.dictionary.specs.Values.{direction_of};

use basis::Place;
use dictionary::{Bounds, Dictionary, System};
use fraction::{Frac, NoFit};

/// Where and when a variable on its way reaches a bound.
#[derive(Clone, Copy)]
pub(crate) struct Reach {
    pub variable: usize,
    pub place: Place,
    pub step: Frac,
}

/// The first variable that reaches a bound where q rises, or falls; the least of them.
pub(crate) fn first_reach(
    system: &System,
    dictionary: &Dictionary,
    values: &[Frac],
    q: usize,
    rises: bool,
) -> Result<Option<Reach>, NoFit>
    requires places { length dictionary.now.places ≡ size system.now }
    requires values { length values.now ≡ size system.now }
    requires resting { IsResting dictionary.now.places q }
    ensures ok { IfOk result (IsFirstReach system.now (number_at values.now) (along dictionary.now q rises)) }
    ensures err { IfErr result (IsLengthFault system.now values.now dictionary.now q rises) }
{
    let mut first = None;
    for v in 0..values.len() {
        let reach = reach_of(system, dictionary, values, q, rises, v)?;
        first = sooner(first, reach);
    }
    Ok(first)
}

// The reach of the variable v, if it has one.
fn reach_of(
    system: &System,
    dictionary: &Dictionary,
    values: &[Frac],
    q: usize,
    rises: bool,
    v: usize,
) -> Result<Option<Reach>, NoFit>
    requires known { v < size system.now }
    requires places { length dictionary.now.places ≡ size system.now }
    requires values { length values.now ≡ size system.now }
    requires resting { IsResting dictionary.now.places q }
    ensures ok { IfOk result (IsReachOf system.now (number_at values.now) (along dictionary.now q rises) v) }
    ensures err { IfErr result (IsLengthFault system.now values.now dictionary.now q rises) }
{
    let rate = turned(rises, change(dictionary, q, v));
    match bound_ahead(system.bounds(v), rate) {
        None => Ok(None),
        Some(ahead) => {
            let step = step_to(dictionary, q, v, values[v], ahead.0)?;
            Ok(Some(Reach {
                variable: v,
                place: ahead.1,
                step: turned(rises, step),
            }))
        }
    }
}

// The sooner of two, and the first of them where they come at once.
fn sooner(first: Option<Reach>, other: Option<Reach>) -> Option<Reach>
    ensures { result ≡ sooner_of first other }
{
    match other {
        None => first,
        Some(reach) => Some(sooner_reach(first, reach)),
    }
}

fn sooner_reach(first: Option<Reach>, reach: Reach) -> Reach
    ensures { result ≡ sooner_reach first reach }
{
    match first {
        None => reach,
        Some(best) => { if reach.step < best.step { reach } else { best } }
    }
}

/// How far the resting variable q has to rise until the variable v, which is at x, is at the bound.
pub(crate) fn step_to(
    dictionary: &Dictionary,
    q: usize,
    v: usize,
    x: Frac,
    bound: Frac,
) -> Result<Frac, NoFit>
    requires known { v < length dictionary.now.places }
    requires resting { IsResting dictionary.now.places q }
    requires moves { (direction_of dictionary.now q v).numerator ≢ pos 0 }
    ensures ok { IfOk result (λ t. bound ≡ x +ℚ t *ℚ direction_of dictionary.now q v) }
    ensures err { IfErr result (IsStepFault dictionary.now q v x bound) }
{
    let way = bound.sub(x)?;
    if v == q {
        return Ok(way);
    }
    way.div(dictionary.rate(q, v))
}

/// How the variable v moves where the resting variable q rises by 1.
pub(crate) fn change(dictionary: &Dictionary, q: usize, v: usize) -> Frac
    requires known { v < length dictionary.now.places }
    requires resting { IsResting dictionary.now.places q }
    ensures { result ≡ direction_of dictionary.now q v }
{
    if v == q {
        return Frac::one();
    }
    if !dictionary.is_basic(v) {
        return Frac::zero();
    }
    dictionary.rate(q, v)
}

/// The number, or its negative where the mover falls.
pub(crate) fn turned(rises: bool, a: Frac) -> Frac
    ensures { result ≡ turned rises a }
{
    if rises { a } else { a.neg() }
}

/// The bound in the way of a variable that changes so, and its place.
pub(crate) fn bound_ahead(bounds: Bounds, change: Frac) -> Option<(Frac, Place)>
    ensures { result ≡ bound_ahead bounds change }
{
    if change.is_positive() {
        return with_place(bounds.upper, Place::AtUpper);
    }
    if change.is_negative() {
        return with_place(bounds.lower, Place::AtLower);
    }
    None
}

fn with_place(bound: Option<Frac>, place: Place) -> Option<(Frac, Place)>
    ensures { result ≡ option_map (λ b. (b, place)) bound }
{
    match bound {
        Some(bound) => Some((bound, place)),
        None => None,
    }
}
