// What Bland's rule leads to from a state: the next step, or the end.
ghost use Rattle.std.specs.Prelude.{ℕ, ◌≡◌, IfOk, IfErr};
ghost use Rattle.rational.specs.Rational.{Rational, ◌+ℚ◌, ◌*ℚ◌};
ghost use Rattle.milp.specs.Form.{number_at};
ghost use Rattle.basis.specs.Dictionary.{RestsAt};
ghost use Rattle.basis.specs.Bland.{IsOutside, HasPassed, Improves, IsLeast, MendStep};
ghost use Rattle.dictionary.specs.Table.{dictionary_of};
ghost use Rattle.dictionary.specs.Values.{direction_of};
ghost use Rattle.simplex.specs.Run.{IsRunFault};
ghost use Rattle.simplex.specs.Steps.{IsAt, IsChoice, bound_at};

use crate::choose::{first_improving, first_mending, first_outside};
use crate::ratio::{first_reach, step_to, turned};
use crate::runs::End;
use crate::state::State;
use basis::Place;
use dictionary::{Bounds, System};
use fraction::{Frac, NoFit};

/// One variable enters, and one leaves to a place, which it reaches where the entering one rises by `by`.
#[derive(Clone, Copy)]
pub(crate) struct Step {
    pub enters: usize,
    pub leaves: usize,
    pub place: Place,
    pub by: Frac,
}

/// What the rule says at a state.
#[derive(Clone, Copy)]
pub(crate) enum Choice {
    /// The run goes on with this step.
    Next(Step),
    /// No step leads on, and the run ends so.
    Stop(End),
}

/// The next step from a state, or how the run ends there.
pub(crate) fn decide(system: &System, state: &State) -> Result<Choice, NoFit>
    requires { IsAt system.now state.now }
    ensures ok { IfOk result (IsChoice system.now state.now.dictionary state.now.values.items) }
    ensures err { IfErr result (IsRunFault system.now) }
{
    match first_outside(system, &state.dictionary, &state.values) {
        Some(outside) => mend(system, state, outside.0, outside.1),
        None => improve(system, state),
    }
}

// In the first phase: the first variable outside its bounds leaves to the bound that it has passed.
fn mend(system: &System, state: &State, leaves: usize, place: Place) -> Result<Choice, NoFit>
    requires reached { IsAt system.now state.now }
    requires first { IsLeast (IsOutside system.now state.now.dictionary.places (number_at state.now.values.items)) leaves }
    requires passed { HasPassed system.now (number_at state.now.values.items) leaves place }
    ensures ok { IfOk result (IsChoice system.now state.now.dictionary state.now.values.items) }
    ensures err { IfErr result (IsRunFault system.now) }
{
    match first_mending(system, &state.dictionary, &state.values, leaves, place) {
        None => Ok(Choice::Stop(End::Blocked(leaves, place))),
        Some(enters) => {
            let by = way_back(system, state, enters, leaves, place)?;
            Ok(Choice::Next(Step {
                enters,
                leaves,
                place,
                by,
            }))
        }
    }
}

// How far the entering variable has to rise until the leaving one is at the bound that it has passed.
fn way_back(
    system: &System,
    state: &State,
    enters: usize,
    leaves: usize,
    place: Place,
) -> Result<Frac, NoFit>
    requires reached { IsAt system.now state.now }
    requires step { MendStep system.now state.now.dictionary.places (number_at state.now.values.items) (dictionary_of state.now.dictionary) enters leaves place }
    ensures ok { IfOk result (λ t. RestsAt system.now place leaves (number_at state.now.values.items leaves +ℚ t *ℚ direction_of state.now.dictionary enters leaves)) }
    ensures err { IfErr result (IsRunFault system.now) }
{
    let bound = bound_at(system.bounds(leaves), place).unwrap();
    step_to(
        &state.dictionary,
        enters,
        leaves,
        state.values[leaves],
        bound,
    )
}

fn bound_at(bounds: Bounds, place: Place) -> Option<Frac>
    ensures { result ≡ bound_at bounds place }
{
    match place {
        Place::AtLower => bounds.lower,
        Place::AtUpper => bounds.upper,
        _ => None,
    }
}

// In the second phase: the first variable that improves the objective enters.
fn improve(system: &System, state: &State) -> Result<Choice, NoFit>
    requires reached { IsAt system.now state.now }
    requires inside { (v : ℕ) → ¬ (IsOutside system.now state.now.dictionary.places (number_at state.now.values.items) v) }
    ensures ok { IfOk result (IsChoice system.now state.now.dictionary state.now.values.items) }
    ensures err { IfErr result (IsRunFault system.now) }
{
    match first_improving(system, &state.dictionary, &state.values) {
        None => Ok(Choice::Stop(End::Optimal)),
        Some(enters) => enter(system, state, enters),
    }
}

// The entering variable moves until a first variable reaches a bound, which leaves.
fn enter(system: &System, state: &State, enters: usize) -> Result<Choice, NoFit>
    requires reached { IsAt system.now state.now }
    requires inside { (v : ℕ) → ¬ (IsOutside system.now state.now.dictionary.places (number_at state.now.values.items) v) }
    requires first { IsLeast (Improves system.now state.now.dictionary.places (number_at state.now.values.items) (dictionary_of state.now.dictionary)) enters }
    ensures ok { IfOk result (IsChoice system.now state.now.dictionary state.now.values.items) }
    ensures err { IfErr result (IsRunFault system.now) }
{
    let rises = state.dictionary.gain(enters).is_negative();
    match first_reach(system, &state.dictionary, &state.values, enters, rises)? {
        None => Ok(Choice::Stop(End::Endless(enters, rises))),
        Some(reach) => Ok(Choice::Next(Step {
            enters,
            leaves: reach.variable,
            place: reach.place,
            by: turned(rises, reach.step),
        })),
    }
}
