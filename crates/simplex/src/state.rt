// The state of a run.
ghost use Rattle.std.specs.Prelude.{ℕ, length, ◌≡◌, ◌≢◌, IfOk, IfErr};
ghost use Rattle.basis.specs.System.{System as SystemOf, IsSystem, AreBoundsInOrder};
ghost use Rattle.basis.specs.Dictionary.{IsBasic, IsResting, IsDictionary};
ghost use Rattle.basis.specs.Bland.{exchanged};
ghost use Rattle.basis.specs.declared.Place.TheVariants.{Basic};
ghost use Rattle.dictionary.specs.Faults.{IfNoFit};
ghost use Rattle.dictionary.specs.Sums.{IsStartFault, AreStartNumbers};
ghost use Rattle.dictionary.specs.Table.{dictionary_of, IsPivotFault};
ghost use Rattle.simplex.specs.Run.{IsFaultOf};
ghost use Rattle.simplex.specs.Steps.{IsAt, CanLeave, IsAdvanced, IsStepFailure};

use crate::decision::Step;
use crate::runs::RunFault;
use dictionary::{Dictionary, Fault, System, first_values, move_variables, set_forms};
use fraction::Frac;
use search_node::{Bases, Exchange};
use std::alloc::Global;

/// The basis at which a run is, with its dictionary, the numbers of the variables there, and all bases that the run
/// has come through, this one too.
#[derive(Drop)]
pub(crate) struct State {
    pub dictionary: Dictionary,
    pub values: Vec<Frac>,
    pub bases: Bases,
}

impl State {
    /// The state at the start of a run.
    pub(crate) fn start(alloc: Global, system: &System) -> Result<State, RunFault>
        requires { AreBoundsInOrder system.now }
        ensures state { IfOk result (λ state. IsAt system.now state) }
        ensures count { IfOk result (λ state. length state.bases ≡ 1) }
        ensures fault { (limit : ℕ) → IfErr result (IsFaultOf system.now limit) }
    {
        let dictionary = Dictionary::start(alloc, system)?;
        let mut values = first_values(alloc, system)?;
        set_forms(&mut values, system)?;
        let places = dictionary.copied_places()?;
        Ok(State {
            dictionary,
            values,
            bases: Bases::start(alloc, places),
        })
    }

    /// The state after a step.
    pub(crate) fn advance(self, alloc: Global, step: Step) -> Result<State, RunFault>
        requires sizes { length self.dictionary.places ≡ length self.values.items }
        requires enters { IsResting self.dictionary.places step.enters }
        requires leaves { CanLeave self.dictionary step }
        requires stops { step.place ≢ Basic }
        ensures state { IfOk result (IsAdvanced self step) }
        ensures fault { IfErr result (IsStepFailure self.dictionary self.values.items step) }
    {
        let State {
            dictionary,
            mut values,
            mut bases,
        } = self;
        move_variables(&mut values, &dictionary, step.enters, step.by)?;
        bases.exchange(Exchange {
            enters: step.enters,
            leaves: step.leaves,
            place: step.place,
        })?;
        let dictionary = exchange(alloc, dictionary, step)?;
        Ok(State {
            dictionary,
            values,
            bases,
        })
    }
}

// Exchanges two variables of the basis, or lets one rest at another place.
fn exchange(alloc: Global, mut dictionary: Dictionary, step: Step) -> Result<Dictionary, Fault>
    requires enters { IsResting dictionary.places step.enters }
    requires leaves { CanLeave dictionary step }
    requires stops { step.place ≢ Basic }
    ensures basis { IfOk result (λ d. d.places ≡ exchanged dictionary.places step.enters step.leaves step.place) }
    ensures dictionary { IfOk result (λ d. (s : SystemOf) → IsDictionary s dictionary.places (dictionary_of dictionary) → IsDictionary s d.places (dictionary_of d)) }
    ensures fault { IfErr result (IfNoFit (λ e. IsBasic dictionary.places step.leaves × IsPivotFault dictionary step.enters step.leaves e)) }
{
    if step.leaves == step.enters {
        dictionary.flip(step.enters, step.place);
        return Ok(dictionary);
    }
    dictionary.pivot(alloc, step.enters, step.leaves, step.place)
}
