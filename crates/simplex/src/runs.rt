// Runs of Bland's rule.
ghost use Rattle.std.specs.Prelude.{ℕ, length, ◌≡◌, ◌≢◌, ◌+◌, IfOk, IfErr};
ghost use Rattle.basis.specs.System.{AreBoundsInOrder};
ghost use Rattle.simplex.specs.Answer.{stop_of};
ghost use Rattle.simplex.specs.Run.{IsEnded, IsFaultOf};
ghost use Rattle.simplex.specs.Steps.{IsAt, IsProgress};
ghost use Rattle.simplex.specs.declared.runs.RunFault.TheVariants.{NoFit as NotFitting, NoMemory};

use crate::decision::{Choice, decide};
use crate::state::State;
use basis::Place;
use dictionary::{Dictionary, Fault, System};
use fraction::{Frac, NoFit};
use search_node::Bases;
use std::alloc::{AllocError, Global};

/// How a run ends.
#[derive(Clone, Copy)]
pub(crate) enum End {
    /// No variable is outside its bounds, and none improves the objective.
    Optimal,
    /// This basic variable is past the bound of this place, and no variable mends it.
    Blocked(usize, Place),
    /// This resting variable improves the objective without end as it rises, or falls.
    Endless(usize, bool),
}

/// The last basis of a run, with its dictionary, the numbers of the variables there, and why it is the last.
#[derive(Drop)]
pub(crate) struct Ended {
    pub dictionary: Dictionary,
    pub values: Vec<Frac>,
    pub end: End,
}

/// Why a run does not come to its end.
#[derive(Drop)]
pub(crate) enum RunFault {
    /// An operation's result does not fit.
    NoFit(NoFit),
    /// The run has as many steps as are allowed, through these bases, and one more step leads on.
    PivotLimit(Bases),
    /// The memory is not there.
    NoMemory,
}

impl From<AllocError> for RunFault {
    ghost from_gives = { λ _ fault. fault ≡ NoMemory };

    fn from(_error: AllocError) -> RunFault {
        RunFault::NoMemory
    }
}

impl From<NoFit> for RunFault {
    ghost from_gives = { λ error fault. fault ≡ NotFitting error };

    fn from(error: NoFit) -> RunFault {
        RunFault::NoFit(error)
    }
}

impl From<Fault> for RunFault {
    ghost from_gives = { λ error fault. fault ≡ stop_of error };

    fn from(error: Fault) -> RunFault {
        stop_of(error)
    }
}

// The fault of work on a dictionary, or beside the run, as one of the run.
pub(crate) fn stop_of(fault: Fault) -> RunFault
    ensures { result ≡ stop_of fault }
{
    match fault {
        Fault::NoFit(fault) => RunFault::NoFit(fault),
        Fault::NoMemory => RunFault::NoMemory,
    }
}

/// The next state of a run, or its end.
#[derive(Drop)]
pub(crate) enum Progress {
    On(State),
    Over(Ended),
}

/// The run of Bland's rule from its start, of at most `limit` steps, or to its end where the limit is 0.
pub(crate) fn run(alloc: Global, system: &System, limit: u32) -> Result<Ended, RunFault>
    requires in_order { AreBoundsInOrder system.now }
    ensures ended { IfOk result (λ e. IsEnded system.now e.dictionary e.values.items e.end) }
    ensures fault { IfErr result (IsFaultOf system.now limit) }
{
    if limit == 0 {
        return run_to_end(alloc, system);
    }
    let mut state = State::start(alloc, system)?;
    for _step in 0..limit {
        match proceed(alloc, system, state)? {
            Progress::On(next) => state = next,
            Progress::Over(ended) => return Ok(ended),
        }
    }
    finish(system, state)
}

// The whole run: it never comes to one basis twice, so it is shorter than there are bases.
fn run_to_end(alloc: Global, system: &System) -> Result<Ended, RunFault>
    requires in_order { AreBoundsInOrder system.now }
    ensures ended { IfOk result (λ e. IsEnded system.now e.dictionary e.values.items e.end) }
    ensures fault { (limit : ℕ) → IfErr result (IsFaultOf system.now limit) }
{
    let mut state = State::start(alloc, system)?;
    loop {
        match proceed(alloc, system, state)? {
            Progress::On(next) => state = next,
            Progress::Over(ended) => return Ok(ended),
        }
    }
}

// One step, where the rule leads on.
fn proceed(alloc: Global, system: &System, state: State) -> Result<Progress, RunFault>
    requires { IsAt system.now state }
    ensures ok { IfOk result (IsProgress system.now state) }
    ensures fault { (limit : ℕ) → IfErr result (IsFaultOf system.now limit) }
{
    match decide(system, &state)? {
        Choice::Next(step) => Ok(Progress::On(state.advance(alloc, step)?)),
        Choice::Stop(end) => Ok(Progress::Over(end_at(state, end))),
    }
}

// The end of a run that has no steps left.
fn finish(system: &System, state: State) -> Result<Ended, RunFault>
    requires { IsAt system.now state }
    ensures ended { IfOk result (λ e. IsEnded system.now e.dictionary e.values.items e.end) }
    ensures fault { (limit : ℕ) → limit ≢ 0 → length state.bases ≡ limit + 1 → IfErr result (IsFaultOf system.now limit) }
{
    match decide(system, &state)? {
        Choice::Next(_) => Err(RunFault::PivotLimit(state.bases)),
        Choice::Stop(end) => Ok(end_at(state, end)),
    }
}

fn end_at(state: State, end: End) -> Ended
    ensures { result ≡ record { dictionary = state.dictionary; values = state.values; end = end } }
{
    Ended {
        dictionary: state.dictionary,
        values: state.values,
        end,
    }
}
