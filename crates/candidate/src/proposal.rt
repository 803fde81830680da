// What is proposed.
use crate::crash::crashed;
use crate::ending::End;
use crate::gains::{Departure, Gains};
use crate::reading::{bound, contradiction, endless_ray, optimum};
use crate::search::{Aim, Found, objective, run};
use certificate::Weights;
use fraction::Frac;
use instance::{Column, Instance, Point};
use search_node::{Basis, SplitsTaken};
use sparse_factors::Stop;
use std::alloc::{AllocError, Global};
use std::mem;
use tableau::{Model, Start, State, model_of, start_of};

/// A point, weights that may show that none is better, and the basis that both were read from. Where integer columns are not
/// whole, `column` is the one of them that may be split, and `told` may have weights of what rests at the point that make it alone.
#[derive(Drop)]
pub struct ProposedOptimum {
    pub point: Point,
    pub weights: Weights,
    pub basis: Basis,
    pub column: Option<usize>,
    pub told: Option<Weights>,
}

/// A point, and a ray along which the objective may improve without end from there.
#[derive(Drop)]
pub struct ProposedRay {
    pub point: Point,
    pub ray: Point,
}

/// The parts of a verdict's certificate, proposed. Nothing is promised of them: a point may have too many numbers or lie
/// outside, and weights may prove nothing.
#[derive(Drop)]
pub enum Candidate {
    /// A best point.
    Optimal(ProposedOptimum),
    /// Weights that may show that no point is better than the cutoff.
    Bounded(Weights),
    /// Weights that may contradict each other.
    Infeasible(Weights),
    /// A point and a ray.
    Unbounded(ProposedRay),
}

/// What proposes for the nodes of one problem, and then of the next. What is the same at each node is made once, and what splits
/// brought is kept; and of a linear program the basis of its best point, for the next one.
#[derive(Drop)]
pub struct Proposer {
    steps: u32,
    first_columns: usize,
    model: Option<Model>,
    gains: Gains,
    last: Option<Basis>,
}

impl Proposer {
    /// One that takes at most `steps` steps at a node, or a million where that is 0: this search can go in a circle, so it gives up in
    /// the end where it has no limit, too. Of the columns that may be split it advises the first one before `first_columns`, where
    /// there is one.
    pub fn new(alloc: Global, steps: u32, first_columns: usize) -> Proposer {
        Proposer {
            steps: if steps == 0 { MOST_STEPS } else { steps },
            first_columns,
            model: None,
            gains: Gains::new(alloc),
            last: None,
        }
    }

    /// Another problem comes. If it is a linear program, and the one before was one of as many columns and rows, its search begins
    /// where that one's ended.
    pub fn take_up(&mut self) {
        self.model = None;
    }

    /// Looks for a verdict on the linear program that the problem is below these splits, its columns taken as continuous. It starts
    /// at the basis `start`, or at that of the rows. It looks for a least value, of the objective's form or of the form with its sign
    /// turned, and ends where it knows that none is below the cutoff. It may give up at any time.
    pub fn propose(
        &mut self,
        alloc: Global,
        problem: &Instance,
        splits: &SplitsTaken,
        start: Option<&Basis>,
        cutoff: Option<Frac>,
    ) -> Result<Option<Candidate>, AllocError> {
        match self.searched(alloc, problem, splits, start, &cutoff) {
            Ok(candidate) => Ok(Some(candidate)),
            Err(Stop::NoMemory) => Err(AllocError),
            Err(_) => Ok(None),
        }
    }

    fn searched(
        &mut self,
        alloc: Global,
        problem: &Instance,
        splits: &SplitsTaken,
        start: Option<&Basis>,
        cutoff: &Option<Frac>,
    ) -> Result<Candidate, Stop> {
        if start.is_none() && !has_integer(problem.columns()) {
            match self.from_itself(alloc, problem, splits, cutoff) {
                Err(Stop::NoFit) | Err(Stop::Steps) => {}
                outcome => return outcome,
            }
        }
        let model = self.model_below(alloc, problem, splits)?;
        let aim = Aim {
            splits,
            cutoff,
            spread_after: match start {
                None => spread_after(&model),
                Some(_) => None,
            },
            dual_steps: self.steps,
        };
        let start = start_of(alloc, &model, start)?;
        self.from_start(alloc, problem, model, start, aim)
    }

    // From where the last linear program ended, or else from a triangular start.
    fn from_itself(
        &mut self,
        alloc: Global,
        problem: &Instance,
        splits: &SplitsTaken,
        cutoff: &Option<Frac>,
    ) -> Result<Candidate, Stop> {
        match self.from_last(alloc, problem, splits, cutoff) {
            Err(Stop::NoFit) | Err(Stop::Steps) => {
                self.from_triangle(alloc, problem, splits, cutoff)
            }
            outcome => outcome,
        }
    }

    // From the basis at which the last linear program ended, which is given up as a triangular start is.
    fn from_last(
        &mut self,
        alloc: Global,
        problem: &Instance,
        splits: &SplitsTaken,
        cutoff: &Option<Frac>,
    ) -> Result<Candidate, Stop> {
        let Some(last) = mem::replace(&mut self.last, None) else {
            return Err(Stop::NoFit);
        };
        let model = self.model_below(alloc, problem, splits)?;
        let aim = given_up_aim(&model, splits, cutoff);
        let start = start_of(alloc, &model, Some(&last))?;
        self.last = Some(last);
        self.from_start(alloc, problem, model, start, aim)
    }

    // From a triangular start, which is given up where the dual phase takes more than twice as many steps as there are rows.
    fn from_triangle(
        &mut self,
        alloc: Global,
        problem: &Instance,
        splits: &SplitsTaken,
        cutoff: &Option<Frac>,
    ) -> Result<Candidate, Stop> {
        let model = self.model_below(alloc, problem, splits)?;
        let aim = given_up_aim(&model, splits, cutoff);
        match crashed(alloc, &model) {
            Ok(Some(start)) => self.from_start(alloc, problem, model, start, aim),
            Ok(None) => {
                self.model = Some(model);
                Err(Stop::NoFit)
            }
            Err(stop) => Err(stop),
        }
    }

    fn from_start(
        &mut self,
        alloc: Global,
        problem: &Instance,
        model: Model,
        start: Start,
        aim: Aim<'_>,
    ) -> Result<Candidate, Stop> {
        let mut state = State::at_basis(alloc, model, start, self.steps)?;
        let found = self.found(alloc, problem, &mut state, aim);
        self.model = Some(state.into_model());
        found
    }

    // The linear program below the splits, where no bounds cross.
    fn model_below(
        &mut self,
        alloc: Global,
        problem: &Instance,
        splits: &SplitsTaken,
    ) -> Result<Model, Stop> {
        let mut model = self.taken_model(alloc, problem)?;
        model.set_bounds(problem, splits)?;
        if model.has_bounds_in_order() {
            return Ok(model);
        }
        self.model = Some(model);
        Err(Stop::NoFit)
    }

    // The linear program, which is put back behind the search, or made anew where it wasn't.
    fn taken_model(&mut self, alloc: Global, problem: &Instance) -> Result<Model, Stop> {
        match mem::replace(&mut self.model, None) {
            Some(model) => Ok(model),
            None => {
                self.gains.begin(alloc, problem.columns().len())?;
                model_of(alloc, problem)
            }
        }
    }

    fn found(
        &mut self,
        alloc: Global,
        problem: &Instance,
        state: &mut State,
        aim: Aim<'_>,
    ) -> Result<Candidate, Stop> {
        let Found { end, departure } = run(state, alloc, aim)?;
        match end {
            End::Bounded => {
                self.note(state, departure);
                bound(alloc, state)
            }
            End::Optimal => {
                self.note(state, departure);
                let candidate = optimum(
                    alloc,
                    problem.columns(),
                    self.first_columns,
                    state,
                    &self.gains,
                    aim.cutoff,
                )?;
                self.keep_basis(alloc, problem, &candidate)?;
                Ok(candidate)
            }
            End::Infeasible(blocked) => contradiction(alloc, state, &blocked),
            End::Unbounded(endless) => endless_ray(alloc, state, &endless),
        }
    }

    // A linear program ends at this basis.
    fn keep_basis(
        &mut self,
        alloc: Global,
        problem: &Instance,
        candidate: &Candidate,
    ) -> Result<(), Stop> {
        if has_integer(problem.columns()) {
            return Ok(());
        }
        if let Candidate::Optimal(found) = candidate {
            self.last = Some(found.basis.copy(alloc)?);
        }
        Ok(())
    }

    // What the split above brought.
    fn note(&mut self, state: &State, departure: Option<Departure>) {
        match (departure, objective(state)) {
            (Some(departure), Ok(value)) => self.gains.note(&departure, value),
            _ => {}
        }
    }
}

// From a start that is given up where the dual phase takes more than twice as many steps as there are rows.
fn given_up_aim<'a>(model: &Model, splits: &'a SplitsTaken, cutoff: &'a Option<Frac>) -> Aim<'a> {
    let rows = u32::try_from(model.matrix.rows).unwrap_or(u32::MAX);
    Aim {
        splits,
        cutoff,
        spread_after: spread_after(model),
        dual_steps: rows.saturating_mul(2),
    }
}

// Whether a column takes whole numbers alone.
fn has_integer(columns: &[Column]) -> bool {
    for column in columns {
        if column.integer() {
            return true;
        }
    }
    false
}

// After so many steps of length 0 in a row small costs may help a start far from its end, where there are no costs.
fn spread_after(model: &Model) -> Option<usize> {
    if model.has_no_costs() {
        Some(model.matrix.rows.max(model.matrix.columns) / 8)
    } else {
        None
    }
}

const MOST_STEPS: u32 = 1_000_000;
