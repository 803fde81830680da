// Whether cuts are worth their rows.
use candidate::{Candidate, Proposer};
use fraction::Frac;
use instance::{Instance, Point, value};
use search_node::SplitsTaken;
use std::alloc::{AllocError, Global};

/// Cuts move the bound at the root: the problem with their rows has another best value without wholeness, or no point. Nothing is
/// promised of it, since any cuts may be used.
pub(crate) fn moves_the_bound(
    alloc: Global,
    problem: &Instance,
    cut_problem: &Instance,
) -> Result<bool, AllocError> {
    let before = bound_at_root(alloc, problem)?;
    let after = bound_at_root(alloc, cut_problem)?;
    Ok(is_moved(before, after))
}

fn is_moved(before: Bound, after: Bound) -> bool {
    match after {
        Bound::NoPoint => true,
        Bound::Unknown => false,
        Bound::Value(after) => is_other(before, after),
    }
}

fn is_other(before: Bound, after: Frac) -> bool {
    match before {
        Bound::Value(before) => before != after,
        Bound::NoPoint => false,
        Bound::Unknown => false,
    }
}

// What is known of the root.
#[derive(Clone, Copy)]
enum Bound {
    Value(Frac),
    NoPoint,
    Unknown,
}

fn bound_at_root(alloc: Global, problem: &Instance) -> Result<Bound, AllocError> {
    let mut proposer = Proposer::new(alloc, 0, 0);
    let found = proposer.propose(alloc, problem, &SplitsTaken::new(alloc), None, None)?;
    match found {
        Some(candidate) => Ok(bound_of(problem, &candidate)),
        None => Ok(Bound::Unknown),
    }
}

fn bound_of(problem: &Instance, candidate: &Candidate) -> Bound {
    match candidate {
        Candidate::Optimal(best) => value_there(problem, &best.point),
        Candidate::Infeasible(_) => Bound::NoPoint,
        Candidate::Bounded(_) => Bound::Unknown,
        Candidate::Unbounded(_) => Bound::Unknown,
    }
}

fn value_there(problem: &Instance, point: &Point) -> Bound {
    if point.as_slice().len() != problem.columns().len() {
        return Bound::Unknown;
    }
    match value(problem, point) {
        Ok(value) => Bound::Value(value),
        Err(_) => Bound::Unknown,
    }
}
