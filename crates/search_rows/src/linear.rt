// Linear programs: the certificates that are found for them, and candidates for a verdict, wrong ones and right ones, handed on in place of
// what the search proposes.
use crate::texts::{bytes_of, cut, in_marks, numbers_of, point_of};
use branch_search::{Treatment, VerdictFault, has_no_integer_column, solve, treat_with};
use candidate::{Candidate, ProposedOptimum, ProposedRay, Proposer};
use certificate::{Certificate, DerivedRows, Item, Items, Weights, text};
use fraction::Frac;
use instance::Instance;
use mps_reader::read_mps;
use search_node::{Basis, Node, SplitsTaken};
use simplex::root_is_over_columns;
use std::alloc::{AllocError, Global};

/// What is proposed for the problem of a free MPS text, and the certificate that is found.
pub(crate) fn solved(alloc: Global, model: &str) -> Result<String, AllocError> {
    of_model(alloc, model, None)
}

/// What becomes of the root where the candidate of a row is proposed, within so many steps of the run.
pub(crate) fn judged(alloc: Global, model: &str, asked: &str) -> Result<String, AllocError> {
    of_model(alloc, model, Some(asked))
}

fn of_model(alloc: Global, model: &str, asked: Option<&str>) -> Result<String, AllocError> {
    let bytes = bytes_of(alloc, model)?;
    let problem = read_mps(alloc, &bytes);
    let found = match &problem {
        Ok(problem) => of_problem(alloc, problem, asked),
        Err(_) => "no problem".to_string(alloc),
    };
    std::mem::drop(problem);
    found
}

fn of_problem(
    alloc: Global,
    problem: &Instance,
    asked: Option<&str>,
) -> Result<String, AllocError> {
    if !has_no_integer_column(problem) {
        return "no linear program".to_string(alloc);
    }
    match asked {
        None => proposed_and_found(alloc, problem),
        Some(asked) => with_candidate(alloc, problem, asked),
    }
}

fn proposed_and_found(alloc: Global, problem: &Instance) -> Result<String, AllocError> {
    let proposed = proposed(alloc, problem)?;
    let found = found(alloc, problem)?;
    format!(in alloc; "{proposed}: {found}")
}

// What the search proposes.
fn proposed(alloc: Global, problem: &Instance) -> Result<&'static str, AllocError> {
    let candidate = Proposer::new(alloc, 100, 0).propose(
        alloc,
        problem,
        &SplitsTaken::new(alloc),
        None,
        None,
    )?;
    let word = match &candidate {
        Some(Candidate::Optimal(_)) => "optimal",
        Some(Candidate::Bounded(_)) => "bounded",
        Some(Candidate::Infeasible(_)) => "infeasible",
        Some(Candidate::Unbounded(_)) => "unbounded",
        None => "nothing",
    };
    std::mem::drop(candidate);
    Ok(word)
}

fn found(alloc: Global, problem: &Instance) -> Result<String, AllocError> {
    let verdict = solve(alloc, problem, 0, 0, 100);
    let words = verdict_words(alloc, &verdict);
    std::mem::drop(verdict);
    words
}

fn with_candidate(alloc: Global, problem: &Instance, asked: &str) -> Result<String, AllocError> {
    let (steps, words) = cut(asked);
    let candidate = candidate(alloc, words)?;
    let limit = steps.parse::<u32>().unwrap_or(1);
    let treatment = treated(alloc, problem, candidate, limit)?;
    let words = treatment_words(alloc, &treatment);
    std::mem::drop(treatment);
    words
}

// What becomes of the root.
fn treated(
    alloc: Global,
    problem: &Instance,
    candidate: Candidate,
    limit: u32,
) -> Result<Treatment, AllocError> {
    let cuts = DerivedRows::new(alloc);
    let root = Node::root(alloc);
    root_is_over_columns(problem);
    treat_with(alloc, problem, &cuts, &root, &None, limit, Some(candidate))
}

// A feasible point with its value.
fn treatment_words(alloc: Global, treatment: &Treatment) -> Result<String, AllocError> {
    match treatment {
        Treatment::Feasible(found) => {
            let value = found.value.text(alloc)?;
            let point = numbers_of(alloc, &found.point)?;
            format!(in alloc; "{value} at {point}")
        }
        Treatment::Unbounded(_) => "unbounded".to_string(alloc),
        Treatment::Refuted(_) => "infeasible".to_string(alloc),
        Treatment::AtLimit(_) => "undecided".to_string(alloc),
        _ => "no verdict".to_string(alloc),
    }
}

fn verdict_words(
    alloc: Global,
    verdict: &Result<Certificate, VerdictFault>,
) -> Result<String, AllocError> {
    match verdict {
        Ok(certificate) => in_marks(alloc, &text(alloc, certificate)?),
        Err(VerdictFault::PivotLimit(..)) => "undecided".to_string(alloc),
        Err(_) => "no verdict".to_string(alloc),
    }
}

// A verdict with its numbers: a point for `optimal`, with the weight 1 of the first column, and for `unweighed`, which has no weights; a
// point and a ray for `unbounded`. `infeasible` has that weight alone.
fn candidate(alloc: Global, words: &str) -> Result<Candidate, AllocError> {
    let (verdict, numbers) = cut(words);
    match verdict {
        "optimal" => optimum(alloc, numbers, one_weight(alloc)?),
        "unweighed" => optimum(alloc, numbers, Weights::none(alloc)),
        "infeasible" => Ok(Candidate::Infeasible(one_weight(alloc)?)),
        _ => unbounded(alloc, numbers),
    }
}

fn optimum(alloc: Global, numbers: &str, weights: Weights) -> Result<Candidate, AllocError> {
    Ok(Candidate::Optimal(ProposedOptimum {
        point: point_of(alloc, numbers)?,
        weights,
        basis: Basis::from_vec(Vec::new(alloc)),
        column: None,
        told: None,
    }))
}

fn unbounded(alloc: Global, numbers: &str) -> Result<Candidate, AllocError> {
    let (point, ray) = numbers.split_once(" by ").unwrap_or((numbers, ""));
    let point = point_of(alloc, point)?;
    let ray = point_of(alloc, ray)?;
    Ok(Candidate::Unbounded(ProposedRay { point, ray }))
}

// The weight 1 of the first column.
fn one_weight(alloc: Global) -> Result<Weights, AllocError> {
    let mut columns = Items::new(alloc);
    columns.push(Item {
        index: 0,
        weight: Frac::one(),
    })?;
    Ok(Weights::new(Items::new(alloc), columns, Items::new(alloc)))
}
