// Integer programs, and problems of all kinds, with their verdicts; and optimal points of relaxations.
use crate::shown::partial_words;
use crate::texts::{cut, in_marks, numbers_of};
use branch_search::{SearchFault, VerdictFault, Wanted, search};
use candidate::{Candidate, ProposedOptimum, Proposer};
use certificate::{Certificate, DerivedRows, Verdict, text};
use cut_search::{Plan, solve};
use instance::Instance;
use search_node::SplitsTaken;
use search_tree::{Path, is_optimal};
use shared_search::OpenGate;
use std::alloc::{AllocError, Global};
use std::thread::Threads;
use stopped_search::Unsolved;

// The limit of splits and that of steps.
fn limits_of(words: &str) -> (usize, u32) {
    let (splits, steps) = cut(words);
    let splits = splits.parse::<usize>().unwrap_or(0);
    (splits, steps.parse::<u32>().unwrap_or(1))
}

/// The verdict of a problem that a search over its integer columns finds within limits, or why it finds none.
pub(crate) fn found_by_search(
    alloc: Global,
    problem: &Instance,
    limits: &str,
) -> Result<String, AllocError> {
    let (splits, steps) = limits_of(limits);
    let verdict = search(alloc, problem, 0, splits, steps);
    let words = match &verdict {
        Ok(certificate) => verdict_words(alloc, certificate),
        Err(fault) => search_fault(fault).to_string(alloc),
    };
    std::mem::drop(verdict);
    words
}

fn search_fault(fault: &SearchFault) -> &'static str {
    match fault {
        SearchFault::NoFit(_) => "overflow",
        SearchFault::PivotLimit(..) => "steps",
        SearchFault::SplitLimit(_) => "splits",
        SearchFault::Unbounded(_) => "ray",
        SearchFault::NoMemory => "no memory",
    }
}

/// What a search splits on, and whether it begins with cuts.
#[derive(Clone, Copy)]
pub(crate) enum SearchBy {
    Columns,
    Rows,
    Cuts,
}

// The search of one worker within limits.
fn plan_of(by: SearchBy, limits: &str) -> Plan {
    let (split_limit, pivot_limit) = limits_of(limits);
    Plan {
        cuts: matches!(by, SearchBy::Cuts),
        row_splits: matches!(by, SearchBy::Rows),
        split_limit,
        pivot_limit,
        workers: 1,
    }
}

/// What is told of a search.
#[derive(Clone, Copy)]
pub(crate) enum Told {
    /// The verdict, or why there is none and what was wanted.
    Verdict,
    /// The certificate that is written, or why there is no verdict and what was wanted.
    Certificate,
    /// What a search without a verdict has shown of the problem.
    Shown,
}

/// What is told of the search for the verdict of any problem within limits, by splits of columns alone or of rows too, or by cuts.
pub(crate) fn told_by_solve<R: Threads + Sync>(
    rt: &R,
    alloc: Global,
    problem: &Instance,
    by: SearchBy,
    told: Told,
    limits: &str,
) -> Result<String, AllocError> {
    let verdict = solve(rt, alloc, problem, plan_of(by, limits), &OpenGate);
    let words = match &verdict {
        Ok(certificate) => solved_words(alloc, certificate, told),
        Err(unsolved) => unsolved_words(alloc, problem, unsolved, told),
    };
    std::mem::drop(verdict);
    words
}

fn solved_words(
    alloc: Global,
    certificate: &Certificate,
    told: Told,
) -> Result<String, AllocError> {
    match told {
        Told::Certificate => certificate_words(alloc, certificate),
        Told::Verdict | Told::Shown => verdict_words(alloc, certificate),
    }
}

fn unsolved_words(
    alloc: Global,
    problem: &Instance,
    unsolved: &Unsolved,
    told: Told,
) -> Result<String, AllocError> {
    match told {
        Told::Shown => left_words(alloc, problem, unsolved),
        Told::Verdict | Told::Certificate => fault_words(alloc, &unsolved.fault),
    }
}

fn left_words(
    alloc: Global,
    problem: &Instance,
    unsolved: &Unsolved,
) -> Result<String, AllocError> {
    match &unsolved.shown {
        None => "nothing".to_string(alloc),
        Some(shown) => partial_words(alloc, problem, shown.get()),
    }
}

fn certificate_words(alloc: Global, certificate: &Certificate) -> Result<String, AllocError> {
    in_marks(alloc, &text(alloc, certificate)?)
}

fn fault_words(alloc: Global, fault: &VerdictFault) -> Result<String, AllocError> {
    match fault {
        VerdictFault::NoFit(wanted, _) => with_wanted(alloc, "overflow", *wanted),
        VerdictFault::PivotLimit(wanted, ..) => with_wanted(alloc, "steps", *wanted),
        VerdictFault::SplitLimit(wanted, _) => with_wanted(alloc, "splits", *wanted),
        VerdictFault::NoMemory => Err(AllocError),
    }
}

fn with_wanted(alloc: Global, word: &str, wanted: Wanted) -> Result<String, AllocError> {
    match wanted {
        Wanted::Best => format!(in alloc; "{word} best"),
        Wanted::Any => format!(in alloc; "{word} any"),
    }
}

// The verdict of a certificate, and its value.
fn verdict_words(alloc: Global, certificate: &Certificate) -> Result<String, AllocError> {
    let verdict = verdict_word(certificate);
    match certificate.value() {
        None => verdict.to_string(alloc),
        Some(value) => {
            let value = value.text(alloc)?;
            format!(in alloc; "{verdict} {value}")
        }
    }
}

/// The verdict of a certificate.
pub(crate) fn verdict_word(certificate: &Certificate) -> &'static str {
    match certificate.verdict() {
        Verdict::Optimal => "optimal",
        Verdict::Infeasible => "infeasible",
        Verdict::Unbounded => "unbounded",
    }
}

/// The point that is proposed for a problem's relaxation, where it is shown to be an optimal one.
pub(crate) fn shown_optimum(alloc: Global, problem: &Instance) -> Result<String, AllocError> {
    let candidate = Proposer::new(alloc, 100, 0).propose(
        alloc,
        problem,
        &SplitsTaken::new(alloc),
        None,
        None,
    )?;
    let words = match &candidate {
        Some(Candidate::Optimal(found)) => optimum_words(alloc, problem, found),
        _ => "no point".to_string(alloc),
    };
    std::mem::drop(candidate);
    words
}

fn optimum_words(
    alloc: Global,
    problem: &Instance,
    found: &ProposedOptimum,
) -> Result<String, AllocError> {
    let root = SplitsTaken::new(alloc);
    let path = Path::below(alloc, &root)?;
    let cuts = DerivedRows::new(alloc);
    let weights = path.named(alloc, problem, &found.weights)?;
    match is_optimal(alloc, problem, &cuts, &root, &path, &found.point, &weights) {
        Ok(true) => numbers_of(alloc, &found.point),
        _ => "not shown".to_string(alloc),
    }
}
