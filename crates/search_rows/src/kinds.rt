// What the kinds of rows ask for.
use crate::boards::played;
use crate::certificates::{checked, deep, read_back};
use crate::linear::{judged, solved};
use crate::partials::{kind_named, partly_checked, partly_read_back};
use crate::programs::{SearchBy, Told, found_by_search, shown_optimum, told_by_solve};
use crate::ranged::found_ranges;
use crate::shown::shown_after;
use crate::subsets::found_subset;
use crate::texts::bytes_of;
use cplex_lp_reader::read_lp;
use instance::Instance;
use std::alloc::{AllocError, Global};
use std::thread::Threads;

/// What is found for what a row asks. A kind is a word, and behind it what its rows share.
pub(crate) fn answer<R: Threads + Sync>(
    rt: &R,
    alloc: Global,
    kind: &str,
    asked: &str,
) -> Result<String, AllocError> {
    let (word, shared) = kind.split_once(' ').unwrap_or((kind, ""));
    match word {
        "certificate" => read_back(alloc, shared, asked),
        "deep" => deep(alloc, shared, asked),
        "undecided" => partly_read_back(alloc, shared, asked),
        "kind" => kind_named(alloc, asked),
        "candidate" => judged(alloc, shared, asked),
        "linear" => solved(alloc, asked),
        "check" => of_model(rt, alloc, word, shared, asked),
        "partial" => of_model(rt, alloc, word, shared, asked),
        "board" => of_model(rt, alloc, word, shared, asked),
        "shown" => of_model(rt, alloc, word, shared, asked),
        _ => of_model(rt, alloc, word, asked, shared),
    }
}

// What is found for the problem of a CPLEX LP text.
fn of_model<R: Threads + Sync>(
    rt: &R,
    alloc: Global,
    word: &str,
    model: &str,
    rest: &str,
) -> Result<String, AllocError> {
    let text = bytes_of(alloc, model)?;
    let problem = read_lp(alloc, &text);
    let found = match &problem {
        Ok(problem) => of_problem(rt, alloc, word, problem, rest),
        Err(_) => "no problem".to_string(alloc),
    };
    // a call that lets a large value go is cheaper to prove than the end of a block
    std::mem::drop(problem);
    found
}

fn of_problem<R: Threads + Sync>(
    rt: &R,
    alloc: Global,
    word: &str,
    problem: &Instance,
    rest: &str,
) -> Result<String, AllocError> {
    match word {
        "check" => checked(alloc, problem, rest),
        "partial" => partly_checked(alloc, problem, rest),
        "search" => found_by_search(alloc, problem, rest),
        "optimum" => shown_optimum(alloc, problem),
        "subset" => found_subset(alloc, problem, rest),
        "ranges" => found_ranges(alloc, problem, rest),
        "board" => played(alloc, problem, rest),
        "shown" => shown_after(alloc, problem, rest),
        _ => of_search(rt, alloc, word, problem, rest),
    }
}

// What is told of a search, and behind `_by_` what it splits on, or that it begins with cuts.
fn of_search<R: Threads + Sync>(
    rt: &R,
    alloc: Global,
    word: &str,
    problem: &Instance,
    limits: &str,
) -> Result<String, AllocError> {
    let (told, by) = word.split_once("_by_").unwrap_or((word, ""));
    let by = search_by(by);
    match told {
        "solve" => told_by_solve(rt, alloc, problem, by, Told::Verdict, limits),
        "written" => told_by_solve(rt, alloc, problem, by, Told::Certificate, limits),
        "left" => told_by_solve(rt, alloc, problem, by, Told::Shown, limits),
        _ => "no such kind".to_string(alloc),
    }
}

fn search_by(word: &str) -> SearchBy {
    match word {
        "rows" => SearchBy::Rows,
        "cuts" => SearchBy::Cuts,
        _ => SearchBy::Columns,
    }
}
