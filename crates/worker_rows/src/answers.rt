// What comes of a row.
ghost use Rattle.std.specs.Prelude.{◌≡◌};

use crate::gates::{NoneStays, OneHeld};
use branch_search::SearchFault;
use certificate::{Certificate, Verdict};
use cplex_lp_reader::read_lp;
use instance::Instance;
use shared_search::{OpenGate, search_together, search_with_workers};
use std::alloc::{AllocError, Global};
use std::thread::Threads;
use tree_pool::Board;

// The limits of splits and of steps.
const SPLITS: usize = 1000;

const STEPS: u32 = 1000;

// Who searches, and how.
#[derive(Clone, Copy)]
struct Crew<'a> {
    workers: u32,
    gate: &'a str,
    splits: usize,
}

/// What a crew finds of a problem: `WORKERS GATE SPLITS TEXT`, where the text is of a CPLEX LP file with `$` for line feeds. At the
/// gate `away` the workers are sent away and one goes on alone; at `board` they are sent away too, and what they leave is told. At
/// `first` and at `second` this one of two workers is held in its first turn until the other is asked whether it stays.
pub(crate) fn answer<R: Threads + Sync>(
    rt: &R,
    alloc: Global,
    asked: &str,
) -> Result<String, AllocError> {
    let (workers, rest) = cut(asked);
    let (gate, rest) = cut(rest);
    let (splits, text) = cut(rest);
    let crew = Crew {
        workers: workers.parse::<u32>().unwrap_or(1),
        gate,
        splits: splits.parse::<usize>().unwrap_or(SPLITS),
    };
    let text = text.replace(alloc, "$", "\n")?;
    match read_lp(alloc, text.as_bytes()).ok() {
        None => "no problem".to_string(alloc),
        Some(problem) => found(rt, alloc, &problem, crew),
    }
}

// A word, and what comes behind the blank after it.
fn cut(words: &str) -> (&str, &str) {
    words.split_once(' ').unwrap_or((words, ""))
}

// What the crew finds.
fn found<R: Threads + Sync>(
    rt: &R,
    alloc: Global,
    problem: &Instance,
    crew: Crew,
) -> Result<String, AllocError> {
    if crew.workers == 0 {
        return "no workers".to_string(alloc);
    }
    if crew.gate == "board" {
        return left_word(rt, alloc, problem, crew).to_string(alloc);
    }
    if crew.gate == "first" || crew.gate == "second" {
        return held(rt, alloc, problem, crew);
    }
    let verdict = searched(rt, alloc, problem, crew);
    let words = words_of(alloc, &verdict);
    std::mem::drop(verdict);
    words
}

// What is found where one worker is held, and whether it went on since the other was asked.
fn held<R: Threads + Sync>(
    rt: &R,
    alloc: Global,
    problem: &Instance,
    crew: Crew,
) -> Result<String, AllocError>
    requires { ¬ (crew.workers ≡ 0) }
{
    let gate = OneHeld::new(crew.gate == "first");
    let verdict = search_with_workers(
        rt,
        alloc,
        problem,
        0,
        crew.splits,
        STEPS,
        crew.workers,
        &gate,
    );
    let words = words_of(alloc, &verdict);
    std::mem::drop(verdict);
    let asked = if gate.went_on() { "asked" } else { "not asked" };
    let words = words?;
    format!(in alloc; "{words}, the other was {asked}")
}

fn words_of(
    alloc: Global,
    verdict: &Result<Certificate, SearchFault>,
) -> Result<String, AllocError> {
    match verdict {
        Ok(certificate) => verdict_words(alloc, certificate),
        Err(fault) => fault_word(fault).to_string(alloc),
    }
}

fn searched<R: Threads + Sync>(
    rt: &R,
    alloc: Global,
    problem: &Instance,
    crew: Crew,
) -> Result<Certificate, SearchFault>
    requires { ¬ (crew.workers ≡ 0) }
{
    if crew.gate == "open" {
        search_with_workers(
            rt,
            alloc,
            problem,
            0,
            crew.splits,
            STEPS,
            crew.workers,
            &OpenGate,
        )
    } else {
        search_with_workers(
            rt,
            alloc,
            problem,
            0,
            crew.splits,
            STEPS,
            crew.workers,
            &NoneStays,
        )
    }
}

fn verdict_words(alloc: Global, certificate: &Certificate) -> Result<String, AllocError> {
    let verdict = match certificate.verdict() {
        Verdict::Optimal => "optimal",
        Verdict::Infeasible => "infeasible",
        Verdict::Unbounded => "unbounded",
    };
    match certificate.value() {
        None => verdict.to_string(alloc),
        Some(value) => {
            let value = value.text(alloc)?;
            format!(in alloc; "{verdict} {value}")
        }
    }
}

// What workers who are sent away leave behind, where no one goes on.
fn left_word<R: Threads + Sync>(
    rt: &R,
    alloc: Global,
    problem: &Instance,
    crew: Crew,
) -> &'static str
    requires { ¬ (crew.workers ≡ 0) }
{
    let ended = search_together(
        rt,
        alloc,
        problem,
        0,
        crew.splits,
        STEPS,
        crew.workers,
        &NoneStays,
    );
    let word = match &ended {
        Ok(board) => board_word(board),
        Err(fault) => fault_word(fault),
    };
    std::mem::drop(ended);
    word
}

fn board_word(board: &Board) -> &'static str {
    if board.is_finished() {
        "finished"
    } else {
        "left"
    }
}

fn fault_word(fault: &SearchFault) -> &'static str {
    match fault {
        SearchFault::NoFit(_) => "overflow",
        SearchFault::PivotLimit(..) => "steps",
        SearchFault::SplitLimit(_) => "splits",
        SearchFault::Unbounded(_) => "ray",
        SearchFault::NoMemory => "no memory",
    }
}
