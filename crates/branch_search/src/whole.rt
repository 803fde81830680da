// The whole search.
ghost use Rattle.std.specs.Prelude.{◌≡◌, [], IfOk, IfErr};
ghost use Rattle.verdicts.specs.Certificate.{Two};
ghost use Rattle.verdicts.specs.Proves.{Proves};
ghost use Rattle.cert_check.specs.Outcome.{Acceptance, outcome, trials};
ghost use Rattle.search_tree.specs.Finished.{IsFinished};
ghost use Rattle.search_tree.specs.Tree.{AllLeaves, IsTodo};
ghost use Rattle.branch_search.specs.Underway.{IsGoing, IsAtEnd, IsNext, AreSame};
ghost use Rattle.branch_search.specs.Faults.{IsLeafFault, IsFault};
ghost use Rattle.branch_search.specs.Columns.{IsBySplitsOfColumns};
ghost use Rattle.branch_search.specs.Plain.{NoneInteger, IsPlainCertificate};

use crate::fault::{LeafFault, SearchFault};
use crate::rounds::round;
use crate::settling::Round;
use crate::stopping::{given_back, stopped};
use candidate::Proposer;
use certificate::{Certificate, DerivedRows};
use instance::Instance;
use search_tree::{finished_boards, kept_boards};
use std::alloc::Global;
use tree_pool::Board;

/// The verdict of a problem by a search over its integer columns, with its certificate, which proves it and which the
/// checker accepts, in version 2, without derived rows and by splits of columns; where no column is integer, it has one leaf at
/// most. The search makes at most `split_limit` splits, and at each node Bland's run, where nothing else decides, takes at most
/// `pivot_limit` steps. Of the columns that may be split, those before `first_columns` come first, in their order.
///
/// A fault tells an operation of the work at a node that does not fit, or a run that is too long, each on an honest way, and with
/// the run the board on which the search stops there; the board on which all splits are made, and nodes are left that are to be
/// split; or a ray that improves the problem. No leaf of such a board is leased.
pub fn search(
    alloc: Global,
    problem: &Instance,
    first_columns: usize,
    split_limit: usize,
    pivot_limit: u32,
) -> Result<Certificate, SearchFault>
    ensures proves { IfOk result (λ c. Proves problem.now c) }
    ensures accepted { IfOk result (λ c. outcome (trials problem.now c) ≡ Acceptance) }
    ensures version { IfOk result (λ c. c.version ≡ Two) }
    ensures splits { IfOk result IsBySplitsOfColumns }
    ensures plain { NoneInteger problem.now.columns → IfOk result (λ c. IsPlainCertificate problem.now c) }
    ensures fault { IfErr result (IsFault problem.now [] split_limit pivot_limit) }
{
    let mut proposer = Proposer::new(alloc, pivot_limit, first_columns);
    let done = search_by(alloc, problem, split_limit, pivot_limit, &mut proposer);
    std::mem::drop(proposer);
    done
}

/// The same, with what proposes at the nodes: it takes up this problem, behind others.
pub fn search_by(
    alloc: Global,
    problem: &Instance,
    split_limit: usize,
    pivot_limit: u32,
    proposer: &mut Proposer,
) -> Result<Certificate, SearchFault>
    ensures proves { IfOk result (λ c. Proves problem.now c) }
    ensures accepted { IfOk result (λ c. outcome (trials problem.now c) ≡ Acceptance) }
    ensures version { IfOk result (λ c. c.version ≡ Two) }
    ensures splits { IfOk result IsBySplitsOfColumns }
    ensures plain { NoneInteger problem.now.columns → IfOk result (λ c. IsPlainCertificate problem.now c) }
    ensures fault { IfErr result (IsFault problem.now [] split_limit pivot_limit) }
{
    let copy = problem.copy(alloc)?;
    let board = Board::start(
        alloc,
        copy,
        DerivedRows::new(alloc),
        split_limit,
        pivot_limit,
    )?;
    proposer.take_up();
    search_on(alloc, board, pivot_limit, proposer)
}

/// The same from a board that is under way, as others may have left it: leaf after leaf, until none is to be worked on.
pub fn search_on(
    alloc: Global,
    mut board: Board,
    pivot_limit: u32,
    proposer: &mut Proposer,
) -> Result<Certificate, SearchFault>
    requires cuts { board.cuts ≡ [] }
    requires pivots { board.pivot_limit ≡ pivot_limit }
    requires going { IsGoing board }
    ensures proves { IfOk result (λ c. Proves board.problem c) }
    ensures accepted { IfOk result (λ c. outcome (trials board.problem c) ≡ Acceptance) }
    ensures version { IfOk result (λ c. c.version ≡ Two) }
    ensures splits { IfOk result IsBySplitsOfColumns }
    ensures plain { NoneInteger board.problem.columns → IfOk result (λ c. IsPlainCertificate board.problem c) }
    ensures fault { IfErr result (IsFault board.problem [] board.split_limit pivot_limit) }
{
    match run(alloc, &mut board, pivot_limit, proposer) {
        Ok(()) => ended(alloc, board),
        Err(fault) => Err(stopped(alloc, board, fault)),
    }
}

// Round after round, until no leaf is to be worked on.
fn run(
    alloc: Global,
    board: &mut Board,
    pivot_limit: u32,
    proposer: &mut Proposer,
) -> Result<(), LeafFault>
    requires cuts { board.old.cuts ≡ [] }
    requires pivots { board.old.pivot_limit ≡ pivot_limit }
    requires going { IsGoing board.old }
    ensures same { AreSame board.old board.new }
    ensures at_end { IfOk result (λ done. IsAtEnd board.new) }
    ensures fault { IfErr result (IsLeafFault board.old.problem board.old.cuts board.old.split_limit board.old.pivot_limit) }
{
    let mut more = true;
    while more {
        more = goes_on(alloc, board, pivot_limit, proposer)?;
    }
    Ok(())
}

// One more round; whether it found a leaf to work on.
fn goes_on(
    alloc: Global,
    board: &mut Board,
    pivot_limit: u32,
    proposer: &mut Proposer,
) -> Result<bool, LeafFault>
    requires cuts { board.old.cuts ≡ [] }
    requires pivots { board.old.pivot_limit ≡ pivot_limit }
    requires going { IsGoing board.old }
    ensures same { AreSame board.old board.new }
    ensures next { IfOk result (λ more. IsNext board.old more board.new) }
    ensures fault { IfErr result (IsLeafFault board.old.problem board.old.cuts board.old.split_limit board.old.pivot_limit) }
{
    board.keeps_its_log();
    kept_boards();
    match round(alloc, board, pivot_limit, proposer)? {
        Round::Worked => Ok(true),
        Round::Left => Ok(true),
        Round::Idle => Ok(false),
    }
}

// The certificate of a board on which no leaf is to be worked on, where all leaves are closed.
fn ended(alloc: Global, board: Board) -> Result<Certificate, SearchFault>
    requires at_end { IsAtEnd board }
    requires cuts { board.cuts ≡ [] }
    ensures proves { IfOk result (λ c. Proves board.problem c) }
    ensures accepted { IfOk result (λ c. outcome (trials board.problem c) ≡ Acceptance) }
    ensures version { IfOk result (λ c. c.version ≡ Two) }
    ensures splits { IfOk result IsBySplitsOfColumns }
    ensures plain { NoneInteger board.problem.columns → IfOk result (λ c. IsPlainCertificate board.problem c) }
    ensures fault { IfErr result (IsFault board.problem board.cuts board.split_limit board.pivot_limit) }
{
    board.keeps_its_log();
    finished_boards();
    if !board.is_finished() {
        return Err(out_of_splits(alloc, board));
    }
    match board.into_certificate(alloc).ok() {
        Some(certificate) => Ok(certificate),
        None => Err(SearchFault::NoMemory),
    }
}

// Why a board is at its end and not finished: all splits are made.
fn out_of_splits(alloc: Global, board: Board) -> SearchFault
    requires at_end { IsAtEnd board }
    requires unfinished { ¬ (IsFinished board) }
    ensures { IsFault board.problem board.cuts board.split_limit board.pivot_limit result }
{
    match given_back(alloc, board) {
        Ok(board) => SearchFault::SplitLimit(board),
        Err(_) => SearchFault::NoMemory,
    }
}
