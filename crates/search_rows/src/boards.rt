// Events of a board, each a word with its operands, and the board's replies in words.
use crate::leaves::{graft, tree_for};
use crate::offers::may_be_offered;
use crate::programs::verdict_word;
use crate::texts::{cut, point_of};
use cert_check::{Checked, check};
use certificate::{Certificate, DerivedRows, Side};
use fraction::Frac;
use instance::Instance;
use search_node::SplitTaken;
use search_tree::Lease;
use std::alloc::{AllocError, Global};
use tree_pool::{Board, LeaseAnswer};

/// How the board of a problem ends at which these events come, or the first of them with its reply where the row has another.
pub(crate) fn played(alloc: Global, problem: &Instance, asked: &str) -> Result<String, AllocError> {
    let (limit, steps) = asked.split_once(": ").unwrap_or((asked, ""));
    let mut board = board_of(alloc, problem.copy(alloc)?, number(limit))?;
    let told = told(alloc, &mut board, steps);
    let verdict = verdict_of(alloc, board, problem);
    let told = told?;
    let verdict = verdict?;
    format!(in alloc; "{told} {verdict}")
}

/// A board at its start, without cuts.
pub(crate) fn board_of(
    alloc: Global,
    problem: Instance,
    limit: usize,
) -> Result<Board, AllocError> {
    Board::start(alloc, problem, DerivedRows::new(alloc), limit, 100)
}

// The number of splits, that of events, the best value, and how many leaves are not closed; or the first event whose reply is another than
// the row's, with this reply.
fn told(alloc: Global, board: &mut Board, steps: &str) -> Result<String, AllocError> {
    match other_reply(alloc, board, steps)? {
        Some(words) => Ok(words),
        None => account(alloc, board),
    }
}

/// The first event whose reply is another than the row's, with this reply.
pub(crate) fn other_reply(
    alloc: Global,
    board: &mut Board,
    steps: &str,
) -> Result<Option<String>, AllocError> {
    if steps.is_empty() {
        return Ok(None);
    }
    for step in steps.split("; ") {
        let (event, wanted) = step.split_once(" > ").unwrap_or((step, ""));
        let found = reply(alloc, board, event)?;
        if found.as_str() != wanted {
            return Ok(Some(format!(in alloc; "{event} > {found}")?));
        }
    }
    Ok(None)
}

fn account(alloc: Global, board: &mut Board) -> Result<String, AllocError> {
    let best = value_word(alloc, &board.best_value())?;
    let (splits, events) = (board.splits(), board.events());
    let open = open_leaves(alloc, board)?;
    format!(in alloc; "{splits} {events} {best} {open}")
}

// How many leaves are not closed: as many as can be leased.
fn open_leaves(alloc: Global, board: &mut Board) -> Result<usize, AllocError> {
    board.reclaim(alloc)?;
    for _ in 0..1000u32 {
        if let LeaseAnswer::Idle(count) = board.lease(alloc, 0)? {
            return Ok(count);
        }
    }
    Ok(1000)
}

// The verdict of the certificate of a board whose leaves are all closed, where the checker accepts it.
fn verdict_of(alloc: Global, board: Board, problem: &Instance) -> Result<&'static str, AllocError> {
    if !board.is_finished() {
        std::mem::drop(board);
        return Ok("open");
    }
    match board.into_certificate(alloc).ok() {
        None => Err(AllocError),
        Some(certificate) => {
            let word = accepted_verdict(alloc, problem, &certificate);
            std::mem::drop(certificate);
            Ok(word)
        }
    }
}

fn accepted_verdict(alloc: Global, problem: &Instance, certificate: &Certificate) -> &'static str {
    match check(alloc, problem, certificate) {
        Ok(Checked::Accepted) => verdict_word(certificate),
        _ => "not accepted",
    }
}

// The reply to an event; `refused` where the board may not be asked for it.
fn reply(alloc: Global, board: &mut Board, event: &str) -> Result<String, AllocError> {
    let (name, words) = cut(event);
    let (seat, words) = cut(words);
    let seat = number(seat);
    match name {
        "lease" => leased(alloc, board, seat),
        "offer" => offered(alloc, board, seat, words),
        "reclaim" => reclaimed(alloc, board),
        _ => grafted(alloc, board, seat, name, words),
    }
}

// `idle` and the number of leased leaves, or number, grant and best value of the lease, and the leaf's name.
fn leased(alloc: Global, board: &mut Board, seat: usize) -> Result<String, AllocError> {
    match board.lease(alloc, seat)? {
        LeaseAnswer::Idle(count) => format!(in alloc; "idle {count}"),
        LeaseAnswer::Leased(lease, hint) => {
            std::mem::drop(hint);
            lease_words(alloc, board, &lease)
        }
    }
}

fn lease_words(alloc: Global, board: &Board, lease: &Lease) -> Result<String, AllocError> {
    let best = value_word(alloc, &lease.best)?;
    let (number, grant) = (lease.number, lease.grant);
    let node = board.node(alloc, lease.copy())?;
    let name = leaf_name(alloc, node.splits.as_slice())?;
    format!(in alloc; "{number} {grant} {best} {name}")
}

// A leaf is named by the splits on its way, `x<2` for the low side and `x>2` for the high side of the split of x at 2; the root is `.`.
fn leaf_name(alloc: Global, splits: &[SplitTaken]) -> Result<String, AllocError> {
    let mut name = String::new(alloc);
    for taken in splits {
        let letter = if taken.split.column() == 0 { 'x' } else { 'y' };
        let side = match taken.side {
            Side::Low => '<',
            Side::High => '>',
        };
        let at = taken.split.at().get();
        write!(name, ",{letter}{side}{at}")?;
    }
    match name.as_str().strip_prefix(',') {
        Some(name) => name.to_string(alloc),
        None => ".".to_string(alloc),
    }
}

fn reclaimed(alloc: Global, board: &mut Board) -> Result<String, AllocError> {
    board.reclaim(alloc)?;
    "done".to_string(alloc)
}

// A point, and its value as the row has it; `refused` where it is not feasible.
fn offered(
    alloc: Global,
    board: &mut Board,
    seat: usize,
    words: &str,
) -> Result<String, AllocError> {
    let (point, _) = cut(words);
    let point = point_of(alloc, point)?;
    if !may_be_offered(board.problem(), &point) {
        return "refused".to_string(alloc);
    }
    match board.offer(seat, point).ok() {
        Some(best) => value_word(alloc, &best),
        None => Err(AllocError),
    }
}

fn grafted(
    alloc: Global,
    board: &mut Board,
    seat: usize,
    name: &str,
    words: &str,
) -> Result<String, AllocError> {
    let (lease, words) = cut(words);
    let Some(lease) = board.open_lease(number(lease)) else {
        return "refused".to_string(alloc);
    };
    match tree_for(alloc, board, &lease, name, words)? {
        None => "refused".to_string(alloc),
        Some(tree) => value_word(alloc, &graft(alloc, board, seat, lease, tree)?),
    }
}

/// A number, 0 for other words.
pub(crate) fn number(word: &str) -> usize {
    word.parse::<usize>().unwrap_or(0)
}

// A value, or `-` where there is none.
fn value_word(alloc: Global, value: &Option<Frac>) -> Result<String, AllocError> {
    match *value {
        None => "-".to_string(alloc),
        Some(value) => value.text(alloc),
    }
}
