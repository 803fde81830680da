//! The board of a search over integer columns: a tree of splits, a best point, leases of leaves, and a log of events with
//! their replies, of which the board is the replay.
#![tactic(auto)]

mod answer;
mod board;
mod choice;
mod closed;
mod kind;
mod lease;
mod ledger;
mod open;
mod paths;
mod placing;
mod refs;
mod scan;
mod shown;
mod verdict;
mod walk;

pub use answer::LeaseAnswer;
pub use board::Board;
