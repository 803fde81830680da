//! A pool by which several workers share one sequential machine. A turn at the machine is one compare-exchange of a word.
#![tactic(auto)]

mod fault;
mod hand;
mod machine;
mod pass;
mod pool;
mod rule;
mod turn;
mod view;

pub use fault::PoolFault;
pub use machine::{Event, Machine};
pub use pass::{Pass, Pool};
pub use rule::Turns;
pub use view::{Key, View};
