//! What a program meets outside: a store of files by name, and a sink that takes bytes.
#![tactic(auto)]

mod failing;
mod mem_sink;
mod mem_store;
mod real;
mod sink;
mod store;
mod sure_store;

pub use mem_sink::{MemSink, SureSink};
pub use mem_store::MemStore;
pub use real::{RealSink, RealStore};
pub use sink::{Sink, write_all};
pub use store::{LoadFault, MAX_FILE, OpenTrouble, Store, Trouble, read_all, write_file};
pub use sure_store::SureStore;
