//! Answers the tables of the input: certificates, candidates, programs and boards of searches. Of each table it tells how many rows are
//! as wanted, and which are not.
#![tactic(auto)]

mod boards;
mod certificates;
mod kinds;
mod leaves;
mod linear;
mod offers;
mod partials;
mod programs;
mod ranged;
mod shown;
mod subsets;
mod tables;
mod texts;

use std::io;
use tables::tell_tables;

fn main(rt: HostRuntime) -> io::Result<()> {
    let text = io::read_to_string(rt.alloc(), rt.reader())?;
    tell_tables(&rt, rt.alloc(), text.as_str())
}
