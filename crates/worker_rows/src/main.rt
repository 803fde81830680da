//! Answers rows of the input: problems that several workers search together, and what comes of them.
#![tactic(auto)]

mod answers;
mod gates;
mod rows;

use rows::tell_rows;
use std::io;

fn main(rt: HostRuntime) -> io::Result<()> {
    let text = io::read_to_string(rt.alloc(), rt.reader())?;
    tell_rows(&rt, rt.alloc(), text.as_str())
}
