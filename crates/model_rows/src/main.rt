//! Answers the rows of the input, which ask what MathProg texts come to: the problems that they declare, the lines of their faults, what
//! they print and the tables that they read and write, up to `solve` and behind it, and tells where an answer is not what its row wants.
#![tactic(auto)]

mod answers;
mod behind;
mod course;
mod nested;
mod problems;
mod rows;
mod words;

use rows::report;
use std::io;

fn main(rt: HostRuntime) -> io::Result<()> {
    let text = io::read_to_string(rt.alloc(), rt.reader())?;
    let told = report(rt.alloc(), text.as_str())?;
    print!(rt; "{told}")
}
