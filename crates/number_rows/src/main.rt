//! Answers the tables of standard input, and tells of each whether its rows are as wanted, or which are not.
#![tactic(auto)]

mod commands;
mod decimal_texts;
mod fractions;
mod kinds;
mod tables;
mod wide_numbers;

use std::io;
use tables::tell_tables;

fn main(rt: HostRuntime) -> io::Result<()> {
    let text = io::read_to_string(rt.alloc(), rt.reader())?;
    tell_tables(&rt, rt.alloc(), text.as_str())
}
