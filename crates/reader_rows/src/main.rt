//! Answers the tables of standard input, of texts of models and of tables in CSV, and tells of each whether its rows are as
//! wanted, or which are not.
#![tactic(auto)]

mod cplex_lp;
mod csv_adding;
mod csv_reading;
mod csv_texts;
mod csv_writing;
mod fault_lines;
mod free_mps;
mod kinds;
mod marks;
mod points;
mod problems;
mod tables;

use std::io;
use tables::tell_tables;

fn main(rt: HostRuntime) -> io::Result<()> {
    let text = io::read_to_string(rt.alloc(), rt.reader())?;
    tell_tables(&rt, rt.alloc(), text.as_str())
}
