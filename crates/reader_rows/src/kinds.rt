// What the kinds of rows ask for.
use crate::cplex_lp::{lp_of_bytes, lp_of_text, lp_within_two};
use crate::csv_adding::data_added;
use crate::csv_reading::table_read;
use crate::csv_writing::text_written;
use crate::fault_lines::fault_line;
use crate::free_mps::{mps_of_bytes, mps_of_text, mps_within_two};
use crate::points::{entries_of_column, values_at_point, with_direction};
use std::alloc::{AllocError, Global};

/// What is found for what a row of the kind asks.
pub(crate) fn found(alloc: Global, kind: &str, asked: &str) -> Result<String, AllocError> {
    match kind {
        "lp" => lp_of_text(alloc, asked),
        "lp bytes" => lp_of_bytes(alloc, asked),
        "lp within two" => lp_within_two(alloc, asked),
        "mps" => mps_of_text(alloc, asked),
        "mps bytes" => mps_of_bytes(alloc, asked),
        "mps within two" => mps_within_two(alloc, asked),
        "fault line" => fault_line(alloc, asked),
        "point" => values_at_point(alloc, asked),
        "column" => entries_of_column(alloc, asked),
        "direction" => with_direction(alloc, asked),
        _ => found_of_csv(alloc, kind, asked),
    }
}

fn found_of_csv(alloc: Global, kind: &str, asked: &str) -> Result<String, AllocError> {
    match kind {
        "csv table" => table_read(alloc, asked),
        "csv text" => text_written(alloc, asked),
        "csv data" => data_added(alloc, asked),
        _ => "no such kind".to_string(alloc),
    }
}
