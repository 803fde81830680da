// What the rows of a table ask for, by its kind.
use crate::behind::behind_solve;
use crate::course::course;
use crate::nested::nested_course;
use std::alloc::{AllocError, Global};

/// The answer to what a row of this kind asks. In the answer and in what is asked `$` is a line feed.
pub(crate) fn answer(alloc: Global, kind: &str, asked: &str) -> Result<String, AllocError> {
    let text = asked.replace(alloc, "$", "\n")?;
    let found = match kind {
        "course" => course(alloc, text.as_str())?,
        "nested" => nested_course(alloc, text.as_str())?,
        "behind solve" => behind_solve(alloc, text.as_str())?,
        _ => "no such kind".to_string(alloc)?,
    };
    found.as_str().replace(alloc, "\n", "$")
}
