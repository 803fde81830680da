// Texts in which parts stand many times within one another.
use crate::course::course;
use std::alloc::{AllocError, Global};

fn push_times(text: &mut String, part: &str, times: u32) -> Result<(), AllocError> {
    for _ in 0..times {
        text.push_str(part)?;
    }
    Ok(())
}

/// The course of a text whose parts are parted by `|`: the second and the fourth stand so many times as the number before it says.
pub(crate) fn nested_course(alloc: Global, asked: &str) -> Result<String, AllocError> {
    let (times, parts) = asked.split_once(' ').unwrap_or((asked, ""));
    let times = times.parse::<u32>().unwrap_or(0);
    let mut text = String::new(alloc);
    let mut is_nested = false;
    for part in parts.split('|') {
        push_times(&mut text, part, if is_nested { times } else { 1 })?;
        is_nested = !is_nested;
    }
    course(alloc, text.as_str())
}
