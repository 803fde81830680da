// Runs of commands in which each call on the outside fails once.
use crate::deeds::{Deed, command, deed_of};
use crate::failing::{Course, Failing};
use crate::rows::split;
use crate::runs::{status, text_of, with_marks, words_of};
use outside::{MemSink, MemStore};
use std::alloc::{AllocError, Global};
use std::thread::Threads;

// So many letters from the front.
fn first(alloc: Global, text: &str, count: usize) -> Result<String, AllocError> {
    let mut first = String::new(alloc);
    for letter in text.chars() {
        if first.len() < count {
            first.push(letter)?;
        }
    }
    Ok(first)
}

// What is held behind a deed, which leaves so much of its text.
fn with_text(
    alloc: Global,
    held: String,
    deed: &Deed<'_>,
    made: Option<usize>,
) -> Result<String, AllocError> {
    let Some(count) = made else {
        return Ok(held);
    };
    let text = first(alloc, deed.text, count)?;
    if deed.is_on_output() {
        return format!(in alloc; "{held}{text}");
    }
    Ok(text)
}

// What the file of a name, or the output, is to hold.
fn held(alloc: Global, deeds: &str, name: &str, failing: &Failing) -> Result<String, AllocError> {
    let mut held = if name == "out" { "" } else { "none" }.to_string(alloc)?;
    let mut course = Course::Before(failing.before);
    for row in deeds.lines() {
        let deed = deed_of(row);
        if deed.name == name && !deed.is_read() {
            held = with_text(alloc, held, &deed, course.made(&deed, failing))?;
        }
        course = course.behind(&deed, failing);
    }
    Ok(held)
}

// The line of the fault of a deed that is broken off behind so many calls; a write on the output has none.
fn fault_line(alloc: Global, deed: &Deed<'_>, calls: usize) -> Result<String, AllocError> {
    if deed.is_on_output() {
        return Ok(String::new(alloc));
    }
    let word = if !deed.is_read() {
        "write"
    } else if calls == 0 {
        "open"
    } else {
        "read"
    };
    let name = deed.name;
    format!(in alloc; "{word} fault: {name}$")
}

// The line of the fault that is wanted, where there is one.
fn last_line(alloc: Global, deeds: &str, failing: &Failing) -> Result<String, AllocError> {
    let mut left = failing.before;
    for row in deeds.lines() {
        let deed = deed_of(row);
        match left.checked_sub(failing.calls(&deed)) {
            Some(behind) => left = behind,
            None => return fault_line(alloc, &deed, left),
        }
    }
    Ok(String::new(alloc))
}

// How many calls the whole command takes there where one fails.
fn calls_of(deeds: &str, failing: &Failing) -> usize {
    let mut calls = 0usize;
    for row in deeds.lines() {
        calls = calls.saturating_add(failing.calls(&deed_of(row)));
    }
    calls
}

fn push_file(alloc: Global, told: &mut String, name: &str, text: &str) -> Result<(), AllocError> {
    told.push_str(format!(in alloc; " [{name}: {text}]")?.as_str())
}

// The status, what is printed, and what each file that is written holds, as they are wanted.
fn wanted(alloc: Global, deeds: &str, failing: &Failing) -> Result<String, AllocError> {
    let code = if failing.before < calls_of(deeds, failing) {
        1u8
    } else {
        0
    };
    let printed = held(alloc, deeds, "out", failing)?;
    let line = last_line(alloc, deeds, failing)?;
    let mut told = format!(in alloc; "{code} {printed}{line}")?;
    for row in deeds.lines() {
        let deed = deed_of(row);
        if deed.is_written() && !deed.is_on_output() {
            let text = held(alloc, deeds, deed.name, failing)?;
            push_file(alloc, &mut told, deed.name, text.as_str())?;
        }
    }
    Ok(told)
}

// The files that are there before.
fn files_of(alloc: Global, deeds: &str, failing: &Failing) -> Result<MemStore, AllocError> {
    let mut files = MemStore::new(alloc, failing.numbers(alloc, false)?, failing.at_most());
    for row in deeds.lines() {
        let deed = deed_of(row);
        if !deed.is_written() {
            let text = deed.text.replace(alloc, "$", "\n")?;
            files.add(deed.name, text.as_bytes())?;
        }
    }
    Ok(files)
}

fn push_held(
    alloc: Global,
    told: &mut String,
    name: &str,
    files: &MemStore,
) -> Result<(), AllocError> {
    let text = match files.bytes(name) {
        Some(bytes) => with_marks(alloc, text_of(bytes))?,
        None => "none".to_string(alloc)?,
    };
    push_file(alloc, told, name, text.as_str())
}

// The same as they are found.
fn found<T: Threads + Sync>(
    rt: &T,
    alloc: Global,
    words: &str,
    deeds: &str,
    failing: &Failing,
) -> Result<String, AllocError> {
    let mut files = files_of(alloc, deeds, failing)?;
    let mut out = MemSink::new(alloc, failing.numbers(alloc, true)?, failing.at_most());
    let words = words_of(alloc, words)?;
    let code = status(rt, alloc, words, &mut files, &mut out);
    let printed = with_marks(alloc, text_of(out.bytes()))?;
    let mut told = format!(in alloc; "{code} {printed}")?;
    for row in deeds.lines() {
        let deed = deed_of(row);
        if deed.is_written() && !deed.is_on_output() {
            push_held(alloc, &mut told, deed.name, &files)?;
        }
    }
    Ok(told)
}

// What differs in a run, where something does.
fn difference<T: Threads + Sync>(
    rt: &T,
    alloc: Global,
    words: &str,
    deeds: &str,
    failing: &Failing,
) -> Result<String, AllocError> {
    let wanted = wanted(alloc, deeds, failing)?;
    let found = found(rt, alloc, words, deeds, failing)?;
    if found.as_str() == wanted.as_str() {
        return Ok(String::new(alloc));
    }
    let before = failing.before;
    format!(in alloc; ", behind {before} calls: wanted {wanted}, found {found}")
}

// Each call fails once, and at last none does.
fn all_runs<T: Threads + Sync>(
    rt: &T,
    alloc: Global,
    words: &str,
    deeds: &str,
    failing: &Failing,
) -> Result<String, AllocError> {
    let calls = calls_of(deeds, failing);
    let runs = calls.saturating_add(1);
    let mut told = format!(in alloc; "{runs} runs")?;
    for before in 0..runs {
        let failing = Failing { before, ..*failing };
        let difference = difference(rt, alloc, words, deeds, &failing)?;
        told.push_str(difference.as_str())?;
    }
    Ok(told)
}

/// How many runs there are where each call fails once, of those on the files or the output, and in some run none does, and where
/// one of the runs is another one than wanted. A row asks for the outside, for bytes or pieces at a time, and for the command.
pub(crate) fn failing_calls<T: Threads + Sync>(
    rt: &T,
    alloc: Global,
    row: &str,
) -> Result<String, AllocError> {
    let (_, asked) = split(row);
    let (name, manner) = asked.split_once(" with ").unwrap_or((asked, ""));
    let (words, deeds) = command(name).split_once('\n').unwrap_or(("", ""));
    let failing = Failing {
        is_on_output: manner.starts_with("the output"),
        before: 0,
        is_by_bytes: manner.ends_with("by bytes"),
    };
    all_runs(rt, alloc, words, deeds, &failing)
}
