// The course of a text: what it makes, asks for and prints, and the problem that it declares, or why there is none.
use crate::problems::problem_word;
use crate::words::{fault_word, push_files, with_end};
use gmpl_reader::{MathProgFault, Reading, ReadingEnd, read_math_prog, read_on};
use model_text::ReadError;
use std::alloc::{AllocError, Global};
use std::mem::ManuallyDrop;

// A text behind an arrow, without the blank behind that.
fn file(alloc: Global, text: &str) -> Result<Vec<u8>, AllocError> {
    text.strip_prefix(' ')
        .unwrap_or(text)
        .as_bytes()
        .to_vec(alloc)
}

fn files(alloc: Global, texts: &str) -> Result<Vec<Vec<u8>>, AllocError> {
    let mut files = Vec::new(alloc);
    for text in texts.split(" <-").skip(1) {
        files.push(file(alloc, text)?)?;
    }
    Ok(files)
}

// The part before an arrow.
fn before<'a>(texts: &'a str, arrow: &str) -> &'a str {
    match texts.split_once(arrow) {
        Some((first, _)) => first,
        None => texts,
    }
}

/// What comes of a model with its files of data, each behind ` <- `.
pub(crate) fn read(alloc: Global, texts: &str) -> Result<Reading, ReadError<MathProgFault>> {
    let files = files(alloc, texts)?;
    read_math_prog(alloc, before(texts, " <-").as_bytes(), &files)
}

// The name of the file that is asked for.
fn asked_file(end: &ReadingEnd) -> Option<&str> {
    match end {
        ReadingEnd::Table(pending) => Some(pending.get().pause.name.as_str()),
        _ => None,
    }
}

// The reading goes on with the text of its table's file; where it asks for none, it stays.
fn further(
    alloc: Global,
    reading: Reading,
    text: &[u8],
) -> Result<ManuallyDrop<Reading>, AllocError> {
    let Reading {
        printed,
        files,
        end,
    } = reading;
    match end {
        ReadingEnd::Table(pending) => {
            let reading = read_on(alloc, pending.into_inner(), printed, text)?;
            Ok(ManuallyDrop::new(reading))
        }
        end => Ok(ManuallyDrop::new(Reading {
            printed,
            files,
            end,
        })),
    }
}

// Where a file is asked for, the reading goes on with this text.
fn gone_on(
    alloc: Global,
    told: &mut String,
    reading: ManuallyDrop<Reading>,
    text: &str,
) -> Result<ManuallyDrop<Reading>, AllocError> {
    let Some(name) = asked_file(&reading.end) else {
        return Ok(reading);
    };
    told.push_str(format!(in alloc; "<{name}>")?.as_str())?;
    let text = file(alloc, text)?;
    let reading = further(alloc, ManuallyDrop::into_inner(reading), &text)?;
    push_files(alloc, told, &reading.files)?;
    Ok(reading)
}

fn end_word(alloc: Global, end: &ReadingEnd) -> Result<String, AllocError> {
    match end {
        ReadingEnd::Problem(problem, _) => problem_word(alloc, problem),
        ReadingEnd::Table(_) => "?".to_string(alloc),
        ReadingEnd::Fault(fault) => fault_word(alloc, MathProgFault::Model(*fault)),
    }
}

// Each table is given the next text. No reading is let go: its row is one of few, and a proof of how each of its parts is let go is long.
fn course_of(alloc: Global, reading: Reading, texts: &str) -> Result<String, AllocError> {
    let mut reading = ManuallyDrop::new(reading);
    let mut told = String::new(alloc);
    push_files(alloc, &mut told, &reading.files)?;
    for text in texts.split(" <~").skip(1) {
        reading = gone_on(alloc, &mut told, reading, text)?;
    }
    told.push_str(reading.printed.as_str())?;
    let end = end_word(alloc, &reading.end)?;
    with_end(alloc, told.as_str(), end.as_str())
}

/// What is told of a model with its files of data and, each behind ` <~ `, the files of its tables in the order in which they are asked
/// for: each file that is made, as `[name: text]`, and each that is asked for, as `<name>`, then what is printed, and the end.
pub(crate) fn course(alloc: Global, texts: &str) -> Result<String, AllocError> {
    match read(alloc, before(texts, " <~")) {
        Ok(reading) => course_of(alloc, reading, texts),
        Err(ReadError::Fault(fault)) => fault_word(alloc, fault),
        Err(ReadError::NoMemory) => Err(AllocError),
    }
}
