// Runs of the program over files and an output in memory, as rows of tables say them.
use crate::rows::split;
use glpsol_cli::run;
use outside::{MemSink, MemStore};
use std::alloc::{AllocError, Global};
use std::thread::Threads;

/// The text of a small model: the least x from 2 to 5.
pub(crate) const MODEL: &str =
    "NAME t$ROWS$ N cost$COLUMNS$ x cost 1$BOUNDS$ LO b x 2$ UP b x 5$ENDATA$";

// What the program says to a certificate that proves its verdict.
const ACCEPTED: &str = "0 ACCEPTED\n";

/// The status with which words end.
pub(crate) fn status<T: Threads + Sync>(
    rt: &T,
    alloc: Global,
    words: Vec<String>,
    files: &mut MemStore,
    out: &mut MemSink,
) -> u8 {
    run(rt, alloc, words, files, out).into_code()
}

/// The words of a text.
pub(crate) fn words_of(alloc: Global, text: &str) -> Result<Vec<String>, AllocError> {
    let mut words = Vec::new(alloc);
    for word in text.split(' ') {
        words.push(word.to_string(alloc)?)?;
    }
    Ok(words)
}

/// A text as a table writes it: `$` is a line feed, and `@` the model above.
pub(crate) fn written(alloc: Global, row: &str) -> Result<String, AllocError> {
    let whole = row.replace(alloc, "@", MODEL)?;
    whole.as_str().replace(alloc, "$", "\n")
}

/// A text as a table writes it, without the mark of the model.
pub(crate) fn with_marks(alloc: Global, text: &str) -> Result<String, AllocError> {
    text.replace(alloc, "\n", "$")
}

/// A text, where bytes are one.
pub(crate) fn text_of(bytes: &[u8]) -> &str {
    str::from_utf8(bytes).unwrap_or("bytes that are no text")
}

/// The status with which words end, and what they print.
pub(crate) fn outcome<T: Threads + Sync>(
    rt: &T,
    alloc: Global,
    words: &str,
    files: &mut MemStore,
) -> Result<String, AllocError> {
    let words = words_of(alloc, words)?;
    let mut out = MemSink::new(alloc, Vec::new(alloc), 4096);
    let code = status(rt, alloc, words, files, &mut out);
    let text = text_of(out.bytes());
    format!(in alloc; "{code} {text}")
}

// Adds a file with the text of a row.
fn add_file(alloc: Global, files: &mut MemStore, name: &str, row: &str) -> Result<(), AllocError> {
    let text = written(alloc, row)?;
    files.add(name, text.as_bytes())
}

/// The small model as file f, where a read gives at most so many bytes.
pub(crate) fn model_alone(alloc: Global, at_most: usize) -> Result<MemStore, AllocError> {
    let mut files = MemStore::new(alloc, Vec::new(alloc), at_most);
    add_file(alloc, &mut files, "f", "@")?;
    Ok(files)
}

/// The files f, c and d, as many of them as the row has texts.
pub(crate) fn add_files(alloc: Global, files: &mut MemStore, rows: &str) -> Result<(), AllocError> {
    for (name, text) in ["f", "c", "d"].iter().zip(rows.split(" <- ")) {
        add_file(alloc, files, name, text)?;
    }
    Ok(())
}

// The words of a row, whose files are added.
fn given<'a>(alloc: Global, files: &mut MemStore, row: &'a str) -> Result<&'a str, AllocError> {
    match row.split_once(" <- ") {
        Some((words, rows)) => {
            add_files(alloc, files, rows)?;
            Ok(words)
        }
        None => Ok(row),
    }
}

// What words come to over the files of a row.
fn outcome_of_row<T: Threads + Sync>(
    rt: &T,
    alloc: Global,
    row: &str,
) -> Result<String, AllocError> {
    let mut files = MemStore::new(alloc, Vec::new(alloc), 4096);
    let words = given(alloc, &mut files, row)?;
    outcome(rt, alloc, words, &mut files)
}

/// The status and what is printed in a row, where a part that doesn't end a line counts for the whole.
pub(crate) fn answer_of_row<T: Threads + Sync>(
    rt: &T,
    alloc: Global,
    row: &str,
) -> Result<String, AllocError> {
    let (want, given) = split(row);
    let found = outcome_of_row(rt, alloc, given)?;
    in_words_of(alloc, found.as_str(), want)
}

fn in_words_of(alloc: Global, found: &str, want: &str) -> Result<String, AllocError> {
    let found = with_marks(alloc, found)?;
    if !want.ends_with('$') && found.as_str().starts_with(want) {
        return want.to_string(alloc);
    }
    Ok(found)
}

/// The status and what is printed in a row, each line up to its third word.
pub(crate) fn members_of_row<T: Threads + Sync>(
    rt: &T,
    alloc: Global,
    row: &str,
) -> Result<String, AllocError> {
    let (_, given) = split(row);
    let found = outcome_of_row(rt, alloc, given)?;
    let mut members = String::new(alloc);
    for line in found.as_str().lines() {
        push_words(&mut members, line)?;
        members.push('$')?;
    }
    Ok(members)
}

// The first three words of a line.
fn push_words(text: &mut String, line: &str) -> Result<(), AllocError> {
    for (place, word) in line.split(' ').enumerate() {
        if place == 0 {
            text.push_str(word)?;
        } else if place < 3 {
            text.push(' ')?;
            text.push_str(word)?;
        }
    }
    Ok(())
}

// What the program says to the certificate that it writes for words on a text, and then to the same one in version 2.
fn round_trip<T: Threads + Sync>(
    rt: &T,
    alloc: Global,
    words: &str,
    row: &str,
) -> Result<String, AllocError> {
    let mut files = MemStore::new(alloc, Vec::new(alloc), 4096);
    let text = written(alloc, row)?;
    files.add("f", text.as_bytes())?;
    let with_certificate = format!(in alloc; "{words} --cert c")?;
    let _report = outcome(rt, alloc, with_certificate.as_str(), &mut files)?;
    let with_check = format!(in alloc; "{words} --checkcert c --cert n")?;
    let found = outcome(rt, alloc, with_check.as_str(), &mut files)?;
    if found.as_str() != ACCEPTED {
        return Ok(found);
    }
    let with_second_check = format!(in alloc; "{words} --checkcert n")?;
    outcome(rt, alloc, with_second_check.as_str(), &mut files)
}

/// For a row whose status is 0: the answer that it has, where the program accepts the certificate that it writes, and else what it says
/// to that.
pub(crate) fn round_trip_of_row<T: Threads + Sync>(
    rt: &T,
    alloc: Global,
    row: &str,
) -> Result<String, AllocError> {
    let (want, given) = split(row);
    let (words, text) = split(given);
    if !want.starts_with('0') {
        return want.to_string(alloc);
    }
    let found = round_trip(rt, alloc, words, text)?;
    if found.as_str() == ACCEPTED {
        return want.to_string(alloc);
    }
    Ok(found)
}
