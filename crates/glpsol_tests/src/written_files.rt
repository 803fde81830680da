// Runs that write to a file of memory, as rows of tables say them.
use crate::rows::split;
use crate::runs::{add_files, outcome, with_marks};
use outside::MemStore;
use std::alloc::{AllocError, Global};
use std::thread::Threads;

fn file_text(alloc: Global, files: &MemStore) -> Result<String, AllocError> {
    match files.bytes("y") {
        None => "none".to_string(alloc),
        Some(bytes) => match str::from_utf8(bytes) {
            Ok(text) => text.to_string(alloc),
            Err(_) => "bytes that are no text".to_string(alloc),
        },
    }
}

// What words print, and what file y holds then, where that is something else.
fn found_and_held<T: Threads + Sync>(
    rt: &T,
    alloc: Global,
    held: &str,
    given: &str,
) -> Result<String, AllocError> {
    let (words, texts) = split(given);
    let mut files = MemStore::new(alloc, Vec::new(alloc), 4096);
    add_files(alloc, &mut files, texts)?;
    let found = outcome(rt, alloc, words, &mut files)?;
    let file = file_text(alloc, &files)?;
    beside_file(alloc, found.as_str(), file.as_str(), held)
}

fn beside_file(alloc: Global, found: &str, file: &str, held: &str) -> Result<String, AllocError> {
    let found = with_marks(alloc, found)?;
    let file = with_marks(alloc, file)?;
    if file.as_str() == held {
        return Ok(found);
    }
    format!(in alloc; "{found} and the file: {file}")
}

/// A row has, parted by ` <- `, the status with what is printed, what file y holds then (`none`, where there is none), the
/// words, and the texts of the files f, c and d, as many of them as there are.
pub(crate) fn written_of_row<T: Threads + Sync>(
    rt: &T,
    alloc: Global,
    row: &str,
) -> Result<String, AllocError> {
    let (_, others) = split(row);
    let (held, given) = split(others);
    found_and_held(rt, alloc, held, given)
}
