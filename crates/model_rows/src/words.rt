// How rows write what is told of a text.
use gmpl_reader::{MathProgFault, TableFile};
use instance::Name;
use solution_writer::{Fault, fault_line};
use std::alloc::{AllocError, Global};

// The fault of a text, or that its file is missing.
fn told(name: &Name, fault: Option<MathProgFault>) -> Fault<'_> {
    match fault {
        None => Fault::Missing(name),
        Some(MathProgFault::Syntax(fault)) => Fault::Syntax(fault),
        Some(MathProgFault::Data(fault)) => Fault::Data(fault),
        Some(MathProgFault::Model(fault)) => Fault::Model(fault),
    }
}

/// The line of a fault.
pub(crate) fn fault_word(alloc: Global, fault: MathProgFault) -> Result<String, AllocError> {
    let name = Name::new(alloc, "text")?;
    let line = fault_line(alloc, &told(&name, Some(fault)))?;
    line.as_str().trim().to_string(alloc)
}

fn file_word(alloc: Global, name: &str, text: &[u8]) -> Result<String, AllocError> {
    let text = str::from_utf8(text).unwrap_or("no text");
    format!(in alloc; "[{name}: {text}]")
}

/// Files that are made, each as `[name: text]`.
pub(crate) fn push_files(
    alloc: Global,
    told: &mut String,
    files: &[TableFile],
) -> Result<(), AllocError> {
    for file in files {
        let word = file_word(alloc, file.name.as_str(), file.text.as_slice())?;
        told.push_str(word.as_str())?;
    }
    Ok(())
}

/// What is told, an arrow and the end; without the arrow where one of them is empty, and `-` where both are.
pub(crate) fn with_end(alloc: Global, told: &str, end: &str) -> Result<String, AllocError> {
    match (told.is_empty(), end.is_empty()) {
        (true, true) => "-".to_string(alloc),
        (true, false) => end.to_string(alloc),
        (false, true) => told.to_string(alloc),
        (false, false) => format!(in alloc; "{told} -> {end}"),
    }
}
