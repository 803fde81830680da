// Words of a command, with the settings that they ask for.
use command_line::{DataFiles, Language, Settings, Task, WordsFault, read_words};
use instance::{Direction, Name};
use std::alloc::{AllocError, Global};

/// What words ask for, which stand between bars: the language, the model's file, its data files, the file that it prints to, the
/// direction, what is relaxed, limits that are not the usual ones, the workers where they are several, the task and its files.
pub(crate) fn settings_text(alloc: Global, words: &str) -> Result<String, AllocError> {
    let words = words_of(alloc, words)?;
    match read_words(alloc, &words) {
        Ok(settings) => shown(alloc, &settings),
        Err(WordsFault::Usage) => "usage".to_string(alloc),
        Err(WordsFault::NoMemory) => Err(AllocError),
    }
}

// No words where the row asks for nothing.
fn words_of(alloc: Global, row: &str) -> Result<Vec<String>, AllocError> {
    let mut words = Vec::new(alloc);
    if row.is_empty() {
        return Ok(words);
    }
    for word in row.split('|') {
        words.push(word.to_string(alloc)?)?;
    }
    Ok(words)
}

fn shown(alloc: Global, settings: &Settings) -> Result<String, AllocError> {
    let mut text = String::new(alloc);
    push_model(&mut text, settings)?;
    push_problem(&mut text, settings)?;
    push_task(&mut text, &settings.task)?;
    Ok(text)
}

fn push_model(text: &mut String, settings: &Settings) -> Result<(), AllocError> {
    push_source(text, settings)?;
    push_data(text, &settings.data_files)?;
    push_file(text, ", display ", &settings.display)
}

fn push_source(text: &mut String, settings: &Settings) -> Result<(), AllocError> {
    match settings.language {
        Language::MathProg => push_file(text, "math ", &settings.model),
        Language::FreeMps => push_file(text, "mps ", &settings.model),
        Language::CplexLp => push_file(text, "lp ", &settings.model),
        Language::Made(size) => write!(text, "made of {}", size.columns()),
    }
}

fn push_data(text: &mut String, files: &DataFiles) -> Result<(), AllocError> {
    if !files.as_slice().is_empty() {
        text.push_str(", data")?;
    }
    for name in files.as_slice() {
        text.push(' ')?;
        text.push_str(name.as_str())?;
    }
    Ok(())
}

fn push_file(text: &mut String, before: &str, file: &Option<Name>) -> Result<(), AllocError> {
    if let Some(name) = file {
        text.push_str(before)?;
        text.push_str(name.as_str())?;
    }
    Ok(())
}

fn push_problem(text: &mut String, settings: &Settings) -> Result<(), AllocError> {
    text.push_str(direction_words(settings.direction))?;
    if settings.relaxed {
        text.push_str(", relaxed")?;
    }
    push_limit(text, settings.split_limit, 10_000, "splits")?;
    push_limit(text, settings.pivot_limit, 100_000, "steps")?;
    push_workers(text, settings.workers)
}

fn direction_words(direction: Option<Direction>) -> &'static str {
    match direction {
        None => ", own direction",
        Some(Direction::Min) => ", min",
        Some(Direction::Max) => ", max",
    }
}

// A limit, where it is not the one that stands without its option.
fn push_limit(text: &mut String, limit: u32, usual: u32, what: &str) -> Result<(), AllocError> {
    if limit == usual {
        Ok(())
    } else {
        write!(text, ", at most {limit} {what}")
    }
}

// How many workers search, where they are several.
fn push_workers(text: &mut String, workers: u32) -> Result<(), AllocError> {
    if workers == 1 {
        Ok(())
    } else {
        write!(text, ", {workers} workers")
    }
}

fn push_task(text: &mut String, task: &Task) -> Result<(), AllocError> {
    match task {
        Task::Solve(outputs) => {
            text.push_str(", solve")?;
            push_file(text, ", report ", &outputs.report)?;
            push_file(text, ", solution ", &outputs.solution)?;
            push_file(text, ", cert ", &outputs.certificate)?;
            push_want(text, &outputs.certificate)?;
            push_if(text, outputs.subset, ", subset")?;
            push_if(text, outputs.row_splits, ", row splits")?;
            push_if(text, outputs.cuts, ", cuts")?;
            push_if(text, outputs.summary, ", summary")?;
            push_file(text, ", ranges ", &outputs.ranges)
        }
        Task::Translate => text.push_str(", translate"),
        Task::CheckCertificate {
            certificate,
            migrated,
        } => {
            write!(text, ", check {}", certificate.as_str())?;
            push_file(text, ", cert ", migrated)
        }
    }
}

fn push_if(text: &mut String, wanted: bool, word: &str) -> Result<(), AllocError> {
    if wanted {
        text.push_str(word)?;
    }
    Ok(())
}

fn push_want(text: &mut String, certificate: &Option<Name>) -> Result<(), AllocError> {
    if certificate.is_none() {
        text.push_str(", no cert")?;
    }
    Ok(())
}
