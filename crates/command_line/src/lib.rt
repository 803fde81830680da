//! The words of the command line: which are a command, and what it asks for.
#![tactic(auto)]

mod data_files;
mod options;
mod read;
mod settings;

pub use data_files::DataFiles;
pub use read::read_words;
pub use settings::{Language, Outputs, Settings, Task, WordsFault};
