// What an execution has made so far.
ghost use Rattle.std.specs.Prelude.{◌≡◌};
ghost use Rattle.gmpl_generate.specs.Running.{made_of, nothing_made};

use gmpl_text::Text;
use std::alloc::Global;

/// A file that a table is written to, with its whole text.
#[derive(Drop)]
pub struct TableFile {
    pub name: Text,
    pub text: Vec<u8>,
}

// The text that is printed, and the files in the order in which they are made.
#[derive(Drop)]
pub(crate) struct Progress {
    pub(crate) printed: String,
    pub(crate) files: Vec<TableFile>,
}

impl Progress {
    /// Nothing is made.
    pub(crate) fn new(alloc: Global) -> Progress
        ensures { made_of result ≡ nothing_made }
    {
        Progress {
            printed: String::new(alloc),
            files: Vec::new(alloc),
        }
    }
}
