// Rows of a declaration.
ghost use Rattle.std.specs.Prelude.{◌≡◌, string_bytes};
ghost use Rattle.cplex_lp_draft.specs.Rows.{blank_row};

use fraction::Frac;
use instance::Entry;
use std::alloc::Global;
use std::marker::Model;

// A row, of which all or the name alone is read.
#[derive(Drop)]
pub(crate) struct DeclaredRow {
    name: String,
    lower: Option<Frac>,
    upper: Option<Frac>,
    entries: Vec<Entry>,
}

impl Model for DeclaredRow {
    ghost use Rattle.std.specs.Prelude.{string_bytes};
    ghost use Rattle.milp.specs.Problem.{Row};

    ghost Value = { Row };

    ghost view = { λ r. record { name = string_bytes r.name; lower = r.lower; upper = r.upper; entries = r.entries.items } };
}

impl DeclaredRow {
    pub(crate) fn new(alloc: Global, name: String) -> Self
        ensures { result ≡ blank_row (string_bytes name) }
    {
        DeclaredRow {
            name,
            lower: None,
            upper: None,
            entries: Vec::new(alloc),
        }
    }

    pub(crate) fn lower(&self) -> Option<Frac>
        ensures { result ≡ self.now.lower }
    {
        self.lower
    }

    pub(crate) fn upper(&self) -> Option<Frac>
        ensures { result ≡ self.now.upper }
    {
        self.upper
    }

    pub(crate) fn entries(&self) -> &[Entry]
        ensures { result.now ≡ self.now.entries }
    {
        &self.entries
    }

    // Its name and its entries, which are moved.
    pub(crate) fn into_parts(self) -> (String, Vec<Entry>)
        ensures name { string_bytes result.0 ≡ self.name }
        ensures entries { result.1.items ≡ self.entries }
    {
        (self.name, self.entries)
    }

    // It has these bounds and entries.
    pub(crate) fn fill(&mut self, lower: Option<Frac>, upper: Option<Frac>, entries: Vec<Entry>)
        ensures { self.new ≡ record self.old { lower = lower; upper = upper; entries = entries.items } }
    {
        self.lower = lower;
        self.upper = upper;
        self.entries = entries;
    }
}
