// The members of all variables that were demanded.
ghost use Rattle.std.specs.Prelude.{◌≡◌, ◌≤◌, IfOk};
ghost use Rattle.gmpl_rows.specs.Demanded.{note, note_all, all_none, cell_count, used_count};
ghost use Rattle.gmpl_rows.specs.Follows.{Follows};

use crate::demanded::Demanded;
use crate::fault::DraftFault;
use crate::term::Term;
use instance::{MAX_COLUMNS, MAX_ENTRIES};
use std::alloc::{AllocError, Global};
use std::marker::Model;

// For each statement the members of its variable, with counts of entries and of columns.
#[derive(Drop)]
pub(crate) struct Variables {
    demanded: Vec<Demanded>,
    entries: usize,
    columns: usize,
}

impl Model for Variables {
    ghost use Rattle.std.specs.Prelude.{List};
    ghost use Rattle.gmpl_rows.specs.Demanded.{Demanded as DemandedOf, AreCounted};

    ghost Value = { List DemandedOf };

    ghost view = { λ v. v.demanded.items };

    ghost invariant = { λ v. AreCounted v.demanded.items v.entries v.columns };
}

impl Variables {
    // So many statements, nothing demanded.
    pub(crate) fn new(alloc: Global, statements: usize) -> Result<Self, AllocError>
        ensures { IfOk result (λ made. made ≡ all_none statements) }
    {
        let demanded = all_none(alloc, statements)?;
        Ok(Variables {
            demanded,
            entries: 0,
            columns: 0,
        })
    }

    // Of each statement the members of its variable.
    pub(crate) fn demanded(&self) -> &[Demanded]
        ensures value { result.now ≡ self.now }
        ensures entries { cell_count self.now ≤ MAX_ENTRIES }
        ensures columns { used_count self.now ≤ MAX_COLUMNS }
    {
        &self.demanded
    }

    // A term of a row.
    fn note(self, alloc: Global, row: u32, term: Term) -> Result<Self, DraftFault>
        ensures { Follows result (note row term self) }
    {
        let Variables {
            mut demanded,
            entries,
            columns,
        } = self;
        let statement = term.variable.statement;
        if statement >= demanded.len() {
            return Ok(Variables {
                demanded,
                entries,
                columns,
            });
        }
        let more = demanded[statement].note(alloc, row, term)?;
        let entries = entries + more.entries;
        let columns = columns + more.columns;
        if entries > MAX_ENTRIES {
            return Err(DraftFault::TooMany);
        }
        if columns > MAX_COLUMNS {
            return Err(DraftFault::TooMany);
        }
        Ok(Variables {
            demanded,
            entries,
            columns,
        })
    }

    // The terms of a row in order.
    pub(crate) fn note_all(
        self,
        alloc: Global,
        row: u32,
        terms: Vec<Term>,
    ) -> Result<Self, DraftFault>
        ensures { Follows result (note_all row terms.items self) }
    {
        let mut variables = self;
        for term in terms {
            variables = variables.note(alloc, row, term)?;
        }
        Ok(variables)
    }
}

fn all_none(alloc: Global, statements: usize) -> Result<Vec<Demanded>, AllocError>
    ensures { IfOk result (λ made. made.items ≡ all_none statements) }
{
    let mut demanded = Vec::new(alloc);
    for _statement in 0..statements {
        demanded.push(Demanded::new(alloc))?;
    }
    Ok(demanded)
}
