// The rows so far.
ghost use Rattle.std.specs.Prelude.{◌≡◌, ◌<◌, ◌≤◌, false, length, map, IfOk};
ghost use Rattle.gmpl_rows.specs.Draft.{is_row, no_rows, row_member, with_new_row, with_objective, with_row};
ghost use Rattle.gmpl_rows.specs.Premises.{AreDeclared, AreDifferent, AreObjects};
ghost use Rattle.gmpl_rows.specs.Demanded.{cell_count, used_count};
ghost use Rattle.gmpl_rows.specs.Follows.{Follows};

use crate::declared::Declared;
use crate::demanded::Demanded;
use crate::fault::DraftFault;
use crate::term::Term;
use crate::variables::Variables;
use fraction::Frac;
use gmpl_solution::Member;
use gmpl_value::Tuple;
use indexmap::IndexSet;
use instance::{MAX_COLUMNS, MAX_ENTRIES, MAX_ROWS};
use milp::Direction;
use sqlite_items::Boxed;
use std::alloc::{AllocError, Global};
use std::marker::Model;

/// A row but for its entries: the place of its statement, its subscripts, and its bounds.
#[derive(Drop)]
pub struct RowHead {
    pub statement: usize,
    pub subscripts: Tuple,
    pub lower: Option<Frac>,
    pub upper: Option<Frac>,
}

impl RowHead {
    // The member that the row comes from.
    pub(crate) fn member(&self, alloc: Global) -> Result<Member, AllocError>
        ensures { IfOk result (λ member. member ≡ row_member self.now) }
    {
        Ok(Member {
            statement: self.statement,
            subscripts: self.subscripts.copied(alloc)?,
        })
    }
}

/// The objective: the place of the row that has its form, and what else it has.
#[derive(Clone, Copy)]
pub struct ObjectiveRow {
    pub row: u32,
    pub direction: Direction,
    pub constant: Frac,
}

// All rows so far, and the members of variables that they demand.
#[derive(Drop)]
pub(crate) struct Rows {
    objects: Vec<Declared>,
    rows: Vec<RowHead>,
    members: IndexSet<Member>,
    variables: Variables,
}

/// What the statements have made so far.
#[derive(Drop)]
pub struct Draft {
    so_far: Boxed<Rows>,
    objective: Option<ObjectiveRow>,
}

impl Model for Draft {
    ghost use Rattle.std.specs.Prelude.{◌≡◌, ◌≤◌, length, map};
    ghost use Rattle.indexmap.specs.IndexSet.{keys};
    ghost use Rattle.gmpl_rows.specs.Draft.{Draft as DraftOf, row_member};
    ghost use Rattle.gmpl_rows.specs.Premises.{AreDeclared, AreDifferent, AreObjects};

    ghost Value = { DraftOf };

    ghost view = { λ d. record { objects = d.so_far.objects.items; rows = d.so_far.rows.items; variables = d.so_far.variables; objective = d.objective } };

    ghost invariant = { λ d. record { few : length d.so_far.rows.items ≤ 1000000; members : keys d.so_far.members ≡ map row_member d.so_far.rows.items; differ : AreDifferent (map row_member d.so_far.rows.items); objects : AreObjects d.so_far.objects.items; declared : AreDeclared d.so_far.objects.items d.so_far.rows.items } };
}

impl Draft {
    /// Nothing yet, for a model whose statements declare these objects, of which no two have one name.
    pub fn new(alloc: Global, objects: Vec<Declared>) -> Result<Self, AllocError>
        requires { AreObjects objects.items }
        ensures { IfOk result (λ made. made ≡ no_rows objects.items) }
    {
        let variables = Variables::new(alloc, objects.len())?;
        let so_far = Boxed::new(
            alloc,
            Rows {
                objects,
                rows: Vec::new(alloc),
                members: IndexSet::new(alloc),
                variables,
            },
        )?;
        Ok(Draft {
            so_far,
            objective: None,
        })
    }

    /// One more row, where its statement is one of the model and its member no row yet. The members of variables are
    /// demanded in the order of its terms.
    /// Errors: `TooMany` exactly where a row, a column or an entry would pass a limit of an instance; `NoMemory`.
    pub fn row(self, alloc: Global, head: RowHead, terms: Vec<Term>) -> Result<Self, DraftFault>
        ensures { Follows result (with_row head terms.items self) }
    {
        let member = head.member(alloc)?;
        if head.statement >= self.objects().len() || self.so_far.get().members.contains(&member) {
            return Ok(self);
        }
        self.new_row(alloc, head, member, terms)
    }

    // One more row, of a member that is none, whose statement is there.
    fn new_row(
        self,
        alloc: Global,
        head: RowHead,
        member: Member,
        terms: Vec<Term>,
    ) -> Result<Self, DraftFault>
        requires member { member ≡ row_member head }
        requires new { is_row member self.rows ≡ false }
        requires there { head.statement < length self.objects }
        ensures { Follows result (with_new_row head terms.items self) }
    {
        let Draft { so_far, objective } = self;
        let place = so_far.get().rows.len();
        if place >= MAX_ROWS {
            return Err(DraftFault::TooMany);
        }
        let Rows {
            objects,
            mut rows,
            mut members,
            variables,
        } = so_far.into_inner();
        let variables = variables.note_all(alloc, place as u32, terms)?;
        rows.reserve(1)?;
        members.insert(member)?;
        rows.push_reserved(head);
        let so_far = Boxed::new(
            alloc,
            Rows {
                objects,
                rows,
                members,
                variables,
            },
        )?;
        Ok(Draft { so_far, objective })
    }

    /// The last row is the objective's, where no row before it is. The constant is that of its form.
    pub fn objective(self, direction: Direction, constant: Frac) -> Self
        ensures { result ≡ with_objective direction constant self }
    {
        let Draft { so_far, objective } = self;
        let objective = match objective {
            Some(first) => first,
            None => ObjectiveRow {
                row: (so_far.get().rows.len() as u32).saturating_sub(1),
                direction,
                constant,
            },
        };
        Draft {
            so_far,
            objective: Some(objective),
        }
    }

    // What each statement declares.
    pub(crate) fn objects(&self) -> &[Declared]
        ensures value { result.now ≡ self.now.objects }
        ensures differ { AreObjects self.now.objects }
    {
        &self.so_far.get().objects
    }

    pub(crate) fn rows(&self) -> &[RowHead]
        ensures value { result.now ≡ self.now.rows }
        ensures few { length self.now.rows ≤ MAX_ROWS }
        ensures members { AreDifferent (map row_member self.now.rows) }
        ensures declared { AreDeclared self.now.objects self.now.rows }
    {
        &self.so_far.get().rows
    }

    pub(crate) fn objective_row(&self) -> Option<ObjectiveRow>
        ensures { result ≡ self.now.objective }
    {
        self.objective
    }

    pub(crate) fn demanded(&self) -> &[Demanded]
        ensures value { result.now ≡ self.now.variables }
        ensures entries { cell_count self.now.variables ≤ MAX_ENTRIES }
        ensures columns { used_count self.now.variables ≤ MAX_COLUMNS }
    {
        self.so_far.get().variables.demanded()
    }
}
