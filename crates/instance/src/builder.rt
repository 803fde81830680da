// Makes instances, a column and a row at a time.
ghost use Rattle.std.specs.Prelude.{◌≡◌, ◌+◌, ◌<◌, ◌≤◌, [], ◌∷◌, ◌++◌, length, IsTrue, false, true, OnOk, OnErr, IfOk, IfErr, codes};
ghost use Rattle.rational.specs.Rational.{zero_ℚ};
ghost use Rattle.milp.specs.declared.Direction.TheVariants.{Min};
ghost use Rattle.instance.specs.WellFormed.{has_column, has_row, are_entries, entry_count, IsWellFormed};

use crate::{Column, Entries, Instance, Name, Row};
use fraction::Frac;
use milp::Direction;
use std::alloc::{AllocError, Global};
use std::marker::Model;

/// The most columns of an instance.
pub const MAX_COLUMNS: usize = 1_000_000;

/// The most rows of an instance.
pub const MAX_ROWS: usize = 1_000_000;

/// The most entries of all rows of an instance together.
pub const MAX_ENTRIES: usize = 20_000_000;

/// Why a column or a row is not taken.
#[derive(Clone, Copy, Debug, PartialEq, Eq)]
pub enum BuildFault {
    /// One more would pass a limit.
    TooMany,
    /// The memory for one more is not there.
    NoMemory,
}

/// A problem in the making. Clauses see the problem so far.
#[derive(Drop)]
pub struct Builder {
    columns: Vec<Column>,
    rows: Vec<Row>,
    entry_count: usize,
    direction: Direction,
    objective_name: Name,
    objective: Entries,
    constant: Frac,
}

impl Model for Builder {
    ghost use Rattle.std.specs.Prelude.{◌≡◌};
    ghost use Rattle.milp.specs.Problem.{Problem};
    ghost use Rattle.instance.specs.WellFormed.{IsWellFormed, IsWithinLimits, entry_count as entries_in};

    ghost Value = { Problem };

    ghost view = { λ b. record { columns = b.columns.items; rows = b.rows.items; direction = b.direction; objective_name = b.objective_name; objective = b.objective; constant = b.constant } };

    ghost invariant = { λ b. record { limits : IsWithinLimits b.columns.items b.rows.items; well_formed : IsWellFormed b.columns.items b.rows.items b.objective; count : b.entry_count ≡ entries_in b.rows.items } };
}

impl Builder {
    /// No columns and no rows; minimise nothing, by the name `obj`.
    pub fn new(alloc: Global) -> Result<Self, AllocError>
        ensures { IfOk result (λ b. b ≡ record { columns = []; rows = []; direction = Min; objective_name = codes "obj"; objective = []; constant = zero_ℚ }) }
    {
        Ok(Builder {
            columns: Vec::new(alloc),
            rows: Vec::new(alloc),
            entry_count: 0,
            direction: Direction::Min,
            objective_name: Name::new(alloc, "obj")?,
            objective: Entries::new(alloc),
            constant: Frac::zero(),
        })
    }

    /// A column has this name. The call goes over all columns, so a reader of many keeps an index of its own.
    pub fn has_column(&self, name: &str) -> bool
        ensures { result ≡ has_column name.now self.now.columns }
    {
        has_column(&self.columns, name)
    }

    /// A row has this name. The call goes over all rows, as `has_column` does over columns.
    pub fn has_row(&self, name: &str) -> bool
        ensures { result ≡ has_row name.now self.now.rows }
    {
        has_row(&self.rows, name)
    }

    /// One more column, and its place. `TooMany` comes exactly where the limit is reached; the column comes back
    /// with each fault.
    pub fn column(&mut self, column: Column) -> Result<u32, (Column, BuildFault)>
        requires { has_column column.name self.old.columns ≡ false }
        ensures ok { OnOk result (self.new ≡ record self.old { columns = self.old.columns ++ column ∷ [] }) }
        ensures place { IfOk result (λ place. place ≡ length self.old.columns) }
        ensures room { IfOk result (λ _. length self.old.columns < MAX_COLUMNS) }
        ensures kept { OnErr result (self.new ≡ self.old) }
        ensures back { IfErr result (λ e. e.0 ≡ column) }
        ensures too_many { IfErr result (λ e. e.1 ≡ BuildFault.TooMany → MAX_COLUMNS ≤ length self.old.columns) }
        ensures full { IfErr result (λ e. MAX_COLUMNS ≤ length self.old.columns → e.1 ≡ BuildFault.TooMany) }
    {
        let place = self.columns.len();
        if place >= MAX_COLUMNS {
            return Err((column, BuildFault::TooMany));
        }
        if self.columns.reserve(1).is_err() {
            return Err((column, BuildFault::NoMemory));
        }
        self.columns.push_reserved(column);
        Ok(place as u32)
    }

    /// One more row, and its place. `TooMany` comes exactly where a limit is reached; the row comes back with each
    /// fault.
    pub fn row(&mut self, row: Row) -> Result<u32, (Row, BuildFault)>
        requires name { has_row row.name self.old.rows ≡ false }
        requires entries { IsTrue (are_entries (length self.old.columns) row.entries) }
        ensures ok { OnOk result (self.new ≡ record self.old { rows = self.old.rows ++ row ∷ [] }) }
        ensures place { IfOk result (λ place. place ≡ length self.old.rows) }
        ensures room { IfOk result (λ _. length self.old.rows < MAX_ROWS) }
        ensures entry_room { IfOk result (λ _. entry_count self.old.rows + length row.entries ≤ MAX_ENTRIES) }
        ensures kept { OnErr result (self.new ≡ self.old) }
        ensures back { IfErr result (λ e. e.0 ≡ row) }
        ensures too_many { IfErr result (λ e. e.1 ≡ BuildFault.TooMany
            → length self.old.rows < MAX_ROWS → MAX_ENTRIES < entry_count self.old.rows + length row.entries) }
        ensures full { IfErr result (λ e. MAX_ROWS ≤ length self.old.rows → e.1 ≡ BuildFault.TooMany) }
        ensures entries_full { IfErr result (λ e. MAX_ENTRIES < entry_count self.old.rows + length row.entries → e.1 ≡ BuildFault.TooMany) }
    {
        let place = self.rows.len();
        let more = row.entries().as_slice().len();
        if place >= MAX_ROWS || more > MAX_ENTRIES || self.entry_count > MAX_ENTRIES - more {
            return Err((row, BuildFault::TooMany));
        }
        if self.rows.reserve(1).is_err() {
            return Err((row, BuildFault::NoMemory));
        }
        self.rows.push_reserved(row);
        self.entry_count += more;
        Ok(place as u32)
    }

    /// Sets the objective: the value of a form plus a constant, and which values of it are wanted. It takes no memory.
    pub fn objective(&mut self, direction: Direction, name: Name, entries: Entries, constant: Frac)
        requires { IsTrue (are_entries (length self.old.columns) entries) }
        ensures { self.new ≡ record self.old { direction = direction; objective_name = name; objective = entries; constant = constant } }
    {
        self.direction = direction;
        self.objective_name = name;
        self.objective = entries;
        self.constant = constant;
    }

    /// The finished instance. It takes no memory.
    pub fn done(self) -> Instance
        ensures { result ≡ self }
    {
        let Builder {
            columns,
            rows,
            entry_count: _,
            direction,
            objective_name,
            objective,
            constant,
        } = self;
        Instance::with_parts(
            columns,
            rows,
            direction,
            objective_name,
            objective,
            constant,
        )
    }
}

fn has_column(columns: &[Column], name: &str) -> bool
    ensures { result ≡ has_column name.now columns.now }
{
    for column in columns {
        if column.name().as_str() == name {
            return true;
        }
    }
    false
}

fn has_row(rows: &[Row], name: &str) -> bool
    ensures { result ≡ has_row name.now rows.now }
{
    for row in rows {
        if row.name().as_str() == name {
            return true;
        }
    }
    false
}
