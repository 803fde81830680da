// Columns, rows and whole problems.
ghost use Rattle.std.specs.Prelude.{◌≡◌, ◌<◌, [], length, map, IfOk};
ghost use Rattle.std.specs.List.{All};
ghost use Rattle.milp.specs.Form.{Entry as FormEntry};
ghost use Rattle.instance.specs.WellFormed.{IsWellFormed, IsWithinLimits};
ghost use Rattle.instance.specs.ByColumn.{AreByColumn};
ghost use Rattle.instance.specs.Continuous as spec;

use crate::{Entries, EntriesByColumn, Name};
use fraction::Frac;
use milp::Direction;
use std::alloc::{AllocError, Global};
use std::marker::Model;

/// A variable with its bounds. Lower above upper is allowed: no point meets it.
#[derive(Drop)]
pub struct Column {
    name: Name,
    lower: Option<Frac>,
    upper: Option<Frac>,
    integer: bool,
}

impl Model for Column {
    ghost use Rattle.milp.specs.Problem.{Column as ColumnOf};

    ghost Value = { ColumnOf };

    ghost view = { λ c. record { name = c.name; lower = c.lower; upper = c.upper; integer = c.integer } };
}

impl Column {
    /// A column of this name, at least `lower` and at most `upper` where they are there, whole where `integer` says so.
    pub fn new(name: Name, lower: Option<Frac>, upper: Option<Frac>, integer: bool) -> Self
        ensures { result ≡ record { name = name; lower = lower; upper = upper; integer = integer } }
    {
        Column {
            name,
            lower,
            upper,
            integer,
        }
    }

    /// Its name.
    pub fn name(&self) -> &Name
        ensures { result.now ≡ self.now.name }
    {
        &self.name
    }

    /// Its lower bound, if it has one.
    pub fn lower(&self) -> Option<Frac>
        ensures { result ≡ self.now.lower }
    {
        self.lower
    }

    /// Its upper bound, if it has one.
    pub fn upper(&self) -> Option<Frac>
        ensures { result ≡ self.now.upper }
    {
        self.upper
    }

    /// It takes whole numbers alone.
    pub fn integer(&self) -> bool
        ensures { result ≡ self.now.integer }
    {
        self.integer
    }

    /// The same column.
    pub fn copy(&self, alloc: Global) -> Result<Self, AllocError>
        ensures { IfOk result (λ copy. copy ≡ self.now) }
    {
        let name = self.name.copy(alloc)?;
        Ok(Column::new(name, self.lower, self.upper, self.integer))
    }

    // The same column, which takes all numbers within its bounds.
    fn continuous(&self, alloc: Global) -> Result<Self, AllocError>
        ensures { IfOk result (λ column. column ≡ spec.continuous self.now) }
    {
        let name = self.name.copy(alloc)?;
        Ok(Column::new(name, self.lower, self.upper, false))
    }
}

/// A constraint: a linear form with its bounds.
#[derive(Drop)]
pub struct Row {
    name: Name,
    lower: Option<Frac>,
    upper: Option<Frac>,
    entries: Entries,
}

impl Model for Row {
    ghost use Rattle.milp.specs.Problem.{Row as RowOf};

    ghost Value = { RowOf };

    ghost view = { λ r. record { name = r.name; lower = r.lower; upper = r.upper; entries = r.entries } };
}

impl Row {
    /// A row of this name, whose form's value is at least `lower` and at most `upper` where they are there.
    pub fn new(name: Name, lower: Option<Frac>, upper: Option<Frac>, entries: Entries) -> Self
        ensures { result ≡ record { name = name; lower = lower; upper = upper; entries = entries } }
    {
        Row {
            name,
            lower,
            upper,
            entries,
        }
    }

    /// Its name.
    pub fn name(&self) -> &Name
        ensures { result.now ≡ self.now.name }
    {
        &self.name
    }

    /// Its lower bound, if it has one.
    pub fn lower(&self) -> Option<Frac>
        ensures { result ≡ self.now.lower }
    {
        self.lower
    }

    /// Its upper bound, if it has one.
    pub fn upper(&self) -> Option<Frac>
        ensures { result ≡ self.now.upper }
    {
        self.upper
    }

    /// Its form.
    pub fn entries(&self) -> &Entries
        ensures { result.now ≡ self.now.entries }
    {
        &self.entries
    }

    /// The same row.
    pub fn copy(&self, alloc: Global) -> Result<Self, AllocError>
        ensures { IfOk result (λ copy. copy ≡ self.now) }
    {
        let name = self.name.copy(alloc)?;
        let entries = self.entries.copy(alloc)?;
        Ok(Row::new(name, self.lower, self.upper, entries))
    }
}

/// A mixed-integer linear program.
#[derive(Drop)]
pub struct Instance {
    columns: Vec<Column>,
    rows: Vec<Row>,
    direction: Direction,
    objective_name: Name,
    objective: Entries,
    constant: Frac,
}

impl Model for Instance {
    ghost use Rattle.milp.specs.Problem.{Problem};
    ghost use Rattle.instance.specs.WellFormed.{IsWellFormed, IsWithinLimits};

    ghost Value = { Problem };

    ghost view = { λ p. record { columns = p.columns.items; rows = p.rows.items; direction = p.direction; objective_name = p.objective_name; objective = p.objective; constant = p.constant } };

    ghost invariant = { λ p. record { limits : IsWithinLimits p.columns.items p.rows.items; well_formed : IsWellFormed p.columns.items p.rows.items p.objective } };
}

impl Instance {
    /// The problem of these parts, which are well formed.
    pub(crate) fn with_parts(
        columns: Vec<Column>,
        rows: Vec<Row>,
        direction: Direction,
        objective_name: Name,
        objective: Entries,
        constant: Frac,
    ) -> Self
        requires limits { IsWithinLimits columns.items rows.items }
        requires well_formed { IsWellFormed columns.items rows.items objective }
        ensures { result ≡ record { columns = columns.items; rows = rows.items; direction = direction; objective_name = objective_name; objective = objective; constant = constant } }
    {
        Instance {
            columns,
            rows,
            direction,
            objective_name,
            objective,
            constant,
        }
    }

    /// The problem is well formed: its places are in range, its forms in order and its names distinct; and it has at
    /// most 1,000,000 columns and rows. A call does nothing: it says that what follows rests on this.
    pub fn keeps_its_limits(&self)
        ensures well_formed { IsWellFormed self.now.columns self.now.rows self.now.objective }
        ensures limits { IsWithinLimits self.now.columns self.now.rows }
    {
        let _columns = &self.columns;
    }

    /// The columns.
    pub fn columns(&self) -> &[Column]
        ensures { result.now ≡ self.now.columns }
    {
        &self.columns
    }

    /// The rows.
    pub fn rows(&self) -> &[Row]
        ensures { result.now ≡ self.now.rows }
    {
        &self.rows
    }

    /// Its entries by column, in order of row, in one pass over its rows. The memory is of where the problem's own is.
    pub fn by_column(&self) -> Result<EntriesByColumn, AllocError>
        ensures { IfOk result (λ made. AreByColumn made self.now.columns self.now.rows) }
    {
        EntriesByColumn::of(*self.columns.allocator(), self)
    }

    /// The same problem with another direction. It takes no memory.
    pub fn with_direction(mut self, direction: Direction) -> Self
        ensures { result ≡ record self { direction = direction } }
    {
        self.direction = direction;
        self
    }

    /// The same problem without its objective's form, so that each feasible point has the same value. It takes no memory.
    pub fn without_objective(mut self, alloc: Global) -> Self
        ensures { result ≡ record self { objective = [] } }
    {
        self.objective = Entries::new(alloc);
        self
    }

    /// The same problem without integrality: each column takes all numbers within its bounds.
    pub fn without_integrality(self, alloc: Global) -> Result<Self, AllocError>
        ensures { IfOk result (λ relaxed. relaxed ≡ spec.without_integrality self) }
    {
        let columns = continuous_columns(alloc, &self.columns)?;
        Ok(Instance { columns, ..self })
    }

    /// The same problem.
    pub fn copy(&self, alloc: Global) -> Result<Self, AllocError>
        ensures { IfOk result (λ copy. copy ≡ self.now) }
    {
        let columns = copy_columns(alloc, &self.columns)?;
        let rows = copy_rows(alloc, &self.rows)?;
        let objective_name = self.objective_name.copy(alloc)?;
        let objective = self.objective.copy(alloc)?;
        Ok(Instance::with_parts(
            columns,
            rows,
            self.direction,
            objective_name,
            objective,
            self.constant,
        ))
    }

    /// Which values of the objective are wanted.
    pub fn direction(&self) -> Direction
        ensures { result ≡ self.now.direction }
    {
        self.direction
    }

    /// The name of the objective.
    pub fn objective_name(&self) -> &Name
        ensures { result.now ≡ self.now.objective_name }
    {
        &self.objective_name
    }

    /// The form of the objective, without its constant. Its places are in range.
    pub fn objective(&self) -> &Entries
        ensures form { result.now ≡ self.now.objective }
        ensures places { All (λ (e : FormEntry). e.column < length self.now.columns) self.now.objective }
    {
        &self.objective
    }

    /// What the objective adds to the value of its form.
    pub fn constant(&self) -> Frac
        ensures { result ≡ self.now.constant }
    {
        self.constant
    }
}

fn copy_columns(alloc: Global, columns: &[Column]) -> Result<Vec<Column>, AllocError>
    ensures { IfOk result (λ copy. copy.items ≡ columns.now) }
{
    let mut copy = Vec::new(alloc);
    for column in columns {
        copy.push(column.copy(alloc)?)?;
    }
    Ok(copy)
}

// The columns, each of which takes all numbers within its bounds.
fn continuous_columns(alloc: Global, columns: &[Column]) -> Result<Vec<Column>, AllocError>
    ensures { IfOk result (λ made. made.items ≡ map spec.continuous columns.now) }
{
    let mut made = Vec::new(alloc);
    for column in columns {
        made.push(column.continuous(alloc)?)?;
    }
    Ok(made)
}

fn copy_rows(alloc: Global, rows: &[Row]) -> Result<Vec<Row>, AllocError>
    ensures { IfOk result (λ copy. copy.items ≡ rows.now) }
{
    let mut copy = Vec::new(alloc);
    for row in rows {
        copy.push(row.copy(alloc)?)?;
    }
    Ok(copy)
}
