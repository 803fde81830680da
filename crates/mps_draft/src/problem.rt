// The problem of a finished declaration.
ghost use Rattle.std.specs.Prelude.{◌≡◌, ◌+◌, ◌<◌, ◌≤◌, ◌++◌, [], ◌∷◌, None, Some, false, length, map, IfOk};
ghost use Rattle.std.specs.List.{All};
ghost use Rattle.instance.specs.WellFormed.{has_row, entry_count as entries_of_rows};
ghost use Rattle.model_text.specs.Names.{AreNew};
ghost use Rattle.mps_draft.specs.Consistent.{IsGiven};
ghost use Rattle.mps_draft.specs.Declaration.{DeclaredRow as RowOf, entry_count};
ghost use Rattle.mps_draft.specs.Finished.{finished_row, problem_of, problem_with};

use crate::draft::Draft;
use crate::row::DeclaredRow;
use fraction::Frac;
use instance::{Builder, Direction, Entries, Instance, MAX_ENTRIES, MAX_ROWS, Name};
use model_text::{add_columns, add_row};
use sqlite_items::Boxed;
use std::alloc::{AllocError, Global};

/// The problem of a declaration. The entries of its rows are moved, and all else of it is let go before that.
pub fn finish(alloc: Global, draft: Draft) -> Result<Instance, AllocError>
    ensures { IfOk result (λ problem. problem ≡ problem_of draft.entry) }
{
    let draft = Boxed::new(alloc, draft)?;
    let mut builder = Builder::new(alloc)?;
    add_columns(alloc, &mut builder, draft.get().columns())?;
    let direction = draft.get().direction();
    let (objective, rows) = draft.into_inner().into_rows();
    add_rows(alloc, &mut builder, rows)?;
    match objective {
        Some(objective) => set_objective(alloc, &mut builder, direction, objective)?,
        None => set_nothing(alloc, &mut builder, direction)?,
    }
    Ok(builder.done())
}

// ---- rows

fn add_rows(alloc: Global, builder: &mut Builder, rows: Vec<DeclaredRow>) -> Result<(), AllocError>
    requires empty { builder.old.rows ≡ [] }
    requires new { AreNew (map (λ (r : RowOf). r.name) rows.items) }
    requires few { length rows.items ≤ 1_000_000 }
    requires given { All (IsGiven (length builder.old.columns)) rows.items }
    requires entries { entry_count rows.items ≤ 20_000_000 }
    ensures { IfOk result (λ _. builder.new ≡ record builder.old { rows = map finished_row rows.entry.items }) }
{
    for row in rows {
        add_declared_row(alloc, builder, row)?;
    }
    Ok(())
}

fn add_declared_row(
    alloc: Global,
    builder: &mut Builder,
    row: DeclaredRow,
) -> Result<(), AllocError>
    requires new { has_row row.name builder.old.rows ≡ false }
    requires given { IsGiven (length builder.old.columns) row }
    requires room { length builder.old.rows < MAX_ROWS }
    requires entry_room { entries_of_rows builder.old.rows + length row.entries ≤ MAX_ENTRIES }
    ensures { IfOk result (λ _. builder.new ≡ record builder.old { rows = builder.old.rows ++ finished_row row.entry ∷ [] }) }
{
    let name = row.name();
    let lower = row.lower();
    let upper = row.upper();
    add_row(alloc, builder, name, lower, upper, row.into_entries())
}

// ---- the objective

// A right-hand side v of the objective adds -v to it.
fn set_objective(
    alloc: Global,
    builder: &mut Builder,
    direction: Direction,
    objective: DeclaredRow,
) -> Result<(), AllocError>
    requires { IsGiven (length builder.old.columns) objective }
    ensures { IfOk result (λ _. builder.new ≡ problem_with direction builder.old.columns builder.old.rows (Some objective.entry)) }
{
    let name = Name::new(alloc, objective.name())?;
    let constant = match objective.rhs() {
        Some(rhs) => rhs.neg(),
        None => Frac::zero(),
    };
    let entries = Entries::from_vec(objective.into_entries());
    builder.objective(direction, name, entries, constant);
    Ok(())
}

// Without an objective it is nothing, by the name `obj`.
fn set_nothing(alloc: Global, builder: &mut Builder, direction: Direction) -> Result<(), AllocError>
    ensures { IfOk result (λ _. builder.new ≡ problem_with direction builder.old.columns builder.old.rows None) }
{
    let name = Name::new(alloc, "obj")?;
    builder.objective(direction, name, Entries::new(alloc), Frac::zero());
    Ok(())
}
