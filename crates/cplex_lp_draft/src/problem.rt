// The problem of a finished declaration.
ghost use Rattle.std.specs.Prelude.{◌≡◌, ◌+◌, ◌<◌, ◌≤◌, ◌++◌, [], ◌∷◌, false, length, map, IfOk};
ghost use Rattle.std.specs.List.{All};
ghost use Rattle.milp.specs.Problem.{Row as RowOf};
ghost use Rattle.instance.specs.WellFormed.{has_row, entry_count as entries_of_rows};
ghost use Rattle.model_text.specs.Names.{AreNew};
ghost use Rattle.cplex_lp_draft.specs.Consistent.{HasForm};
ghost use Rattle.cplex_lp_draft.specs.Rows.{entry_count};
ghost use Rattle.cplex_lp_draft.specs.Declaration.{entries_of, problem_of};

use crate::draft::Draft;
use crate::row::DeclaredRow;
use instance::{Builder, Entries, Instance, MAX_ENTRIES, MAX_ROWS, Name};
use model_text::{add_columns, add_row};
use sqlite_items::Boxed;
use std::alloc::{AllocError, Global};

/// The problem of a declaration. The entries of its rows are moved, and all else of it is let go before that.
pub fn finish(alloc: Global, draft: Draft) -> Result<Instance, AllocError>
    ensures { IfOk result (λ problem. problem ≡ problem_of draft.entry) }
{
    let draft = Boxed::new(alloc, draft)?;
    let mut builder = Builder::new(alloc)?;
    add_columns(alloc, &mut builder, draft.get().columns())?;
    set_objective(alloc, &mut builder, draft.get())?;
    add_rows(alloc, &mut builder, draft.into_inner().into_rows())?;
    Ok(builder.done())
}

// ---- rows

fn add_rows(alloc: Global, builder: &mut Builder, rows: Vec<DeclaredRow>) -> Result<(), AllocError>
    requires empty { builder.old.rows ≡ [] }
    requires new { AreNew (map (λ (r : RowOf). r.name) rows.items) }
    requires few { length rows.items ≤ 1_000_000 }
    requires forms { All (HasForm (length builder.old.columns)) rows.items }
    requires entries { entry_count rows.items ≤ 20_000_000 }
    ensures { IfOk result (λ _. builder.new ≡ record builder.old { rows = rows.items }) }
{
    for row in rows {
        add_declared_row(alloc, builder, row)?;
    }
    Ok(())
}

fn add_declared_row(
    alloc: Global,
    builder: &mut Builder,
    row: DeclaredRow,
) -> Result<(), AllocError>
    requires new { has_row row.name builder.old.rows ≡ false }
    requires form { HasForm (length builder.old.columns) row }
    requires room { length builder.old.rows < MAX_ROWS }
    requires entry_room { entries_of_rows builder.old.rows + length row.entries ≤ MAX_ENTRIES }
    ensures { IfOk result (λ _. builder.new ≡ record builder.old { rows = builder.old.rows ++ row ∷ [] }) }
{
    let lower = row.lower();
    let upper = row.upper();
    let (name, entries) = row.into_parts();
    add_row(alloc, builder, name.as_str(), lower, upper, entries)
}

// ---- the objective

fn set_objective(alloc: Global, builder: &mut Builder, draft: &Draft) -> Result<(), AllocError>
    requires { length builder.old.columns ≡ length draft.now.columns }
    ensures { IfOk result (λ _. builder.new ≡ record builder.old { direction = draft.now.direction; objective_name = draft.now.objective_name; objective = entries_of draft.now.objective; constant = draft.now.constant }) }
{
    let name = Name::new(alloc, draft.objective_name())?;
    let entries = Entries::from_vec(draft.objective_entries(alloc)?);
    builder.objective(draft.direction(), name, entries, draft.constant());
    Ok(())
}
