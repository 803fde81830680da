// Rows that are added one by one to a problem in the making.
ghost use Rattle.std.specs.Prelude.{◌≡◌, ◌++◌, ◌∷◌, [], false, length, IsTrue, OnOk, IfErr};
ghost use Rattle.std.specs.List.{list_all};
ghost use Rattle.milp.specs.Problem.{Row as RowOf};
ghost use Rattle.instance.specs.WellFormed.{has_row, are_distinct_rows, are_entries};
ghost use Rattle.instance.specs.declared.builder.BuildFault.TheVariants.{TooMany};
ghost use Rattle.cut_rows.specs.CutProblem.{PassLimits};

use instance::{BuildFault, Builder, Row};
use std::alloc::Global;

// One more row.
fn add_row(builder: &mut Builder, row: Row) -> Result<(), BuildFault>
    requires name { has_row row.name builder.old.rows ≡ false }
    requires entries { IsTrue (are_entries (length builder.old.columns) row.entries) }
    ensures ok { OnOk result (builder.new ≡ record builder.old { rows = builder.old.rows ++ row ∷ [] }) }
    ensures too_many { IfErr result (λ fault. fault ≡ TooMany → PassLimits (builder.old.rows ++ row ∷ [])) }
{
    match builder.row(row) {
        Ok(_) => Ok(()),
        Err(refused) => Err(fault_of(refused)),
    }
}

fn fault_of(refused: (Row, BuildFault)) -> BuildFault
    ensures { result ≡ refused.1 }
{
    refused.1
}

// One more row, a copy of this one.
fn add_copy(alloc: Global, builder: &mut Builder, row: &Row) -> Result<(), BuildFault>
    requires name { has_row row.now.name builder.old.rows ≡ false }
    requires entries { IsTrue (are_entries (length builder.old.columns) row.now.entries) }
    ensures ok { OnOk result (builder.new ≡ record builder.old { rows = builder.old.rows ++ row.now ∷ [] }) }
    ensures too_many { IfErr result (λ fault. fault ≡ TooMany → PassLimits (builder.old.rows ++ row.now ∷ [])) }
{
    match row.copy(alloc) {
        Ok(copy) => add_row(builder, copy),
        Err(_) => Err(BuildFault::NoMemory),
    }
}

/// These rows, behind those that are there. `TooMany` comes only where they pass a limit together.
pub(crate) fn add_rows(alloc: Global, builder: &mut Builder, rows: &[Row]) -> Result<(), BuildFault>
    requires names { IsTrue (are_distinct_rows builder.old.rows rows.now) }
    requires entries { IsTrue (list_all (λ (r : RowOf). are_entries (length builder.old.columns) r.entries) rows.now) }
    ensures ok { OnOk result (builder.new ≡ record builder.old { rows = builder.old.rows ++ rows.now }) }
    ensures too_many { IfErr result (λ fault. fault ≡ TooMany → PassLimits (builder.old.rows ++ rows.now)) }
{
    for row in rows {
        add_copy(alloc, builder, row)?;
    }
    Ok(())
}
