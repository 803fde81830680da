// The weights of a leaf's columns that use bounds of the columns' own.
ghost use Rattle.std.specs.Prelude.{◌≡◌, ◌≢◌, ◌<◌, ◌≤◌, ◌+◌, ◌++◌, [], length, pos, IfOk, OnOk};
ghost use Rattle.verdicts.specs.Migrated.{source, kept_if, kept};
ghost use Rattle.certificate.specs.Written.{count_max, rank_of, next_rank};

use crate::kept::KeptTurn;
use crate::sources::source;
use certificate::{Item, Items};
use instance::Instance;
use std::alloc::{AllocError, Global};

// The weights of columns that use a bound of the column's own below these turns.
pub(crate) fn own_columns(
    alloc: Global,
    problem: &Instance,
    turns: &[KeptTurn],
    columns: &Items,
) -> Result<Items, AllocError>
    requires { length turns.now ≤ count_max }
    ensures { IfOk result (λ own. own ≡ kept problem.now turns.now columns.now) }
{
    let mut own = Items::new(alloc);
    let items = columns.as_slice();
    for item in items {
        keep_own(&mut own, problem, turns, *item)?;
    }
    Ok(own)
}

// Keeps a weight that uses the column's own bound.
fn keep_own(
    own: &mut Items,
    problem: &Instance,
    turns: &[KeptTurn],
    item: Item,
) -> Result<(), AllocError>
    requires count { length turns.now ≤ count_max }
    requires index { item.index < count_max }
    requires some { item.weight.numerator ≢ pos 0 }
    requires order { next_rank 0 own.old ≤ rank_of item }
    ensures kept { OnOk result (own.new ≡ own.old ++ kept_if (source problem.now turns.now item) item []) }
    ensures next { OnOk result (next_rank 0 own.new ≤ rank_of item + 1) }
{
    match source(problem, turns, item) {
        None => own.push(item),
        Some(_) => Ok(()),
    }
}
