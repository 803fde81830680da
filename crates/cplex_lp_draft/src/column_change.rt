// Changes of columns.
ghost use Rattle.std.specs.Prelude.{◌≡◌};
ghost use Rattle.cplex_lp_draft.specs.Declaration.{with_changed};
ghost use Rattle.cplex_lp_draft.specs.Changes.{bound_of, bounded, changed};

use crate::expecting::Limit;
use cplex_lp_tokens::Relation;
use fraction::Frac;
use model_text::{ColumnTable, DeclaredColumn};

/// What a text does to a column after its first mention.
#[derive(Clone, Copy)]
pub enum ColumnChange {
    Kept,
    // it stands in this relation to a limit
    Bounded(Relation, Limit),
    Freed,
    MadeInteger,
    MadeBinary,
}

impl ColumnChange {
    pub(crate) fn apply(self, column: &mut DeclaredColumn)
        ensures { column.new ≡ changed self column.old }
    {
        match self {
            ColumnChange::Kept => {}
            ColumnChange::Bounded(relation, limit) => bound(column, relation, limit),
            ColumnChange::Freed => {
                column.set_lower(None);
                column.set_upper(None);
            }
            ColumnChange::MadeInteger => column.make_integer(),
            ColumnChange::MadeBinary => {
                column.set_lower(Some(Frac::zero()));
                column.set_upper(Some(Frac::one()));
                column.make_integer();
            }
        }
    }
}

fn bound(column: &mut DeclaredColumn, relation: Relation, limit: Limit)
    ensures { column.new ≡ bounded relation limit column.old }
{
    match relation {
        Relation::AtMost => column.set_upper(bound_of(&limit)),
        Relation::AtLeast => column.set_lower(bound_of(&limit)),
        Relation::Exactly => {
            column.set_lower(bound_of(&limit));
            column.set_upper(bound_of(&limit));
        }
    }
}

// An infinite bound is none.
fn bound_of(limit: &Limit) -> Option<Frac>
    ensures { result ≡ bound_of limit.now }
{
    match limit {
        Limit::MinusInfinity => None,
        Limit::Finite(value) => Some(*value),
        Limit::PlusInfinity => None,
    }
}

// The column at a place changed, where there is one.
pub(crate) fn change_at(columns: &mut ColumnTable, place: usize, change: ColumnChange)
    ensures { columns.new ≡ with_changed place (changed change) columns.old }
{
    if place < columns.len() {
        let mut column = columns.at(place);
        change.apply(&mut column);
        columns.set(place, column);
    }
}
