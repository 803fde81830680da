// Problems without integer columns.
ghost use Rattle.std.specs.Prelude.{◌≡◌, true};
ghost use Rattle.branch_search.specs.Plain.{NoneInteger};

use instance::{Column, Instance};

/// No column of the problem takes whole numbers alone.
pub fn has_no_integer_column(problem: &Instance) -> bool
    ensures yes { result ≡ true → NoneInteger problem.now.columns }
    ensures no { NoneInteger problem.now.columns → result ≡ true }
{
    none_is_integer(problem.columns())
}

fn none_is_integer(columns: &[Column]) -> bool
    ensures yes { result ≡ true → NoneInteger columns.now }
    ensures no { NoneInteger columns.now → result ≡ true }
{
    for column in columns {
        if column.integer() {
            return false;
        }
    }
    true
}
