// The problem.
ghost use Rattle.std.specs.Prelude.{◌≡◌, ◌≢◌, ◌≤◌, ◌<◌, ◌/◌, ◌++◌, ◌∷◌, [], false, length, IfOk};
ghost use Rattle.std.specs.List.{sum};
ghost use Rattle.instance.specs.WellFormed.{has_column, has_row, entry_count};
ghost use Rattle.made_problem.specs.Draws.{state_of, every_fourth};
ghost use Rattle.made_problem.specs.Made.{made_column, made_columns, made_row, made_problem, form_from};

use crate::draws::every_fourth;
use crate::size::Size;
use fraction::Frac;
use instance::{BuildFault, Builder, Column, Direction, Entries, Entry, Instance, Name, Row};
use std::alloc::{AllocError, Global};

/// The made problem of so many columns.
#[tactic(auto, using(crate::proofs::Forms::draws_are_so_many, crate::proofs::Forms::length_of_form, crate::proofs::Forms::draws_make_forms, crate::proofs::Names::so_many_columns))]
pub fn made_problem(alloc: Global, size: Size) -> Result<Instance, AllocError>
    ensures { IfOk result (λ problem. problem ≡ made_problem size) }
{
    let columns = size.columns();
    let mut builder = Builder::new(alloc)?;
    add_columns(alloc, &mut builder, columns)?;
    let costs = every_fourth(alloc, 1, columns)?;
    let objective = form(alloc, &costs)?;
    let name = Name::new(alloc, "obj")?;
    builder.objective(Direction::Max, name, objective, Frac::zero());
    add_row(alloc, &mut builder, "w1", 2, columns)?;
    add_row(alloc, &mut builder, "w2", 3, columns)?;
    add_row(alloc, &mut builder, "w3", 4, columns)?;
    Ok(builder.done())
}

// ---- columns

fn add_columns(alloc: Global, builder: &mut Builder, count: u32) -> Result<(), AllocError>
    requires empty { builder.old.columns ≡ [] }
    requires few { count ≤ 2_000 }
    ensures { IfOk result (λ _. builder.new ≡ record builder.old { columns = made_columns count }) }
{
    for place in 0..count {
        add_column(alloc, builder, place + 1)?;
    }
    Ok(())
}

fn add_column(alloc: Global, builder: &mut Builder, number: u32) -> Result<(), AllocError>
    requires new { has_column (made_column number).name builder.old.columns ≡ false }
    requires room { length builder.old.columns < 2_000 }
    ensures { IfOk result (λ _. builder.new ≡ record builder.old { columns = builder.old.columns ++ made_column number ∷ [] }) }
{
    let text = format!(in alloc; "x{number}")?;
    let name = Name::new(alloc, text.as_str())?;
    let column = Column::new(name, Some(Frac::zero()), Some(Frac::one()), number <= 6);
    match builder.column(column) {
        Ok(_) => Ok(()),
        Err((_, fault)) => Err(no_memory(fault)),
    }
}

// ---- rows

// One more row, whose coefficients are drawn from the draw of this number on.
#[tactic(auto, using(crate::proofs::Forms::draws_are_so_many, crate::proofs::Forms::length_of_form, crate::proofs::Forms::draws_make_forms))]
fn add_row(
    alloc: Global,
    builder: &mut Builder,
    name: &str,
    number: u32,
    count: u32,
) -> Result<(), AllocError>
    requires new { has_row name.now builder.old.rows ≡ false }
    requires columns { length builder.old.columns ≡ count }
    requires few { count ≤ 2_000 }
    requires room { length builder.old.rows < 3 }
    requires entry_room { entry_count builder.old.rows ≤ 4_000 }
    ensures { IfOk result (λ _. builder.new ≡ record builder.old { rows = builder.old.rows ++ made_row name.now (every_fourth (state_of number) count) ∷ [] }) }
{
    let coefficients = every_fourth(alloc, number, count)?;
    let upper = Frac::whole(half_of_sum(&coefficients) as i128);
    let entries = form(alloc, &coefficients)?;
    let name = Name::new(alloc, name)?;
    match builder.row(Row::new(name, None, Some(upper), entries)) {
        Ok(_) => Ok(()),
        Err((_, fault)) => Err(no_memory(fault)),
    }
}

// The form with these coefficients, of the columns from the first on.
fn form(alloc: Global, coefficients: &[u32]) -> Result<Entries, AllocError>
    requires { length coefficients.now ≤ 2_000 }
    ensures { IfOk result (λ form. form ≡ form_from 0 coefficients.now) }
{
    let mut entries = Vec::with_capacity(alloc, coefficients.len())?;
    let mut place = 0;
    for coefficient in coefficients {
        entries.push(Entry {
            column: place,
            coefficient: Frac::whole(*coefficient as i128),
        })?;
        place += 1;
    }
    Ok(Entries::from_vec(entries))
}

// Half the sum, rounded down.
fn half_of_sum(numbers: &[u32]) -> u64
    requires { length numbers.now ≤ 2_000 }
    ensures { result ≡ sum numbers.now / 2 }
{
    let mut total = 0;
    for number in numbers {
        total += *number as u64;
    }
    total / 2
}

// There is room for one more.
fn no_memory(_fault: BuildFault) -> AllocError
    requires { _fault ≢ BuildFault.TooMany }
{
    AllocError
}
