// The cuts of the root.
ghost use Rattle.std.specs.Prelude.{◌≡◌, ◌<◌, [], ◌∷◌, ◌++◌, true, length, IfOk, IfSome, OnOk};
ghost use Rattle.std.specs.Option.{option_map_or};
ghost use Rattle.std.specs.List.{list_all};
ghost use Rattle.verdicts.specs.Certificate.{Derived as DerivedOf};
ghost use Rattle.verdicts.specs.Proves.{in_range};
ghost use Rattle.simplex.specs.Answer.{IsRelaxed};
ghost use Rattle.simplex.specs.declared.answers.Relaxed.TheVariants.{Optimal};
ghost use Rattle.root_cuts.specs.RootBasis.{AreSettled, numbers_of, variable_number};
ghost use Rattle.root_cuts.specs.RootCuts.{AreRootCuts, IsCutOf};
ghost use Rattle.basis.specs.Weights.{numbers_from};
ghost use Rattle.basis.specs.Relaxation.{IsOptimalRelaxation};
ghost use Rattle.dictionary.specs.Table.{dictionary_of};
ghost use Rattle.instance.specs.ByColumn.{AreByColumn};

use crate::numbers::numbers_at;
use crate::places::settled_places;
use crate::rates::rates_of;
use crate::small::if_small;
use basis::Place;
use certificate::{Derived, DerivedRows};
use fraction::Frac;
use gomory::{Unfit, cut};
use instance::{EntriesByColumn, Instance};
use search_node::{Node, Stuck};
use simplex::{Best, Dictionary, Relaxed, relax, root_is_over_columns};
use std::alloc::{AllocError, Global};

/// Cuts of a search for a problem: those of some columns, at most one of each, at one optimal basis of the problem without wholeness.
/// It is the one that Bland's rule finds in at most `pivot_limit` steps (as many as it takes where that is 0), and the cuts are those
/// whose numbers fit and are small; where there is no such basis, or it is not found, there are none. Which of its cuts there are no
/// clause says.
pub fn root_cuts(
    alloc: Global,
    problem: &Instance,
    pivot_limit: u32,
) -> Result<DerivedRows, AllocError>
    ensures cuts { IfOk result (AreRootCuts problem.now) }
    ensures within { IfOk result (λ cuts. list_all (λ (d : DerivedOf). in_range (length problem.now.columns) d.form) cuts ≡ true) }
{
    root_is_over_columns(problem);
    let none = DerivedRows::new(alloc);
    match relax(alloc, problem, &Node::root(alloc), &none, pivot_limit) {
        Ok(Relaxed::Optimal(best)) => cuts_at(alloc, problem, &best),
        Ok(_) => Ok(none),
        Err(Stuck::NoMemory) => Err(AllocError),
        Err(_) => Ok(none),
    }
}

// The cuts at an optimal basis.
fn cuts_at(alloc: Global, problem: &Instance, best: &Best) -> Result<DerivedRows, AllocError>
    requires { IsRelaxed problem.now [] [] (Optimal best.now) }
    ensures { IfOk result (AreRootCuts problem.now) }
{
    root_is_over_columns(problem);
    problem.keeps_its_limits();
    let places = settled_places(alloc, problem, best.dictionary.places())?;
    let Some(numbers) = numbers_at(alloc, problem, &best.point)? else {
        return Ok(DerivedRows::new(alloc));
    };
    let by_column = problem.by_column()?;
    let mut cuts = DerivedRows::new(alloc);
    for column in 0..problem.columns().len() {
        let cut = cut_of(alloc, problem, &by_column, best, &places, &numbers, column)?;
        add_cut(&mut cuts, cut)?;
    }
    Ok(cuts)
}

// One more cut, if there is one.
fn add_cut(cuts: &mut DerivedRows, cut: Option<Derived>) -> Result<(), AllocError>
    requires few { length cuts.old < 1_000_000 }
    ensures { OnOk result (cuts.new ≡ cuts.old ++ option_map_or (λ d. d ∷ []) cut []) }
{
    match cut {
        Some(cut) => Ok(cuts.push(cut)?),
        None => Ok(()),
    }
}

// The cut of a column, if it has one of small numbers.
fn cut_of(
    alloc: Global,
    problem: &Instance,
    by_column: &EntriesByColumn,
    best: &Best,
    places: &[Place],
    numbers: &[Frac],
    column: usize,
) -> Result<Option<Derived>, AllocError>
    requires by_column { AreByColumn by_column.now problem.now.columns problem.now.rows }
    requires relaxed { IsRelaxed problem.now [] [] (Optimal best.now) }
    requires places { AreSettled problem.now best.now.dictionary.places places.now }
    requires numbers { numbers.now ≡ numbers_from 0 (length places.now) (variable_number problem.now best.now.point) }
    requires column { column < length problem.now.columns }
    ensures { IfOk result (λ o. IfSome o (IsCutOf problem.now places.now (numbers_of problem.now places.now best.now.point) (dictionary_of best.now.dictionary) column)) }
{
    root_is_over_columns(problem);
    problem.keeps_its_limits();
    if !best.dictionary.is_basic(column) {
        return Ok(None);
    }
    let rates = rates_of(alloc, &best.dictionary, column)?;
    match cut(
        alloc,
        problem,
        by_column,
        places,
        &rates,
        numbers,
        column as u32,
    ) {
        Ok(Some(found)) => Ok(if_small(found)),
        Ok(None) => Ok(None),
        Err(Unfit::NoFit(_)) => Ok(None),
        Err(Unfit::NoMemory) => Err(AllocError),
    }
}
