// What a search of a problem with rows for cuts leaves, as what is left of the problem itself.
ghost use Rattle.std.specs.Prelude.{◌≡◌, [], Some, option_map, IfOk, IfSome};
ghost use Rattle.partial_certificate.specs.Shown.{Passes};
ghost use Rattle.cut_rows.specs.CutProblem.{IsCutProblem};
ghost use Rattle.cut_rows.specs.Partials.{restored_partial};
ghost use Rattle.cut_rows.specs.Restored.{AreShown};
ghost use Rattle.root_cuts.specs.RootCuts.{AreRootCuts};

use certificate::DerivedRows;
use cut_rows::{passing_cuts_are_shown, restore_partial, restored_partials_show};
use gomory::root_cuts_pass;
use instance::Instance;
use partial_certificate::PartialCertificate;
use simplex::root_is_over_columns;
use sqlite_items::Boxed;
use std::alloc::{AllocError, Global};
use stopped_search::Unsolved;

/// Why the search of the problem with rows for cuts finds no verdict, and what it has shown, restored.
pub(crate) fn without_cuts(
    alloc: Global,
    problem: &Instance,
    cuts: &DerivedRows,
    cut_problem: &Instance,
    unsolved: Unsolved,
) -> Unsolved
    requires are_cuts { AreRootCuts problem.now cuts.now }
    requires cut_problem { IsCutProblem problem.now cuts.now cut_problem.now }
    requires derived { IfSome unsolved.shown (λ c. c.derived ≡ []) }
    requires passes { IfSome unsolved.shown (Passes cut_problem.now) }
    ensures same { result.fault ≡ unsolved.fault }
    ensures restored { IfSome result.shown (λ made. option_map (restored_partial problem.now cuts.now) unsolved.shown ≡ Some made) }
    ensures shows { IfSome result.shown (Passes problem.now) }
{
    root_cuts_are_shown(problem, cuts);
    let Unsolved { fault, shown } = unsolved;
    let shown = restored_shown(alloc, problem, cuts, cut_problem, &shown);
    Unsolved { fault, shown }
}

// The cuts of the root pass the checker's tests of derived rows.
fn root_cuts_are_shown(problem: &Instance, cuts: &DerivedRows)
    requires { AreRootCuts problem.now cuts.now }
    ensures { AreShown problem.now cuts.now }
{
    root_is_over_columns(problem);
    root_cuts_pass();
    passing_cuts_are_shown();
}

// What was shown, restored, where memory is there.
fn restored_shown(
    alloc: Global,
    problem: &Instance,
    cuts: &DerivedRows,
    cut_problem: &Instance,
    shown: &Option<Boxed<PartialCertificate>>,
) -> Option<Boxed<PartialCertificate>>
    requires are_shown { AreShown problem.now cuts.now }
    requires cut_problem { IsCutProblem problem.now cuts.now cut_problem.now }
    requires derived { IfSome shown.now (λ c. c.derived ≡ []) }
    requires passes { IfSome shown.now (Passes cut_problem.now) }
    ensures restored { IfSome result (λ made. option_map (restored_partial problem.now cuts.now) shown.now ≡ Some made) }
    ensures shows { IfSome result (Passes problem.now) }
{
    match shown {
        None => None,
        Some(shown) => restored_one(alloc, problem, cuts, cut_problem, shown.get()).ok(),
    }
}

fn restored_one(
    alloc: Global,
    problem: &Instance,
    cuts: &DerivedRows,
    cut_problem: &Instance,
    shown: &PartialCertificate,
) -> Result<Boxed<PartialCertificate>, AllocError>
    requires are_shown { AreShown problem.now cuts.now }
    requires cut_problem { IsCutProblem problem.now cuts.now cut_problem.now }
    requires derived { shown.now.derived ≡ [] }
    requires passes { Passes cut_problem.now shown.now }
    ensures restored { IfOk result (λ made. made ≡ restored_partial problem.now cuts.now shown.now) }
    ensures shows { IfOk result (Passes problem.now) }
{
    restored_partials_show();
    let restored = restore_partial(alloc, problem, cuts, shown)?;
    Boxed::new(alloc, restored)
}
