// What a search of a problem with row columns leaves, as what is left of the problem without them.
ghost use Rattle.std.specs.Prelude.{ℕ, ◌≡◌, [], true, Some, option_map, IfOk, IfSome};
ghost use Rattle.std.specs.List.{list_all};
ghost use Rattle.verdicts.specs.Proves.{is_whole_form};
ghost use Rattle.partial_certificate.specs.Columns.{IsBySplitsOfColumns};
ghost use Rattle.partial_certificate.specs.Shown.{Passes};
ghost use Rattle.branch_search.specs.WholeFaults.{IsFault};
ghost use Rattle.row_columns.specs.RowForms.{AreRowForms};
ghost use Rattle.row_columns.specs.Extended.{IsExtended};
ghost use Rattle.row_columns.specs.Partials.{restored_partial};
ghost use Rattle.row_splits.specs.Searched.{IsUnsolved};

use branch_search::VerdictFault;
use instance::Instance;
use partial_certificate::PartialCertificate;
use row_columns::{Extension, restore_partial, restored_partials_show};
use sqlite_items::Boxed;
use std::alloc::{AllocError, Global};
use stopped_search::{Unsolved, unsolved};

/// Why the search of the problem with row columns finds no verdict, and what it has shown, restored.
pub(crate) fn without_row_columns(
    alloc: Global,
    problem: &Instance,
    extension: &Extension,
    split_limit: usize,
    pivot_limit: u32,
    fault: VerdictFault,
) -> Unsolved
    requires forms { AreRowForms problem.now problem.now.rows extension.now.forms }
    requires whole { list_all (is_whole_form problem.now) extension.now.forms ≡ true }
    requires extended { IsExtended problem.now extension.now.forms extension.now.problem }
    requires fault { IsFault extension.now.problem split_limit pivot_limit fault }
    ensures same { result.fault ≡ fault }
    ensures fault { IsUnsolved true problem.now split_limit pivot_limit result }
    ensures shows { IfSome result.shown (Passes problem.now) }
    ensures derived { IfSome result.shown (λ c. c.derived ≡ []) }
{
    let Unsolved { fault, shown } = unsolved(alloc, fault);
    let shown = restored_shown(alloc, problem, extension, &shown);
    Unsolved { fault, shown }
}

// What was shown, restored, where memory is there.
fn restored_shown(
    alloc: Global,
    problem: &Instance,
    extension: &Extension,
    shown: &Option<Boxed<PartialCertificate>>,
) -> Option<Boxed<PartialCertificate>>
    requires whole { list_all (is_whole_form problem.now) extension.now.forms ≡ true }
    requires extended { IsExtended problem.now extension.now.forms extension.now.problem }
    requires columns { IfSome shown.now IsBySplitsOfColumns }
    requires passes { IfSome shown.now (Passes extension.now.problem) }
    ensures restored { IfSome result (λ made. option_map (restored_partial problem.now extension.now.forms) shown.now ≡ Some made) }
    ensures shows { IfSome result (Passes problem.now) }
    ensures derived { IfSome result (λ c. c.derived ≡ []) }
{
    match shown {
        None => None,
        Some(shown) => restored_one(alloc, problem, extension, shown.get()).ok(),
    }
}

fn restored_one(
    alloc: Global,
    problem: &Instance,
    extension: &Extension,
    shown: &PartialCertificate,
) -> Result<Boxed<PartialCertificate>, AllocError>
    requires whole { list_all (is_whole_form problem.now) extension.now.forms ≡ true }
    requires extended { IsExtended problem.now extension.now.forms extension.now.problem }
    requires columns { IsBySplitsOfColumns shown.now }
    requires passes { Passes extension.now.problem shown.now }
    ensures restored { IfOk result (λ made. made ≡ restored_partial problem.now extension.now.forms shown.now) }
    ensures shows { IfOk result (Passes problem.now) }
    ensures derived { IfOk result (λ c. c.derived ≡ []) }
{
    restored_partials_show();
    let restored = restore_partial(alloc, problem, &extension.forms, shown)?;
    Boxed::new(alloc, restored)
}
