// The tests of leaves that stand in no certificate yet.
ghost use Rattle.std.specs.Prelude.{◌≡◌, ◌≤◌, [], ◌∷◌, length, None, Some, IfOk};
ghost use Rattle.rational.specs.Rational.{one_ℚ};
ghost use Rattle.verdicts.specs.Proves.{same_form};
ghost use Rattle.cert_check.specs.Made.{made_form};
ghost use Rattle.verdicts.specs.Certificate.{One, Two, Empty, Bound};
ghost use Rattle.certificate.specs.Ways.{way};
ghost use Rattle.cert_check.specs.Parts.{node_answer};

use crate::by_column::ByColumn;
use crate::forms::is_form;
use crate::named::Named;
use crate::nodes::{bound_passes, empty_passes};
use crate::setting::Setting;
use crate::way::Way;
use certificate::{Derived, LeafWeights, Tree, Version, Weights};
use fraction::{Frac, NoFit};
use instance::{Entry, Instance};
use std::alloc::Global;

/// Whether the weights show that no point is under the splits on the way to a place of a tree: the test of a leaf without
/// points that stands there in version 2, or the first operation on the way that does not fit. Memory is taken as in
/// `check`.
pub fn shows_no_point(
    alloc: Global,
    problem: &Instance,
    derived: &[Derived],
    tree: &Tree,
    place: usize,
    weights: &LeafWeights,
) -> Result<bool, NoFit>
    requires { place ≤ length tree.now }
    ensures { result ≡ node_answer (record { version = Two; problem = problem.now; derived = derived.now; sides = way tree.now place }) None (Empty weights.now) }
{
    let problem = ByColumn::by_row(alloc, problem);
    let way = Way::to(alloc, tree, place);
    let setting = Setting::of_node(Version::Two, &problem, derived, &way);
    empty_passes(&setting, &Named::of_leaf(weights))
}

/// Whether the weights show that no point there has a better value of the objective's form than this one: the test of a
/// leaf without better points that stands there in version 2, or the first operation on the way that does not fit. Memory
/// is taken as in `check`.
pub fn shows_none_better(
    alloc: Global,
    problem: &Instance,
    derived: &[Derived],
    tree: &Tree,
    place: usize,
    weights: &LeafWeights,
    value: Frac,
) -> Result<bool, NoFit>
    requires { place ≤ length tree.now }
    ensures { result ≡ node_answer (record { version = Two; problem = problem.now; derived = derived.now; sides = way tree.now place }) (Some value) (Bound weights.now) }
{
    let problem = ByColumn::by_row(alloc, problem);
    let way = Way::to(alloc, tree, place);
    let setting = Setting::of_node(Version::Two, &problem, derived, &way);
    bound_passes(&setting, &Named::of_leaf(weights), value)
}

/// Whether the weights make a column alone: the rows, columns and derived rows that they name, each times its weight, have
/// the sum 1 at this column and 0 at each other one. Or the first operation on the way that does not fit. Memory is taken
/// as in `check`.
pub fn makes_column(
    alloc: Global,
    problem: &Instance,
    derived: &[Derived],
    tree: &Tree,
    place: usize,
    weights: &Weights,
    column: u32,
) -> Result<bool, NoFit>
    requires { place ≤ length tree.now }
    ensures { IfOk result (λ b. b ≡ same_form (length problem.now.columns) (made_form (record { version = One; problem = problem.now; derived = derived.now; sides = way tree.now place }) weights.now) (record { column = column; coefficient = one_ℚ } ∷ [])) }
{
    let problem = ByColumn::by_row(alloc, problem);
    let way = Way::at(tree, place);
    let setting = Setting::of_node(Version::One, &problem, derived, &way);
    let alone = [Entry {
        column,
        coefficient: Frac::one(),
    }];
    let _rows = weights.rows();
    is_form(&setting, &Named::without_splits(weights), &alone, None)
}
