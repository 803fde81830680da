//! Worked problems, each with the law that its search is not hindered: no cause of Overflow or Undecided is there.
#![tactic(auto)]

ghost use Rattle.std.specs.Prelude.{List, [], ◌∷◌, pos};
ghost use Rattle.rational.specs.Rational.{Rational, zero_ℚ, one_ℚ, whole};
ghost use Rattle.milp.specs.Points.{Feasible, IsOptimal, IsUnbounded};
ghost use Rattle.basis.specs.Bland.{IsRun};
ghost use Rattle.basis.specs.Node.{system_of};
ghost use Rattle.basis.specs.declared.Place.TheVariants.{Basic, AtLower, AtUpper};
ghost use Rattle.search_tree.specs.Nodes.{IsHonestSplit};
ghost use Rattle.worked_problems.specs.Problems.{endless, pivoted, parted, at_zero, any_whole, least_whole};
ghost use Rattle.worked_problems.specs.Unhindered.{AreUnhindered};

use basis::{dictionary_is_unique, ends_are_final, runs_are_one};
use search_tree::{none_far_out, optimal_points};

/// Of `min 0, x >= 0 whole` each point is optimal, and its search is not hindered: no split is honest.
pub fn any_whole_is_unhindered()
    ensures optimal { IsOptimal any_whole (zero_ℚ ∷ []) }
    ensures unhindered { AreUnhindered any_whole 0 }
{
    none_far_out();
}

/// `min -2 x, x >= 0` is unbounded. Neither its search is hindered nor that of the problem without its objective.
pub fn endless_is_unhindered()
    ensures unbounded { IsUnbounded endless (zero_ℚ ∷ []) (one_ℚ ∷ []) }
    ensures unhindered { AreUnhindered endless 0 }
{}

/// `min x, 1 <= 3 x <= 2, x >= 0 whole` has no point. The split of x at 0 is honest, its search is not hindered, and makes
/// no more splits than that.
pub fn parted_is_unhindered()
    ensures infeasible { (x : List Rational) → ¬ (Feasible parted x) }
    ensures split { IsHonestSplit parted [] [] at_zero }
    ensures unhindered { AreUnhindered parted 1 }
{
    dictionary_is_unique();
    runs_are_one();
    ends_are_final();
    optimal_points();
}

/// Bland's run for `min -x, x <= 2, x >= 0`, where the first bound is a row's, makes a step, and its search is not
/// hindered.
pub fn pivoted_is_unhindered()
    ensures step { IsRun (system_of pivoted [] []) (Basic ∷ AtUpper ∷ []) ((AtLower ∷ Basic ∷ []) ∷ []) }
    ensures unhindered { AreUnhindered pivoted 0 }
{
    dictionary_is_unique();
    runs_are_one();
    ends_are_final();
}

/// Of `min x, 2 <= x <= 5 whole` the point 2 is optimal, and its search is not hindered: the optimal point of its relaxation
/// is whole, so no split is honest.
pub fn least_whole_is_unhindered()
    ensures optimal { IsOptimal least_whole (whole (pos 2) ∷ []) }
    ensures unhindered { AreUnhindered least_whole 0 }
{}
