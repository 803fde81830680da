//! Exact ranges: how far a cost may go before a point stops being best, and how far a bound may go before the value no longer
//! follows its weight.
#![tactic(auto)]

ghost use Rattle.std.specs.Prelude.{ℕ, ◌<◌, ◌^◌, List, length, slice_get, option_and_then, [], ◌∷◌, ◌++◌, Option, Some, None, true, negsuc, ◌≡◌, ◌↔◌};
ghost use Rattle.rational.specs.Rational.{Rational, zero_ℚ, one_ℚ, whole, neg_ℚ, ◌<ℚ◌, ◌+ℚ◌};
ghost use Rattle.milp.specs.Problem.{Problem};
ghost use Rattle.milp.specs.Form.{number_at};
ghost use Rattle.milp.specs.declared.Direction.{Direction};
ghost use Rattle.milp.specs.declared.Direction.TheVariants.{Min, Max};
ghost use Rattle.milp.specs.Points.{IsWithin, Feasible, IsOptimal, IsUnbounded, IsImprovingRay, objective_value, sign_of};
ghost use Rattle.verdicts.specs.Certificate.{Version, Weights, Bound};
ghost use Rattle.verdicts.specs.Proves.{terms, node_passes};
ghost use Rattle.verdicts.specs.WeightedSums.{scaled, coefficient_of, AllBelow, Weighted, combined_bound};
ghost use Rattle.ranging.specs.CostRanges.{with_cost, with_cost_alone, InCostRange, HasLowestCost, HasHighestCost, HasCostEnds};
ghost use Rattle.ranging.specs.TightBounds.{IsTightSum, FormsInRange, IsEndDirection};
ghost use Rattle.ranging.specs.CostAuxiliary.{cost_auxiliary};
ghost use Rattle.ranging.specs.LeafDirections.{direction_of};
ghost use Rattle.ranging.specs.BoundRanges.{BoundSide, bound_of, UsedBound, used_bound, InBoundRange, HasLeastBound, HasGreatestBound, HasBoundEnds, AllContinuous};
ghost use Rattle.ranging.specs.BoundAuxiliary.{bound_auxiliary};
ghost use Rattle.ranging.specs.PlaceNames.{column_name, row_name, named_by_place};

/// Where both ends of a cost range are shown, a number lies between them exactly where the point is best with it.
pub fn cost_ranges()
    ensures { (p : Problem) (x : List Rational) (j : ℕ) (low high : Option Rational) → HasCostEnds p x j low high →
        (t : Rational) → IsWithin low high t ↔ InCostRange p x j t }
{}

/// What leaves that pass the checker's test show of a cost range, where the whole problem or one column has the objective:
/// a cost that is in the range, and that there is no highest or lowest one.
pub fn leaves_show_costs()
    ensures best { (p : Problem) (x : List Rational) (j : ℕ) (v : Version) (t : Rational) (w : Weights) → Feasible p x →
        node_passes (with_cost p j t) v (Some (objective_value (with_cost p j t) x)) [] [] (Bound w) ≡ true →
        InCostRange p x j t }
    ensures no_highest { (p : Problem) (x : List Rational) (j : ℕ) (v : Version) (w : Weights) →
        node_passes (with_cost_alone p j one_ℚ) v (Some (objective_value (with_cost_alone p j one_ℚ) x)) [] [] (Bound w) ≡ true →
        HasHighestCost p x j None }
    ensures no_lowest { (p : Problem) (x : List Rational) (j : ℕ) (v : Version) (w : Weights) →
        node_passes (with_cost_alone p j (whole (negsuc 0))) v (Some (objective_value (with_cost_alone p j (whole (negsuc 0))) x)) [] [] (Bound w) ≡ true →
        HasLowestCost p x j None }
{}

/// What sums of weights on the bounds that are tight at the point show: where the sum is the objective with a cost, that the
/// cost is in the range; where it is the column alone, that there is no highest or lowest cost.
pub fn tight_sums_show_costs()
    ensures best { (p : Problem) (x ws : List Rational) (j : ℕ) (t : Rational) → FormsInRange p →
        AllBelow (length p.columns) (with_cost p j t).objective → Feasible p x →
        IsTightSum p x ws (scaled (sign_of p.direction) (with_cost p j t).objective) → InCostRange p x j t }
    ensures no_highest { (p : Problem) (x ws : List Rational) (j : ℕ) → FormsInRange p → j < length p.columns →
        IsTightSum p x ws (record { column = j; coefficient = sign_of p.direction } ∷ []) → HasHighestCost p x j None }
    ensures no_lowest { (p : Problem) (x ws : List Rational) (j : ℕ) → FormsInRange p → j < length p.columns →
        IsTightSum p x ws (record { column = j; coefficient = neg_ℚ (sign_of p.direction) } ∷ []) → HasLowestCost p x j None }
{}

/// A feasible point of the auxiliary problem of a cost is a number of the range, and an improving ray shows that the range has
/// no end there.
pub fn cost_auxiliaries_show_costs()
    ensures best { (p : Problem) (x : List Rational) (j : ℕ) (wanted : Direction) (t : Rational) (ws : List Rational) →
        FormsInRange p → j < length p.columns → Feasible p x → Feasible (cost_auxiliary p x j wanted) (t ∷ ws) →
        InCostRange p x j t }
    ensures no_lowest { (p : Problem) (x : List Rational) (j : ℕ) (q : Rational) (vs : List Rational) → FormsInRange p →
        j < length p.columns → IsImprovingRay (cost_auxiliary p x j Min) (q ∷ vs) → HasLowestCost p x j None }
    ensures no_highest { (p : Problem) (x : List Rational) (j : ℕ) (q : Rational) (vs : List Rational) → FormsInRange p →
        j < length p.columns → IsImprovingRay (cost_auxiliary p x j Max) (q ∷ vs) → HasHighestCost p x j None }
{}

/// A direction that nears no tight bound and is no worse at a cost of the range leads to a kept point: the cost is the lowest
/// where the column's signed number goes up along it, and the highest where it goes down.
pub fn directions_show_ends()
    ensures lowest { (p : Problem) (x d : List Rational) (j : ℕ) (t step : Rational) → AllContinuous p → InCostRange p x j t →
        Feasible p x → IsEndDirection p x j t step d → zero_ℚ <ℚ step → HasLowestCost p x j (Some t) }
    ensures highest { (p : Problem) (x d : List Rational) (j : ℕ) (t step : Rational) → AllContinuous p →
        InCostRange p x j t → Feasible p x → IsEndDirection p x j t step d → step <ℚ zero_ℚ → HasHighestCost p x j (Some t) }
{}

/// A leaf of the auxiliary problem of a cost that passes the checker's test gives the direction of the end: the column's signed
/// number goes by 1 along it, up at the lower end and down at the upper one.
pub fn leaves_give_directions()
    ensures { (p : Problem) (x : List Rational) (j : ℕ) (wanted : Direction) (v : Version) (t : Rational) (w : Weights) →
        FormsInRange p → j < length p.columns →
        node_passes (cost_auxiliary p x j wanted) v (Some t) [] [] (Bound w) ≡ true →
        IsEndDirection p x j t (sign_of wanted) (direction_of p w) }
{}

/// A feasible point of the auxiliary problem of a cost, and a leaf that passes the checker's test at its value, show the end
/// of the range: the point's first number.
pub fn optima_show_cost_ends()
    ensures lowest { (p : Problem) (x : List Rational) (j : ℕ) (v : Version) (z : List Rational) (w : Weights) →
        FormsInRange p → AllContinuous p → j < length p.columns → Feasible p x → Feasible (cost_auxiliary p x j Min) z →
        node_passes (cost_auxiliary p x j Min) v (Some (objective_value (cost_auxiliary p x j Min) z)) [] [] (Bound w) ≡ true →
        HasLowestCost p x j (Some (number_at z 0)) }
    ensures highest { (p : Problem) (x : List Rational) (j : ℕ) (v : Version) (z : List Rational) (w : Weights) →
        FormsInRange p → AllContinuous p → j < length p.columns → Feasible p x → Feasible (cost_auxiliary p x j Max) z →
        node_passes (cost_auxiliary p x j Max) v (Some (objective_value (cost_auxiliary p x j Max) z)) [] [] (Bound w) ≡ true →
        HasHighestCost p x j (Some (number_at z 0)) }
{}

/// Where both ends of a bound's range are shown, a number lies between them exactly where it is in the range.
pub fn bound_ranges()
    ensures { (p : Problem) (u : UsedBound) (least greatest : Option Rational) → HasBoundEnds p u least greatest →
        (t : Rational) → IsWithin least greatest t ↔ InBoundRange p u t }
{}

/// A best point of the auxiliary problem of a bound shows the end of the range, the bound moved by the point's last number; an
/// improving ray shows that there is none.
pub fn bound_auxiliaries_show_ends()
    ensures least { (p : Problem) (u : UsedBound) (z : List Rational) → FormsInRange p → AllContinuous p →
        IsOptimal (bound_auxiliary p u Min) z → HasLeastBound p u (Some (u.bound +ℚ number_at z (length p.columns))) }
    ensures greatest { (p : Problem) (u : UsedBound) (z : List Rational) → FormsInRange p → AllContinuous p →
        IsOptimal (bound_auxiliary p u Max) z → HasGreatestBound p u (Some (u.bound +ℚ number_at z (length p.columns))) }
    ensures no_least { (p : Problem) (u : UsedBound) (z r : List Rational) → FormsInRange p → AllContinuous p →
        IsUnbounded (bound_auxiliary p u Min) z r → HasLeastBound p u None }
    ensures no_greatest { (p : Problem) (u : UsedBound) (z r : List Rational) → FormsInRange p → AllContinuous p →
        IsUnbounded (bound_auxiliary p u Max) z r → HasGreatestBound p u None }
{}

/// Names by place differ, and a problem keeps its points when its columns and rows take them.
pub fn names_by_place()
    ensures columns { (i j : ℕ) → i < 2 ^ 32 → j < 2 ^ 32 → column_name i ≡ column_name j → i ≡ j }
    ensures rows { (i j : ℕ) → i < 2 ^ 32 → j < 2 ^ 32 → row_name i ≡ row_name j → i ≡ j }
    ensures points { (p : Problem) (x : List Rational) → Feasible (named_by_place p) x ↔ Feasible p x }
{}

/// Where a leaf that passes the checker's test shows a point best, the sum of its weighted bounds is the total of each used
/// bound: what the point makes of the objective without its constant.
pub fn leaf_sums_are_totals()
    ensures { (p : Problem) (x : List Rational) (v : Version) (w : Weights) (ts : List Weighted) (i : ℕ) (s : BoundSide)
        (b : Rational) → FormsInRange p → Feasible p x →
        node_passes p v (Some (objective_value p x)) [] [] (Bound w) ≡ true → terms p [] [] [] w ≡ Some ts →
        combined_bound ts ≡ (used_bound p x w i s b).total }
{}

/// Each auxiliary problem has a point, so that its verdict is never that there is none. Of a cost: the cost as it stands, with
/// weights, where a leaf that passes the checker's test shows the point best. Of a bound: the point and no distance.
pub fn auxiliaries_have_points()
    ensures cost { (p : Problem) (x : List Rational) (j : ℕ) (wanted : Direction) (v : Version) (w : Weights) →
        FormsInRange p → Feasible p x → node_passes p v (Some (objective_value p x)) [] [] (Bound w) ≡ true →
        (ws : List Rational) × Feasible (cost_auxiliary p x j wanted) (coefficient_of p.objective j ∷ ws) }
    ensures bound { (p : Problem) (x : List Rational) (w : Weights) (i : ℕ) (s : BoundSide) (b : Rational)
        (wanted : Direction) → FormsInRange p → AllContinuous p → Feasible p x →
        option_and_then (bound_of s) (slice_get p.rows i) ≡ Some b →
        Feasible (bound_auxiliary p (used_bound p x w i s b) wanted) (x ++ zero_ℚ ∷ []) }
{}
