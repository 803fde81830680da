// What the simplex method's ends show of a node.
ghost use Rattle.std.specs.Prelude.{ℕ, List, [], length, ◌≡◌, true, Some, None};
ghost use Rattle.rational.specs.Rational.{Rational, ◌*ℚ◌};
ghost use Rattle.milp.specs.Form.{sum_at};
ghost use Rattle.milp.specs.Problem.{Problem};
ghost use Rattle.milp.specs.Points.{Feasible, IsBetter, IsImprovingRay, objective_value, sign_of};
ghost use Rattle.verdicts.specs.Certificate.{Side, Weights, Derived, Optimal, Infeasible, Empty, Bound};
ghost use Rattle.verdicts.specs.WeightedSums.{scaled};
ghost use Rattle.verdicts.specs.Proves.{shows, refutes, terms, bound_passes, Proves};
ghost use Rattle.basis.specs.System.{IsSystem, Satisfies, AllInside};
ghost use Rattle.basis.specs.Dictionary.{Dictionary};
ghost use Rattle.basis.specs.Node.{system_of, IsOverColumns, IsNodePoint};
ghost use Rattle.basis.specs.Weights.{numbers_from};
ghost use Rattle.basis.specs.Relaxation.{IsOptimalRelaxation, IsInfeasibleRelaxation, IsUnboundedRelaxation, ShowsObjective, ShowsInfeasible, leaf_certificate, point_certificate};
ghost use Rattle.basis.specs.Numbers.{IsNodeBase, AllOf, AreNodeWeights};
ghost use Rattle.basis.specs.declared.Place.{Place};

/// The system of a node has its forms over columns and bounds for each variable.
pub fn node_systems()
    ensures { (p : Problem) (ds : List Derived) (sides : List Side) → IsOverColumns p ds sides → IsSystem (system_of p ds sides) }
{}

/// A point of the system with all variables inside their bounds is a point of the node.
pub fn points_of_nodes()
    ensures { (p : Problem) (ds : List Derived) (sides : List Side) (x : ℕ → Rational) → IsOverColumns p ds sides →
        Satisfies (system_of p ds sides) x → AllInside (system_of p ds sides) x →
        IsNodePoint p ds sides (numbers_from 0 (length p.columns) x) }
{}

/// At an optimal basis the point is one of the node, and the weights show that none is better; they pass the test of a leaf
/// against its value.
pub fn optimal_nodes()
    ensures point { (p : Problem) (ds : List Derived) (sides : List Side) (x : List Rational) (w : Weights) (b : List Place)
        (d : Dictionary) → IsOverColumns p ds sides → IsOptimalRelaxation p ds sides x w b d → IsNodePoint p ds sides x }
    ensures weights { (p : Problem) (ds : List Derived) (sides : List Side) (x : List Rational) (w : Weights) (b : List Place)
        (d : Dictionary) → IsOverColumns p ds sides → IsOptimalRelaxation p ds sides x w b d → ShowsObjective p ds sides x w }
    ensures leaf { (p : Problem) (ds : List Derived) (sides : List Side) (x : List Rational) (w : Weights) →
        ShowsObjective p ds sides x w → shows (length p.columns) (terms p ds sides [] w)
        (scaled (sign_of p.direction) p.objective) (sign_of p.direction *ℚ sum_at x p.objective) ≡ true }
    ensures passes { (p : Problem) (ds : List Derived) (sides : List Side) (x : List Rational) (w : Weights) →
        ShowsObjective p ds sides x w → bound_passes p (Some (objective_value p x)) (terms p ds sides [] w) ≡ true }
    ensures best { (p : Problem) (ds : List Derived) (sides : List Side) (x : List Rational) (w : Weights) (b : List Place)
        (d : Dictionary) → IsOverColumns p ds sides → IsOptimalRelaxation p ds sides x w b d → (y : List Rational) →
        IsNodePoint p ds sides y → ¬ (IsBetter p y x) }
{}

/// A blocked row's weights, and those of contradictory bounds, show that the node has no point.
pub fn infeasible_nodes()
    ensures weights { (p : Problem) (ds : List Derived) (sides : List Side) (w : Weights) → IsOverColumns p ds sides →
        IsInfeasibleRelaxation p ds sides w → ShowsInfeasible p ds sides w }
    ensures leaf { (p : Problem) (ds : List Derived) (sides : List Side) (w : Weights) →
        ShowsInfeasible p ds sides w → refutes (length p.columns) (terms p ds sides [] w) ≡ true }
{}

/// At an unbounded basis the point is one of the node, and the ray improves the problem without end.
pub fn unbounded_nodes()
    ensures point { (p : Problem) (ds : List Derived) (sides : List Side) (x ray : List Rational) → IsOverColumns p ds sides →
        IsUnboundedRelaxation p ds sides x ray → IsNodePoint p ds sides x }
    ensures ray { (p : Problem) (ds : List Derived) (sides : List Side) (x ray : List Rational) → IsOverColumns p ds sides →
        IsUnboundedRelaxation p ds sides x ray → IsImprovingRay p ray }
{}

/// Points, weights and rays of a node's relaxation are base numbers of the node.
pub fn base_numbers()
    ensures optimal_point { (p : Problem) (ds : List Derived) (sides : List Side) (x : List Rational) (w : Weights)
        (b : List Place) (d : Dictionary) → IsOptimalRelaxation p ds sides x w b d → AllOf (IsNodeBase p ds sides) x }
    ensures optimal_weights { (p : Problem) (ds : List Derived) (sides : List Side) (x : List Rational) (w : Weights)
        (b : List Place) (d : Dictionary) → IsOptimalRelaxation p ds sides x w b d → AreNodeWeights p ds sides w }
    ensures infeasible_weights { (p : Problem) (ds : List Derived) (sides : List Side) (w : Weights) →
        IsInfeasibleRelaxation p ds sides w → AreNodeWeights p ds sides w }
    ensures unbounded_point { (p : Problem) (ds : List Derived) (sides : List Side) (x ray : List Rational) →
        IsUnboundedRelaxation p ds sides x ray → AllOf (IsNodeBase p ds sides) x }
    ensures unbounded_ray { (p : Problem) (ds : List Derived) (sides : List Side) (x ray : List Rational) →
        IsUnboundedRelaxation p ds sides x ray → AllOf (IsNodeBase p ds sides) ray }
{}

/// What the ends of the simplex method show makes a certificate that proves its verdict: with one leaf, or with a
/// point and a ray.
pub fn one_leaf_proves()
    ensures optimal { (p : Problem) (x : List Rational) (w : Weights) → Feasible p x → ShowsObjective p [] [] x w →
        Proves p (leaf_certificate p Optimal (Some (objective_value p x)) (Some x) (Bound w)) }
    ensures infeasible { (p : Problem) (w : Weights) → ShowsInfeasible p [] [] w →
        Proves p (leaf_certificate p Infeasible None None (Empty w)) }
    ensures unbounded { (p : Problem) (x ray : List Rational) → Feasible p x → IsImprovingRay p ray →
        Proves p (point_certificate p x ray) }
{}
