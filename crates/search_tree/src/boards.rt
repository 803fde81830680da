// What holds of boards and their nodes.
ghost use Rattle.std.specs.Prelude.{ℕ, ◌<◌, ◌≤◌, ◌+◌, List, [], ◌≡◌, length, Option, Some, None, IfSome};
ghost use Rattle.rational.specs.Rational.{Rational};
ghost use Rattle.milp.specs.Problem.{Problem};
ghost use Rattle.milp.specs.Points.{objective_value};
ghost use Rattle.verdicts.specs.Certificate.{Split, Side as SideOf, Weights, Derived, Bound};
ghost use Rattle.verdicts.specs.Proves.{Proves};
ghost use Rattle.verdicts.specs.Migrated.{named};
ghost use Rattle.basis.specs.Dictionary.{Dictionary};
ghost use Rattle.fraction.specs.declared.frac.NoFit.{NoFit};
ghost use Rattle.basis.specs.Node.{system_of, IsOverColumns, IsNodePoint};
ghost use Rattle.basis.specs.Numbers.{node_numbers};
ghost use Rattle.search_node.specs.Faults.{IsSiteFault};
ghost use Rattle.basis.specs.Relaxation.{IsOptimalRelaxation};
ghost use Rattle.basis.specs.declared.Place.{Place};
ghost use Rattle.cert_check.specs.Outcome.{Acceptance, outcome, trials};
ghost use Rattle.certificate.specs.declared.split.Side.{Side};
ghost use Rattle.search_tree.specs.Named.{EmptyIsNamed, BoundIsNamed};
ghost use Rattle.search_tree.specs.Nodes.{IsRelaxedOptimum, IsHonestSplit, IsTreated, IsWorthwhile, NodePasses};
ghost use Rattle.search_tree.specs.AnyWhole.{any_whole_x};
ghost use Rattle.search_tree.specs.Ascending.{AreFormsAscending};
ghost use Rattle.search_tree.specs.Work.{IsWorkFault};
ghost use Rattle.search_tree.specs.Pinned.{IsPinned};
ghost use Rattle.search_tree.specs.Points.{AreOfColumns};
ghost use Rattle.search_tree.specs.declared.leaf.Lease.{Lease};
ghost use Rattle.search_tree.specs.declared.leaf.Leaf.TheVariants.{Leased};
ghost use Rattle.search_tree.specs.Tree.{AtLeaf, at_place, sides_to};
ghost use Rattle.search_tree.specs.Board.{Board};
ghost use Rattle.search_tree.specs.declared.event.Event.{Event};
ghost use Rattle.search_tree.specs.declared.event.Reply.{Reply};
ghost use Rattle.search_tree.specs.Kept.{IsNoBetter, IsKept, IsCovered};
ghost use Rattle.search_tree.specs.Steps.{Step, IsReplay};
ghost use Rattle.search_tree.specs.Finished.{IsFinished, certificate_of};
ghost use Rattle.search_tree.specs.Honest.{IsHonestWay};

/// A kept board covers each better point, and each event keeps it. So a board that is the replay of its log is kept.
pub fn kept_boards()
    ensures covered { (b : Board) → IsKept b → IsCovered b }
    ensures steps { (b c : Board) (event : Event) (reply : Reply) → IsKept b → Step b event reply c → IsKept c }
    ensures replays { (b : Board) → IsReplay b → IsKept b }
{}

/// The way to each place of a kept board is honest, and no longer than the limit of splits; the way to a leased leaf leaves
/// room below that limit for the splits that the lease grants.
pub fn ways_of_boards()
    ensures honest { (b : Board) → IsKept b → (way : List Side) → IsHonestWay b.problem b.cuts b.split_limit (sides_to b.tree way []) }
    ensures leaves_room { (b : Board) → IsKept b → (way : List Side) (lease : Lease) → at_place b.tree way ≡ Some (AtLeaf (Leased lease)) →
        length (sides_to b.tree way []) + lease.grant ≤ b.split_limit }
{}

/// The checker accepts the certificate of a kept board whose leaves are all closed: it refuses no part, and all its
/// operations fit. So the certificate proves its verdict.
pub fn finished_boards()
    ensures accepted { (b : Board) → IsKept b → IsFinished b → outcome (trials b.problem (certificate_of b)) ≡ Acceptance }
    ensures proves { (b : Board) → IsKept b → IsFinished b → Proves b.problem (certificate_of b) }
{}

/// A point of a node's relaxation is optimal there where weights that pass the checker's test show its own value, if the
/// splits on the way are of columns, and where the simplex method finds it. What rests there tells the number of each column, where the simplex method finds it.
pub fn optimal_points()
    ensures tested { (p : Problem) (ds : List Derived) (sides : List SideOf) (x : List Rational) (w : Weights) →
        AreOfColumns sides → IsNodePoint p ds sides x → NodePasses p (Some (objective_value p x)) ds sides (Bound w) → IsRelaxedOptimum p ds sides x }
    ensures found { (p : Problem) (ds : List Derived) (sides : List SideOf) (x : List Rational) (w : Weights) (b : List Place)
        (d : Dictionary) → IsOverColumns p ds sides → IsOptimalRelaxation p ds sides x w b d → IsRelaxedOptimum p ds sides x }
    ensures pinned { (p : Problem) (ds : List Derived) (sides : List SideOf) (x : List Rational) (w : Weights) (b : List Place)
        (d : Dictionary) → IsOverColumns p ds sides → IsOptimalRelaxation p ds sides x w b d →
        (j : ℕ) → j < length p.columns → IsPinned (system_of p ds sides) x j }
{}

/// Weights that show a contradiction at a node, or the value of its optimal point, pass the checker's test where they name
/// the splits on the way. At the root there are none to name.
pub fn named_leaves()
    ensures empty { EmptyIsNamed }
    ensures bound { BoundIsNamed }
    ensures root { (p : Problem) (w : Weights) → named p [] w ≡ w }
{
    verdicts::splits_are_named();
}

/// A leaf that is bounded stays so where a better best value is found: its sums are the same, and only a comparison
/// changes.
pub fn bounded_leaves()
    ensures { (p : Problem) (ds : List Derived) (sides : List SideOf) (w : Weights) (goal best : Option Rational) →
        IfSome goal (IsNoBetter p best) → NodePasses p goal ds sides (Bound w) → NodePasses p best ds sides (Bound w) }
{}

/// A node that was treated against a best value may stay as a leaf, and may be split for that value.
pub fn treated_nodes()
    ensures leaf { (p : Problem) (ds : List Derived) (sides : List SideOf) (best : Option Rational) →
        IsTreated p ds sides best → IsTreated p ds sides None }
    ensures worthwhile { (p : Problem) (ds : List Derived) (sides : List SideOf) (best : Option Rational) →
        IsTreated p ds sides best → IsWorthwhile p ds best sides }
{}

/// Each operation of the work at a node that does not fit is on site numbers of the node: those of the simplex method, and
/// those of the tests of what it finds.
pub fn faults_are_on_site_numbers()
    ensures { (p : Problem) (ds : List Derived) (sides : List SideOf) (e : NoFit) → IsOverColumns p ds sides →
        AreFormsAscending p ds sides → IsWorkFault p ds sides e → IsSiteFault (node_numbers p ds sides) e }
{}

/// Far out on a face of optimal points that has no end no split is honest: `min 0, x >= 0 whole` has no honest split.
pub fn none_far_out()
    ensures { (s : Split) → ¬ (IsHonestSplit any_whole_x [] [] s) }
{}
