//! Certificates of verdicts on mixed-integer linear programs, and what they prove.
#![tactic(auto)]

ghost use Rattle.std.specs.Prelude.{ℕ, length, Bool, IsTrue, List, [], ◌∷◌, Option, Some, slice_get, ◌≡◌, ◌<◌, ◌↔◌, ◌⊎◌, true};
ghost use Rattle.rational.specs.Rational.{Rational, neg_ℚ, zero_ℚ, ◌≤ℚ◌, ◌<ℚ◌, ◌*ℚ◌};
ghost use Rattle.rational.specs.Compare.{is_less};
ghost use Rattle.verdicts.specs.WeightedSums.{Weighted, scaled, combined, combined_bound};
ghost use Rattle.milp.specs.Problem.{Problem};
ghost use Rattle.milp.specs.Points.{Relaxed, Feasible, IsUnbounded, IsImprovingRay, IsBetter, objective_value, sign_of};
ghost use Rattle.milp.specs.Form.{sum_at};
ghost use Rattle.verdicts.specs.Rays.{moved};
ghost use Rattle.verdicts.specs.Certificate.{Version, One, Two, Item, Derived, Split, Side, Low, High, Weights, Empty, Bound, Certificate};
ghost use Rattle.verdicts.specs.Migrated.{named, Each, InRank, Rising, Keeps, TermKeeps, migrated};
ghost use Rattle.verdicts.specs.SplitRows.{node_rows, written};
ghost use Rattle.verdicts.specs.Proves.{refutes, bound_passes, terms, split_term, InsideBounds, TakesSide, TakesAll, MeetsDerived, AllDerived, is_whole_form, derived_passes, node_passes, Proves, Holds, meets, is_improving_ray};

/// The tests of a point and of a ray are what they stand for.
pub fn tests_are_exact()
    ensures point { (p : Problem) (x : List Rational) → (meets p x ≡ true) ↔ Feasible p x }
    ensures ray { (p : Problem) (r : List Rational) → (is_improving_ray p r ≡ true) ↔ IsImprovingRay p r }
{}

/// A sum of weights bounds its form at each relaxed point that is inside the bounds that the
/// weights use and meets the derived rows.
pub fn sums_are_bounds()
    ensures { (p : Problem) (ds : List Derived) (narrowed taken : List Side) (w : Weights)
        (x : List Rational) (ts : List Weighted) → Relaxed p x → InsideBounds p narrowed x → TakesAll x taken →
        AllDerived x ds → terms p ds narrowed taken w ≡ Some ts → combined_bound ts ≤ℚ sum_at x (combined ts) }
{}

/// No feasible point is lost on the way to a leaf: it is on one side of each split of a whole form, and a point on all sides
/// taken is inside the bounds that they narrow.
pub fn points_go_down()
    ensures bounds { (p : Problem) (taken : List Side) (x : List Rational) → Relaxed p x → TakesAll x taken →
        InsideBounds p taken x }
    ensures sides { (p : Problem) (s : Split) (x : List Rational) → Feasible p x → is_whole_form p s.form ≡ true →
        TakesSide x (Low s) ⊎ TakesSide x (High s) }
{}

/// What the tests of a derived row and of a leaf show: the row holds at each feasible point; no relaxed point of the leaf
/// is there, or none is better than the value; and where weights bound the objective at the root, no ray improves it.
pub fn tests_show()
    ensures derived { (p : Problem) (before : List Derived) (d : Derived) (x : List Rational) →
        derived_passes p before d ≡ true → Feasible p x → AllDerived x before → MeetsDerived x d }
    ensures empty { (p : Problem) (v : Version) (goal : Option Rational) (ds : List Derived) (sides : List Side) (w : Weights)
        (x : List Rational) → node_passes p v goal ds sides (Empty w) ≡ true → Relaxed p x → TakesAll x sides →
        AllDerived x ds → ⊥ }
    ensures bound { (p : Problem) (v : Version) (goal : Rational) (ds : List Derived) (sides : List Side) (w : Weights)
        (x : List Rational) → node_passes p v (Some goal) ds sides (Bound w) ≡ true → Relaxed p x → TakesAll x sides →
        AllDerived x ds → sign_of p.direction *ℚ goal ≤ℚ sign_of p.direction *ℚ objective_value p x }
    ensures no_ray { (p : Problem) (v : Version) (goal : Rational) (w : Weights) (r : List Rational) →
        node_passes p v (Some goal) [] [] (Bound w) ≡ true → ¬ (IsImprovingRay p r) }
{}

/// A certificate that proves its verdict is right.
pub fn certificates_are_right()
    ensures { (p : Problem) (c : Certificate) → Proves p c → Holds p c c.verdict }
{}

/// A certificate of version 1 that proves its verdict proves the same as one of version 2.
pub fn migrations_prove()
    ensures { (p : Problem) (c : Certificate) → c.version ≡ One → Proves p c → Proves p (migrated p c) }
{}

/// Weights that name splits, in place of weights of the columns that these narrow, have the same sums at a node; they use no
/// other numbers than those given and their negatives; each split has at most one, in order of the splits, and above 0.
pub fn splits_are_named()
    ensures sums { (p : Problem) (ds : List Derived) (sides taken : List Side) (w : Weights) →
        ((i : Item) → TermKeeps (split_term taken i) (split_term sides i)) →
        Keeps (terms p ds sides taken w) (terms p ds [] sides (named p sides w)) }
    ensures numbers { (F : Rational → Bool) (p : Problem) (sides : List Side) (w : Weights) →
        ((v : Rational) → IsTrue (F v) → IsTrue (F (neg_ℚ v))) → Each (λ i. IsTrue (F i.weight)) w.columns →
        Each (λ i. IsTrue (F i.weight)) w.splits → Each (λ i. IsTrue (F i.weight)) (named p sides w).columns ×
        Each (λ i. IsTrue (F i.weight)) (named p sides w).splits }
    ensures positive { (p : Problem) (sides : List Side) (w : Weights) → Each (λ i. is_less zero_ℚ i.weight ≡ true) w.splits →
        Each (λ i. is_less zero_ℚ i.weight ≡ true) (named p sides w).splits }
    ensures rising { (p : Problem) (sides : List Side) (w : Weights) → w.splits ≡ [] → InRank 0 w.columns →
        Rising 0 (named p sides w).splits }
    ensures ranks { (p : Problem) (sides : List Side) (w : Weights) → InRank 0 w.columns →
        InRank 0 (named p sides w).columns }
{}

/// Weights at a node whose splits narrow columns or are rows behind the derived ones have the same sums as the weights
/// that are written of them, which name the splits, so that these pass the test of a leaf where those do; and a point on
/// all sides taken meets those rows.
pub fn nodes_are_written()
    ensures sums { (p : Problem) (ds : List Derived) (sides : List Side) (w : Weights) → w.splits ≡ [] →
        Keeps (terms p (node_rows ds sides) sides [] w) (terms p ds [] sides (written p ds sides w)) }
    ensures empty { (p : Problem) (goal : Option Rational) (ds : List Derived) (sides : List Side) (w : Weights) →
        w.splits ≡ [] → refutes (length p.columns) (terms p (node_rows ds sides) sides [] w) ≡ true →
        node_passes p Two goal ds sides (Empty (written p ds sides w)) ≡ true }
    ensures bound { (p : Problem) (goal : Option Rational) (ds : List Derived) (sides : List Side) (w : Weights) →
        w.splits ≡ [] → bound_passes p goal (terms p (node_rows ds sides) sides [] w) ≡ true →
        node_passes p Two goal ds sides (Bound (written p ds sides w)) ≡ true }
    ensures positive { (p : Problem) (ds : List Derived) (sides : List Side) (w : Weights) →
        Each (λ i. is_less zero_ℚ i.weight ≡ true) w.derived →
        Each (λ i. is_less zero_ℚ i.weight ≡ true) (written p ds sides w).splits }
    ensures rising { (p : Problem) (ds : List Derived) (sides : List Side) (w : Weights) → InRank 0 w.columns →
        Rising 0 w.derived → Rising 0 (written p ds sides w).splits }
    ensures rows { (x : List Rational) (ds : List Derived) (sides : List Side) → TakesAll x sides → AllDerived x ds →
        AllDerived x (node_rows ds sides) }
{}

/// Steps along an improving ray stay feasible, and longer ones are better.
pub fn rays_lead_on()
    ensures feasible { (p : Problem) (x r : List Rational) → IsUnbounded p x r →
        (t : ℕ) → Feasible p (moved x t r) }
    ensures better { (p : Problem) (x r : List Rational) → IsUnbounded p x r →
        (t u : ℕ) → t < u → IsBetter p (moved x u r) (moved x t r) }
{}
