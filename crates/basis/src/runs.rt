// Steps and runs of Bland's rule.
ghost use Rattle.std.specs.Prelude.{ℕ, List, length, pos, ◌≡◌, ◌≢◌, ◌<◌, ◌≤◌, ◌⊎◌};
ghost use Rattle.rational.specs.Rational.{Rational, ◌+ℚ◌, ◌*ℚ◌};
ghost use Rattle.milp.specs.Form.{value_at};
ghost use Rattle.basis.specs.System.{System, size, Satisfies, IsSystem, AllInside, AreBoundsInOrder};
ghost use Rattle.basis.specs.Dictionary.{IsBasic, IsResting, Dictionary, IsDictionary, rate_of, gain_of, RestsAt, IsBasicPoint};
ghost use Rattle.basis.specs.Bland.{exchanged, IsOutside, MendStep, ImproveStep, IsDirection, IsStart, BlandStep, IsFinal, IsRun, IsOptimalBasis, start_dictionary, start_point};
ghost use Rattle.basis.specs.Relaxation.{IsBlocked, IsUnboundedBasis};
ghost use Rattle.basis.specs.declared.Place.{Place};
ghost use Rattle.basis.specs.declared.Place.TheVariants.{Basic};

/// The dictionary and the point at the start of a run.
pub fn starts()
    ensures dictionary { (s : System) (b : List Place) → IsSystem s → IsStart s b → IsDictionary s b (start_dictionary s) }
    ensures point { (s : System) (b : List Place) → IsSystem s → IsStart s b → IsBasicPoint s b (start_point s) }
{}

/// Each basis of a run has a place for each variable, a dictionary and a point.
pub fn runs_have_dictionaries()
    ensures dictionary { (s : System) (b : List Place) (before : List (List Place)) → IsSystem s → IsRun s b before →
        (d : Dictionary) × IsDictionary s b d }
    ensures point { (s : System) (b : List Place) (before : List (List Place)) → IsSystem s → IsRun s b before →
        (x : ℕ → Rational) × IsBasicPoint s b x }
{}

/// A direction solves the equations of the system, and the objective changes along it by the mover's coefficient.
pub fn directions()
    ensures solves { (s : System) (b : List Place) (d : Dictionary) (q : ℕ) (heading : Rational) (r : ℕ → Rational) →
        IsDictionary s b d → IsDirection b d q heading r → Satisfies s r }
    ensures objective { (s : System) (b : List Place) (d : Dictionary) (q : ℕ) (heading : Rational) (r : ℕ → Rational) →
        IsDictionary s b d → IsDirection b d q heading r → value_at r s.objective ≡ heading *ℚ gain_of d q }
{}

/// What each step exchanges: in the first phase a basic variable for a resting one that changes it; in the second
/// too, or the resting one rests at a place again.
pub fn steps()
    ensures mend { (s : System) (b : List Place) (x : ℕ → Rational) (d : Dictionary) (q v : ℕ) (place : Place) →
        MendStep s b x d q v place → (place ≢ Basic) × IsBasic b v × IsResting b q × ((rate_of d q v).numerator ≢ pos 0) }
    ensures improve { (s : System) (b : List Place) (x : ℕ → Rational) (d : Dictionary) (q v : ℕ) (place : Place) →
        IsDictionary s b d → ImproveStep s b x d q v place →
        (place ≢ Basic) × IsResting b q × ((v ≡ q) ⊎ (IsBasic b v × ((rate_of d q v).numerator ≢ pos 0))) }
{}

/// A step of length t along a direction, after which the leaving variable is at the bound of its place, leads to the
/// point of the next basis.
pub fn points_after_steps()
    ensures { (s : System) (b : List Place) (d : Dictionary) (x : ℕ → Rational) (q v : ℕ) (place : Place)
        (heading t : Rational) (r : ℕ → Rational) → IsDictionary s b d → IsBasicPoint s b x → IsDirection b d q heading r →
        q < length b → v < length b → RestsAt s place v (x v +ℚ t *ℚ r v) →
        IsBasicPoint s (exchanged b q v place) (λ w. x w +ℚ t *ℚ r w) }
{}

/// Where no basic variable is outside its bounds, all variables are inside, resting ones too.
pub fn where_none_is_outside()
    ensures { (s : System) (b : List Place) (x : ℕ → Rational) → AreBoundsInOrder s → length b ≡ size s →
        IsBasicPoint s b x → ((v : ℕ) → ¬ (IsOutside s b x v)) → AllInside s x }
{}

/// Bland's rule leads from a system to one run alone: there is at most one basis to start at, and at most one next basis
/// from each, so two runs with the same number of steps are the same. No run has more steps than one from whose last
/// basis no step leads, and there is at most one such run.
pub fn runs_are_one()
    ensures starts { (s : System) (b c : List Place) → IsStart s b → IsStart s c → b ≡ c }
    ensures steps { (s : System) (b next other : List Place) → BlandStep s b next → BlandStep s b other → next ≡ other }
    ensures runs { (s : System) (b c : List Place) (before others : List (List Place)) → IsRun s b before →
        IsRun s c others → length before ≡ length others → (b ≡ c) × (before ≡ others) }
    ensures longest { (s : System) (b c : List Place) (before others : List (List Place)) → IsRun s b before →
        IsFinal s b → IsRun s c others → length others ≤ length before }
    ensures ends { (s : System) (b c : List Place) (before others : List (List Place)) → IsRun s b before →
        IsFinal s b → IsRun s c others → IsFinal s c → (b ≡ c) × (before ≡ others) }
{}

/// From a basis at which the simplex method ends no step of Bland's rule leads on: neither from an optimal basis, nor
/// from one at which the row of the least variable outside its bounds is blocked, nor from one from which the least
/// variable that improves moves without end.
pub fn ends_are_final()
    ensures optimal { (s : System) (b : List Place) (d : Dictionary) (x : ℕ → Rational) → IsOptimalBasis s b d x → IsFinal s b }
    ensures blocked { (s : System) (b : List Place) (d : Dictionary) (x : ℕ → Rational) (r : ℕ) (place : Place) →
        IsBlocked s b d x r place → IsFinal s b }
    ensures unbounded { (s : System) (b : List Place) (d : Dictionary) (x : ℕ → Rational) (q : ℕ) (direction : ℕ → Rational) →
        IsUnboundedBasis s b d x q direction → IsFinal s b }
{}
