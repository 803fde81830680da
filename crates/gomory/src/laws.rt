// What holds of each cut.
ghost use Rattle.std.specs.Prelude.{ℕ, List, [], ◌≡◌, true};
ghost use Rattle.rational.specs.Rational.{Rational, one_ℚ, ◌-ℚ◌};
ghost use Rattle.milp.specs.Form.{value_at};
ghost use Rattle.milp.specs.Problem.{Problem};
ghost use Rattle.verdicts.specs.Certificate.{Derived};
ghost use Rattle.verdicts.specs.Proves.{derived_passes};
ghost use Rattle.basis.specs.Node.{IsOverColumns};
ghost use Rattle.basis.specs.declared.Place.{Place};
ghost use Rattle.gomory.specs.Cuts.{IsRowOfBasis, HasCut, IsGomoryCut, IsRootCut};

/// A Gomory cut passes the checker's test of a derived row, whatever derived rows stand before it, and at the basic point its
/// form is 1 less than its bound.
pub fn cuts_pass()
    ensures passes { (p : Problem) (b : List Place) (rates x : ℕ → Rational) (r : ℕ) (c : Derived) (before : List Derived) →
        IsOverColumns p [] [] → IsRowOfBasis p b rates x r → HasCut p b rates x r → IsGomoryCut p b rates x r c →
        derived_passes p before c ≡ true }
    ensures violated { (p : Problem) (b : List Place) (rates x : ℕ → Rational) (r : ℕ) (c : Derived) →
        IsOverColumns p [] [] → IsRowOfBasis p b rates x r → HasCut p b rates x r → IsGomoryCut p b rates x r c →
        value_at x c.form ≡ c.bound -ℚ one_ℚ }
{}

/// So does each cut of a search.
pub fn root_cuts_pass()
    ensures { (p : Problem) (c : Derived) (before : List Derived) → IsOverColumns p [] [] → IsRootCut p c →
        derived_passes p before c ≡ true }
{}
