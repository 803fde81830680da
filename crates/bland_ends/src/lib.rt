//! Bland's rule ends: a list of its steps never holds one basis twice, so it is no longer than there are bases.
#![tactic(auto)]

ghost use Rattle.std.specs.Prelude.{List, ◌∷◌, length, AllPairs, ◌≢◌, ◌<◌, ◌^◌};
ghost use Rattle.basis.specs.System.{System, size};
ghost use Rattle.basis.specs.Bland.{IsRun};
ghost use Rattle.basis.specs.declared.Place.{Place};
ghost use Rattle.bland_ends.specs.Steps.{AreSteps};

/// No two bases of a list of steps of Bland's rule are equal, so the steps are fewer than there are bases: each variable
/// has one of four places.
pub fn steps_end()
    ensures never_twice { (s : System) (b : List Place) (before : List (List Place)) → AreSteps s b before →
        AllPairs (λ c d. c ≢ d) (b ∷ before) }
    ensures are_few { (s : System) (b : List Place) (before : List (List Place)) → AreSteps s b before →
        length before < 4 ^ size s }
    ensures runs { (s : System) (b : List Place) (before : List (List Place)) → IsRun s b before →
        length before < 4 ^ size s }
{}
