// What partial certificates show.
ghost use Rattle.std.specs.Prelude.{◌≡◌};
ghost use Rattle.milp.specs.Problem.{Problem};
ghost use Rattle.cert_check.specs.Outcome.{Acceptance, outcome};
ghost use Rattle.partial_certificate.specs.Partial.{Partial};
ghost use Rattle.partial_certificate.specs.Outcome.{trials};
ghost use Rattle.partial_certificate.specs.Shown.{Passes, Shows};

/// A partial certificate that the check accepts passes all tests, and one that does shows what it says.
pub fn accepted_partials_show()
    ensures passes { (p : Problem) (c : Partial) → outcome (trials p c) ≡ Acceptance → Passes p c }
    ensures shows { (p : Problem) (c : Partial) → Passes p c → Shows p c }
    ensures accepted { (p : Problem) (c : Partial) → outcome (trials p c) ≡ Acceptance → Shows p c }
{}
