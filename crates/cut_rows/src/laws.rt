// What a problem with cuts as rows, and certificates of it, say of the problem without them.
ghost use Rattle.std.specs.Prelude.{◌≡◌, true, List, [], length};
ghost use Rattle.std.specs.List.{list_all};
ghost use Rattle.rational.specs.Rational.{Rational};
ghost use Rattle.milp.specs.Problem.{Problem};
ghost use Rattle.milp.specs.Points.{Feasible, objective_value};
ghost use Rattle.verdicts.specs.Certificate.{Derived, Certificate};
ghost use Rattle.verdicts.specs.Proves.{in_range, derived_passes, Proves};
ghost use Rattle.partial_certificate.specs.Partial.{Partial};
ghost use Rattle.partial_certificate.specs.Shown.{Passes, Shows};
ghost use Rattle.cut_rows.specs.CutProblem.{IsCutProblem};
ghost use Rattle.cut_rows.specs.Restored.{restored, IsByRows, AreShown};
ghost use Rattle.cut_rows.specs.Partials.{restored_partial};

use partial_certificate::accepted_partials_show;

/// A certificate by rows that proves its verdict of the problem with cuts proves it of the problem without them, once it is
/// restored, where the cuts are shown.
pub fn restored_prove()
    ensures { (p q : Problem) (cuts : List Derived) (c : Certificate) → IsCutProblem p cuts q → AreShown p cuts →
        IsByRows c → Proves q c → Proves p (restored p cuts c) }
{}

/// The same of a partial certificate without derived rows of which all tests hold: those of the restored one hold, so that it shows
/// what it says of the problem without cuts as rows.
pub fn restored_partials_show()
    ensures passes { (p q : Problem) (cuts : List Derived) (c : Partial) → IsCutProblem p cuts q → AreShown p cuts →
        c.derived ≡ [] → Passes q c → Passes p (restored_partial p cuts c) }
    ensures shows { (p q : Problem) (cuts : List Derived) (c : Partial) → IsCutProblem p cuts q → AreShown p cuts →
        c.derived ≡ [] → Passes q c → Shows p (restored_partial p cuts c) }
{
    accepted_partials_show();
}

/// A point that is feasible with the cuts is so without them; where the cuts are shown, no feasible point is lost; and each
/// point has the same value.
pub fn cuts_keep_points()
    ensures without { (p q : Problem) (cuts : List Derived) (x : List Rational) → IsCutProblem p cuts q → Feasible q x →
        Feasible p x }
    ensures with { (p q : Problem) (cuts : List Derived) (x : List Rational) → IsCutProblem p cuts q → AreShown p cuts →
        Feasible p x → Feasible q x }
    ensures value { (p q : Problem) (cuts : List Derived) (x : List Rational) → IsCutProblem p cuts q →
        objective_value q x ≡ objective_value p x }
{}

/// Cuts that pass whatever derived rows stand before them are shown; and cuts that are shown are over the problem's columns.
pub fn passing_cuts_are_shown()
    ensures shown { (p : Problem) (cuts : List Derived) →
        ((before : List Derived) → list_all (derived_passes p before) cuts ≡ true) → AreShown p cuts }
    ensures over_columns { (p : Problem) (cuts : List Derived) → AreShown p cuts →
        list_all (λ (d : Derived). in_range (length p.columns) d.form) cuts ≡ true }
{}
