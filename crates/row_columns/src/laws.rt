// What certificates of problems with columns for forms prove of the problem without them.
ghost use Rattle.std.specs.Prelude.{◌≡◌, ◌++◌, true, List, drop, length, map};
ghost use Rattle.rational.specs.Rational.{Rational};
ghost use Rattle.milp.specs.Form.{Entry, sum_at};
ghost use Rattle.milp.specs.Problem.{Problem};
ghost use Rattle.milp.specs.Points.{Feasible, objective_value};
ghost use Rattle.std.specs.List.{list_all};
ghost use Rattle.verdicts.specs.Certificate.{Certificate};
ghost use Rattle.verdicts.specs.Proves.{is_whole_form, Proves};
ghost use Rattle.partial_certificate.specs.Partial.{Partial};
ghost use Rattle.partial_certificate.specs.Columns.{IsBySplitsOfColumns as IsPartialBySplits};
ghost use Rattle.partial_certificate.specs.Shown.{Passes, Shows};
ghost use Rattle.row_columns.specs.Extended.{IsExtended};
ghost use Rattle.row_columns.specs.Restored.{restored, IsBySplitsOfColumns};
ghost use Rattle.row_columns.specs.Partials.{restored_partial};

use partial_certificate::accepted_partials_show;

/// Where the forms are whole at each feasible point, a certificate by splits of columns that proves its verdict of the problem
/// with columns for the forms proves it of the problem without them, once it is restored.
pub fn restored_prove()
    ensures { (p q : Problem) (forms : List (List Entry)) (c : Certificate) → IsExtended p forms q →
        list_all (is_whole_form p) forms ≡ true → IsBySplitsOfColumns c → Proves q c → Proves p (restored p forms c) }
{}

/// The same of a partial certificate by splits of columns of which all tests hold: those of the restored one hold, so that it shows
/// what it says of the problem without columns for the forms.
pub fn restored_partials_show()
    ensures passes { (p q : Problem) (forms : List (List Entry)) (c : Partial) → IsExtended p forms q →
        list_all (is_whole_form p) forms ≡ true → IsPartialBySplits c → Passes q c → Passes p (restored_partial p forms c) }
    ensures shows { (p q : Problem) (forms : List (List Entry)) (c : Partial) → IsExtended p forms q →
        list_all (is_whole_form p) forms ≡ true → IsPartialBySplits c → Passes q c → Shows p (restored_partial p forms c) }
{
    accepted_partials_show();
}

/// The points of the problem with columns for forms are those of the problem without them, with the values of the forms
/// before their numbers.
pub fn points_extend()
    ensures behind { (p q : Problem) (forms : List (List Entry)) (x : List Rational) → IsExtended p forms q → Feasible q x →
        Feasible p (drop (length forms) x) }
    ensures before { (p q : Problem) (forms : List (List Entry)) (x : List Rational) → IsExtended p forms q →
        list_all (is_whole_form p) forms ≡ true → Feasible p x → Feasible q (map (sum_at x) forms ++ x) }
    ensures value { (p q : Problem) (forms : List (List Entry)) (x : List Rational) → IsExtended p forms q →
        objective_value q x ≡ objective_value p (drop (length forms) x) }
{}
