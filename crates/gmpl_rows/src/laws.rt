// Laws of drafts.
ghost use Rattle.std.specs.Prelude.{◌≡◌, ◌<◌, ◌==◌, ℕ, List, Ok, cond, false, length, map, true};
ghost use Rattle.rational.specs.Rational.{Rational};
ghost use Rattle.milp.specs.declared.Direction.{Direction};
ghost use Rattle.gmpl_value.specs.declared.symbol.Symbol.{Symbol};
ghost use Rattle.gmpl_rows.specs.Draft.{Draft, is_new, no_rows, with_row, with_objective};
ghost use Rattle.gmpl_rows.specs.Problem.{column_bounds, column_members, column_name, column_named, named_among, own_bounds, problem_of, row_members, row_name};
ghost use Rattle.gmpl_rows.specs.Terms.{IsDraft, coefficient_at, coefficient_in};
ghost use Rattle.gmpl_rows.specs.declared.declared.Declared.{Declared};
ghost use Rattle.gmpl_rows.specs.declared.draft.RowHead.{RowHead};
ghost use Rattle.gmpl_rows.specs.declared.term.Term.{Term};

/// A new row has for each member the coefficient of its terms, where it is not 0, and nothing else; the rows before it stay as they
/// are. A member that is a row already makes none. A row's entries are these coefficients, by column.
#[tactic(auto, using(crate::proofs::RowTerms::start, crate::proofs::RowTerms::row_kept, crate::proofs::RowTerms::row_again, crate::proofs::RowTerms::aimed, crate::proofs::RowTerms::row_terms))]
pub fn rows_have_their_terms()
    ensures start { (objects : List Declared) → IsDraft (no_rows objects) }
    ensures row { (head : RowHead) (terms : List Term) (d e : Draft) → with_row head terms d ≡ Ok e → IsDraft d → IsDraft e }
    ensures again { (head : RowHead) (terms : List Term) (d : Draft) → is_new head d ≡ false → with_row head terms d ≡ Ok d }
    ensures objective { (direction : Direction) (constant : Rational) (d : Draft) → IsDraft d → IsDraft (with_objective direction constant d) }
    ensures terms { (head : RowHead) (terms : List Term) (d e : Draft) (i s : ℕ) (m : List Symbol) → is_new head d ≡ true → with_row head terms d ≡ Ok e → IsDraft d → s < length d.variables
        → coefficient_at i s m e.variables ≡ cond (i == length d.rows) (coefficient_in s m terms) (coefficient_at i s m d.variables) }
{}

/// Each column and each row of the problem comes from a member, whose name it has: so they are as many. A column's own bounds are
/// those that its member has.
pub fn columns_have_members()
    ensures columns { (d : Draft) → map column_name (problem_of d).columns ≡ map (column_named d.objects) (column_members d) }
    ensures bounds { (d : Draft) → map column_bounds (problem_of d).columns ≡ map own_bounds (column_members d) }
    ensures rows { (d : Draft) → map row_name (problem_of d).rows ≡ map (named_among d.objects) (row_members d) }
    ensures column_count { (d : Draft) → length (problem_of d).columns ≡ length (column_members d) }
    ensures row_count { (d : Draft) → length (problem_of d).rows ≡ length (row_members d) }
{}
