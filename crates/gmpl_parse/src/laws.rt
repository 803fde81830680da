// Laws of what is read.
ghost use Rattle.std.specs.Prelude.{◌≡◌};
ghost use Rattle.gmpl_syntax.specs.declared.statement.Statements.{Statements};
ghost use Rattle.gmpl_parse.specs.Models.{fault_of, model_of, or_else, own_of_kinds, own_of_names};

/// The first bad statement is the one that the third pass finds, else the one of the second, else the one of the first. Each
/// pass goes over what stands before the bad one of the pass before it.
#[tactic(auto, using(crate::proofs::FirstFaults::first_bad))]
pub fn first_bad_statement_decides()
    ensures { (found : Statements) → fault_of (model_of found) ≡ or_else (own_of_kinds found) (or_else (own_of_names found) found.fault) }
{}
