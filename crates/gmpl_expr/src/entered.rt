// What an entry of an indexing expression gives, with a set that is looked at.
ghost use Rattle.std.specs.Prelude.{◌≡◌, Ok, None, Some, List, Option};
ghost use Rattle.gmpl_value.specs.declared.symbol.Symbol.{Symbol as AnySymbol};
ghost use Rattle.gmpl_value.specs.Sets.{Elements as Set};
ghost use Rattle.gmpl_value.specs.Outcome.{GivesAs, Outcome, then_do};
ghost use Rattle.gmpl_expr.specs.Shared.{entered, given};

use gmpl_value::{EvalFault, SetValue, Symbol};
use sqlite_items::Items;
use std::rc::Rc;

/// What an entry of an indexing expression gives, its set shared.
#[derive(Drop)]
pub(crate) struct Entered {
    /// What each component of an element must equal, and nothing of a new index; none where the entry has no index.
    pub(crate) pattern: Option<Items<Option<Symbol>>>,
    pub(crate) set: Rc<SetValue>,
}

/// What an entry without an index gives, its set handed as it was evaluated.
pub(crate) fn without_index(set: Result<Rc<SetValue>, EvalFault>) -> Result<Entered, EvalFault>
    ensures { (answer : Outcome Set) → GivesAs (λ set. set.value) set answer → GivesAs entered result (then_do (λ s. Ok (given None s)) answer) }
{
    match set {
        Ok(set) => Ok(Entered { pattern: None, set }),
        Err(fault) => Err(fault),
    }
}

/// What an entry with this pattern gives, its set handed as it was evaluated.
pub(crate) fn with_index(
    pattern: Items<Option<Symbol>>,
    set: Result<Rc<SetValue>, EvalFault>,
) -> Result<Entered, EvalFault>
    ensures { (answer : Outcome Set) → GivesAs (λ set. set.value) set answer → GivesAs entered result (then_do (λ s. Ok (given (Some pattern) s)) answer) }
{
    match set {
        Ok(set) => Ok(Entered {
            pattern: Some(pattern),
            set,
        }),
        Err(fault) => Err(fault),
    }
}
