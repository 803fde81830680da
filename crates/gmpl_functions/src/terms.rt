// The terms of forms: members with their coefficients.
ghost use Rattle.std.specs.Prelude.{◌≡◌};
ghost use Rattle.std.specs.Option.{unwrap_or};
ghost use Rattle.gmpl_value.specs.Outcome.{Follows, Gives};
ghost use Rattle.gmpl_functions.specs.Linear.{Terms, coefficient_of};
ghost use Rattle.gmpl_functions.specs.Scalings.{value_at, with_value_at};
ghost use Rattle.gmpl_functions.specs.Sums.{operation, put};

use crate::variable::Variable;
use crate::words::{difference, sum};
use fraction::Frac;
use gmpl_value::EvalFault;
use indexmap::IndexMap;
use std::alloc::Global;

/// Whether a form is added or taken off.
#[derive(Clone, Copy)]
pub enum Sign {
    Plus,
    Minus,
}

impl Sign {
    // a + b or a - b.
    pub(crate) fn applied(self, a: Frac, b: Frac) -> Result<Frac, EvalFault>
        ensures { Gives result (operation self a b) }
    {
        match self {
            Sign::Plus => Ok(sum(a, b)?),
            Sign::Minus => Ok(difference(a, b)?),
        }
    }
}

// The coefficient of a member, and 0 where it has none.
pub(crate) fn coefficient(terms: &IndexMap<Variable, Frac>, variable: &Variable) -> Frac
    ensures { result ≡ coefficient_of terms.now.entries variable.now }
{
    match terms.get(variable) {
        Some(coefficient) => *coefficient,
        None => Frac::zero(),
    }
}

// The coefficient at a place, and 0 past the end.
pub(crate) fn coefficient_at(terms: &IndexMap<Variable, Frac>, place: usize) -> Frac
    ensures { result ≡ value_at terms.now.entries place }
{
    match terms.get_index(place) {
        Some((_, coefficient)) => *coefficient,
        None => Frac::zero(),
    }
}

pub(crate) fn set_coefficient(terms: &mut IndexMap<Variable, Frac>, place: usize, coefficient: Frac)
    ensures { terms.new.entries ≡ with_value_at terms.old.entries place coefficient }
{
    if let Some(slot) = terms.get_index_mut(place) {
        *slot = coefficient;
    }
}

// A member's coefficient with another added or taken off; a new member stands at the end. It is looked up once.
pub(crate) fn put(
    alloc: Global,
    terms: &mut IndexMap<Variable, Frac>,
    sign: Sign,
    variable: &Variable,
    change: Frac,
) -> Result<(), EvalFault>
    ensures { Follows result terms.new.entries (put sign terms.old.entries variable.now change) }
{
    let (place, before) = terms.insert_full(variable.copied(alloc)?, change)?;
    let after = sign.applied(before.unwrap_or(Frac::zero()), change)?;
    set_coefficient(terms, place, after);
    Ok(())
}
