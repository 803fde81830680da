// How the terms of a form are kept.
ghost use Rattle.std.specs.Prelude.{◌≡◌, IfOk, length, map, slice_get};
ghost use Rattle.std.specs.List.{IsDistinct};
ghost use Rattle.std.specs.Option.{option_map};
ghost use Rattle.gmpl_functions.specs.Linear.{coefficient_of, terms_seen, variable_eq};

use crate::terms::coefficient;
use crate::variable::Variable;
use fraction::Frac;
use indexmap::IndexMap;
use std::alloc::{AllocError, Global};

// One term, which needs no map, or all by their members.
#[derive(Drop)]
pub enum FormTerms {
    One(Variable, Frac),
    Many(IndexMap<Variable, Frac>),
}

impl FormTerms {
    pub(crate) fn len(&self) -> usize
        ensures count { result ≡ length (terms_seen self.now) }
        ensures distinct { IsDistinct variable_eq (map (λ t. t.0) (terms_seen self.now)) }
    {
        match self {
            FormTerms::One(_, _) => 1,
            FormTerms::Many(terms) => terms.len(),
        }
    }

    // The term at a place.
    pub(crate) fn term(&self, place: usize) -> Option<(&Variable, &Frac)>
        ensures { option_map (λ t. (t.0.now, t.1.now)) result ≡ slice_get (terms_seen self.now) place }
    {
        match self {
            FormTerms::One(variable, coefficient) => {
                if place == 0 {
                    Some((variable, coefficient))
                } else {
                    None
                }
            }
            FormTerms::Many(terms) => terms.get_index(place),
        }
    }

    // The coefficient of a member, and 0 where it has none.
    pub(crate) fn coefficient(&self, variable: &Variable) -> Frac
        ensures { result ≡ coefficient_of (terms_seen self.now) variable.now }
    {
        match self {
            FormTerms::One(only, coefficient) => {
                if variable == only {
                    *coefficient
                } else {
                    Frac::zero()
                }
            }
            FormTerms::Many(terms) => coefficient(terms, variable),
        }
    }

    // The same terms by their members.
    pub(crate) fn into_map(self, alloc: Global) -> Result<IndexMap<Variable, Frac>, AllocError>
        ensures { IfOk result (λ made. made.entries ≡ terms_seen self) }
    {
        match self {
            FormTerms::One(variable, coefficient) => {
                let mut terms = IndexMap::new(alloc);
                terms.insert(variable, coefficient)?;
                Ok(terms)
            }
            FormTerms::Many(terms) => Ok(terms),
        }
    }
}
