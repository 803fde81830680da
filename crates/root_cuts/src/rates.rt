// How much a basic variable changes with the others.
ghost use Rattle.std.specs.Prelude.{◌≡◌, ◌<◌, length, IfOk};
ghost use Rattle.basis.specs.Dictionary.{IsBasic};
ghost use Rattle.basis.specs.Weights.{numbers_from};
ghost use Rattle.dictionary.specs.Table.{dictionary_of};
ghost use Rattle.root_cuts.specs.RootBasis.{rate_at};

use fraction::Frac;
use simplex::Dictionary;
use std::alloc::{AllocError, Global};

// How much r changes with one variable; 0 where that one is basic.
fn rate_at(dictionary: &Dictionary, r: usize, v: usize) -> Frac
    requires basic { IsBasic dictionary.now.places r }
    requires known { v < length dictionary.now.places }
    ensures { result ≡ rate_at dictionary.now.places (dictionary_of dictionary.now) r v }
{
    if dictionary.is_basic(v) {
        Frac::zero()
    } else {
        dictionary.rate(v, r)
    }
}

/// How much r changes with each variable.
pub(crate) fn rates_of(
    alloc: Global,
    dictionary: &Dictionary,
    r: usize,
) -> Result<Vec<Frac>, AllocError>
    requires { IsBasic dictionary.now.places r }
    ensures { IfOk result (λ rates. rates.items ≡ numbers_from 0 (length dictionary.now.places) (rate_at dictionary.now.places (dictionary_of dictionary.now) r)) }
{
    let mut rates = Vec::new(alloc);
    for v in 0..dictionary.places().len() {
        rates.push(rate_at(dictionary, r, v))?;
    }
    Ok(rates)
}
