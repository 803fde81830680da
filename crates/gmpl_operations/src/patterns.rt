// An element and the components of an index.
ghost use Rattle.std.specs.Prelude.{◌≡◌, ◌∷◌, IfOk};
ghost use Rattle.gmpl_operations.specs.Patterns as spec;

use gmpl_value::{Symbol, Tuple};
use sqlite_items::Items;
use std::alloc::{AllocError, Global};

/// The components of an element that the new indices take, behind those found; none where another component differs from what
/// it must equal.
#[cycle(patterns)]
pub fn bound(
    alloc: Global,
    found: Tuple,
    pattern: &[Option<Symbol>],
    symbols: &[Symbol],
) -> Result<Option<Tuple>, AllocError>
    ensures { IfOk result (λ made. made ≡ spec.bound found pattern.now symbols.now) }
{
    match pattern {
        [] => Ok(if symbols.is_empty() {
            Some(found)
        } else {
            None
        }),
        [part, parts @ ..] => match symbols {
            [] => Ok(None),
            [symbol, others @ ..] => component(alloc, found, part, parts, symbol, others),
        },
    }
}

#[cycle(patterns)]
fn component(
    alloc: Global,
    found: Tuple,
    part: &Option<Symbol>,
    parts: &[Option<Symbol>],
    symbol: &Symbol,
    others: &[Symbol],
) -> Result<Option<Tuple>, AllocError>
    ensures { IfOk result (λ made. made ≡ spec.bound found (part.now ∷ parts.now) (symbol.now ∷ others.now)) }
{
    match part {
        None => {
            let mut found = found;
            found.push(symbol.copied(alloc)?)?;
            bound(alloc, found, parts, others)
        }
        Some(value) => {
            if value == symbol {
                bound(alloc, found, parts, others)
            } else {
                Ok(None)
            }
        }
    }
}

/// The components of an element that the new indices of an entry take, or none where it doesn't match.
pub fn matched(
    alloc: Global,
    pattern: &Option<Items<Option<Symbol>>>,
    tuple: &Tuple,
) -> Result<Option<Tuple>, AllocError>
    ensures { IfOk result (λ made. made ≡ spec.matched pattern.now tuple.now) }
{
    match pattern {
        None => Ok(Some(Tuple::new(alloc))),
        Some(parts) => bound(alloc, Tuple::new(alloc), parts.as_slice(), tuple.symbols()),
    }
}
