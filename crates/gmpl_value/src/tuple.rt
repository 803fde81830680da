// Tuples of symbols.
ghost use Rattle.std.specs.Prelude.{◌≡◌, ◌++◌, ◌∷◌, [], IfOk, OnOk, length};

use crate::symbol::Symbol;
use std::alloc::{AllocError, Global};
use std::hash::{Hash, Hasher};
use std::marker::Model;

/// A list of symbols.
#[derive(Drop)]
pub struct Tuple {
    items: Vec<Symbol>,
}

impl Model for Tuple {
    ghost use Rattle.std.specs.Prelude.{List};
    ghost use Rattle.gmpl_value.specs.declared.symbol.Symbol.{Symbol};

    ghost Value = { List Symbol };

    ghost view = { λ t. t.items.items };
}

impl Tuple {
    /// The tuple without a symbol.
    pub fn new(alloc: Global) -> Tuple
        ensures { result ≡ [] }
    {
        Tuple {
            items: Vec::new(alloc),
        }
    }

    /// The tuple without a symbol, with room for so many.
    pub fn with_capacity(alloc: Global, count: usize) -> Result<Tuple, AllocError>
        ensures { IfOk result (λ made. made ≡ []) }
    {
        let items = Vec::with_capacity(alloc, count)?;
        Ok(Tuple { items })
    }

    /// The tuple of one symbol.
    pub fn single(alloc: Global, symbol: Symbol) -> Result<Tuple, AllocError>
        ensures { IfOk result (λ made. made ≡ symbol ∷ []) }
    {
        let mut tuple = Tuple::with_capacity(alloc, 1)?;
        tuple.push(symbol)?;
        Ok(tuple)
    }

    /// The symbols in order.
    pub fn symbols(&self) -> &[Symbol]
        ensures { result.now ≡ self.now }
    {
        &self.items
    }

    /// The number of symbols.
    pub fn len(&self) -> usize
        ensures { result ≡ length self.now }
    {
        self.items.len()
    }

    /// One more symbol at the end.
    pub fn push(&mut self, symbol: Symbol) -> Result<(), AllocError>
        ensures ok { OnOk result (self.new ≡ self.old ++ symbol ∷ []) }
    {
        self.items.push(symbol)?;
        Ok(())
    }

    /// The same tuple again.
    pub fn copied(&self, alloc: Global) -> Result<Tuple, AllocError>
        ensures { IfOk result (λ made. made ≡ self.now) }
    {
        let mut items = Vec::with_capacity(alloc, self.items.len())?;
        push_all(alloc, &mut items, &self.items)?;
        Ok(Tuple { items })
    }

    /// These symbols and then those.
    pub fn joined(&self, alloc: Global, other: &Tuple) -> Result<Tuple, AllocError>
        ensures { IfOk result (λ made. made ≡ self.now ++ other.now) }
    {
        let mut items = Vec::with_capacity(alloc, self.items.len() + other.items.len())?;
        push_all(alloc, &mut items, &self.items)?;
        push_all(alloc, &mut items, &other.items)?;
        Ok(Tuple { items })
    }
}

impl PartialEq for Tuple {
    ghost use Rattle.gmpl_value.specs.SymbolEquality.{tuple_eq};
    ghost use Rattle.gmpl_value.specs.contracts.symbol.SymbolEq.TheImpl.Laws.{laws-law};
    ghost use Rattle.std.specs.Cmp.Rules.{comparing};
    ghost use Rattle.std.proofs.Common.{rules};

    ghost eq = { tuple_eq };

    ghost laws = { Prim.search (comparing, rules, laws-law) };

    fn eq(&self, other: &Tuple) -> bool {
        self.items == other.items
    }
}

impl Eq for Tuple {
    ghost use Rattle.gmpl_value.specs.contracts.symbol.SymbolEq.TheImpl.Laws.{laws-law};
    ghost use Rattle.std.specs.Cmp.Rules.{comparing};
    ghost use Rattle.std.proofs.Common.{rules};

    ghost laws = { Prim.search (comparing, rules, laws-law) };
}

impl Hash for Tuple {
    ghost use Rattle.std.specs.Hash as fed;
    ghost use Rattle.gmpl_value.specs.SymbolEquality.{symbol_fed, symbols_alike};

    ghost hash_input = { fed.slice symbol_fed };

    ghost respects_eq = { λ x y same. (fed.items_Alike symbols_alike).fed x y same };

    fn hash<H: Hasher>(&self, state: &mut H) {
        self.items.hash(state);
    }
}

fn push_all(alloc: Global, items: &mut Vec<Symbol>, symbols: &[Symbol]) -> Result<(), AllocError>
    ensures { OnOk result (items.new.items ≡ items.old.items ++ symbols.now) }
{
    for symbol in symbols {
        items.push(symbol.copied(alloc)?)?;
    }
    Ok(())
}
