// Symbols.
ghost use Rattle.std.specs.Prelude.{◌≡◌, IfOk, fold};
ghost use Rattle.gmpl_value.specs.SymbolFed.{number_fed};
ghost use Rattle.gmpl_value.specs.SymbolOrder.{symbol_order};
ghost use Rattle.gmpl_value.specs.declared.symbol.Symbol.TheVariants.{Number, Word};

use fraction::Frac;
use gmpl_text::Text;
use std::alloc::{AllocError, Global};
use std::cmp::Ordering;
use std::hash::{Hash, Hasher};

/// A number or a string. A number and a string are never equal.
#[derive(PartialEq, Eq, Drop)]
pub enum Symbol {
    Number(Frac),
    Word(Text),
}

impl Symbol {
    /// The same symbol again.
    pub fn copied(&self, alloc: Global) -> Result<Symbol, AllocError>
        ensures { IfOk result (λ made. made ≡ self.now) }
    {
        match self {
            Symbol::Number(number) => Ok(Symbol::Number(*number)),
            Symbol::Word(text) => Ok(Symbol::Word(text.copied(alloc)?)),
        }
    }

    /// The order of symbols: numbers by their value, then strings by their bytes.
    pub fn order(&self, other: &Symbol) -> Ordering
        ensures { result ≡ symbol_order self.now other.now }
    {
        match self {
            Symbol::Number(number) => number_order(*number, other),
            Symbol::Word(text) => word_order(text, other),
        }
    }
}

impl Hash for Symbol {
    ghost use Rattle.gmpl_value.specs.SymbolFed.{fed_of, fed_alike};

    ghost hash_input = { fed_of };

    ghost respects_eq = { fed_alike };

    fn hash<H: Hasher>(&self, state: &mut H) {
        match self {
            Symbol::Number(number) => hash_number(*number, state),
            Symbol::Word(text) => text.hash(state),
        }
    }
}

// The least and the greatest whole number of 64 bits.
const LEAST_WORD: i128 = i64::MIN as i128;

const GREATEST_WORD: i128 = i64::MAX as i128;

// One write of eight bytes for a whole number of 64 bits.
fn hash_number<H: Hasher>(number: Frac, state: &mut H)
    ensures { state.new ≡ fold H.write state.old (number_fed number) }
{
    let (numerator, denominator) = number.parts();
    if denominator == 1 && LEAST_WORD <= numerator && numerator <= GREATEST_WORD {
        state.write_i64(numerator as i64);
    } else {
        state.write_i128(numerator);
        state.write_u128(denominator as u128);
    }
}

fn number_order(number: Frac, other: &Symbol) -> Ordering
    ensures { result ≡ symbol_order (Number number) other.now }
{
    match other {
        Symbol::Number(other) => number.cmp(other),
        Symbol::Word(_) => Ordering::Less,
    }
}

fn word_order(text: &Text, other: &Symbol) -> Ordering
    ensures { result ≡ symbol_order (Word text.now) other.now }
{
    match other {
        Symbol::Number(_) => Ordering::Greater,
        Symbol::Word(other) => text.as_str().cmp(other.as_str()),
    }
}
