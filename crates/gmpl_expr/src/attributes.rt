// Attributes of statements, and what they ask of values.
ghost use Rattle.std.specs.Prelude.{◌≡◌, Ok};
ghost use Rattle.std.specs.Option.{option_copied};
ghost use Rattle.rational.specs.Rational.{Rational};
ghost use Rattle.gmpl_value.specs.Outcome.{Gives, Outcome, then_do};
ghost use Rattle.gmpl_meaning.specs.declared.bounds.Bounds.{Bounds as AnyBounds};
ghost use Rattle.gmpl_meaning.specs.Restrictions as spec;

use fraction::Frac;
use gmpl_functions::{greater, lesser};
use gmpl_meaning::Bounds;
use gmpl_operations::Value;
use gmpl_resolved::{Attribute, Expr};
use gmpl_syntax::Relation;
use gmpl_value::{EvalFault, Symbol};

fn is_symbolic_by(attribute: &Attribute) -> bool
    ensures { result ≡ spec.is_symbolic_by attribute.now }
{
    match attribute {
        Attribute::Symbolic => true,
        _ => false,
    }
}

/// Whether a parameter holds symbols.
pub(crate) fn is_symbolic(attributes: &[Attribute]) -> bool
    ensures { result ≡ spec.is_symbolic attributes.now }
{
    for attribute in attributes {
        if is_symbolic_by(attribute) {
            return true;
        }
    }
    false
}

fn is_binary_by(attribute: &Attribute) -> bool
    ensures { result ≡ spec.is_binary_by attribute.now }
{
    match attribute {
        Attribute::Binary => true,
        _ => false,
    }
}

fn is_binary(attributes: &[Attribute]) -> bool
    ensures { result ≡ spec.is_binary attributes.now }
{
    for attribute in attributes {
        if is_binary_by(attribute) {
            return true;
        }
    }
    false
}

fn assigned_by(attribute: &Attribute) -> Option<&Expr>
    ensures { option_copied result ≡ spec.assigned_by attribute.now }
{
    match attribute {
        Attribute::Assigned(value) => Some(value),
        _ => None,
    }
}

fn default_by(attribute: &Attribute) -> Option<&Expr>
    ensures { option_copied result ≡ spec.default_by attribute.now }
{
    match attribute {
        Attribute::Default(value) => Some(value),
        _ => None,
    }
}

/// The expression behind `:=`.
pub(crate) fn assigned(attributes: &[Attribute]) -> Option<&Expr>
    ensures { option_copied result ≡ spec.assigned attributes.now }
{
    for attribute in attributes {
        let found = assigned_by(attribute);
        if found.is_some() {
            return found;
        }
    }
    None
}

/// The expression behind `default`.
pub(crate) fn default_of(attributes: &[Attribute]) -> Option<&Expr>
    ensures { option_copied result ≡ spec.default_of attributes.now }
{
    for attribute in attributes {
        let found = default_by(attribute);
        if found.is_some() {
            return found;
        }
    }
    None
}

/// What a parameter holds: a number, and a symbol where it is symbolic.
pub(crate) fn held(symbolic: bool, value: Value) -> Result<Symbol, EvalFault>
    ensures { Gives result (spec.held symbolic value) }
{
    if symbolic {
        value.into_symbol()
    } else {
        Ok(Symbol::Number(value.as_number()?))
    }
}

fn is_whole_symbol(symbol: &Symbol) -> bool
    ensures { result ≡ spec.is_whole_symbol symbol.now }
{
    match symbol {
        Symbol::Number(number) => number.is_whole(),
        Symbol::Word(_) => false,
    }
}

fn is_zero_or_one(number: Frac) -> bool
    ensures { result ≡ spec.is_zero_or_one number }
{
    if number.is_zero() {
        true
    } else {
        number.is_whole() && Frac::zero() < number && !(Frac::one() < number)
    }
}

fn is_binary_symbol(symbol: &Symbol) -> bool
    ensures { result ≡ spec.is_binary_symbol symbol.now }
{
    match symbol {
        Symbol::Number(number) => is_zero_or_one(*number),
        Symbol::Word(_) => false,
    }
}

fn allows(attribute: &Attribute, symbol: &Symbol) -> bool
    ensures { result ≡ spec.allows attribute.now symbol.now }
{
    match attribute {
        Attribute::Integer => is_whole_symbol(symbol),
        Attribute::Binary => is_binary_symbol(symbol),
        _ => true,
    }
}

/// Whether a value is what `integer` and `binary` ask.
pub(crate) fn all_allow(attributes: &[Attribute], symbol: &Symbol) -> bool
    ensures { result ≡ spec.all_allow attributes.now symbol.now }
{
    for attribute in attributes {
        if !allows(attribute, symbol) {
            return false;
        }
    }
    true
}

/// `Restriction` where it does not hold.
pub(crate) fn where_true(holds: bool) -> Result<(), EvalFault>
    ensures { result ≡ spec.where_true holds }
{
    if holds {
        Ok(())
    } else {
        Err(EvalFault::Restriction)
    }
}

pub(crate) fn is_in(relation: Relation) -> bool
    ensures { result ≡ spec.is_in relation }
{
    match relation {
        Relation::In => true,
        _ => false,
    }
}

/// The bounds with one more: a relation other than `>=`, `<=` and `=` leaves them.
pub fn with_bound(so_far: Bounds, relation: Relation, number: Frac) -> Bounds
    ensures { result ≡ spec.with_bound so_far relation number }
{
    match relation {
        Relation::AtLeast => Bounds {
            lower: Some(number),
            upper: so_far.upper,
        },
        Relation::AtMost => Bounds {
            lower: so_far.lower,
            upper: Some(number),
        },
        Relation::Equal => Bounds {
            lower: Some(number),
            upper: Some(number),
        },
        _ => so_far,
    }
}

/// The same, where the number is handed as it was evaluated.
pub(crate) fn bounds_with(
    so_far: Bounds,
    relation: Relation,
    number: Result<Frac, EvalFault>,
) -> Result<Bounds, EvalFault>
    ensures { (answer : Outcome Rational) → Gives number answer → Gives result (then_do (λ q. Ok (spec.with_bound so_far relation q)) answer) }
{
    match number {
        Ok(number) => Ok(with_bound(so_far, relation, number)),
        Err(fault) => Err(fault),
    }
}

fn at_least_zero(bound: Option<Frac>) -> Frac
    ensures { result ≡ spec.at_least_zero bound }
{
    match bound {
        None => Frac::zero(),
        Some(number) => greater(Frac::zero(), number),
    }
}

fn at_most_one(bound: Option<Frac>) -> Frac
    ensures { result ≡ spec.at_most_one bound }
{
    match bound {
        None => Frac::one(),
        Some(number) => lesser(Frac::one(), number),
    }
}

/// The bounds, within 0 and 1 where the variable is binary.
pub(crate) fn binary_bounds(
    attributes: &[Attribute],
    found: Result<Bounds, EvalFault>,
) -> Result<Bounds, EvalFault>
    ensures { (answer : Outcome AnyBounds) → Gives found answer → Gives result (then_do (λ x. Ok (spec.where_binary (spec.is_binary attributes.now) x)) answer) }
{
    match found {
        Ok(found) => Ok(where_binary(attributes, found)),
        Err(fault) => Err(fault),
    }
}

fn where_binary(attributes: &[Attribute], so_far: Bounds) -> Bounds
    ensures { result ≡ spec.where_binary (spec.is_binary attributes.now) so_far }
{
    if is_binary(attributes) {
        Bounds {
            lower: Some(at_least_zero(so_far.lower)),
            upper: Some(at_most_one(so_far.upper)),
        }
    } else {
        so_far
    }
}
