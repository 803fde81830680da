// Values that are kept.
ghost use Rattle.std.specs.Prelude.{◌≡◌, [], ◌∷◌, IfOk, IfSome};
ghost use Rattle.rational.specs.Rational.{one_ℚ, zero_ℚ};
ghost use Rattle.gmpl_value.specs.Outcome.{GivesAs};
ghost use Rattle.gmpl_functions.specs.Linear.{linear};
ghost use Rattle.gmpl_meaning.specs.Right.{value_seen};
ghost use Rattle.gmpl_operations.specs.Values.{set_in};
ghost use Rattle.gmpl_operations.specs.declared.value.Value.TheVariants as values;

use fraction::Frac;
use gmpl_functions::{Form, Variable};
use gmpl_operations::Value;
use gmpl_value::{EvalFault, SetValue, Symbol};
use sqlite_items::Boxed;
use std::alloc::{AllocError, Global};
use std::rc::Rc;

/// A value whose set is shared by all that look at it.
#[derive(Drop)]
pub enum KeptValue {
    Scalar(Symbol),
    Elements(Rc<SetValue>),
    /// The form of a variable's member: the member with the coefficient 1.
    Variable(Variable),
    /// A value as it was made. Where it is the form of a variable's member it is kept as that, and else not.
    Other(Boxed<Value>),
}

// The value of a member without subscripts, and how many members may stand in the chain of demands that begins with it.
#[derive(Drop)]
pub struct Alone {
    pub(crate) height: u32,
    pub(crate) value: KeptValue,
}

impl KeptValue {
    /// A value, with its set to share.
    pub fn of(alloc: Global, value: Value) -> Result<KeptValue, AllocError>
        ensures { IfOk result (λ made. value_seen made ≡ value) }
    {
        match value {
            Value::Scalar(symbol) => Ok(KeptValue::Scalar(symbol)),
            Value::Elements(set) => Ok(KeptValue::Elements(Rc::new(alloc, set.into_inner())?)),
            other => Ok(KeptValue::Other(Boxed::new(alloc, other)?)),
        }
    }

    /// The value, with a set of its own.
    pub fn into_value(self, alloc: Global) -> Result<Value, AllocError>
        ensures { IfOk result (λ made. made ≡ value_seen self) }
    {
        match self {
            KeptValue::Scalar(symbol) => Ok(Value::Scalar(symbol)),
            KeptValue::Elements(set) => Ok(Value::elements(alloc, set.copied(alloc)?)?),
            KeptValue::Variable(variable) => Ok(Value::Linear(Form::variable(alloc, variable)?)),
            KeptValue::Other(value) => Ok(value.into_inner()),
        }
    }

    /// In a place of a set.
    pub fn into_set(self, alloc: Global) -> Result<Rc<SetValue>, EvalFault>
        ensures { GivesAs (λ set. set.value) result (set_in (value_seen self)) }
    {
        match self {
            KeptValue::Scalar(_symbol) => Err(EvalFault::NotANumber),
            KeptValue::Elements(set) => Ok(set),
            KeptValue::Variable(_variable) => Err(EvalFault::NotANumber),
            KeptValue::Other(value) => {
                let set = value.into_inner().into_set()?;
                Ok(Rc::new(alloc, set.into_inner())?)
            }
        }
    }

    // How much room it takes, in elements. An empty set takes some too.
    pub(crate) fn size(&self) -> usize {
        match self {
            KeptValue::Elements(set) => set.as_ref().len().max(1),
            _ => 1,
        }
    }
}

/// The same value once more, where it can be kept and memory suffices.
pub(crate) fn again(alloc: Global, value: &KeptValue) -> Option<KeptValue>
    ensures { IfSome result (λ made. value_seen made ≡ value_seen value.now) }
{
    match value {
        KeptValue::Scalar(symbol) => symbol_again(alloc, symbol),
        KeptValue::Elements(set) => set_again(set),
        KeptValue::Variable(variable) => variable_again(alloc, variable),
        KeptValue::Other(value) => other_again(alloc, value.get()),
    }
}

fn symbol_again(alloc: Global, symbol: &Symbol) -> Option<KeptValue>
    ensures { IfSome result (λ made. value_seen made ≡ values.Scalar symbol.now) }
{
    Some(KeptValue::Scalar(symbol.copied(alloc).ok()?))
}

fn set_again(set: &Rc<SetValue>) -> Option<KeptValue>
    ensures { IfSome result (λ made. value_seen made ≡ values.Elements set.now.value) }
{
    Some(KeptValue::Elements(set.clone().ok()?))
}

fn variable_again(alloc: Global, variable: &Variable) -> Option<KeptValue>
    ensures { IfSome result (λ made. value_seen made ≡ values.Linear (linear ((variable.now, one_ℚ) ∷ []) zero_ℚ)) }
{
    Some(KeptValue::Variable(variable.copied(alloc).ok()?))
}

// Of all other values the form of a variable's member alone.
fn other_again(alloc: Global, value: &Value) -> Option<KeptValue>
    ensures { IfSome result (λ made. value_seen made ≡ value.now) }
{
    match value {
        Value::Linear(form) => variable_again(alloc, only_variable(form)?),
        _ => None,
    }
}

// The member whose form this is, where it is one's.
fn only_variable(form: &Form) -> Option<&Variable>
    ensures { IfSome result (λ variable. form.now ≡ linear ((variable.now, one_ℚ) ∷ []) zero_ℚ) }
{
    if form.len() != 1 || !form.constant().is_zero() {
        return None;
    }
    match form.term(0) {
        Some((variable, coefficient)) if *coefficient == Frac::one() => Some(variable),
        _ => None,
    }
}
