// What an expression comes to.
ghost use Rattle.std.specs.Prelude.{◌≡◌, IfOk};
ghost use Rattle.gmpl_value.specs.Outcome.{Gives, GivesAs};
ghost use Rattle.gmpl_operations.specs.Values.{number_in, symbol_in, truth_in, set_in, tuple_in, amount_in, of_amount, of_number};
ghost use Rattle.gmpl_operations.specs.declared.value.Value.TheVariants as values;

use fraction::Frac;
use gmpl_functions::{Amount, Form, number_of, truth_of};
use gmpl_value::{EvalFault, SetValue, Symbol, Tuple};
use sqlite_items::Boxed;
use std::alloc::{AllocError, Global};

/// What an expression comes to.
#[derive(Drop)]
pub enum Value {
    /// A number or a string.
    Scalar(Symbol),
    /// What is true or false.
    Truth(bool),
    /// An element with two components or more.
    Group(Tuple),
    Elements(Boxed<SetValue>),
    /// A linear form, of an expression in which a variable stands.
    Linear(Form),
}

impl Value {
    /// The value of a number.
    pub fn number(number: Frac) -> Value
        ensures { result ≡ of_number number }
    {
        Value::Scalar(Symbol::Number(number))
    }

    /// The value of a set.
    pub fn elements(alloc: Global, set: SetValue) -> Result<Value, AllocError>
        ensures { IfOk result (λ made. made ≡ values.Elements set) }
    {
        Ok(Value::Elements(Boxed::new(alloc, set)?))
    }

    /// The value of a number or a form.
    pub fn amount(amount: Amount) -> Value
        ensures { result ≡ of_amount amount }
    {
        match amount {
            Amount::Number(number) => Value::Scalar(Symbol::Number(number)),
            Amount::Form(form) => Value::Linear(form),
        }
    }

    /// In a numeric place: a string is read as a literal. `Nonlinear` for a form, `NotANumber` for all else.
    pub fn as_number(&self) -> Result<Frac, EvalFault>
        ensures { result ≡ number_in self.now }
    {
        match self {
            Value::Scalar(symbol) => number_of(symbol),
            Value::Linear(_) => Err(EvalFault::Nonlinear),
            _ => Err(EvalFault::NotANumber),
        }
    }

    /// In a place of a symbol. `Nonlinear` for a form.
    pub fn into_symbol(self) -> Result<Symbol, EvalFault>
        ensures { result ≡ symbol_in self }
    {
        match self {
            Value::Scalar(symbol) => Ok(symbol),
            Value::Linear(_form) => Err(EvalFault::Nonlinear),
            _ => Err(EvalFault::NotANumber),
        }
    }

    /// The same symbol, to be looked at.
    pub fn symbol(&self) -> Result<&Symbol, EvalFault>
        ensures { GivesAs (λ symbol. symbol.now) result (symbol_in self.now) }
    {
        match self {
            Value::Scalar(symbol) => Ok(symbol),
            Value::Linear(_) => Err(EvalFault::Nonlinear),
            _ => Err(EvalFault::NotANumber),
        }
    }

    /// In a logical place: a number is true where it isn't 0. `Nonlinear` for a form, `NotANumber` for a string.
    pub fn as_truth(&self) -> Result<bool, EvalFault>
        ensures { result ≡ truth_in self.now }
    {
        match self {
            Value::Truth(truth) => Ok(*truth),
            Value::Scalar(symbol) => truth_of(symbol),
            Value::Linear(_) => Err(EvalFault::Nonlinear),
            _ => Err(EvalFault::NotANumber),
        }
    }

    /// In a place of a set.
    pub fn into_set(self) -> Result<Boxed<SetValue>, EvalFault>
        ensures { result ≡ set_in self }
    {
        match self {
            Value::Elements(set) => Ok(set),
            _ => Err(EvalFault::NotANumber),
        }
    }

    /// The same set, to be looked at.
    pub fn set(&self) -> Result<&SetValue, EvalFault>
        ensures { GivesAs (λ set. set.now) result (set_in self.now) }
    {
        match self {
            Value::Elements(set) => Ok(set.get()),
            _ => Err(EvalFault::NotANumber),
        }
    }

    /// In a place of a set's element: a symbol is a tuple of one component. `Nonlinear` for a form.
    pub fn into_tuple(self, alloc: Global) -> Result<Tuple, EvalFault>
        ensures { Gives result (tuple_in self) }
    {
        match self {
            Value::Scalar(symbol) => Ok(Tuple::single(alloc, symbol)?),
            Value::Group(tuple) => Ok(tuple),
            Value::Linear(_form) => Err(EvalFault::Nonlinear),
            _ => Err(EvalFault::NotANumber),
        }
    }

    /// The same element, copied.
    pub fn tuple(&self, alloc: Global) -> Result<Tuple, EvalFault>
        ensures { Gives result (tuple_in self.now) }
    {
        match self {
            Value::Scalar(symbol) => Ok(Tuple::single(alloc, symbol.copied(alloc)?)?),
            Value::Group(tuple) => Ok(tuple.copied(alloc)?),
            Value::Linear(_) => Err(EvalFault::Nonlinear),
            _ => Err(EvalFault::NotANumber),
        }
    }

    /// In a numeric place that takes variables.
    pub fn into_amount(self) -> Result<Amount, EvalFault>
        ensures { result ≡ amount_in self }
    {
        match self {
            Value::Scalar(symbol) => Ok(Amount::Number(number_of(&symbol)?)),
            Value::Linear(form) => Ok(Amount::Form(form)),
            _ => Err(EvalFault::NotANumber),
        }
    }
}
