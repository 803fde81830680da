// Values of members.
ghost use Rattle.std.specs.Prelude.{◌≡◌, IfOk};

use gmpl_value::{SetValue, Symbol};
use std::alloc::{AllocError, Global};

/// The value of a member of a parameter, a symbol, or of a set.
#[derive(Drop)]
pub enum Value {
    Scalar(Symbol),
    Elements(SetValue),
}

impl Value {
    /// The same value again.
    pub fn copied(&self, alloc: Global) -> Result<Value, AllocError>
        ensures { IfOk result (λ made. made ≡ self.now) }
    {
        match self {
            Value::Scalar(symbol) => Ok(Value::Scalar(symbol.copied(alloc)?)),
            Value::Elements(set) => Ok(Value::Elements(set.copied(alloc)?)),
        }
    }
}
