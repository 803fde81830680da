// Members of variables.
ghost use Rattle.std.specs.Prelude.{◌≡◌, IfOk};

use gmpl_value::Tuple;
use std::alloc::{AllocError, Global};

/// A member of a variable: the place of its statement, and its subscripts.
#[derive(PartialEq, Eq, Hash, Drop)]
pub struct Variable {
    pub statement: usize,
    pub subscripts: Tuple,
}

impl Variable {
    /// The same member again.
    pub fn copied(&self, alloc: Global) -> Result<Variable, AllocError>
        ensures { IfOk result (λ made. made ≡ self.now) }
    {
        Ok(Variable {
            statement: self.statement,
            subscripts: self.subscripts.copied(alloc)?,
        })
    }
}
