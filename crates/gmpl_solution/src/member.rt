// Members of variables, constraints and objectives.
ghost use Rattle.std.specs.Prelude.{◌≡◌, IfOk};

use gmpl_value::Tuple;
use std::alloc::{AllocError, Global};

/// A member of a variable, of a constraint or of an objective: the place of its statement, and its subscripts.
#[derive(PartialEq, Eq, Hash, Drop)]
pub struct Member {
    pub statement: usize,
    pub subscripts: Tuple,
}

impl Member {
    /// The same member again.
    pub fn copied(&self, alloc: Global) -> Result<Member, AllocError>
        ensures { IfOk result (λ made. made ≡ self.now) }
    {
        Ok(Member {
            statement: self.statement,
            subscripts: self.subscripts.copied(alloc)?,
        })
    }
}
