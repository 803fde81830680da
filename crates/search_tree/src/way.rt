// Places in a tree.
ghost use Rattle.std.specs.Prelude.{◌≡◌};

use certificate::Side;
use std::marker::Model;

/// The sides taken from the root to a place of a tree.
#[derive(Drop)]
pub struct Way {
    sides: Vec<Side>,
}

impl Model for Way {
    ghost use Rattle.std.specs.Prelude.{List};
    ghost use Rattle.certificate.specs.declared.split.Side.{Side as SideOf};

    ghost Value = { List SideOf };

    ghost view = { λ w. w.sides.items };
}

impl Way {
    /// The way of these sides. It takes no memory.
    pub fn from_vec(sides: Vec<Side>) -> Self
        ensures { result ≡ sides.items }
    {
        Way { sides }
    }

    /// The sides, from the root on, for reading.
    pub fn as_slice(&self) -> &[Side]
        ensures { result.now ≡ self.now }
    {
        &self.sides
    }
}
