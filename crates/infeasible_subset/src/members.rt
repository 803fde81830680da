// Lists of members.
ghost use Rattle.std.specs.Prelude.{◌≡◌, ◌<◌, ◌∷◌, length};

use crate::Member;
use std::marker::Model;

/// Members, in the order in which they are listed.
#[derive(Drop)]
pub struct Members {
    members: Vec<Member>,
}

impl Model for Members {
    ghost use Rattle.std.specs.Prelude.{List};
    ghost use Rattle.infeasible_subset.specs.declared.member.Member.{Member as MemberOf};

    ghost Value = { List MemberOf };

    ghost view = { λ m. m.members.items };
}

impl Members {
    /// These members. It takes no memory.
    pub fn from_vec(members: Vec<Member>) -> Self
        ensures { result ≡ members.items }
    {
        Members { members }
    }

    /// The members, for reading.
    pub fn as_slice(&self) -> &[Member]
        ensures { result.now ≡ self.now }
    {
        &self.members
    }

    // Takes the first one out.
    pub(crate) fn take_first(&mut self) -> Member
        requires { 0 < length self.old }
        ensures { self.old ≡ result ∷ self.new }
    {
        self.members.remove(0)
    }
}
