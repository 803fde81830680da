// Bounds by their places.
ghost use Rattle.std.specs.Prelude.{◌≡◌, IfOk};
ghost use Rattle.infeasible_subset.specs.Members.{same_side, same_member, has, both};
ghost use Rattle.infeasible_subset.specs.Meeting.{bound_on};

use fraction::Frac;
use std::alloc::{AllocError, Global};

/// The lower or the upper one of two bounds.
#[derive(Clone, Copy, Debug, PartialEq, Eq)]
pub enum Side {
    Lower,
    Upper,
}

/// One bound of a row or of a column, by its place from 0.
#[derive(Clone, Copy)]
pub enum Member {
    OfRow(usize, Side),
    OfColumn(usize, Side),
}

impl Side {
    // The one of two bounds that is on this side.
    pub(crate) fn bound(self, lower: Option<Frac>, upper: Option<Frac>) -> Option<Frac>
        ensures { result ≡ bound_on self lower upper }
    {
        match self {
            Side::Lower => lower,
            Side::Upper => upper,
        }
    }

    // Both are the same side.
    fn is_same(self, other: Side) -> bool
        ensures { result ≡ same_side self other }
    {
        match self {
            Side::Lower => match other {
                Side::Lower => true,
                Side::Upper => false,
            },
            Side::Upper => match other {
                Side::Lower => false,
                Side::Upper => true,
            },
        }
    }
}

impl Member {
    /// Both are the same bound.
    pub fn is_same(&self, other: &Member) -> bool
        ensures { result ≡ same_member self.now other.now }
    {
        match self {
            Member::OfRow(place, side) => match other {
                Member::OfRow(at, of) => *place == *at && side.is_same(*of),
                Member::OfColumn(_, _) => false,
            },
            Member::OfColumn(place, side) => match other {
                Member::OfRow(_, _) => false,
                Member::OfColumn(at, of) => *place == *at && side.is_same(*of),
            },
        }
    }
}

/// The member is one of these.
pub(crate) fn has(members: &[Member], member: &Member) -> bool
    ensures { result ≡ has members.now member.now }
{
    for one in members {
        if one.is_same(member) {
            return true;
        }
    }
    false
}

/// Those of the members that are among others, too.
pub(crate) fn both(
    alloc: Global,
    members: &[Member],
    others: &[Member],
) -> Result<Vec<Member>, AllocError>
    ensures { IfOk result (λ made. made.items ≡ both members.now others.now) }
{
    let mut made = Vec::new(alloc);
    for member in members {
        if has(others, member) {
            made.push(*member)?;
        }
    }
    Ok(made)
}
