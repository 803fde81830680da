// Where the parts of statements stand.
ghost use Rattle.std.specs.Prelude.{◌≡◌};
ghost use Rattle.gmpl_statement_kinds.specs.StatementKinds as spec;

use gmpl_kinds::{Object, Position, Site, Sort};

fn position(solved: bool) -> Position
    ensures { result ≡ spec.position solved }
{
    if solved {
        Position::Solved
    } else {
        Position::Constant
    }
}

/// Outside of constraints and objectives, and where no name means the statement's own object.
#[tactic(auto, unfolding(crate::specs::StatementKinds::plain))]
pub(crate) fn plain(solved: bool) -> Site
    ensures { result ≡ spec.plain solved }
{
    Site {
        position: position(solved),
        own: None,
    }
}

/// In an attribute of this object.
pub(crate) fn beside(solved: bool, own: Object) -> Site
    ensures { result ≡ spec.beside solved own }
{
    Site {
        position: position(solved),
        own: Some(own),
    }
}

/// In a constraint or an objective.
#[tactic(auto, unfolding(crate::specs::StatementKinds::linear))]
pub(crate) fn linear() -> Site
    ensures { result ≡ spec.linear }
{
    Site {
        position: Position::Linear,
        own: None,
    }
}

/// A set with so many subscripts, whose elements have this dimension where it is known.
pub(crate) fn set_of(subscripts: usize, elements: Option<usize>) -> Object
    ensures { result ≡ spec.set_of subscripts elements }
{
    Object {
        sort: Sort::Set,
        subscripts,
        elements,
    }
}

/// Another object with so many subscripts.
pub(crate) fn value_of(sort: Sort, subscripts: usize) -> Object
    ensures { result ≡ spec.value_of sort subscripts }
{
    Object {
        sort,
        subscripts,
        elements: None,
    }
}
