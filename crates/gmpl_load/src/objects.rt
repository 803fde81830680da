// The objects of a model to which data may be given.
ghost use Rattle.std.specs.Prelude.{◌≡◌};
ghost use Rattle.gmpl_blocks.specs.Rules.{Reads, Judges};
ghost use Rattle.gmpl_load.specs.Objects as spec;

use gmpl_blocks::{Cursor, DataError, DataFaultKind};
use gmpl_token::TokenKind;
use model_text::Names;

/// What an object is, as far as data go.
#[derive(Clone, Copy, Debug, PartialEq, Eq)]
pub enum DataSort {
    Parameter,
    /// A set, with the dimension of its elements.
    Set(usize),
    /// An object to which no data are given.
    Other,
}

/// An object of a model: what it is, how many subscripts it takes, and whether an expression of the model gives it its value.
#[derive(Clone, Copy, Debug, PartialEq, Eq)]
pub struct DataObject {
    pub sort: DataSort,
    pub subscripts: usize,
    pub has_expression: bool,
}

// A parameter to which data are given: its place among the objects, and how many subscripts it takes.
#[derive(Clone, Copy)]
pub(crate) struct ParameterPlace {
    pub(crate) place: usize,
    pub(crate) subscripts: usize,
}

// A set to which data are given, with the dimension of its elements.
#[derive(Clone, Copy)]
pub(crate) struct SetPlace {
    pub(crate) place: usize,
    pub(crate) subscripts: usize,
    pub(crate) dimension: usize,
}

// ---- parameters

fn parameter_in(place: usize, object: DataObject) -> Result<ParameterPlace, DataError>
    ensures { Judges (spec.parameter_of place object.sort object.subscripts object.has_expression) result }
{
    match object.sort {
        DataSort::Parameter => {
            if object.has_expression {
                Err(DataError::Fault(DataFaultKind::HasExpression))
            } else {
                Ok(ParameterPlace {
                    place,
                    subscripts: object.subscripts,
                })
            }
        }
        _ => Err(DataError::Fault(DataFaultKind::Unknown)),
    }
}

// The parameter of this name.
#[tactic(auto, unfolding(crate::specs::Objects::parameter_named))]
pub(crate) fn parameter_named(
    names: &Names<'_>,
    objects: &[DataObject],
    name: &str,
) -> Result<ParameterPlace, DataError>
    ensures { Judges (spec.parameter_named names.now objects.now name.now) result }
{
    match names.place(name) {
        None => Err(DataError::Fault(DataFaultKind::Unknown)),
        Some(place) => match objects.get(place) {
            None => Err(DataError::Fault(DataFaultKind::Unknown)),
            Some(object) => parameter_in(place, *object),
        },
    }
}

/// The parameter that the next name means.
#[tactic(auto, unfolding(crate::specs::Objects::parameter))]
pub(crate) fn parameter(
    names: &Names<'_>,
    objects: &[DataObject],
    tokens: &mut Cursor<'_, '_>,
) -> Result<ParameterPlace, DataError>
    ensures { Reads (spec.parameter names.now objects.now tokens.old) result tokens.new }
{
    match tokens.peek() {
        Some(TokenKind::Name) => {
            let name = tokens.take();
            parameter_named(names, objects, name)
        }
        _ => Err(tokens.refuse()),
    }
}

// ---- sets

fn set_in(place: usize, object: DataObject) -> Result<SetPlace, DataError>
    ensures { Judges (spec.set_of place object.sort object.subscripts object.has_expression) result }
{
    match object.sort {
        DataSort::Set(dimension) => {
            if object.has_expression {
                Err(DataError::Fault(DataFaultKind::HasExpression))
            } else {
                Ok(SetPlace {
                    place,
                    subscripts: object.subscripts,
                    dimension,
                })
            }
        }
        _ => Err(DataError::Fault(DataFaultKind::Unknown)),
    }
}

// The set of this name.
#[tactic(auto, unfolding(crate::specs::Objects::set_named))]
pub(crate) fn set_named(
    names: &Names<'_>,
    objects: &[DataObject],
    name: &str,
) -> Result<SetPlace, DataError>
    ensures { Judges (spec.set_named names.now objects.now name.now) result }
{
    match names.place(name) {
        None => Err(DataError::Fault(DataFaultKind::Unknown)),
        Some(place) => match objects.get(place) {
            None => Err(DataError::Fault(DataFaultKind::Unknown)),
            Some(object) => set_in(place, *object),
        },
    }
}

/// The set that the next name means.
#[tactic(auto, unfolding(crate::specs::Objects::set))]
pub(crate) fn set(
    names: &Names<'_>,
    objects: &[DataObject],
    tokens: &mut Cursor<'_, '_>,
) -> Result<SetPlace, DataError>
    ensures { Reads (spec.set names.now objects.now tokens.old) result tokens.new }
{
    match tokens.peek() {
        Some(TokenKind::Name) => {
            let name = tokens.take();
            set_named(names, objects, name)
        }
        _ => Err(tokens.refuse()),
    }
}
