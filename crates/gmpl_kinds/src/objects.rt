// The objects that an expression names.
ghost use Rattle.std.specs.Prelude.{◌≡◌};
ghost use Rattle.gmpl_kinds.specs.Objects as spec;

use crate::shape::{Object, Position, Shape, Site, Sort};
use gmpl_resolved::Meaning;
use gmpl_syntax::SyntaxFaultKind;

fn may_hold_variable(position: Position, has_suffix: bool) -> bool
    ensures { result ≡ spec.may_hold_variable position has_suffix }
{
    match position {
        Position::Constant => false,
        Position::Linear => !has_suffix,
        Position::Solved => true,
    }
}

fn is_solved(position: Position) -> bool
    ensures { result ≡ spec.is_solved position }
{
    match position {
        Position::Constant | Position::Linear => false,
        Position::Solved => true,
    }
}

fn may_stand(position: Position, sort: Sort, has_suffix: bool) -> bool
    ensures { result ≡ spec.may_stand position sort has_suffix }
{
    match sort {
        Sort::Set | Sort::Param => !has_suffix,
        Sort::Var => may_hold_variable(position, has_suffix),
        Sort::Constraint | Sort::Objective => is_solved(position),
    }
}

fn shape_by(sort: Sort, elements: Option<usize>) -> Shape
    ensures { result ≡ spec.shape_by sort elements }
{
    match sort {
        Sort::Set => Shape::SetOf(elements),
        _ => Shape::Scalar,
    }
}

fn index_shape(count: usize, has_suffix: bool) -> Result<Shape, SyntaxFaultKind>
    ensures { result ≡ spec.index_shape count has_suffix }
{
    if has_suffix {
        Err(SyntaxFaultKind::WrongKind)
    } else if count == 0 {
        Ok(Shape::Scalar)
    } else {
        Err(SyntaxFaultKind::WrongDimension)
    }
}

fn object_shape(
    position: Position,
    object: Object,
    count: usize,
    has_suffix: bool,
) -> Result<Shape, SyntaxFaultKind>
    ensures { result ≡ spec.object_shape position object count has_suffix }
{
    if !may_stand(position, object.sort, has_suffix) {
        Err(SyntaxFaultKind::WrongKind)
    } else if object.subscripts == count {
        Ok(shape_by(object.sort, object.elements))
    } else {
        Err(SyntaxFaultKind::WrongDimension)
    }
}

// The object at a place: behind those that are declared already stands the statement's own.
fn object_at(objects: &[Object], own: Option<Object>, place: usize) -> Option<Object>
    ensures { result ≡ spec.object_at objects.now own place }
{
    match objects.get(place) {
        None => own,
        Some(object) => Some(*object),
    }
}

/// A name with so many subscripts.
pub(crate) fn named(
    objects: &[Object],
    site: Site,
    meaning: Meaning,
    count: usize,
    has_suffix: bool,
) -> Result<Shape, SyntaxFaultKind>
    ensures { result ≡ spec.named objects.now site meaning count has_suffix }
{
    match meaning {
        Meaning::Index(_) => index_shape(count, has_suffix),
        Meaning::Object(place) => match object_at(objects, site.own, place) {
            None => Err(SyntaxFaultKind::WrongKind),
            Some(object) => object_shape(site.position, object, count, has_suffix),
        },
    }
}

fn whole_shape(position: Position, object: Option<Object>) -> Result<Shape, SyntaxFaultKind>
    ensures { result ≡ spec.whole_shape position object }
{
    match object {
        None => Err(SyntaxFaultKind::WrongKind),
        Some(object) => {
            if may_stand(position, object.sort, false) {
                Ok(shape_by(object.sort, object.elements))
            } else {
                Err(SyntaxFaultKind::WrongKind)
            }
        }
    }
}

/// All members of the object at a place, where its name may stand: else `WrongKind`.
pub fn whole_object(objects: &[Object], site: Site, place: usize) -> Result<Shape, SyntaxFaultKind>
    ensures { result ≡ spec.whole_object objects.now site place }
{
    whole_shape(site.position, object_at(objects, site.own, place))
}
