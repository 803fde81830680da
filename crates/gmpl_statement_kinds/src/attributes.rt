// The parts of statements.
ghost use Rattle.std.specs.Prelude.{◌≡◌};
ghost use Rattle.gmpl_statement_kinds.specs.StatementKinds as spec;

use crate::sites::{beside, set_of};
use fraction::Frac;
use gmpl_kinds::{
    Object, Shape, Site, as_logic, as_scalar, as_set, indexing_dimension, or_one, same_dimension,
    shape_of,
};
use gmpl_resolved::{Attribute, Expr, Indexing};
use gmpl_syntax::{Relation, SyntaxFaultKind};

const MOST_COMPONENTS: u128 = 20;

/// How many subscripts the object with this domain takes.
pub(crate) fn subscripts(
    objects: &[Object],
    site: Site,
    domain: &Option<Indexing>,
) -> Result<usize, SyntaxFaultKind>
    ensures { result ≡ spec.subscripts objects.now site domain.now }
{
    match domain {
        None => Ok(0),
        Some(domain) => indexing_dimension(objects, site, domain),
    }
}

#[tactic(auto, unfolding(crate::specs::StatementKinds::scalar_at))]
pub(crate) fn scalar_at(
    objects: &[Object],
    site: Site,
    whole: &Expr,
) -> Result<Shape, SyntaxFaultKind>
    ensures { result ≡ spec.scalar_at objects.now site whole.now }
{
    as_scalar(shape_of(objects, site, whole)?)
}

fn set_at(objects: &[Object], site: Site, whole: &Expr) -> Result<Option<usize>, SyntaxFaultKind>
    ensures { result ≡ spec.set_at objects.now site whole.now }
{
    as_set(shape_of(objects, site, whole)?)
}

/// What has to hold.
#[tactic(auto, unfolding(crate::specs::StatementKinds::logic_at))]
pub(crate) fn logic_at(
    objects: &[Object],
    site: Site,
    whole: &Expr,
) -> Result<Shape, SyntaxFaultKind>
    ensures { result ≡ spec.logic_at objects.now site whole.now }
{
    as_logic(shape_of(objects, site, whole)?)
}

// ---- sets

fn whole_dimension(number: Frac) -> Result<Option<usize>, SyntaxFaultKind>
    ensures { result ≡ spec.whole_dimension number }
{
    let (numerator, _) = number.parts();
    let dimension = numerator.unsigned_abs();
    if number.is_whole() && (1 <= dimension && dimension <= MOST_COMPONENTS) {
        Ok(Some(dimension as usize))
    } else {
        Err(SyntaxFaultKind::WrongDimension)
    }
}

fn told_by(
    objects: &[Object],
    site: Site,
    attribute: &Attribute,
) -> Result<Option<usize>, SyntaxFaultKind>
    ensures { result ≡ spec.told_by objects.now site attribute.now }
{
    match attribute {
        Attribute::Dimension(number) => whole_dimension(*number),
        Attribute::Restriction(_, value) | Attribute::Assigned(value) | Attribute::Default(value) =>
            set_at(objects, site, value),
        Attribute::Integer | Attribute::Binary | Attribute::Symbolic => Ok(None),
    }
}

fn agree(
    agreed: Result<Option<usize>, SyntaxFaultKind>,
    told: Option<usize>,
) -> Result<Option<usize>, SyntaxFaultKind>
    ensures { result ≡ spec.agree agreed told }
{
    same_dimension(agreed?, told)
}

// The dimension of a set on which its attributes agree, and with this one too where the set's own is known.
fn agreed_dimension(
    objects: &[Object],
    solved: bool,
    subscripts: usize,
    own: Option<usize>,
    attributes: &[Attribute],
) -> Result<Option<usize>, SyntaxFaultKind>
    ensures { result ≡ spec.agreed_with objects.now solved subscripts own attributes.now }
{
    let site = beside(solved, set_of(subscripts, own));
    let mut agreed = Ok(own);
    for one in attributes {
        agreed = agree(agreed, told_by(objects, site, one)?);
    }
    agreed
}

/// The dimension of the elements of a set: what its attributes tell while that of the set itself is not known, with which they
/// then have to agree.
pub(crate) fn set_dimension(
    objects: &[Object],
    solved: bool,
    subscripts: usize,
    attributes: &[Attribute],
) -> Result<usize, SyntaxFaultKind>
    ensures { result ≡ spec.set_dimension objects.now solved subscripts attributes.now }
{
    let told = or_one(agreed_dimension(objects, solved, subscripts, None, attributes)?);
    Ok(or_one(agreed_dimension(objects, solved, subscripts, Some(told), attributes)?))
}

// ---- parameters and variables

fn holds_values(objects: &[Object], site: Site, whole: &Expr) -> Result<Shape, SyntaxFaultKind>
    ensures { result ≡ spec.holds_values objects.now site whole.now }
{
    same_dimension(Some(1), set_at(objects, site, whole)?)?;
    Ok(Shape::Scalar)
}

fn restricts(
    objects: &[Object],
    site: Site,
    relation: Relation,
    whole: &Expr,
) -> Result<Shape, SyntaxFaultKind>
    ensures { result ≡ spec.restricts objects.now site relation whole.now }
{
    match relation {
        Relation::In => holds_values(objects, site, whole),
        _ => scalar_at(objects, site, whole),
    }
}

fn value_attribute(
    objects: &[Object],
    site: Site,
    attribute: &Attribute,
) -> Result<Shape, SyntaxFaultKind>
    ensures { result ≡ spec.value_attribute objects.now site attribute.now }
{
    match attribute {
        Attribute::Restriction(relation, value) => restricts(objects, site, *relation, value),
        Attribute::Assigned(value) | Attribute::Default(value) => scalar_at(objects, site, value),
        Attribute::Dimension(_) | Attribute::Integer | Attribute::Binary | Attribute::Symbolic =>
            Ok(Shape::Scalar),
    }
}

/// The attributes of a parameter or a variable.
pub(crate) fn value_attributes(
    objects: &[Object],
    site: Site,
    attributes: &[Attribute],
) -> Result<Shape, SyntaxFaultKind>
    ensures { result ≡ spec.value_attributes objects.now site attributes.now }
{
    for one in attributes {
        value_attribute(objects, site, one)?;
    }
    Ok(Shape::Scalar)
}
