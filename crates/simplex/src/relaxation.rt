// The system of a node.
ghost use Rattle.std.specs.Prelude.{length, set, Some, ◌≡◌, ◌<◌, ◌++◌, map, IfOk, IfErr, OnOk};
ghost use Rattle.rational.specs.Rational.{one_ℚ, ◌+ℚ◌};
ghost use Rattle.milp.specs.Problem.{Row as RowOf};
ghost use Rattle.milp.specs.Points.{sign_of};
ghost use Rattle.verdicts.specs.Certificate.{Derived as DerivedOf};
ghost use Rattle.verdicts.specs.WeightedSums.{scaled};
ghost use Rattle.verdicts.specs.Proves.{greater};
ghost use Rattle.certificate.specs.Ways.{side_of};
ghost use Rattle.search_node.specs.Sides.{sides_of};
ghost use Rattle.basis.specs.Node.{system_of, row_bounds, derived_bounds, column_bounds as column_bounds_under, IsOverColumns};
ghost use Rattle.simplex.specs.Bounds.{column_bounds};
ghost use Rattle.simplex.specs.Narrowed.{narrowed_by, bounds_at, IsNextFault, IsSplitFault, AreSplitFaults, AreOnColumns};
ghost use Rattle.dictionary.specs.Faults.{IfNoFit};

use certificate::{ColumnSplit, Derived, DerivedRows, Side};
use dictionary::{Bounds, Fault, System};
use fraction::{Frac, NoFit};
use instance::{Column, Direction, Entries, Entry, Instance, Row, greater, lesser, signed};
use search_node::{Node, SplitTaken};
use std::alloc::{AllocError, Global};

/// The columns, rows and derived rows of a node, with the bounds of the columns under its splits, and the objective,
/// turned where the greatest value is wanted.
pub(crate) fn node_system(
    alloc: Global,
    instance: &Instance,
    node: &Node,
    derived: &DerivedRows,
) -> Result<System, Fault>
    requires { IsOverColumns instance.now derived.now (sides_of node.now.splits) }
    ensures ok { IfOk result (λ s. s ≡ system_of instance.now derived.now (sides_of node.now.splits)) }
    ensures err { IfErr result (IfNoFit (AreSplitFaults (sides_of node.now.splits))) }
{
    basis::node_systems();
    instance.keeps_its_limits();
    let objective = turned(alloc, instance.direction(), instance.objective().as_slice())?;
    let forms = node_forms(alloc, instance.rows(), derived.as_slice())?;
    let bounds = node_bounds(alloc, instance, node, derived)?;
    Ok(System::new(instance.columns().len(), forms, bounds, objective))
}

// The forms of the rows, and then of the derived rows.
fn node_forms(alloc: Global, rows: &[Row], derived: &[Derived]) -> Result<Vec<Entries>, AllocError>
    ensures { IfOk result (λ forms. forms.items ≡ map (λ (r : RowOf). r.entries) rows.now ++ map (λ (d : DerivedOf). d.form) derived.now) }
{
    let mut forms = forms_of(alloc, rows)?;
    add_forms(alloc, &mut forms, derived)?;
    Ok(forms)
}

// The bounds of the columns under the splits, then of the rows, then of the derived rows.
fn node_bounds(
    alloc: Global,
    instance: &Instance,
    node: &Node,
    derived: &DerivedRows,
) -> Result<Vec<Bounds>, Fault>
    requires { AreOnColumns (length instance.now.columns) node.now.splits }
    ensures ok { IfOk result (λ bounds. bounds.items ≡ column_bounds_under instance.now (sides_of node.now.splits) 0 (length instance.now.columns) ++ (map row_bounds instance.now.rows ++ map derived_bounds derived.now)) }
    ensures err { IfErr result (IfNoFit (AreSplitFaults (sides_of node.now.splits))) }
{
    let mut bounds = narrowed_bounds(alloc, instance, node.splits.as_slice())?;
    add_bounds(&mut bounds, instance.rows())?;
    add_derived_bounds(&mut bounds, derived.as_slice())?;
    Ok(bounds)
}

// The bounds of the columns under the splits.
fn narrowed_bounds(
    alloc: Global,
    instance: &Instance,
    splits: &[SplitTaken],
) -> Result<Vec<Bounds>, Fault>
    requires { AreOnColumns (length instance.now.columns) splits.now }
    ensures ok { IfOk result (λ bounds. bounds.items ≡ column_bounds_under instance.now (sides_of splits.now) 0 (length instance.now.columns)) }
    ensures err { IfErr result (IfNoFit (AreSplitFaults (sides_of splits.now))) }
{
    let mut bounds = bounds_of(alloc, instance.columns())?;
    for taken in splits {
        let column = taken.split.column() as usize;
        bounds = narrow(bounds, column, taken)?;
    }
    Ok(bounds)
}

// One more split, of this column.
fn narrow(mut bounds: Vec<Bounds>, column: usize, taken: &SplitTaken) -> Result<Vec<Bounds>, NoFit>
    requires { column < length bounds.items }
    ensures ok { IfOk result (λ b. b.items ≡ set bounds.items column (narrowed_by (side_of taken.now.split taken.now.side) (bounds_at bounds.items column))) }
    ensures err { IfErr result (IsSplitFault (side_of taken.now.split taken.now.side)) }
{
    bounds[column] = narrowed(bounds[column], taken.split, taken.side)?;
    Ok(bounds)
}

fn narrowed(bounds: Bounds, split: ColumnSplit, side: Side) -> Result<Bounds, NoFit>
    ensures ok { IfOk result (λ b. b ≡ narrowed_by (side_of split side) bounds) }
    ensures err { IfErr result (IsSplitFault (side_of split side)) }
{
    let at = split.at().to_frac();
    match side {
        Side::Low => Ok(Bounds {
            lower: bounds.lower,
            upper: Some(lesser(bounds.upper, at)),
        }),
        Side::High => at_least(bounds, at),
    }
}

// At least the next whole number.
fn at_least(bounds: Bounds, at: Frac) -> Result<Bounds, NoFit>
    ensures ok { IfOk result (λ b. b ≡ record { lower = Some (greater bounds.lower (at +ℚ one_ℚ)); upper = bounds.upper }) }
    ensures err { IfErr result (IsNextFault at) }
{
    let next = at.add(Frac::one())?;
    Ok(Bounds {
        lower: Some(greater(bounds.lower, next)),
        upper: bounds.upper,
    })
}

fn add_forms(alloc: Global, forms: &mut Vec<Entries>, derived: &[Derived]) -> Result<(), AllocError>
    ensures { OnOk result (forms.new.items ≡ forms.old.items ++ map (λ (d : DerivedOf). d.form) derived.now) }
{
    for row in derived {
        forms.push(copy(alloc, row.form())?)?;
    }
    Ok(())
}

fn add_derived_bounds(bounds: &mut Vec<Bounds>, derived: &[Derived]) -> Result<(), AllocError>
    ensures { OnOk result (bounds.new.items ≡ bounds.old.items ++ map derived_bounds derived.now) }
{
    for row in derived {
        bounds.push(Bounds {
            lower: Some(row.bound()),
            upper: None,
        })?;
    }
    Ok(())
}

// The form, turned so that less is better.
fn turned(alloc: Global, direction: Direction, form: &[Entry]) -> Result<Entries, AllocError>
    ensures { IfOk result (λ turned. turned ≡ scaled (sign_of direction) form.now) }
{
    let mut entries = Vec::new(alloc);
    for entry in form {
        entries.push(Entry {
            column: entry.column,
            coefficient: signed(direction, entry.coefficient),
        })?;
    }
    Ok(Entries::from_vec(entries))
}

fn forms_of(alloc: Global, rows: &[Row]) -> Result<Vec<Entries>, AllocError>
    ensures { IfOk result (λ forms. forms.items ≡ map (λ (r : RowOf). r.entries) rows.now) }
{
    let mut forms = Vec::new(alloc);
    for row in rows {
        forms.push(copy(alloc, row.entries())?)?;
    }
    Ok(forms)
}

fn copy(alloc: Global, form: &Entries) -> Result<Entries, AllocError>
    ensures { IfOk result (λ copy. copy ≡ form.now) }
{
    Ok(Entries::from_vec(form.as_slice().to_vec(alloc)?))
}

fn bounds_of(alloc: Global, columns: &[Column]) -> Result<Vec<Bounds>, AllocError>
    ensures { IfOk result (λ bounds. bounds.items ≡ map column_bounds columns.now) }
{
    let mut bounds = Vec::new(alloc);
    for column in columns {
        bounds.push(Bounds {
            lower: column.lower(),
            upper: column.upper(),
        })?;
    }
    Ok(bounds)
}

fn add_bounds(bounds: &mut Vec<Bounds>, rows: &[Row]) -> Result<(), AllocError>
    ensures { OnOk result (bounds.new.items ≡ bounds.old.items ++ map row_bounds rows.now) }
{
    for row in rows {
        bounds.push(Bounds {
            lower: row.lower(),
            upper: row.upper(),
        })?;
    }
    Ok(())
}
