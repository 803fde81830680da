// What the simplex method finds at a node.
ghost use Rattle.std.specs.Prelude.{ℕ, List, ◌≡◌, IfOk, IfErr, Ok};
ghost use Rattle.milp.specs.Problem.{Problem};
ghost use Rattle.verdicts.specs.Certificate.{Derived as DerivedOf};
ghost use Rattle.search_node.specs.Sides.{sides_of};
ghost use Rattle.basis.specs.System.{AreBoundsInOrder};
ghost use Rattle.basis.specs.Node.{system_of, IsOverColumns};
ghost use Rattle.basis.specs.Weights.{IsContradictory};
ghost use Rattle.dictionary.specs.Faults.{IfNoFit};
ghost use Rattle.simplex.specs.Run.{IsEnded, IsFaultOf};
ghost use Rattle.simplex.specs.Answer.{IsRelaxed, IsNodeFault, IsNodeStop, IsStuck, IsUnlimited, source_of};
ghost use Rattle.simplex.specs.declared.runs.End.TheVariants as EndOf;

use crate::contradiction::{contradiction, contradiction_weights};
use crate::point::point_of;
use crate::ray::ray;
use crate::relaxation::node_system;
use crate::runs::{End, Ended, RunFault, run, stop_of};
use crate::weights::{Source, weights};
use basis::Place;
use certificate::{DerivedRows, Weights};
use dictionary::{Dictionary, Fault, System};
use fraction::Frac;
use instance::{Instance, Point};
use search_node::{Node, Site, Stuck};
use std::alloc::{AllocError, Global};

/// The point of an optimal basis, weights that show that none is better, and the dictionary of the basis.
#[derive(Drop)]
pub struct Best {
    pub point: Point,
    pub weights: Weights,
    pub dictionary: Dictionary,
}

/// A point, and a ray along which the problem improves without end from there.
#[derive(Drop)]
pub struct Endless {
    pub point: Point,
    pub ray: Point,
}

/// What is found at a node.
#[derive(Drop)]
pub enum Relaxed {
    /// A best point.
    Optimal(Best),
    /// No point, as the weights show.
    Infeasible(Weights),
    /// Points that improve without end.
    Unbounded(Endless),
}

/// The best point of a node whose columns need not be whole, found by exactly the run that Bland's rule gives; or that
/// there is no point, or no best one. Contradictory bounds are found before the first step. The derived rows' forms
/// have to be over the instance's columns, and the splits on them.
///
/// `NoFit` tells of an operation of the work at the node whose result really does not fit, `PivotLimit` that the run has
/// more than `pivot_limit` steps. A limit of 0 is none: each run ends, and `PivotLimit` never comes.
pub fn relax(
    alloc: Global,
    instance: &Instance,
    node: &Node,
    derived: &DerivedRows,
    pivot_limit: u32,
) -> Result<Relaxed, Stuck>
    requires columns { IsOverColumns instance.now derived.now (sides_of node.now.splits) }
    ensures relaxed { IfOk result (IsRelaxed instance.now derived.now (sides_of node.now.splits)) }
    ensures stuck { IfErr result (IsStuck instance.now derived.now node.now pivot_limit) }
    ensures unlimited { pivot_limit ≡ 0 → IfErr result IsUnlimited }
{
    match from_system(alloc, instance, node, derived, pivot_limit) {
        Ok(found) => Ok(found),
        Err(stop) => Err(stuck(alloc, node, stop)),
    }
}

// The fault, told with its node.
fn stuck(alloc: Global, node: &Node, stop: RunFault) -> Stuck
    ensures { (p : Problem) (ds : List DerivedOf) (limit : ℕ) → IsNodeStop p ds (sides_of node.now.splits) limit stop → IsStuck p ds node.now limit result }
{
    match stop {
        RunFault::NoFit(fault) => match node.copy(alloc) {
            Ok(node) => Stuck::NoFit(Site { node, fault }),
            Err(_) => Stuck::NoMemory,
        },
        RunFault::PivotLimit(bases) => Stuck::PivotLimit(bases),
        RunFault::NoMemory => Stuck::NoMemory,
    }
}

// The system comes first.
fn from_system(
    alloc: Global,
    instance: &Instance,
    node: &Node,
    derived: &DerivedRows,
    pivot_limit: u32,
) -> Result<Relaxed, RunFault>
    requires columns { IsOverColumns instance.now derived.now (sides_of node.now.splits) }
    ensures relaxed { IfOk result (IsRelaxed instance.now derived.now (sides_of node.now.splits)) }
    ensures stop { IfErr result (IsNodeStop instance.now derived.now (sides_of node.now.splits) pivot_limit) }
{
    match node_system(alloc, instance, node, derived) {
        Ok(system) => solved(alloc, instance, node, derived, &system, pivot_limit),
        Err(fault) => Err(stop_of(fault)),
    }
}

// Contradictory bounds come first.
fn solved(
    alloc: Global,
    instance: &Instance,
    node: &Node,
    derived: &DerivedRows,
    system: &System,
    pivot_limit: u32,
) -> Result<Relaxed, RunFault>
    requires system { system.now ≡ system_of instance.now derived.now (sides_of node.now.splits) }
    ensures relaxed { IfOk result (IsRelaxed instance.now derived.now (sides_of node.now.splits)) }
    ensures stop { IfErr result (IsNodeStop instance.now derived.now (sides_of node.now.splits) pivot_limit) }
{
    match contradiction(system) {
        Some(v) => in_memory(contradicted(alloc, instance, node, derived, v)),
        None => run_on(alloc, instance, node, derived, system, pivot_limit),
    }
}

fn in_memory(made: Result<Relaxed, AllocError>) -> Result<Relaxed, RunFault>
    ensures ok { IfOk result (λ relaxed. made ≡ Ok relaxed) }
    ensures err { IfErr result (λ stop. stop ≡ RunFault.NoMemory) }
{
    match made {
        Ok(found) => Ok(found),
        Err(_) => Err(RunFault::NoMemory),
    }
}

// The weights of the bounds of v against each other.
fn contradicted(
    alloc: Global,
    instance: &Instance,
    node: &Node,
    derived: &DerivedRows,
    v: usize,
) -> Result<Relaxed, AllocError>
    requires { IsContradictory (system_of instance.now derived.now (sides_of node.now.splits)) v }
    ensures { IfOk result (IsRelaxed instance.now derived.now (sides_of node.now.splits)) }
{
    Ok(Relaxed::Infeasible(contradiction_weights(alloc, instance, derived, v)?))
}

fn run_on(
    alloc: Global,
    instance: &Instance,
    node: &Node,
    derived: &DerivedRows,
    system: &System,
    pivot_limit: u32,
) -> Result<Relaxed, RunFault>
    requires system { system.now ≡ system_of instance.now derived.now (sides_of node.now.splits) }
    requires in_order { AreBoundsInOrder system.now }
    ensures relaxed { IfOk result (IsRelaxed instance.now derived.now (sides_of node.now.splits)) }
    ensures stop { IfErr result (IsNodeStop instance.now derived.now (sides_of node.now.splits) pivot_limit) }
{
    let ended = run(alloc, system, pivot_limit)?;
    match answer(alloc, instance, node, derived, ended) {
        Ok(found) => Ok(found),
        Err(fault) => Err(stop_of(fault)),
    }
}

// What the end of a run shows. In the functions below the node is there for their contracts.
fn answer(
    alloc: Global,
    instance: &Instance,
    node: &Node,
    derived: &DerivedRows,
    ended: Ended,
) -> Result<Relaxed, Fault>
    requires { IsEnded (system_of instance.now derived.now (sides_of node.now.splits)) ended.dictionary ended.values.items ended.end }
    ensures ok { IfOk result (IsRelaxed instance.now derived.now (sides_of node.now.splits)) }
    ensures err { IfErr result (IfNoFit (IsNodeFault instance.now derived.now (sides_of node.now.splits))) }
{
    match ended.end {
        End::Optimal => Ok(optimal(alloc, instance, node, derived, ended)?),
        End::Blocked(r, place) => Ok(blocked(alloc, instance, node, derived, &ended, r, place)?),
        End::Endless(q, rises) => unbounded(alloc, instance, node, derived, &ended, q, rises),
    }
}

fn optimal(
    alloc: Global,
    instance: &Instance,
    node: &Node,
    derived: &DerivedRows,
    ended: Ended,
) -> Result<Relaxed, AllocError>
    requires { IsEnded (system_of instance.now derived.now (sides_of node.now.splits)) ended.dictionary ended.values.items EndOf.Optimal }
    ensures { IfOk result (IsRelaxed instance.now derived.now (sides_of node.now.splits)) }
{
    let Ended {
        dictionary,
        values,
        end: _,
    } = ended;
    let point = point_of(alloc, &values, instance.columns().len())?;
    let weights = weights(alloc, instance, derived, &dictionary, Source::Objective)?;
    Ok(Relaxed::Optimal(Best {
        point,
        weights,
        dictionary,
    }))
}

// The weights of the row that is blocked.
fn blocked(
    alloc: Global,
    instance: &Instance,
    node: &Node,
    derived: &DerivedRows,
    ended: &Ended,
    r: usize,
    place: Place,
) -> Result<Relaxed, AllocError>
    requires { IsEnded (system_of instance.now derived.now (sides_of node.now.splits)) ended.now.dictionary ended.now.values.items (EndOf.Blocked r place) }
    ensures { IfOk result (IsRelaxed instance.now derived.now (sides_of node.now.splits)) }
{
    let source = blocking_source(place, r);
    Ok(Relaxed::Infeasible(weights(alloc, instance, derived, &ended.dictionary, source)?))
}

fn blocking_source(place: Place, r: usize) -> Source
    ensures { result ≡ source_of place r }
{
    match place {
        Place::AtLower => Source::Row(r),
        _ => Source::MinusRow(r),
    }
}

// The point, and the way in which it improves.
fn unbounded(
    alloc: Global,
    instance: &Instance,
    node: &Node,
    derived: &DerivedRows,
    ended: &Ended,
    q: usize,
    rises: bool,
) -> Result<Relaxed, Fault>
    requires { IsEnded (system_of instance.now derived.now (sides_of node.now.splits)) ended.now.dictionary ended.now.values.items (EndOf.Endless q rises) }
    ensures ok { IfOk result (IsRelaxed instance.now derived.now (sides_of node.now.splits)) }
    ensures err { IfErr result (IfNoFit (IsNodeFault instance.now derived.now (sides_of node.now.splits))) }
{
    let columns = instance.columns();
    let point = point_of(alloc, &ended.values, columns.len())?;
    let ray = ray(alloc, columns, &ended.dictionary, q, rises)?;
    Ok(Relaxed::Unbounded(Endless { point, ray }))
}
