// What becomes of a node.

use certificate::{ColumnSplit, LeafWeights};
use fraction::{Frac, NoFit};
use instance::Point;
use search_node::{Bases, Basis};
use simplex::Endless;

/// A feasible point that is better than the best, its value, and weights that show that the node has none better.
#[derive(Drop)]
pub struct Found {
    pub point: Point,
    pub value: Frac,
    pub weights: LeafWeights,
}

/// A split of an integer column whose number at an optimal point of the node's relaxation is not whole, the value of this
/// point, and the basis of it, from which the work at the nodes below may begin.
#[derive(Drop)]
pub struct Fractional {
    pub split: ColumnSplit,
    pub value: Frac,
    pub basis: Basis,
}

/// What becomes of a node, given the best value so far. Weights are those of a certificate's leaf, which name the splits on
/// the way.
#[derive(Drop)]
pub enum Treatment {
    /// It has no point, as the weights show.
    Refuted(LeafWeights),
    /// It has no point that is better than the best, as the weights show.
    Bounded(LeafWeights),
    /// An optimal point of its relaxation is feasible.
    Feasible(Found),
    /// It is to be split.
    ToSplit(Fractional),
    /// A ray improves the problem without end, from a point of its relaxation.
    Unbounded(Endless),
    /// An operation of the work on it does not fit.
    NotFitting(NoFit),
    /// Bland's run is longer than the limit of steps: the bases of the first steps.
    AtLimit(Bases),
}
