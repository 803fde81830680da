// The way to a node, and the tests of weights there.
ghost use Rattle.std.specs.Prelude.{◌≡◌, true, length, [], ◌∷◌, ◌++◌, IfOk, OnOk, OnErr, Some, None};
ghost use Rattle.verdicts.specs.Certificate.{Empty, Bound};
ghost use Rattle.verdicts.specs.Proves.{same_form, lower_under, upper_under};
ghost use Rattle.verdicts.specs.Migrated.{named};
ghost use Rattle.basis.specs.System.{unit_form};
ghost use Rattle.cert_check.specs.Made.{made_form};
ghost use Rattle.certificate.specs.Values.{node_of};
ghost use Rattle.certificate.specs.Ways.{side_of};
ghost use Rattle.cert_check.specs.Parts.{node_answer};
ghost use Rattle.search_node.specs.Sides.{sides_of};
ghost use Rattle.search_tree.specs.Work.{node_setting};
ghost use Rattle.search_tree.specs.Paths.{last_sides};
ghost use Rattle.search_tree.specs.Points.{AreOfColumns};

use crate::bounds::{lower_below, upper_below};
use cert_check::{makes_column, shows_no_point, shows_none_better};
use certificate::{ColumnSplit, DerivedRows, LeafWeights, Side, Tree, TreeNode, Weights};
use fraction::{Frac, NoFit};
use instance::Instance;
use migration::named;
use search_node::{SplitTaken, SplitsTaken};
use std::alloc::{AllocError, Global};
use std::marker::Model;

/// The splits on the way to a node, as the checker's tests of weights read them: a tree whose last place is the node; and as
/// they were taken.
#[derive(Drop)]
pub struct Path {
    alloc: Global,
    tree: Tree,
    splits: SplitsTaken,
}

impl Model for Path {
    ghost use Rattle.std.specs.Prelude.{List, ◌≡◌};
    ghost use Rattle.verdicts.specs.Certificate.{Side as SideOf};
    ghost use Rattle.search_node.specs.Sides.{sides_of};
    ghost use Rattle.search_tree.specs.Paths.{last_sides};
    ghost use Rattle.search_tree.specs.Points.{AreOfColumns};

    ghost Value = { List SideOf };

    ghost view = { λ p. last_sides p.tree };

    ghost invariant = { λ p. AreOfColumns (last_sides p.tree) × (last_sides p.tree ≡ sides_of p.splits) };
}

impl Path {
    // The path to the root.
    fn root(alloc: Global) -> Self
        ensures { result ≡ [] }
    {
        Path {
            alloc,
            tree: Tree::new(alloc),
            splits: SplitsTaken::new(alloc),
        }
    }

    /// The path below these splits.
    pub fn below(alloc: Global, splits: &SplitsTaken) -> Result<Self, AllocError>
        ensures { IfOk result (λ path. path ≡ sides_of splits.now) }
    {
        let all = splits.as_slice();
        let mut path = Path::root(alloc);
        let mut i = 0;
        while i < all.len() {
            let taken = &all[i];
            let longer = path.longer(alloc, taken.split, taken.side)?;
            path = longer;
            i += 1;
        }
        Ok(path)
    }

    // The path below one more split, on this side of it.
    fn longer(self, alloc: Global, split: ColumnSplit, side: Side) -> Result<Self, AllocError>
        ensures { IfOk result (λ path. path ≡ side_of split side ∷ self) }
    {
        let mut tree = self.tree;
        let mut splits = self.splits;
        let _column = split.column();
        turn(alloc, &mut tree, split, side)?;
        splits.push(SplitTaken { split, side })?;
        Ok(Path {
            alloc,
            tree,
            splits,
        })
    }

    /// The splits on the way are of columns.
    pub fn is_of_columns(&self)
        ensures { AreOfColumns self.now }
    {
        let _nodes = self.tree.as_slice();
    }

    /// The weights as a certificate has them at the node: where a split on the way gives the bound that the weight of a
    /// column uses, it is a weight of this split.
    pub fn named(
        &self,
        alloc: Global,
        problem: &Instance,
        weights: &Weights,
    ) -> Result<LeafWeights, AllocError>
        ensures { IfOk result (λ made. made ≡ named problem.now self.now weights.now) }
    {
        let place = self.tree.as_slice().len();
        named(alloc, problem, &self.tree, place, weights)
    }

    /// Whether the weights show that the node has no point, or the first operation on the way that does not fit. Memory is
    /// taken as in `check` of cert_check: without it the answer is the same, and takes longer.
    pub fn shows_no_point(
        &self,
        alloc: Global,
        problem: &Instance,
        cuts: &DerivedRows,
        weights: &LeafWeights,
    ) -> Result<bool, NoFit>
        ensures { result ≡ node_answer (node_setting problem.now cuts.now self.now) None (Empty weights.now) }
    {
        let place = self.tree.as_slice().len();
        shows_no_point(alloc, problem, cuts.as_slice(), &self.tree, place, weights)
    }

    /// Whether the weights show that the node has no point with a better value of the objective's form than this one, or
    /// the first operation on the way that does not fit. Memory is taken as in `shows_no_point`.
    pub fn shows_none_better(
        &self,
        alloc: Global,
        problem: &Instance,
        cuts: &DerivedRows,
        weights: &LeafWeights,
        value: Frac,
    ) -> Result<bool, NoFit>
        ensures { result ≡ node_answer (node_setting problem.now cuts.now self.now) (Some value) (Bound weights.now) }
    {
        let place = self.tree.as_slice().len();
        shows_none_better(
            alloc,
            problem,
            cuts.as_slice(),
            &self.tree,
            place,
            weights,
            value,
        )
    }

    // Whether the weights make a column alone; not where an operation on the way does not fit.
    pub(crate) fn makes_column(
        &self,
        problem: &Instance,
        cuts: &DerivedRows,
        weights: &Weights,
        column: u32,
    ) -> bool
        ensures { result ≡ true → same_form (length problem.now.columns) (made_form (node_setting problem.now cuts.now self.now) weights.now) (unit_form column) ≡ true }
    {
        let place = self.tree.as_slice().len();
        match makes_column(
            self.alloc,
            problem,
            cuts.as_slice(),
            &self.tree,
            place,
            weights,
            column,
        ) {
            Ok(makes) => makes,
            Err(_) => false,
        }
    }

    // The lower bound of a column under the splits on the way, or the whole number next to a split that does not fit.
    pub(crate) fn lower(&self, problem: &Instance, column: u32) -> Result<Option<Frac>, NoFit>
        ensures { IfOk result (λ bound. bound ≡ lower_under problem.now self.now column) }
    {
        lower_below(problem, self.splits.as_slice(), column)
    }

    // The upper bound of a column under the splits on the way.
    pub(crate) fn upper(&self, problem: &Instance, column: u32) -> Option<Frac>
        ensures { result ≡ upper_under problem.now self.now column }
    {
        upper_below(problem, self.splits.as_slice(), column)
    }
}

// One more split on the way to the last place, which is then on this side of it.
#[tactic(auto, using(crate::proofs::Paths::low_turn, crate::proofs::Paths::high_turn))]
fn turn(alloc: Global, tree: &mut Tree, split: ColumnSplit, side: Side) -> Result<(), AllocError>
    ensures { OnOk result (last_sides tree.new ≡ side_of split side ∷ last_sides tree.old) }
{
    let split = split.to_split(alloc)?;
    add(tree, TreeNode::Branch(split))?;
    match side {
        Side::Low => Ok(()),
        Side::High => add(tree, TreeNode::Empty(no_weights(alloc))),
    }
}

// A leaf's weights, of which there are none.
fn no_weights(alloc: Global) -> LeafWeights
    ensures { result ≡ record { rows = []; columns = []; derived = []; splits = [] } }
{
    LeafWeights::without_splits(alloc, Weights::none(alloc))
}

// One more node. After an error nothing has changed.
fn add(tree: &mut Tree, node: TreeNode) -> Result<(), AllocError>
    ensures ok { OnOk result (tree.new ≡ tree.old ++ node_of node ∷ []) }
    ensures kept { OnErr result (tree.new ≡ tree.old) }
{
    match tree.push(node) {
        Ok(()) => Ok(()),
        Err(_) => Err(AllocError),
    }
}
