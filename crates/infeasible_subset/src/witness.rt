// Members, each with a point that shows that it is needed.
ghost use Rattle.std.specs.Prelude.{◌≡◌, ◌++◌, [], ◌∷◌, OnOk, OnErr};

use crate::Member;
use certificate::{Certificate, DerivedRows, LeafWeights, Tree, TreeNode, Version};
use instance::{Instance, Point};
use std::alloc::{AllocError, Global};
use std::marker::Model;

/// A member of a subset, and a point that meets all the others.
#[derive(Drop)]
pub struct Witness {
    pub member: Member,
    pub point: Point,
}

/// The members of a subset, each with a point.
#[derive(Drop)]
pub struct Witnesses {
    witnesses: Vec<Witness>,
}

impl Model for Witnesses {
    ghost use Rattle.std.specs.Prelude.{List};
    ghost use Rattle.infeasible_subset.specs.declared.witness.Witness.{Witness as WitnessOf};

    ghost Value = { List WitnessOf };

    ghost view = { λ w. w.witnesses.items };
}

impl Witnesses {
    /// No members.
    pub(crate) fn new(alloc: Global) -> Self
        ensures { result ≡ [] }
    {
        Witnesses {
            witnesses: Vec::new(alloc),
        }
    }

    /// One more member, behind the others.
    pub(crate) fn push(&mut self, witness: Witness) -> Result<(), AllocError>
        ensures ok { OnOk result (self.new ≡ self.old ++ witness ∷ []) }
        ensures kept { OnErr result (self.new ≡ self.old) }
    {
        self.witnesses.push(witness)?;
        Ok(())
    }

    /// The members with their points, for reading.
    pub fn as_slice(&self) -> &[Witness]
        ensures { result.now ≡ self.now }
    {
        &self.witnesses
    }
}

/// An irreducible infeasible subset: its members, each with a point that meets the others, and weights that refute the
/// problem by the members alone.
#[derive(Drop)]
pub struct Subset {
    pub witnesses: Witnesses,
    pub weights: LeafWeights,
}

impl Subset {
    ghost use Rattle.std.specs.Prelude.{None, IfOk};
    ghost use Rattle.verdicts.specs.Certificate.{Infeasible, Empty};
    ghost use Rattle.verdicts.specs.Proves.{Proves};
    ghost use Rattle.basis.specs.Relaxation.{leaf_certificate};
    ghost use Rattle.cert_check.specs.Outcome.{Acceptance, outcome, trials};
    ghost use Rattle.infeasible_subset.specs.Subsets.{AreAccepted};

    /// The certificate that the problem has no feasible point, by the weights alone: it has no derived row, and its tree is
    /// one leaf. It is of version 2, and the checker accepts it.
    pub fn certificate(&self, alloc: Global, problem: &Instance) -> Result<Certificate, AllocError>
        requires { AreAccepted problem.now self.now.weights }
        ensures of_weights { IfOk result (λ c. c ≡ leaf_certificate problem.now Infeasible None None (Empty self.now.weights)) }
        ensures proves { IfOk result (λ c. Proves problem.now c) }
        ensures accepted { IfOk result (λ c. outcome (trials problem.now c) ≡ Acceptance) }
    {
        let mut tree = Tree::new(alloc);
        tree.push(TreeNode::Empty(self.weights.copy(alloc)?))?;
        problem.keeps_its_limits();
        let rows = problem.rows().len() as u32;
        let columns = problem.columns().len() as u32;
        let derived = DerivedRows::new(alloc);
        Ok(Certificate::infeasible(Version::Two, rows, columns, derived, tree))
    }
}
