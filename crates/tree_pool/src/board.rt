// Boards.
ghost use Rattle.std.specs.Prelude.{◌≡◌, [], length, option_map, cond, ◌+◌, ◌-◌, ◌^◌, ◌≤◌, min, true, false, None, Some, List, IfOk, IfSome, OnOk, OnErr, IfErr, MatchOption};
ghost use Rattle.std.specs.List.{AllByRecursion};
ghost use Rattle.rational.specs.Rational.{◌*ℚ◌};
ghost use Rattle.rational.specs.Compare.{is_less};
ghost use Rattle.milp.specs.Points.{Feasible, sign_of};
ghost use Rattle.certificate.specs.declared.split.Side.{Side as SideOf};
ghost use Rattle.search_node.specs.Sides.{sides_of};
ghost use Rattle.search_tree.specs.declared.leaf.Leaf.TheVariants.{Todo, Leased};
ghost use Rattle.search_tree.specs.Tree.{AtLeaf, AllLeaves, IsTodo, at_place, sides_to, made, leased_under};
ghost use Rattle.search_tree.specs.Board.{value_of, most_granted, IsTold};
ghost use Rattle.search_tree.specs.Kept.{AllPass, HasSums, IsKept, IsCovered};
ghost use Rattle.search_tree.specs.Steps.{MayGraft, IsGraft, IsOffer, IsReclaim, IsReplay};
ghost use Rattle.cert_check.specs.Outcome.{Acceptance, outcome, trials};
ghost use Rattle.partial_certificate.specs.Columns.{IsOfColumns};
ghost use Rattle.partial_certificate.specs.Outcome.{trials as partial_trials};
ghost use Rattle.search_tree.specs.Finished.{IsFinished, certificate_of};
ghost use Rattle.tree_pool.specs.Answers.{IsAnswer};
ghost use Rattle.tree_pool.specs.Places.{IsOpen};
ghost use Rattle.tree_pool.specs.Shown.{reached, shown_nodes, shown_of};

use crate::answer::LeaseAnswer;
use crate::choice::Order;
use crate::ledger::Ledger;
use crate::shown::with_value;
use crate::verdict::certificate_with;
use certificate::{Certificate, DerivedRows};
use fraction::Frac;
use instance::{Instance, Point, signed, value};
use milp::Direction;
use partial_certificate::{Best, PartialCertificate, PartialTree};
use search_node::{Node, SplitsTaken};
use search_tree::{Lease, MOST_GRANTED, Subtree};
use std::alloc::{AllocError, Global};
use std::marker::Model;

/// The state of a search over integer columns: a tree of splits, a best point, leases, and the log of events with their
/// replies. The board is the replay of its log, from the board at the start.
#[derive(Drop)]
pub struct Board {
    problem: Instance,
    cuts: DerivedRows,
    split_limit: usize,
    pivot_limit: u32,
    ledger: Ledger,
    best_value: Option<Frac>,
    splits_made: usize,
    splits_granted: usize,
}

impl Model for Board {
    ghost use Rattle.std.specs.Coded.{codes};
    ghost use Rattle.search_tree.specs.Slots.{tree_code};
    ghost use Rattle.search_tree.specs.Board.{Board as BoardOf};
    ghost use Rattle.search_tree.specs.Steps.{IsReplay};
    ghost use Rattle.search_tree.specs.Tree.{made, granted};
    ghost use Rattle.std.specs.Prelude.{◌≡◌, option_map};
    ghost use Rattle.milp.specs.Points.{objective_value};

    ghost Value = { BoardOf };

    ghost coded = { Prim.hlevel (codes, tree_code) };

    ghost view = { λ b. record {
      problem = b.problem;
      cuts = b.cuts;
      split_limit = b.split_limit;
      pivot_limit = b.pivot_limit;
      tree = b.ledger.tree;
      best = b.ledger.best;
      log = b.ledger.log;
    } };

    ghost invariant = { λ b. (b.splits_made ≡ made b.ledger.tree) × (b.splits_granted ≡ granted b.ledger.tree) × (b.best_value ≡ option_map (objective_value b.problem) b.ledger.best) × IsReplay (record {
      problem = b.problem;
      cuts = b.cuts;
      split_limit = b.split_limit;
      pivot_limit = b.pivot_limit;
      tree = b.ledger.tree;
      best = b.ledger.best;
      log = b.ledger.log;
    }) };
}

impl Board {
    /// The board at the start of a search: one leaf to be worked on, and no best point. The cuts pass the checker's test.
    pub fn start(
        alloc: Global,
        problem: Instance,
        cuts: DerivedRows,
        split_limit: usize,
        pivot_limit: u32,
    ) -> Result<Board, AllocError>
        requires cuts { AllPass problem cuts }
        ensures { IfOk result (λ b. b ≡ record {
          problem = problem;
          cuts = cuts;
          split_limit = split_limit;
          pivot_limit = pivot_limit;
          tree = AtLeaf (Todo tt);
          best = None;
          log = [];
        }) }
    {
        let ledger = Ledger::new(alloc)?;
        Ok(Board {
            problem,
            cuts,
            split_limit,
            pivot_limit,
            ledger,
            best_value: None,
            splits_made: 0,
            splits_granted: 0,
        })
    }

    /// Leases a leaf that is to be worked on, or tells that there is none. After an error nothing has changed.
    pub fn lease(&mut self, alloc: Global, seat: usize) -> Result<LeaseAnswer, AllocError>
        ensures ok { IfOk result (λ a. IsAnswer self.old seat a self.new) }
        ensures kept { OnErr result (self.new ≡ self.old) }
    {
        let order = self.order();
        match self.ledger.chosen(order) {
            None => self.idle(alloc, seat),
            Some(place) => self.lease_at(alloc, seat, place),
        }
    }

    // What the choice of a leaf goes by.
    fn order(&self) -> Order {
        Order {
            direction: self.problem.direction(),
            has_best: self.best_value.is_some(),
        }
    }

    // Tells that no leaf is to be worked on.
    fn idle(&mut self, alloc: Global, seat: usize) -> Result<LeaseAnswer, AllocError>
        requires { AllLeaves (λ sides leaf. ¬ (IsTodo leaf)) [] self.old.tree }
        ensures ok { IfOk result (λ a. IsAnswer self.old seat a self.new) }
        ensures kept { OnErr result (self.new ≡ self.old) }
    {
        let count = self.ledger.leased(alloc)?;
        self.ledger.idle(seat, count)?;
        Ok(LeaseAnswer::Idle(count))
    }

    // Leases the leaf at this place.
    fn lease_at(
        &mut self,
        alloc: Global,
        seat: usize,
        place: usize,
    ) -> Result<LeaseAnswer, AllocError>
        ensures ok { IfOk result (λ a. IsAnswer self.old seat a self.new) }
        ensures kept { OnErr result (self.new ≡ self.old) }
    {
        let hint = self.ledger.hint(alloc, place)?;
        let number = self.ledger.count();
        let grant = next_grant(self.splits_made, self.splits_granted, self.split_limit);
        let best = self.best_value;
        let lease = Lease {
            number,
            grant,
            best,
        };
        self.ledger.lease(alloc, place, seat, lease.copy())?;
        self.splits_granted = self.splits_granted.saturating_add(grant);
        Ok(LeaseAnswer::Leased(lease, hint))
    }

    /// Puts a tree in the place of the leaf that is leased, and tells the best value. After an error nothing has changed,
    /// and the tree comes back.
    pub fn graft(
        &mut self,
        alloc: Global,
        seat: usize,
        lease: Lease,
        tree: Subtree,
    ) -> Result<Option<Frac>, Subtree>
        requires { (way : List SideOf) × MayGraft self.old way lease tree }
        ensures ok { IfOk result (λ best. IsGraft self.old seat lease tree best self.new) }
        ensures kept { OnErr result (self.new ≡ self.old) }
        ensures back { IfErr result (λ t. t ≡ tree) }
    {
        let made = tree.splits();
        let grant = lease.grant;
        let best = self.best_value;
        let told = self.best_value;
        self.ledger.graft(seat, lease, tree, told)?;
        self.splits_made = sum(self.splits_made, made, self.split_limit);
        self.splits_granted = self.splits_granted.saturating_sub(grant);
        Ok(best)
    }

    /// Keeps the better one of a feasible point, whose sums fit, and the best one, and tells its value. After an error
    /// nothing has changed, and the point comes back.
    pub fn offer(&mut self, seat: usize, point: Point) -> Result<Option<Frac>, Point>
        requires feasible { Feasible self.old.problem point }
        requires sums { HasSums self.old.problem point }
        ensures ok { IfOk result (λ best. IsOffer self.old seat point best self.new) }
        ensures kept { OnErr result (self.new ≡ self.old) }
        ensures back { IfErr result (λ x. x ≡ point) }
    {
        let Ok(value) = value(&self.problem, &point) else {
            return Err(point);
        };
        let better = is_better(self.problem.direction(), value, &self.best_value);
        let best = better_value(better, value, &self.best_value);
        let told = better_value(better, value, &self.best_value);
        let kept = better_value(better, value, &self.best_value);
        self.ledger.offer(seat, point, better, told)?;
        self.best_value = kept;
        Ok(best)
    }
}

impl Board {
    /// Leased leaves are to be worked on again, and nothing is granted. After an error nothing has changed.
    pub fn reclaim(&mut self, alloc: Global) -> Result<(), AllocError>
        ensures ok { OnOk result (IsReclaim self.old self.new) }
        ensures kept { OnErr result (self.new ≡ self.old) }
    {
        self.ledger.reclaim(alloc)?;
        self.splits_granted = 0;
        Ok(())
    }

    /// The open lease of this number, if there is one.
    pub fn open_lease(&self, number: usize) -> Option<Lease>
        ensures number { IfSome result (λ lease. lease.number ≡ number) }
        ensures open { IfSome result (IsOpen self.now.tree) }
        ensures none { result ≡ None → leased_under number self.now.tree ≡ 0 }
    {
        self.ledger.open_lease(number)
    }

    /// The node of the leaf that is leased, with the splits on its way, the first of them first.
    pub fn node(&self, alloc: Global, lease: Lease) -> Result<Node, AllocError>
        ensures { IfOk result (λ node. (way : List SideOf) → at_place self.now.tree way ≡ Some (AtLeaf (Leased lease)) → sides_of node.splits ≡ sides_to self.now.tree way []) }
    {
        let taken = self.ledger.splits_under(alloc, lease.number)?;
        Ok(Node {
            root_basis: None,
            splits: SplitsTaken::from_vec(taken),
        })
    }

    /// The problem.
    pub fn problem(&self) -> &Instance
        ensures { result.now ≡ self.now.problem }
    {
        &self.problem
    }

    /// The cuts.
    pub fn cuts(&self) -> &DerivedRows
        ensures { result.now ≡ self.now.cuts }
    {
        &self.cuts
    }

    /// The best point, if there is one.
    pub fn best(&self) -> Option<&Point>
        ensures { option_map (λ x. x.now) result ≡ self.now.best }
    {
        self.ledger.best()
    }

    /// The value of the best point, if there is one. A reply told it.
    pub fn best_value(&self) -> Option<Frac>
        ensures value { result ≡ value_of self.now }
        ensures told { IfSome result (λ v. IsTold v self.now.log) }
    {
        self.best_value
    }

    /// The number of splits.
    pub fn splits(&self) -> usize
        ensures { result ≡ made self.now.tree }
    {
        self.splits_made
    }

    /// The board is the replay of its log, and so it is kept: each feasible point that is better than the best lies in a
    /// leaf that is not closed. A call does nothing: it says that what follows rests on this.
    pub fn keeps_its_log(&self)
        ensures replay { IsReplay self.now }
        ensures kept { IsKept self.now }
        ensures covered { IsCovered self.now }
    {
        let _ledger = &self.ledger;
    }

    /// Whether all leaves are closed.
    pub fn is_finished(&self) -> bool
        ensures yes { result ≡ true → IsFinished self.now }
        ensures no { result ≡ false → ¬ (IsFinished self.now) }
    {
        self.ledger.is_finished()
    }

    /// The certificate of a board whose leaves are all closed: the checker accepts it. Where memory is wanting the board
    /// comes back.
    pub fn into_certificate(self, alloc: Global) -> Result<Certificate, Board>
        requires { IsFinished self }
        ensures ok { IfOk result (λ c. c ≡ certificate_of self) }
        ensures accepted { IfOk result (λ c. outcome (trials self.problem c) ≡ Acceptance) }
        ensures back { IfErr result (λ b. b ≡ self) }
    {
        self.keeps_its_log();
        self.certified(alloc)
    }

    // The same, without the check.
    fn certified(self, alloc: Global) -> Result<Certificate, Board>
        requires { IsFinished self }
        ensures ok { IfOk result (λ c. c ≡ certificate_of self) }
        ensures back { IfErr result (λ b. b ≡ self) }
    {
        let Ok(tree) = self.ledger.closed_tree(alloc) else {
            return Err(self);
        };
        let Ok(best) = self.ledger.best_copy(alloc) else {
            return Err(self);
        };
        let rows = self.rows();
        let columns = self.columns();
        let Board {
            cuts,
            best_value,
            ..
        } = self;
        Ok(certificate_with(rows, columns, cuts, tree, best, best_value))
    }

    /// What the board has shown so far, at any time: its best point, and its tree, in which each leaf that is not closed is left
    /// to do. The check of partial certificates accepts it, and its splits are of columns.
    pub fn shown(&self, alloc: Global) -> Result<PartialCertificate, AllocError>
        ensures same { IfOk result (λ c. c ≡ shown_of self.now) }
        ensures splits { IfOk result (λ c. AllByRecursion IsOfColumns c.tree) }
        ensures accepted { IfOk result (λ c. outcome (partial_trials self.now.problem c) ≡ Acceptance) }
    {
        self.keeps_its_log();
        self.shown_parts(alloc)
    }

    // The same, without the check.
    fn shown_parts(&self, alloc: Global) -> Result<PartialCertificate, AllocError>
        ensures { IfOk result (λ c. c ≡ shown_of self.now) }
    {
        self.keeps_its_log();
        let tree = self.shown_tree(alloc)?;
        let best = self.shown_best(alloc)?;
        let cuts = self.cuts().copy(alloc)?;
        Ok(PartialCertificate::new(self.rows(), self.columns(), best, cuts, tree))
    }

    // The tree of a partial certificate.
    fn shown_tree(&self, alloc: Global) -> Result<PartialTree, AllocError>
        ensures { IfOk result (λ t. t ≡ shown_nodes self.now.tree) }
    {
        self.ledger.shown_tree(alloc)
    }

    // The best point with its value.
    fn shown_best(&self, alloc: Global) -> Result<Option<Best>, AllocError>
        ensures { IfOk result (λ best. best ≡ option_map (reached self.now.problem) self.now.best) }
    {
        let point = self.ledger.best_copy(alloc)?;
        Ok(with_value(point, self.best_value))
    }

    // The number of rows of the problem.
    fn rows(&self) -> u32
        ensures { result ≡ length self.now.problem.rows }
    {
        self.problem.keeps_its_limits();
        self.problem.rows().len() as u32
    }

    // The number of columns of the problem.
    fn columns(&self) -> u32
        ensures { result ≡ length self.now.problem.columns }
    {
        self.problem.keeps_its_limits();
        self.problem.columns().len() as u32
    }

    /// The number of events.
    pub fn events(&self) -> usize
        ensures { result ≡ length self.now.log }
    {
        self.ledger.count()
    }
}

// The value is better than the best, where there is one.
fn is_better(direction: Direction, value: Frac, best: &Option<Frac>) -> bool
    ensures { MatchOption best.now (result ≡ true) (λ b. result ≡ is_less (sign_of direction *ℚ value) (sign_of direction *ℚ b)) }
{
    match *best {
        None => true,
        Some(best) => signed(direction, value) < signed(direction, best),
    }
}

// The better one of two values.
fn better_value(better: bool, value: Frac, best: &Option<Frac>) -> Option<Frac>
    ensures { result ≡ cond better (Some value) best.now }
{
    if better { Some(value) } else { *best }
}

// The splits that the limit leaves beside those that are made and granted, and no more than a lease may grant.
fn next_grant(made: usize, granted: usize, limit: usize) -> usize
    ensures grant { result ≡ min most_granted (limit - (made + granted)) }
    ensures limit { limit ≤ 2 ^ 64 - 1 }
{
    let left = limit.saturating_sub(made.saturating_add(granted));
    left.min(MOST_GRANTED)
}

// The sum of two numbers, where it is at most the limit.
fn sum(a: usize, b: usize, limit: usize) -> usize
    ensures { a + b ≤ limit → result ≡ a + b }
{
    a.saturating_add(b)
}
