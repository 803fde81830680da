// What holds of open leases, and of trees that are put in their places.
ghost use Rattle.std.specs.Prelude.{ℕ, ◌≡◌, ◌+◌, ◌≤◌, List, length, Option, IfSome};
ghost use Rattle.rational.specs.Rational.{Rational};
ghost use Rattle.verdicts.specs.Certificate.{Side as SideOf};
ghost use Rattle.turn_pool.specs.declared.view.View.{View};
ghost use Rattle.turn_pool.specs.Logs.{Has, GoesOn};
ghost use Rattle.turn_pool.specs.Calls.{Called};
ghost use Rattle.search_tree.specs.declared.leaf.Lease.{Lease};
ghost use Rattle.search_tree.specs.declared.leaf.Leaf.{Leaf};
ghost use Rattle.search_tree.specs.declared.event.Entry.{Entry};
ghost use Rattle.search_tree.specs.Tree.{Tree, AtLeaf, IsNotLeased, AllSplits, AllLeaves, made};
ghost use Rattle.search_tree.specs.Nodes.{IsHonestSplit, IsWorthwhile, KeepsLeaf};
ghost use Rattle.search_tree.specs.Board.{Board, IsTold};
ghost use Rattle.search_tree.specs.Steps.{IsOffer};
ghost use Rattle.search_tree.specs.Honest.{IsHonestWay};
ghost use Rattle.search_node.specs.Sides.{sides_of};
ghost use Rattle.board_pool.specs.declared.asked.LeasedLeaf.{LeasedLeaf};
ghost use Rattle.board_pool.specs.declared.asked.Asked.{Asked};
ghost use Rattle.board_pool.specs.declared.asked.Asked.TheVariants.{Leased};
ghost use Rattle.board_pool.specs.Asks.{IsAsked};
ghost use Rattle.board_pool.specs.Stuck.{IsNotStuck, NoneStuck};
ghost use Rattle.board_pool.specs.Touched.{touched};
ghost use Rattle.board_pool.specs.Searches.{log_of, IsOfSearch};
ghost use Rattle.board_pool.specs.OpenLeases.{IsLeasedBelow};
ghost use Rattle.board_pool.specs.Grafts.{MayBePut};

use search_tree::ways_of_boards;

/// A lease that a pass was given is open for it, its leaf stands on an honest way, the node that was told is that of the leaf,
/// and the limit leaves room below it for the splits that are granted. It stays open while the log goes on without the pass's
/// numbers (so when another pass makes an event, or a pass is split or joined), and behind an offer of its own.
pub fn leases_stay_open()
    ensures given { (v w : View Board Entry) (leaf : LeasedLeaf) →
        Called touched log_of IsOfSearch (λ seat b (asked : Asked) c. IsAsked b seat asked c) v (Leased leaf) w →
        (sides : List SideOf) × IsLeasedBelow v.key.first.value w.spans w.seen leaf.lease sides
        × IsHonestWay v.key.first.value.problem v.key.first.value.cuts v.key.first.value.split_limit sides
        × IfSome leaf.node (λ node. sides_of node.splits ≡ sides)
        × (length sides + leaf.lease.grant ≤ v.key.first.value.split_limit) }
    ensures goes_on { (first : Board) (spans more : List (ℕ × ℕ)) (seen log : List Entry) (lease : Lease) (sides : List SideOf) →
        IsLeasedBelow first spans seen lease sides → GoesOn touched spans seen log → ((k : ℕ) → Has spans k → Has more k) →
        IsLeasedBelow first more log lease sides }
    ensures offered { (v w : View Board Entry) (x : List Rational) (best : Option Rational) (lease : Lease) (sides : List SideOf) →
        Called touched log_of IsOfSearch (λ seat b (told : Option Rational) c. IsOffer b seat x told c) v best w →
        IsLeasedBelow v.key.first.value v.spans v.seen lease sides → IsLeasedBelow v.key.first.value w.spans w.seen lease sides }
{
    ways_of_boards();
}

/// In the place of a leaf that is leased a leaf may be put that says what holds of its node, against a value that was told,
/// where the work at it is not stuck; and a tree of such leaves, with honest splits, no more than are granted, each at a node
/// that beats the value that the lease told.
pub fn trees_of_leases()
    ensures leaf { (first : Board) (spans : List (ℕ × ℕ)) (log : List Entry) (lease : Lease) (sides : List SideOf) (goal : Option Rational)
        (leaf : Leaf) → IsLeasedBelow first spans log lease sides → IfSome goal (λ v. IsTold v log) →
        KeepsLeaf first.problem first.cuts first.pivot_limit goal sides leaf → IsNotLeased leaf → IsNotStuck leaf → MayBePut first spans log lease (AtLeaf leaf) }
    ensures tree { (first : Board) (spans : List (ℕ × ℕ)) (log : List Entry) (lease : Lease) (sides : List SideOf) (goal : Option Rational)
        (t : Tree) → IsLeasedBelow first spans log lease sides → IfSome goal (λ v. IsTold v log) →
        AllSplits (IsHonestSplit first.problem first.cuts) sides t → AllSplits (λ at s. IsWorthwhile first.problem first.cuts lease.best at) sides t →
        AllLeaves (KeepsLeaf first.problem first.cuts first.pivot_limit goal) sides t → AllLeaves (λ at leaf. IsNotLeased leaf) sides t → NoneStuck t →
        made t ≤ lease.grant → MayBePut first spans log lease t }
{}
