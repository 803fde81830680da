// The board of a search as a machine.
ghost use Rattle.std.specs.Prelude.{◌≡◌, List, IfOk, OnErr, IfErr};
ghost use Rattle.milp.specs.Points.{Feasible};
ghost use Rattle.certificate.specs.declared.split.Side.{Side as SideOf};
ghost use Rattle.search_tree.specs.Kept.{HasSums};
ghost use Rattle.search_tree.specs.Steps.{MayGraft, IsGraft, IsOffer, IsReplay};
ghost use Rattle.board_pool.specs.Asks.{IsAsked};
ghost use Rattle.board_pool.specs.Touched.{touched};
ghost use Rattle.board_pool.specs.Searches.{IsOfSearch, nowhere};

use crate::asked::{Asked, leased};
use fraction::Frac;
use instance::Point;
use search_tree::{Entry, Lease, Subtree};
use std::alloc::{AllocError, Global};
use std::marker::Model;
use tree_pool::Board;
use turn_pool::Machine;

/// The board of a search, which workers share.
#[derive(Drop)]
pub struct SharedBoard {
    board: Board,
}

impl Model for SharedBoard {
    ghost use Rattle.std.specs.Coded.{codes};
    ghost use Rattle.search_tree.specs.Slots.{tree_code};
    ghost use Rattle.search_tree.specs.Board.{Board as BoardOf};

    ghost Value = { BoardOf };

    ghost coded = { Prim.hlevel (codes, tree_code) };

    ghost view = { λ b. b.board };
}

impl SharedBoard {
    /// The board, to be shared.
    pub fn new(board: Board) -> SharedBoard
        ensures { result ≡ board }
    {
        SharedBoard { board }
    }

    /// The board, which is no longer shared.
    pub fn into_board(self) -> Board
        ensures { result ≡ self }
    {
        self.board
    }

    // Leases a leaf that is to be worked on, or tells that there is none.
    pub(crate) fn lease(&mut self, alloc: Global, seat: u32) -> Result<Asked, AllocError>
        ensures ok { IfOk result (λ asked. IsAsked self.old seat asked self.new) }
        ensures kept { OnErr result (self.new ≡ self.old) }
    {
        leased(alloc, &mut self.board, seat)
    }

    // Puts a tree in the place of the leaf that is leased, and tells the best value.
    pub(crate) fn graft(
        &mut self,
        alloc: Global,
        seat: u32,
        lease: Lease,
        tree: Subtree,
    ) -> Result<Option<Frac>, Subtree>
        requires { (way : List SideOf) × MayGraft self.old way lease tree }
        ensures ok { IfOk result (λ best. IsGraft self.old seat lease tree best self.new) }
        ensures kept { OnErr result (self.new ≡ self.old) }
        ensures back { IfErr result (λ t. t ≡ tree) }
    {
        self.board.graft(alloc, seat as usize, lease, tree)
    }

    // Keeps the better one of a feasible point and the best one, and tells its value.
    pub(crate) fn offer(&mut self, seat: u32, point: Point) -> Result<Option<Frac>, Point>
        requires feasible { Feasible self.old.problem point }
        requires sums { HasSums self.old.problem point }
        ensures ok { IfOk result (λ best. IsOffer self.old seat point best self.new) }
        ensures kept { OnErr result (self.new ≡ self.old) }
        ensures back { IfErr result (λ x. x ≡ point) }
    {
        self.board.offer(seat as usize, point)
    }

    // The board is the replay of its log.
    pub(crate) fn keeps_its_log(&self)
        ensures { IsReplay self.now }
    {
        self.board.keeps_its_log();
    }
}

impl Machine for SharedBoard {
    type Entry = Entry;

    ghost log = { λ b. b.log };

    ghost touched = { touched };

    ghost replays = { IsOfSearch };

    ghost blank = { nowhere };

    fn events(&self) -> usize {
        self.board.events()
    }
}
