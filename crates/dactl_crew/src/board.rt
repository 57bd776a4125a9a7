//! What a crew needs of a board, beside handing nodes over.

ghost use Rattle.std.specs.Prelude.{◌≡◌, ℕ, ◌+◌, ◌*◌, ◌^◌, ◌<◌, ◌≤◌, ◌++◌, [], All, List, IfOk};
ghost use Rattle.std.specs.Prelude.{length, vec_len};
ghost use Rattle.dactl_model.specs.declared.graph.NodeId.{NodeId};
ghost use Rattle.dactl_queue.specs.Accounts.{Balances};
ghost use Rattle.dactl_crew.specs.Boards.{IsNewHand};

use dactl_model::Memory;
use dactl_model::graph::NodeId;
use dactl_queue::{Board, RuledBoard, RuledHand};
use dactl_steal::{StealBoard, StealHand};
use std::alloc::Global;
use std::sync::Wait;

/// How many nodes the one queue of a ruled board has room for.
const QUEUE_ROOM: u32 = 4_096;

/// How many nodes the reserve of each hand of a stealing board has room for.
const RESERVE_ROOM: u32 = 65_536;

/// A board that is made with all its hands, gets them back one by one, and is closed then.
pub trait CrewBoard: Board + Drop {
    /// What holds of the board between its calls.
    ghost is_sound: { Self → Type 0 };

    /// How many of the 256 parts of the whole are with the board itself.
    ghost parts: { Self → ℕ };

    /// How many of them each hand that is out has.
    ghost share: { Self → ℕ };

    /// The nodes that the hands put that were given back.
    ghost puts: { Self → List NodeId };

    /// The nodes that they took.
    ghost takes: { Self → List NodeId };

    /// A board with so many hands, which have done nothing.
    ///
    /// # Errors
    /// Memory where there is none. Nothing is left of the board then.
    fn make(alloc: Global, hands: u8) -> Result<(Self, Vec<Self::Hand>), Memory>
    where
        Self: Sized,
        requires { 0 < hands }
        ensures sound { IfOk result (λ r. is_sound r.0) }
        ensures parts { IfOk result (λ r. parts r.0 + share r.0 * hands ≡ 256) }
        ensures none { IfOk result (λ r. (puts r.0 ≡ []) × (takes r.0 ≡ [])) }
        ensures hands { IfOk result (λ r. vec_len r.1 ≡ hands) }
        ensures fresh { IfOk result (λ r.
            All (IsNewHand (Self.fits r.0) Self.put Self.taken Self.back) r.1.items) };

    /// Takes a hand back. Those that are still out stay hands of this board.
    fn take_back(&mut self, hand: Self::Hand)
        requires sound { is_sound self.old }
        requires hand { Self.fits self.old hand }
        ensures sound { is_sound self.new }
        ensures hands { (other : Self.Hand) → Self.fits self.old other → Self.fits self.new other }
        ensures parts { parts self.new ≡ parts self.old + share self.old }
        ensures share { share self.new ≡ share self.old }
        ensures puts { puts self.new ≡ puts self.old ++ Self.put hand }
        ensures takes { takes self.new ≡ takes self.old ++ Self.taken hand };

    /// The number of nodes left, once every hand was given back.
    fn count_left<R: Wait>(self, rt: &R) -> u64
    where
        Self: Sized,
        requires sound { is_sound self }
        requires whole { parts self ≡ 256 }
        requires few { length (puts self) < 2 ^ 64 }
        ensures { (left : List NodeId)
            × (length left ≡ result)
            × Balances (puts self) (takes self) left };
}

impl CrewBoard for RuledBoard {
    ghost use Rattle.dactl_queue.specs.Boards.{parts_of, share_of, puts_of, takes_of};

    ghost is_sound = { λ _. Unit {0} };

    ghost parts = { parts_of };

    ghost share = { share_of };

    ghost puts = { puts_of };

    ghost takes = { takes_of };

    fn make(alloc: Global, hands: u8) -> Result<(RuledBoard, Vec<RuledHand>), Memory> {
        RuledBoard::new(alloc, QUEUE_ROOM, hands)
    }

    fn take_back(&mut self, hand: RuledHand) {
        self.rejoin(hand);
    }

    fn count_left<R: Wait>(self, rt: &R) -> u64 {
        self.close(rt)
    }
}

impl CrewBoard for StealBoard {
    ghost use Rattle.dactl_steal.specs.Boards.{IsBoard, parts_of, puts_of, takes_of};

    ghost is_sound = { IsBoard };

    ghost parts = { parts_of };

    ghost share = { λ _. 1 };

    ghost puts = { puts_of };

    ghost takes = { takes_of };

    fn make(alloc: Global, hands: u8) -> Result<(StealBoard, Vec<StealHand>), Memory> {
        StealBoard::new(alloc, RESERVE_ROOM, hands)
    }

    fn take_back(&mut self, hand: StealHand) {
        self.rejoin(hand);
    }

    fn count_left<R: Wait>(self, rt: &R) -> u64 {
        let _ = rt;
        self.close()
    }
}
