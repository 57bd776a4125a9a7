//! A board over one bounded queue.

ghost use Rattle.std.specs.Prelude.{◌≡◌};
ghost use Rattle.crossbeam_queue.specs.Passes.{IsPassOf};

use crate::board::Board;
use crate::rule::{Account, Count, Fair, GiveBack, LendAll, LendOne, Put, Roomy, TakeOut};
use crossbeam_queue::{Pass, RuledArrayQueue};
use dactl_model::graph::NodeId;
use std::alloc::{AllocError, Global};
use std::marker::Brand;
use std::sync::Wait;

/// Want of memory.
pub type Memory = AllocError;

type Queue = RuledArrayQueue<NodeId, Account, Fair>;

type Holder = Pass<NodeId, Account>;

/// A board whose nodes are taken in the order in which they were put.
///
/// Of a board with one hand the clauses are exact. With several hands they say of an offer that is
/// handed back, and of a take that gives nothing, only what was so for some accounts of the others,
/// and there are such accounts for any number of nodes: no clause rules out a board that hands every
/// offer back and gives nothing to any take.
#[derive(Drop)]
pub struct RuledBoard {
    queue: Queue,
    maker: Holder,
    hands: u8,
    ghost seated: { IsPassOf queue maker },
}

/// The hand of one worker on a `RuledBoard`.
#[derive(Drop)]
pub struct RuledHand {
    pass: Holder,
    back: u64,
}

impl RuledBoard {
    ghost use Rattle.std.specs.Prelude.{ℕ, ◌+◌, ◌*◌, ◌<◌, ◌++◌, [], All, List, length, IfOk};
    ghost use Rattle.std.specs.Prelude.{vec_len};
    ghost use Rattle.crossbeam_queue.specs.Passes.{view};
    ghost use Rattle.dactl_model.specs.declared.graph.NodeId.{NodeId};
    ghost use Rattle.dactl_queue.specs.Accounts.{Balances};
    ghost use Rattle.dactl_queue.specs.Boards.{put_of, taken_of, room_of, hands_of, share_of};
    ghost use Rattle.dactl_queue.specs.Boards.{parts_of, puts_of, takes_of, HandFits, IsFresh};
    ghost use Rattle.dactl_queue.specs.Boards.{IsSameBoard, IsOneOf};

    /// A board with room for `room` nodes, and its hands, which have done nothing.
    ///
    /// # Errors
    /// Memory where there is none. Nothing is left of the board then.
    pub fn new(alloc: Global, room: u32, hands: u8) -> Result<(RuledBoard, Vec<RuledHand>), Memory>
        requires room { 0 < room }
        requires hands { 0 < hands }
        ensures board { IfOk result (λ r. (room_of r.0 ≡ room) × (hands_of r.0 ≡ hands)) }
        ensures none { IfOk result (λ r. (puts_of r.0 ≡ []) × (takes_of r.0 ≡ [])) }
        ensures parts { IfOk result (λ r. parts_of r.0 + share_of r.0 * hands ≡ 256) }
        ensures hands { IfOk result (λ r. vec_len r.1 ≡ hands) }
        ensures fresh { IfOk result (λ r. All (IsFresh r.0) r.1.items) }
    {
        let mut dealt = Vec::with_capacity(alloc, usize::from(hands))?;
        let (queue, mut maker) = Queue::ruled(alloc, room as usize)?;
        if hands == 1 {
            let pass = queue.another::<LendAll>(&mut maker);
            dealt.push(RuledHand { pass, back: 0 })?;
        } else {
            RuledBoard::deal(&queue, &mut maker, &mut dealt, hands)?;
        }
        let board = RuledBoard {
            queue,
            maker,
            hands,
        };
        Ok((board, dealt))
    }

    /// Makes hands with one part each.
    fn deal(
        queue: &Queue,
        maker: &mut Holder,
        dealt: &mut Vec<RuledHand>,
        hands: u8,
    ) -> Result<(), Memory>
        requires maker { IsPassOf queue.now maker.old }
        requires whole { (view maker.old).parts ≡ 256 }
        requires none { ((view maker.old).put ≡ []) × ((view maker.old).taken ≡ []) }
        requires dealt { dealt.old.items ≡ [] }
        ensures maker { IfOk result (λ _. IsPassOf queue.now maker.new) }
        ensures parts { IfOk result (λ _. (view maker.new).parts + hands ≡ 256) }
        ensures put { IfOk result (λ _. (view maker.new).put ≡ []) }
        ensures taken { IfOk result (λ _. (view maker.new).taken ≡ []) }
        ensures count { IfOk result (λ _. vec_len dealt.new ≡ hands) }
        ensures each { IfOk result (λ _. All (IsOneOf queue.now) dealt.new.items) }
    {
        for _ in 0..hands {
            let pass = queue.another::<LendOne>(maker);
            dealt.push(RuledHand { pass, back: 0 })?;
        }
        Ok(())
    }

    /// Takes a hand back. The board keeps what the hand put and took.
    pub fn rejoin(&mut self, hand: RuledHand)
        requires { HandFits self.old hand }
        ensures same { IsSameBoard self.old self.new }
        ensures parts { parts_of self.new ≡ parts_of self.old + share_of self.old }
        ensures puts { puts_of self.new ≡ puts_of self.old ++ put_of hand }
        ensures takes { takes_of self.new ≡ takes_of self.old ++ taken_of hand }
    {
        let RuledHand { pass, back: _ } = hand;
        self.queue.absorb::<GiveBack>(&mut self.maker, pass);
    }

    /// The number of nodes left, once every hand is given back.
    pub fn close<R: Wait>(self, rt: &R) -> u64
        requires { parts_of self ≡ 256 }
        ensures { (left : List NodeId)
            × (length left ≡ result)
            × Balances (puts_of self) (takes_of self) left }
    {
        let RuledBoard {
            queue,
            mut maker,
            hands: _,
        } = self;
        queue.len_as::<Count, R>(rt, &mut maker) as u64
    }
}

impl RuledHand {
    ghost use Rattle.std.specs.Prelude.{◌<◌, MatchResult};
    ghost use Rattle.crossbeam_queue.specs.Passes.{view, IsSamePass, ruled_capacity};
    ghost use Rattle.crossbeam_queue.specs.Fifo.{Held};
    ghost use Rattle.dactl_queue.specs.Accounts.{Puts, IsMoment};

    /// Puts a node into the queue. `J` has the queue's room.
    fn put<J: Roomy, R: Wait>(
        rt: &R,
        queue: &Queue,
        pass: &mut Holder,
        node: NodeId,
    ) -> Result<(), NodeId>
        requires queue { IsPassOf queue.now pass.old }
        requires room { ruled_capacity queue.now ≡ J.room }
        requires part { 0 < (view pass.old).parts }
        ensures queue { IsSamePass pass.old pass.new }
        ensures rule { MatchResult result
            (λ _. Puts J.room (view pass.old) node (view pass.new))
            (λ x. (x ≡ node) × (view pass.new ≡ view pass.old)
            × Held J.room (IsMoment (view pass.old))) }
    {
        queue.push_as::<Put<J>, R>(rt, pass, node)
    }
}

impl Board for RuledBoard {
    ghost use Rattle.std.specs.Prelude.{ℕ, ◌+◌, ◌^◌, ◌-◌, ◌<◌, ◌++◌, ◌∷◌, [], List, length};
    ghost use Rattle.std.specs.Prelude.{MatchResult, MatchOption, OnErr, IfNone};
    ghost use Rattle.crossbeam_queue.specs.Fifo.{Held};
    ghost use Rattle.dactl_model.specs.declared.graph.NodeId.{NodeId};
    ghost use Rattle.dactl_queue.specs.Accounts.{IsMoment};
    ghost use Rattle.dactl_queue.specs.Boards.{account_of, put_of, taken_of, back_of, room_of};
    ghost use Rattle.dactl_queue.specs.Boards.{hands_of, HandFits};

    type Hand = RuledHand;

    ghost fits = { HandFits };

    ghost put = { put_of };

    ghost taken = { taken_of };

    ghost back = { back_of };

    /// Puts a node at the back, or hands it back where the queue is full. With several hands no
    /// clause says that it was full.
    fn offer<R: Wait>(&self, rt: &R, hand: &mut RuledHand, node: NodeId) -> Result<(), NodeId>
        requires hand { HandFits self.now hand.old }
        requires backs { back_of hand.old < 2 ^ 64 - 1 }
        ensures hand { HandFits self.now hand.new }
        ensures put { MatchResult result
            (λ _. put_of hand.new ≡ put_of hand.old ++ node ∷ [])
            (λ x. (x ≡ node) × (put_of hand.new ≡ put_of hand.old)) }
        ensures taken { taken_of hand.new ≡ taken_of hand.old }
        ensures back { MatchResult result
            (λ _. back_of hand.new ≡ back_of hand.old)
            (λ _. back_of hand.new ≡ back_of hand.old + 1) }
        ensures full { OnErr result (Held (room_of self.now) (IsMoment (account_of hand.old))) }
        ensures alone { hands_of self.now ≡ 1 → MatchResult result
            (λ _. length (put_of hand.old) < length (taken_of hand.old) + room_of self.now)
            (λ _. length (put_of hand.old) ≡ length (taken_of hand.old) + room_of self.now) }
    {
        let answer = RuledHand::put::<Brand, R>(rt, &self.queue, &mut hand.pass, node);
        if answer.is_err() {
            hand.back += 1;
        }
        answer
    }

    /// Takes the node at the front, or None where the queue is empty. With several hands no clause
    /// says that it was empty.
    fn take<R: Wait>(&self, rt: &R, hand: &mut RuledHand) -> Option<NodeId>
        requires { HandFits self.now hand.old }
        ensures hand { HandFits self.now hand.new }
        ensures put { put_of hand.new ≡ put_of hand.old }
        ensures taken { MatchOption result
            (taken_of hand.new ≡ taken_of hand.old)
            (λ x. taken_of hand.new ≡ taken_of hand.old ++ x ∷ []) }
        ensures back { back_of hand.new ≡ back_of hand.old }
        ensures empty { IfNone result (Held 0 (IsMoment (account_of hand.old))) }
        ensures alone { hands_of self.now ≡ 1 → MatchOption result
            (put_of hand.old ≡ taken_of hand.old)
            (λ x. (rest : List NodeId) × (put_of hand.old ≡ taken_of hand.old ++ x ∷ rest)) }
    {
        self.queue.pop_as::<TakeOut, R>(rt, &mut hand.pass)
    }
}
