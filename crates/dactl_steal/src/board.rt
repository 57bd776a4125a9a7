//! A board with a deque for each hand.

use crate::closing::all_left;
use crate::making::{deal, places_of, thieves_of};
use crate::other::Other;
use crate::own::Own;
use crate::roll::{Badge, Return, Roll, Stand, note_put, note_taken};
use crate::rule::Thief;
use crate::sharing::share_out;
use crate::stealing::steal;
use dactl_model::graph::NodeId;
use dactl_queue::Board;
use std::alloc::{AllocError, Global};
use std::marker::Brand;
use std::sync::Wait;

/// Want of memory.
pub type Memory = AllocError;

/// A board on which each hand puts nodes into a deque of its own, and takes them from there, or
/// from the front of another hand's deque where it has none.
///
/// Of a board with one hand the clauses are exact on how many nodes there are. With several hands
/// they say of a take that gives nothing only what was so for some accounts of the others: no
/// clause rules out a board that gives nothing to any take.
#[derive(Drop)]
pub struct StealBoard {
    roll: Roll,
    keeper: Badge,
    thieves: Vec<Thief>,
    /// What the hands had of their own that were given back.
    owns: Vec<Option<Own>>,
    /// What those hands had of the others' deques.
    rows: Vec<Vec<Option<Other>>>,
    room: u32,
}

/// The hand of one worker on a `StealBoard`.
#[derive(Drop)]
pub struct StealHand {
    pub(crate) number: u8,
    pub(crate) own: Own,
    pub(crate) others: Vec<Option<Other>>,
    pub(crate) badge: Badge,
    pub(crate) back: u64,
}

impl StealBoard {
    ghost use Rattle.std.specs.Prelude.{◌≡◌, ℕ, ◌+◌, ◌^◌, ◌<◌, ◌++◌, [], All, List, length, IfOk};
    ghost use Rattle.std.specs.Prelude.{vec_len};
    ghost use Rattle.dactl_model.specs.declared.graph.NodeId.{NodeId};
    ghost use Rattle.dactl_queue.specs.Accounts.{Balances};
    ghost use Rattle.dactl_steal.specs.Boards.{put_of, taken_of, room_of, hands_of, parts_of};
    ghost use Rattle.dactl_steal.specs.Boards.{puts_of, takes_of, HandFits, IsBoard, IsFresh};
    ghost use Rattle.dactl_steal.specs.Boards.{IsSameBoard};

    /// A board with a deque for each of so many hands, of which each has a reserve for `room`
    /// nodes, and its hands, which have done nothing.
    ///
    /// # Errors
    /// Memory where there is none. Nothing is left of the board then.
    pub fn new(alloc: Global, room: u32, hands: u8) -> Result<(StealBoard, Vec<StealHand>), Memory>
        requires room { 0 < room }
        requires hands { 0 < hands }
        ensures sound { IfOk result (λ r. IsBoard r.0) }
        ensures board { IfOk result (λ r. (room_of r.0 ≡ room) × (hands_of r.0 ≡ hands)) }
        ensures none { IfOk result (λ r. (puts_of r.0 ≡ []) × (takes_of r.0 ≡ [])) }
        ensures parts { IfOk result (λ r. parts_of r.0 + hands ≡ 256) }
        ensures hands { IfOk result (λ r. vec_len r.1 ≡ hands) }
        ensures fresh { IfOk result (λ r. All (IsFresh r.0) r.1.items) }
    {
        let (roll, mut keeper) = Roll::ruled(alloc, 1)?;
        let mut dealt = deal(alloc, &roll, &mut keeper, room, hands)?;
        let thieves = thieves_of(alloc, dealt.as_slice())?;
        share_out(alloc, dealt.as_mut_slice())?;
        let (owns, rows) = places_of(alloc, hands)?;
        let board = StealBoard {
            roll,
            keeper,
            thieves,
            owns,
            rows,
            room,
        };
        Ok((board, dealt))
    }

    /// Takes a hand back. The board keeps what the hand put and took.
    pub fn rejoin(&mut self, hand: StealHand)
        requires board { IsBoard self.old }
        requires hand { HandFits self.old hand }
        ensures board { IsBoard self.new }
        ensures same { IsSameBoard self.old self.new }
        ensures parts { parts_of self.new ≡ parts_of self.old + 1 }
        ensures puts { puts_of self.new ≡ puts_of self.old ++ put_of hand }
        ensures takes { takes_of self.new ≡ takes_of self.old ++ taken_of hand }
    {
        let StealHand {
            number,
            own,
            others,
            badge,
            back: _,
        } = hand;
        self.roll.absorb::<Return>(&mut self.keeper, badge);
        self.roll.learn_as::<Stand>(&mut self.keeper);
        let place = usize::from(number);
        self.owns[place] = Some(own);
        self.rows[place] = others;
    }

    /// The number of nodes left in deques and reserves, once every hand is given back.
    pub fn close(self) -> u64
        requires board { IsBoard self }
        requires whole { parts_of self ≡ 256 }
        requires few { length (puts_of self) < 2 ^ 64 }
        ensures { (left : List NodeId)
            × (length left ≡ result)
            × Balances (puts_of self) (takes_of self) left }
    {
        let StealBoard {
            roll,
            mut keeper,
            thieves: _,
            owns,
            rows,
            room: _,
        } = self;
        roll.learn_as::<Stand>(&mut keeper);
        all_left(owns, rows)
    }
}

impl StealHand {
    ghost use Rattle.std.specs.Prelude.{◌≡◌, ℕ, ◌+◌, ◌<◌, ◌⊎◌, [], length, MatchOption};
    ghost use Rattle.dactl_model.specs.declared.graph.NodeId.{NodeId};
    ghost use Rattle.dactl_steal.specs.Boards.{kept_of, SameHand, FoundNone};
    ghost use Rattle.dactl_steal.specs.Others.{AreUsable, stolen};
    ghost use Rattle.dactl_steal.specs.Owns.{account_of, weight_in, weight_out, IsUsable};

    /// A node of the hand's own, else one of another hand's deque. It is not noted yet.
    fn find<R: Wait>(&mut self, rt: &R) -> Option<NodeId>
        requires own { IsUsable self.old.own }
        requires others { AreUsable self.old.others.items }
        ensures same { SameHand self.old self.new }
        ensures found { MatchOption result
            (FoundNone self.new × (kept_of self.old ≡ [])
            × (account_of self.new.own ≡ account_of self.old.own)
            × ((weight : NodeId → ℕ)
            → stolen weight self.new.others.items ≡ stolen weight self.old.others.items))
            (λ x. (weight : NodeId → ℕ)
            → weight_in weight self.old.own + weight_out weight self.new.own
            + stolen weight self.new.others.items ≡ weight_in weight self.new.own
            + weight_out weight self.old.own + stolen weight self.old.others.items + weight x) }
        ensures alone { (account_of self.old.own).parts ≡ 256 → MatchOption result
            (length (account_of self.old.own).taken ≡ length (account_of self.old.own).put)
            (λ _. (length (account_of self.old.own).taken
            < length (account_of self.old.own).put + length (kept_of self.old))
            ⊎ (stolen (λ _. 1) self.new.others.items
            ≡ stolen (λ _. 1) self.old.others.items + 1)) }
    {
        if let Some(node) = self.own.take() {
            return Some(node);
        }
        steal(rt, self.others.as_mut_slice())
    }
}

impl Board for StealBoard {
    ghost use Rattle.std.specs.Prelude.{◌≡◌, ℕ, ◌+◌, ◌^◌, ◌-◌, ◌<◌, ◌≤◌, ◌++◌, ◌∷◌, [], List};
    ghost use Rattle.std.specs.Prelude.{length, MatchResult, MatchOption, OnErr, IfNone};
    ghost use Rattle.dactl_model.specs.declared.graph.NodeId.{NodeId};
    ghost use Rattle.dactl_steal.specs.Boards.{put_of, taken_of, back_of, kept_of, room_of};
    ghost use Rattle.dactl_steal.specs.Boards.{hands_of, HandFits, FoundNone};

    type Hand = StealHand;

    ghost fits = { HandFits };

    ghost put = { put_of };

    ghost taken = { taken_of };

    ghost back = { back_of };

    /// Puts a node at the back of the hand's deque, or of its reserve where the deque cannot grow.
    /// Hands it back where there the reserve is full.
    fn offer<R: Wait>(&self, rt: &R, hand: &mut StealHand, node: NodeId) -> Result<(), NodeId>
        requires hand { HandFits self.now hand.old }
        requires backs { back_of hand.old < 2 ^ 64 - 1 }
        ensures hand { HandFits self.now hand.new }
        ensures put { MatchResult result
            (λ _. put_of hand.new ≡ put_of hand.old ++ node ∷ [])
            (λ x. (x ≡ node) × (put_of hand.new ≡ put_of hand.old)) }
        ensures taken { taken_of hand.new ≡ taken_of hand.old }
        ensures back { MatchResult result
            (λ _. back_of hand.new ≡ back_of hand.old)
            (λ _. back_of hand.new ≡ back_of hand.old + 1) }
        ensures full { OnErr result ((length (kept_of hand.old) ≡ room_of self.now)
            × (room_of self.now ≤ length (put_of hand.old))) }
    {
        let _ = rt;
        if let Err(node) = hand.own.put(node) {
            hand.back += 1;
            return Err(node);
        }
        note_put::<Brand>(&self.roll, &mut hand.badge, node);
        Ok(())
    }

    /// Takes the node at the front of the hand's deque, else of its reserve, else of the first
    /// other deque that has one, in the order of the hands. With several hands no clause says that
    /// all deques were empty where there is none.
    fn take<R: Wait>(&self, rt: &R, hand: &mut StealHand) -> Option<NodeId>
        requires { HandFits self.now hand.old }
        ensures hand { HandFits self.now hand.new }
        ensures put { put_of hand.new ≡ put_of hand.old }
        ensures taken { MatchOption result
            (taken_of hand.new ≡ taken_of hand.old)
            (λ x. taken_of hand.new ≡ taken_of hand.old ++ x ∷ []) }
        ensures back { back_of hand.new ≡ back_of hand.old }
        ensures empty { IfNone result (FoundNone hand.new) }
        ensures alone { hands_of self.now ≡ 1 → MatchOption result
            (length (put_of hand.old) ≡ length (taken_of hand.old))
            (λ _. length (taken_of hand.old) < length (put_of hand.old)) }
    {
        let Some(node) = hand.find(rt) else {
            return None;
        };
        note_taken::<Brand>(&self.roll, &mut hand.badge, node);
        Some(node)
    }
}
