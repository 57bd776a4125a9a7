//! Which node a worker tries next.

ghost use Rattle.std.specs.Prelude.{◌≡◌, ◌+◌, ◌∷◌, [], ◌++◌, IfSome, MatchBool, MatchOption};
ghost use Rattle.dactl_shared.specs.Stores.{seen_of, program_of, SameCounts, MayRead};
ghost use Rattle.dactl_shared.specs.Endings.{HasSeenEnd};
ghost use Rattle.dactl_workers.specs.Turns.{IsSeated, IsCounted, HasLooked, HasGone, IsChosen};
ghost use Rattle.dactl_workers.specs.Turns.{IsActiveAfter, TriesTaken};

use crate::knowing::known_with;
use crate::worker::Worker;
use dactl_model::graph::NodeId;
use dactl_queue::Board;
use dactl_shared::SharedStore;
use std::sync::Wait;

impl<H> Worker<H> {
    /// A node of the board, if it gives one.
    fn take<B: Board<Hand = H>, R: Wait>(&mut self, rt: &R, board: &B) -> Option<NodeId>
        requires { B.fits board.now self.old.hand }
        ensures same { self.new
            ≡ record self.old { hand = self.new.hand; report = self.new.report } }
        ensures hand { B.fits board.now self.new.hand }
        ensures put { B.put self.new.hand ≡ B.put self.old.hand }
        ensures back { B.back self.new.hand ≡ B.back self.old.hand }
        ensures none { MatchOption result
            (B.taken self.new.hand ≡ B.taken self.old.hand)
            (λ n. B.taken self.new.hand ≡ B.taken self.old.hand ++ n ∷ []) }
        ensures report { MatchOption result
            (self.new.report ≡ self.old.report)
            (λ _. self.new.report ≡ record self.old.report {
              taken = self.old.report.taken + 1;
            }) }
    {
        if self.report.taken == u64::MAX {
            return None;
        }
        let Some(node) = board.take(rt, &mut self.hand) else {
            return None;
        };
        self.report.taken += 1;
        Some(node)
    }

    /// Whether the store has the node. It is asked only about a node above all that are known.
    fn is_there<R: Wait>(&mut self, rt: &R, store: &SharedStore, node: NodeId) -> bool
        requires seated { IsSeated store.now self.old }
        ensures seated { IsSeated store.now self.new }
        ensures same { self.new ≡ record self.old { seat = self.new.seat; known = self.new.known } }
        ensures looked { HasLooked store.now self.old.seat self.new.seat }
        ensures counts { SameCounts self.old.seat self.new.seat }
        ensures there { MatchBool result
            (MayRead store.now self.new.seat node)
            (MayRead store.now self.old.seat node → ⊥) }
    {
        if u64::from(node.number) < self.known {
            return true;
        }
        let count = store.count(rt, &mut self.seat);
        self.known = u64::from(count);
        node.number < count
    }

    /// A node of the board, if it gives one that the store has.
    fn take_there<B: Board<Hand = H>, R: Wait>(
        &mut self,
        rt: &R,
        store: &SharedStore,
        board: &B,
    ) -> Option<NodeId>
        requires seated { IsSeated store.now self.old }
        requires counted { IsCounted (B.fits board.now) B.back store.now self.old }
        ensures seated { IsSeated store.now self.new }
        ensures counted { IsCounted (B.fits board.now) B.back store.now self.new }
        ensures gone { HasGone B.put B.taken B.back store.now self.old self.new }
        ensures footprint { self.new.footprint ≡ self.old.footprint }
        ensures counts { SameCounts self.old.seat self.new.seat }
        ensures there { IfSome result (MayRead store.now self.new.seat) }
        ensures took { IfSome result (λ _. self.new.report.taken ≡ self.old.report.taken + 1) }
        ensures tries { TriesTaken B.taken store.now self.old self.new result }
    {
        let Some(node) = self.take(rt, board) else {
            return None;
        };
        if self.is_there(rt, store, node) {
            Some(node)
        } else {
            None
        }
    }

    /// A node that is active, if there is one.
    fn find_active<R: Wait>(&mut self, rt: &R, store: &SharedStore) -> Option<NodeId>
        requires seated { IsSeated store.now self.old }
        ensures seated { IsSeated store.now self.new }
        ensures same { self.new ≡ record self.old { seat = self.new.seat; known = self.new.known } }
        ensures looked { HasLooked store.now self.old.seat self.new.seat }
        ensures counts { SameCounts self.old.seat self.new.seat }
        ensures there { IfSome result (MayRead store.now self.new.seat) }
        ensures active { MatchOption result
            (HasSeenEnd store.now self.new.seat)
            (IsActiveAfter (program_of store.now) (seen_of self.new.seat)) }
    {
        let Some(node) = store.next_active(rt, &mut self.seat) else {
            return None;
        };
        self.known = known_with(self.known, node);
        Some(node)
    }

    /// A node to try: one of the board where the store has it, else one that is active. None where
    /// no node is active.
    pub(crate) fn choose<B: Board<Hand = H>, R: Wait>(
        &mut self,
        rt: &R,
        store: &SharedStore,
        board: &B,
    ) -> Option<NodeId>
        requires seated { IsSeated store.now self.old }
        requires counted { IsCounted (B.fits board.now) B.back store.now self.old }
        ensures seated { IsSeated store.now self.new }
        ensures counted { IsCounted (B.fits board.now) B.back store.now self.new }
        ensures gone { HasGone B.put B.taken B.back store.now self.old self.new }
        ensures footprint { self.new.footprint ≡ self.old.footprint }
        ensures counts { SameCounts self.old.seat self.new.seat }
        ensures chosen { MatchOption result
            (HasSeenEnd store.now self.new.seat)
            (IsChosen store.now self.old self.new) }
        ensures tries { TriesTaken B.taken store.now self.old self.new result }
    {
        if let Some(node) = self.take_there(rt, store, board) {
            return Some(node);
        }
        self.find_active(rt, store)
    }
}
