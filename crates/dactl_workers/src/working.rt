//! How a worker works.

ghost use Rattle.std.specs.Prelude.{◌≡◌, IsTrue};
ghost use Rattle.dactl_shared.specs.Endings.{HasSeenEnd};
ghost use Rattle.dactl_shared.specs.Stores.{program_of};
ghost use Rattle.dactl_workers.specs.Work.{IsReady, HasWorked};
ghost use Rattle.dactl_workers.specs.Turns.{IsSeated, IsCounted, HasFootprint, HasGone};

use crate::gate::Gate;
use crate::worker::Worker;
use dactl_decide::Deciders;
use dactl_queue::Board;
use dactl_shared::SharedStore;
use dactl_state::Answer;
use std::sync::Wait;

impl<H> Worker<H> {
    /// Tries one node after another until the run has ended: until no node is active, no entry is
    /// left in the budget, or a rule has no room. The deciders are of the store's program.
    ///
    /// A node is one of the board, or where the board gives none an active one of the store. It is
    /// probed between turns of the store, so that other workers can go on meanwhile; where one of
    /// them changed what was read, the step is refused, and the node is left to be found again as
    /// an active one. The nodes that a step made active are offered to the board, once each.
    ///
    /// Takes no memory. It may wait for the store and the board.
    pub fn work<B: Board<Hand = H>, G: Gate, R: Wait>(
        &mut self,
        rt: &R,
        store: &SharedStore,
        board: &B,
        deciders: &Deciders,
        gate: &G,
    )
        requires deciders { deciders.now.program ≡ program_of store.now }
        requires ready { IsReady (B.fits board.now) B.back store.now deciders.now.widest self.old }
        ensures { HasWorked (B.fits board.now) B.put B.taken B.back store.now self.old self.new }
    {
        for _ in rt.forever() {
            if self.turn(rt, store, board, deciders, gate) {
                self.report.stale = self.seat.stale();
                self.report.passive = self.seat.passive();
                return;
            }
        }
        unreachable!()
    }

    /// Tries one node. True where the run has ended.
    fn turn<B: Board<Hand = H>, G: Gate, R: Wait>(
        &mut self,
        rt: &R,
        store: &SharedStore,
        board: &B,
        deciders: &Deciders,
        gate: &G,
    ) -> bool
        requires deciders { deciders.now.program ≡ program_of store.now }
        requires footprint { HasFootprint deciders.now.widest self.old }
        requires seated { IsSeated store.now self.old }
        requires counted { IsCounted (B.fits board.now) B.back store.now self.old }
        ensures footprint { HasFootprint deciders.now.widest self.new }
        ensures seated { IsSeated store.now self.new }
        ensures counted { IsCounted (B.fits board.now) B.back store.now self.new }
        ensures gone { HasGone B.put B.taken B.back store.now self.old self.new }
        ensures end { IsTrue result → HasSeenEnd store.now self.new.seat }
    {
        let Some(node) = self.choose(rt, store, board) else {
            return true;
        };
        match self.try_node(rt, store, deciders, gate, node) {
            Answer::Committed => {
                self.hand_over(rt, store, board);
                false
            }
            Answer::Stale {
                node: _,
                was: _,
                now: _,
            } => false,
            Answer::Passive => false,
            Answer::Full {
                node: _,
                rule: _,
                needed: _,
                left: _,
            } => true,
            Answer::Ended(_) => true,
        }
    }
}
