//! How woken nodes go to the board.

ghost use Rattle.std.specs.Prelude.{◌≡◌, ℕ, ◌+◌, ◌*◌, ◌-◌, ◌^◌, ◌<◌, ◌≤◌, [], ◌∷◌, All, length};
ghost use Rattle.dactl_shared.specs.Stores.{mine_of, limits_of, MayRead};
ghost use Rattle.dactl_workers.specs.Turns.{IsSeated, IsCounted, IsOffered, with_offers};

use crate::knowing::known_with_last;
use crate::worker::Worker;
use dactl_model::graph::NodeId;
use dactl_queue::Board;
use dactl_shared::SharedStore;
use std::sync::Wait;

/// Offers a node: 1 where it was handed back, else 0.
fn offer_one<B: Board, R: Wait>(rt: &R, board: &B, hand: &mut B::Hand, node: NodeId) -> u64
    requires hand { B.fits board.now hand.old }
    requires back { B.back hand.old < 2 ^ 64 - 1 }
    ensures hand { B.fits board.now hand.new }
    ensures offered { IsOffered B.put B.taken B.back hand.old hand.new (node ∷ []) result }
    ensures few { result ≤ 1 }
{
    match board.offer(rt, hand, node) {
        Ok(()) => 0,
        Err(_) => 1,
    }
}

/// Offers the nodes, once each and in order: the number of those that were handed back.
fn offer_all<B: Board, R: Wait>(rt: &R, board: &B, hand: &mut B::Hand, nodes: &[NodeId]) -> u64
    requires hand { B.fits board.now hand.old }
    requires back { B.back hand.old + length nodes.now < 2 ^ 64 }
    ensures hand { B.fits board.now hand.new }
    ensures offered { IsOffered B.put B.taken B.back hand.old hand.new nodes.now result }
{
    let mut refused = 0;
    for node in nodes {
        refused += offer_one(rt, board, hand, *node);
    }
    refused
}

/// The limits of a run are numbers of 32 bits.
fn are_small(store: &SharedStore)
    ensures { ((limits_of store.now).budget < 2 ^ 32) × ((limits_of store.now).nodes < 2 ^ 32) }
{
    let _limits = store.limits();
}

impl<H> Worker<H> {
    /// Counts a commit, and offers each node that it made active.
    pub(crate) fn hand_over<B: Board<Hand = H>, R: Wait>(
        &mut self,
        rt: &R,
        store: &SharedStore,
        board: &B,
    )
        requires seated { IsSeated store.now self.old }
        requires counted { IsCounted (B.fits board.now) B.back store.now self.old }
        requires there { All (MayRead store.now self.old.seat) self.old.woken.list }
        requires one_more { self.old.report.commits + 1 ≤ length (mine_of self.old.seat) }
        requires entries { length (mine_of self.old.seat) ≤ (limits_of store.now).budget }
        requires nodes { length self.old.woken.list ≤ (limits_of store.now).nodes }
        ensures seated { IsSeated store.now self.new }
        ensures counted { IsCounted (B.fits board.now) B.back store.now self.new }
        ensures offered { (refused : ℕ)
            × IsOffered B.put B.taken B.back
            self.old.hand self.new.hand self.old.woken.list refused
            × (self.new ≡ with_offers self.old self.new.hand self.new.known
            (length self.old.woken.list) refused) }
    {
        are_small(store);
        let nodes = self.woken.list();
        self.known = known_with_last(self.known, nodes);
        let refused = offer_all(rt, board, &mut self.hand, nodes);
        self.report.commits += 1;
        self.report.offered += nodes.len() as u64;
        self.report.refused += refused;
    }
}
