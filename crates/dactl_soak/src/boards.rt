//! A board that does little: it hands nothing on from worker to worker.

ghost use Rattle.std.specs.Prelude.{◌≡◌};

use dactl_model::graph::NodeId;
use dactl_queue::Board;
use std::alloc::Global;
use std::sync::Wait;

/// What becomes of an offer.
#[derive(Clone, Copy)]
pub(crate) enum Offers {
    /// It is handed back.
    Refused,
    /// The board keeps it, and gives it to nobody.
    Kept,
}

/// A board that gives each hand one node at most, and then none.
#[derive(Clone, Copy)]
pub(crate) struct DullBoard {
    pub offers: Offers,
    pub gives: Option<NodeId>,
}

/// The hand of one worker on a `DullBoard`.
#[derive(Drop)]
pub(crate) struct DullHand {
    put: Vec<NodeId>,
    taken: Vec<NodeId>,
    back: u64,
}

impl DullHand {
    /// A hand that has done nothing.
    pub(crate) fn new(alloc: Global) -> DullHand
        ensures { result.back ≡ 0 }
    {
        DullHand {
            put: Vec::new(alloc),
            taken: Vec::new(alloc),
            back: 0,
        }
    }
}

impl Board for DullBoard {
    type Hand = DullHand;

    ghost fits = { λ _ _. Unit {0} };

    ghost put = { λ h. h.put.items };

    ghost taken = { λ h. h.taken.items };

    ghost back = { λ h. h.back };

    fn offer<R: Wait>(&self, _rt: &R, hand: &mut DullHand, node: NodeId) -> Result<(), NodeId> {
        match self.offers {
            Offers::Refused => {}
            Offers::Kept => {
                if hand.put.push(node).is_ok() {
                    return Ok(());
                }
            }
        }
        hand.back += 1;
        Err(node)
    }

    fn take<R: Wait>(&self, _rt: &R, hand: &mut DullHand) -> Option<NodeId> {
        if !hand.taken.is_empty() {
            return None;
        }
        let node = self.gives?;
        match hand.taken.push(node) {
            Ok(()) => Some(node),
            Err(_) => None,
        }
    }
}
