//! What a board is.

ghost use Rattle.std.specs.Prelude.{◌≡◌, ℕ, ◌+◌, ◌^◌, ◌-◌, ◌<◌, ◌++◌, ◌∷◌, [], List, MatchResult};
ghost use Rattle.std.specs.Prelude.{MatchOption};
ghost use Rattle.dactl_model.specs.declared.graph.NodeId.{NodeId};

use dactl_model::graph::NodeId;
use std::sync::Wait;

/// A place where workers hand nodes over. Each worker has a hand, which is used with its own board
/// alone. Either call may wait for another hand.
///
/// A board may hand back any offer, and give nothing to any take: the clauses tell what became of
/// each node, not that one gets through.
pub trait Board {
    type Hand;

    /// The hand is one of this board.
    ghost fits: { Self → Self.Hand → Type 0 };

    /// The nodes that the hand put, in order.
    ghost put: { Self.Hand → List NodeId };

    /// The nodes that the hand took, in order.
    ghost taken: { Self.Hand → List NodeId };

    /// How many of the hand's offers were handed back.
    ghost back: { Self.Hand → ℕ };

    /// Puts a node on the board, or hands it back where the board does not take it.
    ///
    /// # Errors
    /// The node itself, where the board does not take it. It is counted among those handed back,
    /// and what the hand put is as it was.
    fn offer<R: Wait>(&self, rt: &R, hand: &mut Self::Hand, node: NodeId) -> Result<(), NodeId>
        requires hand { fits self.now hand.old }
        requires backs { back hand.old < 2 ^ 64 - 1 }
        ensures hand { fits self.now hand.new }
        ensures put { MatchResult result
            (λ _. put hand.new ≡ put hand.old ++ node ∷ [])
            (λ x. (x ≡ node) × (put hand.new ≡ put hand.old)) }
        ensures taken { taken hand.new ≡ taken hand.old }
        ensures back { MatchResult result
            (λ _. back hand.new ≡ back hand.old)
            (λ _. back hand.new ≡ back hand.old + 1) };

    /// Takes a node, if the board has one for this hand.
    fn take<R: Wait>(&self, rt: &R, hand: &mut Self::Hand) -> Option<NodeId>
        requires { fits self.now hand.old }
        ensures hand { fits self.now hand.new }
        ensures put { put hand.new ≡ put hand.old }
        ensures taken { MatchOption result
            (taken hand.new ≡ taken hand.old)
            (λ x. taken hand.new ≡ taken hand.old ++ x ∷ []) }
        ensures back { back hand.new ≡ back hand.old };
}
