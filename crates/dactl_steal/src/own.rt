//! What a hand has of its own.

use crate::rule::{Owner, Put, TakeOut};
use dactl_model::graph::NodeId;
use std::collections::VecDeque;

/// A hand's own deque, and the nodes that it keeps in reserve since the deque could not grow.
#[derive(Drop)]
pub(crate) struct Own {
    pub(crate) deque: Owner,
    pub(crate) reserve: VecDeque<NodeId>,
}

impl Own {
    ghost use Rattle.std.specs.Prelude.{◌≡◌, ℕ, ◌+◌, ◌<◌, ◌≤◌, List, [], length, MatchResult};
    ghost use Rattle.std.specs.Prelude.{MatchOption, OnErr, IfNone};
    ghost use Rattle.dactl_model.specs.declared.graph.NodeId.{NodeId};
    ghost use Rattle.dactl_steal.specs.Deques.{WasEmpty};
    ghost use Rattle.dactl_steal.specs.Owns.{account_of, reserve_of, room_of, weight_in};
    ghost use Rattle.dactl_steal.specs.Owns.{weight_out, IsUsable, SameOwn};

    /// Puts a node at the back of the deque, or of the reserve where the deque cannot grow. Hands
    /// it back where there the reserve is full.
    pub(crate) fn put(&mut self, node: NodeId) -> Result<(), NodeId>
        requires usable { IsUsable self.old }
        requires room { length (reserve_of self.old) ≤ room_of self.old }
        ensures same { SameOwn self.old self.new }
        ensures put { MatchResult result
            (λ _. (weight : NodeId → ℕ)
            → weight_in weight self.new ≡ weight_in weight self.old + weight node)
            (λ x. (x ≡ node) × (account_of self.new ≡ account_of self.old)
            × (reserve_of self.new ≡ reserve_of self.old)
            × (length (reserve_of self.old) ≡ room_of self.old)) }
        ensures taken { (account_of self.new).taken ≡ (account_of self.old).taken }
        ensures room { length (reserve_of self.new) ≤ room_of self.new }
        ensures reserve { length (reserve_of self.new) ≤ length (reserve_of self.old) + 1 }
    {
        let Err(node) = self.deque.push_as::<Put>(node) else {
            return Ok(());
        };
        if self.reserve.len() == self.reserve.capacity() {
            return Err(node);
        }
        self.reserve.push_back_reserved(node);
        Ok(())
    }

    /// The node at the front of the deque, else that at the front of the reserve.
    pub(crate) fn take(&mut self) -> Option<NodeId>
        requires usable { IsUsable self.old }
        ensures same { SameOwn self.old self.new }
        ensures taken { MatchOption result
            ((account_of self.new ≡ account_of self.old) × WasEmpty (account_of self.old)
            × (reserve_of self.old ≡ []) × (reserve_of self.new ≡ []))
            (λ x. (weight : NodeId → ℕ) → weight_in weight self.old + weight_out weight self.new
            ≡ weight_in weight self.new + weight_out weight self.old + weight x) }
        ensures reserve { length (reserve_of self.new) ≤ length (reserve_of self.old) }
        ensures alone { (account_of self.old).parts ≡ 256 → MatchOption result
            (length (account_of self.old).taken ≡ length (account_of self.old).put)
            (λ _. length (account_of self.old).taken
            < length (account_of self.old).put + length (reserve_of self.old)) }
    {
        if let Some(node) = self.deque.pop_as::<TakeOut>() {
            return Some(node);
        }
        self.reserve.pop_front()
    }
}
