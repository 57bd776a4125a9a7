//! Redirection: all arcs into a node lead to another.

ghost use Rattle.std.specs.Prelude.{◌≡◌, ◌≤◌, length, take};
ghost use Rattle.dactl_store.specs.Redirecting.{number_pairs, AreNodes, IsLatest, sent, redirected};
ghost use Rattle.dactl_store.specs.Redirecting.{IsVersioned};

use crate::store::Store;
use dactl_arcs::moved_number;
use dactl_model::graph::NodeId;

// The numbers of the nodes, and behind them pairs of no account.
fn numbered(moves: &[(NodeId, NodeId)]) -> [(u32, u32); 65]
    requires { length moves.now ≤ 65 }
    ensures { take (length moves.now) result ≡ number_pairs moves.now }
{
    let mut pairs = [(0, 0); 65];
    for (place, pair) in moves.iter().enumerate() {
        pairs[place] = (pair.0.number, pair.1.number);
    }
    pairs
}

impl Store {
    // Redirects by pairs that are also given by their numbers.
    fn redirect_numbers(&mut self, moves: &[(NodeId, NodeId)], pairs: &[(u32, u32)], version: u32)
        requires few { length pairs.now ≤ 65 }
        requires pairs { pairs.now ≡ number_pairs moves.now }
        requires nodes { AreNodes self.old.room.nodes moves.now }
        requires latest { IsLatest version self.old }
        ensures graph { self.new.graph ≡ redirected (sent moves.now) self.old.graph }
        ensures versions { IsVersioned version self.old self.new }
        ensures active { self.new.active ≡ self.old.active }
        ensures room { self.new.room ≡ self.old.room }
        ensures newest { self.new.newest ≡ version }
    {
        self.arcs.redirect(pairs, version);
        self.root = NodeId {
            number: moved_number(pairs, self.root.number),
        };
    }

    /// Sends the target of each arc, and the root, to the second node of the first pair that begins with it,
    /// all at the same time, and gives the version to each node whose targets are others then. An arc keeps
    /// its wait flag.
    ///
    /// It visits no node, and takes time for the square of the number of pairs and for the smaller part of each two
    /// lists of arcs that become one: an arc that is not alone in its list is moved to another at most log2(arcs)
    /// times by all calls together.
    pub fn redirect(&mut self, moves: &[(NodeId, NodeId)], version: u32)
        requires few { length moves.now ≤ 65 }
        requires nodes { AreNodes self.old.room.nodes moves.now }
        requires latest { IsLatest version self.old }
        ensures graph { self.new.graph ≡ redirected (sent moves.now) self.old.graph }
        ensures versions { IsVersioned version self.old self.new }
        ensures active { self.new.active ≡ self.old.active }
        ensures room { self.new.room ≡ self.old.room }
        ensures newest { self.new.newest ≡ version }
    {
        if moves.len() == 1 {
            let (from, to) = moves[0];
            self.redirect_numbers(moves, &[(from.number, to.number)], version);
            return;
        }
        let numbers = numbered(moves);
        self.redirect_numbers(moves, &numbers[..moves.len()], version);
    }
}
