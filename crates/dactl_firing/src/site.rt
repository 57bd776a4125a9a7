//! The parts of a firing.

ghost use Rattle.std.specs.Prelude.{◌≡◌, ◌+◌, ◌<◌, ◌≤◌, true, All, length, take};
ghost use Rattle.dactl_model.specs.declared.program.Body.TheVariants.{Written, Delta};
ghost use Rattle.dactl_model.specs.Ending.{needed_by};
ghost use Rattle.dactl_model.specs.Firing.{left_node, rewritten, fired};
ghost use Rattle.dactl_model.specs.Matching.{bound_node, FitsRange, delta_label, operand};
ghost use Rattle.dactl_store.specs.Held.{IsValid, left_in};
ghost use Rattle.dactl_store.specs.Redirecting.{AreNodes, sent, redirected, IsVersioned, IsLatest};
ghost use Rattle.dactl_store.specs.Start.{Fits};
ghost use Rattle.dactl_firing.specs.Site.{IsNamedLeft, IsNamedMove, pair_of, pairs_of, IsSiteIn};
ghost use Rattle.dactl_firing.specs.Site.{IsSettled, IsWrittenFor, IsMade};
ghost use Rattle.dactl_firing.specs.Body.{CanMake};

use crate::suspending::settled_mark;
use crate::waking::{list_active, list_new, wake_all};
use dactl_model::arithmetic::result_label;
use dactl_model::footprint::Woken;
use dactl_model::graph::{Label, Mark, NodeId};
use dactl_model::program::{Body, FreshNode, Left, Move, Op};
use dactl_model::view::View;
use dactl_store::{Store, mentioned_node};

/// Where a rule fires: the node, those of the rule's variables, and the number of the entry, which is the
/// version of what the firing changes.
#[derive(Clone, Copy)]
pub struct Site<'a> {
    pub node: NodeId,
    pub bindings: &'a [NodeId],
    pub entry: u32,
}

// The parts of a written body: the new nodes, the redirections, the variables whose nodes are woken, and
// for how many notifications the node is to wait again, or 0.
#[derive(Clone, Copy)]
struct WrittenBody<'a> {
    fresh: &'a [FreshNode],
    moves: &'a [Move],
    wakes: &'a [u8],
    suspend: u8,
}

impl Site<'_> {
    // The node that the left side of a redirection denotes.
    fn left(&self, left: Left) -> NodeId
        requires { IsNamedLeft self.now.bindings.now left }
        ensures { result ≡ left_node self.now.node self.now.bindings.now left }
    {
        match left {
            Left::Root => self.node,
            Left::Variable(variable) => self.bindings[variable as usize],
        }
    }

    // The nodes of a redirection.
    fn pair(&self, first: u32, step: Move) -> (NodeId, NodeId)
        requires { IsNamedMove first self.now.bindings.now step }
        ensures { result ≡ pair_of first self.now.node self.now.bindings.now step }
    {
        let to = mentioned_node(first, self.bindings, step.to);
        (self.left(step.from), to)
    }

    // The nodes of the redirections, and behind them pairs of no account.
    fn pairs(&self, first: u32, moves: &[Move]) -> [(NodeId, NodeId); 65]
        requires few { length moves.now ≤ 65 }
        requires named { All (IsNamedMove first self.now.bindings.now) moves.now }
        ensures { take (length moves.now) result ≡
            pairs_of first self.now.node self.now.bindings.now moves.now }
    {
        let nowhere = NodeId { number: 0 };
        let mut pairs = [(nowhere, nowhere); 65];
        for (place, step) in moves.iter().enumerate() {
            pairs[place] = self.pair(first, *step);
        }
        pairs
    }

    // Redirects, where the new nodes are numbered from `first`.
    fn redirect(&self, store: &mut Store, first: u32, moves: &[Move])
        requires few { length moves.now ≤ 65 }
        requires named { All (IsNamedMove first self.now.bindings.now) moves.now }
        requires nodes { AreNodes store.old.room.nodes
            (pairs_of first self.now.node self.now.bindings.now moves.now) }
        requires latest { IsLatest self.now.entry store.old }
        ensures graph { store.new.graph ≡ redirected
            (sent (pairs_of first self.now.node self.now.bindings.now moves.now))
            store.old.graph }
        ensures versions { IsVersioned self.now.entry store.old store.new }
        ensures room { store.new.room ≡ store.old.room }
        ensures newest { store.new.newest ≡ self.now.entry }
    {
        if moves.len() == 1 {
            store.redirect(&[self.pair(first, moves[0])], self.entry);
            return;
        }
        let pairs = self.pairs(first, moves);
        store.redirect(&pairs[..moves.len()], self.entry);
    }

    // The node gives up its activity or waits again, and then the nodes of the variables are woken.
    fn settle(&self, store: &mut Store, wakes: &[u8], suspend: u8, woken: &mut Woken)
        requires valid { IsValid store.old }
        requires site { IsSiteIn self.now store.old.graph }
        requires wakes { All (λ v. v < length self.now.bindings.now) wakes.now }
        requires room { length store.old.graph.nodes ≤ woken.old.room }
        ensures { IsSettled self.now.node self.now.bindings.now wakes.now suspend
            store.old woken.old store.new woken.new }
    {
        woken.clear();
        let mark = settled_mark(store, self.node, suspend);
        store.set_mark(self.node, mark);
        wake_all(store, self.bindings, wakes, woken);
        list_active(self.node.number, mark, woken);
        woken.sort();
    }

    // Makes a written body.
    fn make_written(&self, store: &mut Store, body: WrittenBody<'_>, woken: &mut Woken)
        requires valid { IsValid store.old }
        requires site { IsSiteIn self.now store.old.graph }
        requires body { IsWrittenFor (length self.now.bindings.now)
            body.fresh.now body.moves.now body.wakes.now }
        requires latest { IsLatest self.now.entry store.old }
        requires fits { Fits
            (needed_by (Written body.fresh.now body.moves.now body.wakes.now body.suspend))
            (left_in store.old) }
        requires room { store.old.room.nodes ≤ woken.old.room }
        ensures { IsMade self.now.node self.now.entry
            (rewritten store.old.graph self.now.node self.now.bindings.now
            body.entry.fresh.now body.entry.moves.now body.entry.wakes.now body.entry.suspend)
            store.old woken.old store.new woken.new }
    {
        let WrittenBody {
            fresh,
            moves,
            wakes,
            suspend,
        } = body;
        self.settle(store, wakes, suspend, woken);
        let first = store.next_number();
        store.append_contractum(self.bindings, fresh, self.entry);
        list_new(first, fresh, woken);
        self.redirect(store, first, moves);
    }

    // The integer at the node of a variable.
    fn operand(&self, store: &Store, variable: usize) -> i128
        requires valid { IsValid store.now }
        requires site { IsSiteIn self.now store.now.graph }
        requires variable { variable < length self.now.bindings.now }
        ensures { result ≡ operand store.now.graph self.now.bindings.now variable }
    {
        store.label(self.bindings[variable]).integer()
    }

    // What an arithmetic rule makes of its two operands.
    fn computed(&self, store: &Store, op: Op) -> Label
        requires valid { IsValid store.now }
        requires site { IsSiteIn self.now store.now.graph }
        requires operands { length self.now.bindings.now ≡ 2 }
        requires fits { FitsRange true (delta_label op store.now.graph self.now.bindings.now) }
        ensures { result ≡ delta_label op store.now.graph self.now.bindings.now }
    {
        result_label(op, self.operand(store, 0), self.operand(store, 1))
    }

    // Makes the result of an arithmetic rule, to which the node is redirected.
    fn make_result(&self, store: &mut Store, op: Op, woken: &mut Woken)
        requires valid { IsValid store.old }
        requires site { IsSiteIn self.now store.old.graph }
        requires operands { length self.now.bindings.now ≡ 2 }
        requires result { FitsRange true (delta_label op store.old.graph self.now.bindings.now) }
        requires latest { IsLatest self.now.entry store.old }
        requires fits { Fits (needed_by (Delta op)) (left_in store.old) }
        requires room { store.old.room.nodes ≤ woken.old.room }
        ensures { IsMade self.now.node self.now.entry
            (fired store.old.graph self.now.node self.now.bindings.now (Delta op))
            store.old woken.old store.new woken.new }
    {
        let label = self.computed(store, op);
        self.settle(store, &[], 0, woken);
        let made = store.append(label, Mark::Active, self.entry);
        woken.push(made);
        store.redirect(&[(self.node, made)], self.entry);
    }

    /// Makes the body, for which there is room.
    pub fn make(&self, store: &mut Store, body: &Body, woken: &mut Woken)
        requires valid { IsValid store.old }
        requires site { IsSiteIn self.now store.old.graph }
        requires body { CanMake store.old.graph self.now.bindings.now body.now }
        requires latest { IsLatest self.now.entry store.old }
        requires fits { Fits (needed_by body.now) (left_in store.old) }
        requires room { store.old.room.nodes ≤ woken.old.room }
        ensures { IsMade self.now.node self.now.entry
            (fired store.old.graph self.now.node self.now.bindings.now body.now)
            store.old woken.old store.new woken.new }
    {
        match body {
            Body::Written {
                fresh,
                moves,
                wakes,
                suspend,
            } => {
                let parts = WrittenBody {
                    fresh: fresh.as_slice(),
                    moves: moves.as_slice(),
                    wakes: wakes.as_slice(),
                    suspend: *suspend,
                };
                self.make_written(store, parts, woken);
            }
            Body::Delta(op) => self.make_result(store, *op, woken),
        }
    }
}
