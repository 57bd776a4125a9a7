//! The probe of a node.
ghost use Rattle.std.specs.Prelude.{◌≡◌, ◌≤◌, ◌∷◌, ◌++◌, [], true};
ghost use Rattle.dactl_model.specs.Acts.{node_of_event};
ghost use Rattle.dactl_model.specs.Readings.{Yes, told};
ghost use Rattle.dactl_model.specs.RuleTold.{bindings_told, Shows};
ghost use Rattle.dactl_decide.specs.Orders.{is_orderly};
ghost use Rattle.dactl_probe.specs.Probing.{Probing, IsProbing};

use crate::binding::push_bound;
use crate::lost::Lost;
use crate::rule::bound;
use crate::verdict::{Verdict, judge};
use dactl_decide::Deciders;
use dactl_model::footprint::{Attempt, Footprint};
use dactl_model::graph::{Event, NodeId};
use dactl_model::program::Rule;
use dactl_model::reading::Reading;
use std::marker::Model;

/// What a probe asks for: the reading of a node, or nothing more.
#[derive(Clone, Copy, Debug, PartialEq, Eq)]
pub enum Next {
    Need(NodeId),
    Done,
}

/// A search for the event that an active node is ready for. It asks for one reading after another
/// until the readings decide the event. The readings may be taken at different times. A probe takes
/// no memory and waits for nobody.
#[derive(Drop)]
pub struct Probe<'a> {
    deciders: &'a Deciders,
    node: NodeId,
    footprint: Footprint,
    verdict: Verdict,
    lost: Lost,
}

impl<'a> Model for Probe<'a> {
    ghost use Rattle.std.specs.Coded.{codes};
    ghost use Rattle.dactl_model.specs.contracts.program.Pat as pat;
    ghost use Rattle.dactl_probe.specs.Probing.{Probing};

    ghost Value = { Probing };

    ghost coded = { Prim.hlevel (codes, pat.the_row.coded) };

    ghost use Rattle.dactl_probe.specs.Tracing.{next_of, IsSound};

    ghost view = { λ p. record {
      decisions = p.deciders.now;
      node = p.node;
      readings = p.footprint.readings;
      room = p.footprint.room;
      next = next_of p.verdict;
    } };

    ghost invariant = { λ p. IsSound p.deciders.now p.node p.footprint p.verdict p.lost };
}

/// Puts the nodes of the rule's variables into the footprint, one variable after another.
fn push_by_variable(footprint: &mut Footprint, rule: &Rule, node: NodeId)
    requires empty { footprint.old.bindings ≡ [] }
    requires few { rule.now.variables ≤ 64 }
    ensures { footprint.new ≡ record footprint.old {
      bindings = bindings_told footprint.old.readings node rule.now;
    } }
{
    for variable in 0..rule.variables {
        let found = bound(footprint.readings(), rule, node, variable);
        footprint.push_binding(found);
    }
}

/// Puts the nodes of the variables of a rule that matches into the footprint. Where each variable
/// has one binder, and these stand in order, one walk over the pattern suffices.
fn push_bindings(footprint: &mut Footprint, rule: &Rule, orderly: bool, node: NodeId)
    requires empty { footprint.old.bindings ≡ [] }
    requires few { rule.now.variables ≤ 64 }
    requires orderly { orderly ≡ true → is_orderly rule.now ≡ true }
    requires yes { (told footprint.old.readings rule.now.pattern node).value ≡ Yes }
    ensures { footprint.new ≡ record footprint.old {
      bindings = bindings_told footprint.old.readings node rule.now;
    } }
{
    if orderly {
        push_bound(footprint, &rule.pattern, node);
    } else {
        push_by_variable(footprint, rule, node);
    }
}

impl<'a> Probe<'a> {
    /// A probe of the node. It keeps its readings in the footprint, which it empties first; the
    /// room of `widest` readings always suffices.
    pub fn start(deciders: &'a Deciders, node: NodeId, mut room: Footprint) -> Probe<'a>
        requires { deciders.now.widest ≤ room.room }
        ensures begun { result ≡ record {
          decisions = deciders.now;
          node = node;
          readings = [];
          room = room.room;
          next = Next.Need node;
        } }
        ensures probing { IsProbing result }
    {
        room.clear();
        let mut lost = Lost::none();
        let verdict = judge(deciders, &mut lost, room.readings(), node);
        Probe {
            deciders,
            node,
            footprint: room,
            verdict,
            lost,
        }
    }

    /// What the probe asks for next.
    pub fn need(&self) -> Next
        ensures next { result ≡ self.now.next }
        ensures probing { IsProbing self.now }
    {
        match self.verdict {
            Verdict::Need(node) => Next::Need(node),
            Verdict::Fire(_) | Verdict::Note => Next::Done,
        }
    }

    /// Takes the reading of the node that the probe asked for.
    pub fn step(&mut self, reading: Reading) -> Next
        requires { self.old.next ≡ Next.Need reading.node }
        ensures taken { self.new ≡ record self.old {
          readings = self.old.readings ++ reading ∷ [];
          next = result;
        } }
        ensures probing { IsProbing self.new }
    {
        self.footprint.push_reading(reading);
        let verdict = judge(
            self.deciders,
            &mut self.lost,
            self.footprint.readings(),
            self.node,
        );
        self.verdict = verdict;
        self.need()
    }

    /// The event that the readings decide, with these readings in the order in which they were
    /// taken, and for a firing the node of each variable of its rule.
    pub fn attempt(self) -> Attempt
        requires { self.next ≡ Next.Done }
        ensures shows { Shows self.entry.decisions.program
            result.footprint.readings result.footprint.bindings result.event }
        ensures node { node_of_event result.event ≡ self.entry.node }
        ensures readings { result.footprint.readings ≡ self.entry.readings }
        ensures room { result.footprint.room ≡ self.entry.room }
        ensures probing { IsProbing self.entry }
    {
        let Probe {
            deciders,
            node,
            mut footprint,
            verdict,
            lost: _,
        } = self;
        match verdict {
            Verdict::Fire(rule) => {
                let orderly = deciders.is_orderly(rule);
                push_bindings(&mut footprint, deciders.program().rule(rule), orderly, node);
                let event = Event::Fire { node, rule };
                Attempt { event, footprint }
            }
            Verdict::Note => {
                let event = Event::Note { node };
                Attempt { event, footprint }
            }
            Verdict::Need(_) => unreachable!(),
        }
    }
}
