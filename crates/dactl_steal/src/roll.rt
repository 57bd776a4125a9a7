//! The roll of a board: which hands there are, and what each put and took.
//!
//! A roll is a queue into which nothing is put. What lies under its rule has no bytes.

ghost use Rattle.std.specs.Prelude.{◌≡◌, List, [], ◌∷◌, ◌++◌};
ghost use Rattle.crossbeam_queue.specs.Passes.{view, IsPassOf};
ghost use Rattle.dactl_model.specs.declared.graph.NodeId.{NodeId};
ghost use Rattle.dactl_steal.specs.Members.{having_put, having_taken};

use crossbeam_queue::protocol::{Join, Lesson, Protocol, Split};
use crossbeam_queue::{Pass, RuledArrayQueue};
use dactl_model::graph::NodeId;
use std::collections::LinkedList;
use std::marker::{Brand, PhantomData};

/// What a hand knows of the roll. No value of it is made.
pub struct Member {
    /// The numbers of the hands for which it stands.
    pub numbers: LinkedList<u8>,
    pub put: LinkedList<NodeId>,
    pub taken: LinkedList<NodeId>,
}

/// Each number stands at one member.
pub struct Enrolled;

impl Protocol<NodeId, Member> for Enrolled {
    ghost use Rattle.std.specs.Prelude.{[]};
    ghost use Rattle.dactl_steal.specs.Members.{IsRoll, everyone, member};

    ghost holds = { IsRoll };

    ghost first = { member everyone [] [] };
}

pub(crate) type Roll = RuledArrayQueue<NodeId, Member, Enrolled>;

/// A place on the roll.
pub(crate) type Badge = Pass<NodeId, Member>;

/// What is noted. Each call picks it.
pub(crate) trait Named {
    ghost node: { NodeId };
}

impl Named for Brand {
    ghost node = { record { number = 0 } };
}

/// The first number goes to a hand.
pub(crate) struct Enrol;

impl Split<Member> for Enrol {
    ghost use Rattle.dactl_steal.specs.Members.{having_enrolled, enrolled};

    ghost left = { having_enrolled };

    ghost right = { enrolled };
}

/// A node was put.
pub(crate) struct NotePut<J> {
    node: PhantomData<J>,
}

impl<J: Named> Split<Member> for NotePut<J> {
    ghost use Rattle.dactl_steal.specs.Members.{having_put, nobody};

    ghost left = { λ v. having_put v J.node };

    ghost right = { λ _. nobody };
}

/// A node was taken.
pub(crate) struct NoteTaken<J> {
    node: PhantomData<J>,
}

impl<J: Named> Split<Member> for NoteTaken<J> {
    ghost use Rattle.dactl_steal.specs.Members.{having_taken, nobody};

    ghost left = { λ v. having_taken v J.node };

    ghost right = { λ _. nobody };
}

/// A hand is given back.
pub(crate) struct Return;

impl Join<Member> for Return {
    ghost use Rattle.dactl_steal.specs.Members.{both, nobody};

    ghost both = { both };

    ghost spent = { nobody };
}

/// What the roll tells of a member.
pub(crate) struct Stand;

impl Lesson<NodeId, Member> for Stand {
    ghost use Rattle.dactl_steal.specs.Members.{Stands};

    ghost fact = { λ v _. Stands v };
}

/// Notes that a hand put a node. `J` has the node.
pub(crate) fn note_put<J: Named>(roll: &Roll, badge: &mut Badge, _node: NodeId)
    requires roll { IsPassOf roll.now badge.old }
    requires node { J.node ≡ _node }
    ensures roll { IsPassOf roll.now badge.new }
    ensures put { view badge.new ≡ having_put (view badge.old) _node }
{
    let _ = roll.another::<NotePut<J>>(badge);
}

/// Notes that a hand took a node. `J` has the node.
pub(crate) fn note_taken<J: Named>(roll: &Roll, badge: &mut Badge, _node: NodeId)
    requires roll { IsPassOf roll.now badge.old }
    requires node { J.node ≡ _node }
    ensures roll { IsPassOf roll.now badge.new }
    ensures taken { view badge.new ≡ having_taken (view badge.old) _node }
{
    let _ = roll.another::<NoteTaken<J>>(badge);
}
