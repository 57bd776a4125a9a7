//! The rule of the queue under a board, and what each step on the queue does to the accounts.

ghost use Rattle.std.specs.Prelude.{ℕ};

use crossbeam_queue::protocol::{Join, Lesson, Outcome, Protocol, Split};
use dactl_model::graph::NodeId;
use std::collections::LinkedList;
use std::marker::{Brand, PhantomData};

/// What a hand knows of the queue. No value of it is made.
pub struct Account {
    /// How many of the 256 parts of the whole it has.
    pub parts: u64,
    /// It is the board's only hand.
    pub solo: bool,
    pub put: LinkedList<NodeId>,
    pub taken: LinkedList<NodeId>,
}

/// What was put is what was taken and what the queue holds.
pub struct Fair;

impl Protocol<NodeId, Account> for Fair {
    ghost use Rattle.std.specs.Prelude.{true, []};
    ghost use Rattle.dactl_queue.specs.Accounts.{Balanced, account};

    ghost holds = { Balanced };

    ghost first = { account 256 true [] [] };
}

/// The room of a queue. Each call picks it.
pub(crate) trait Roomy {
    ghost room: { ℕ };
}

impl Roomy for Brand {
    ghost room = { 0 };
}

/// A node is put into a queue with this room.
pub(crate) struct Put<J> {
    room: PhantomData<J>,
}

impl<J: Roomy> Outcome<NodeId, Account> for Put<J> {
    ghost use Rattle.dactl_queue.specs.Accounts.{Puts};

    ghost then = { Puts J.room };
}

impl<J: Roomy> Lesson<NodeId, Account> for Put<J> {
    ghost use Rattle.dactl_queue.specs.Accounts.{IsMoment};

    ghost fact = { IsMoment };
}

/// A node is taken out.
pub(crate) struct TakeOut;

impl Outcome<NodeId, Account> for TakeOut {
    ghost use Rattle.dactl_queue.specs.Accounts.{Takes};

    ghost then = { Takes };
}

impl Lesson<NodeId, Account> for TakeOut {
    ghost use Rattle.dactl_queue.specs.Accounts.{IsMoment};

    ghost fact = { IsMoment };
}

/// The nodes are counted.
pub(crate) struct Count;

impl Lesson<NodeId, Account> for Count {
    ghost use Rattle.dactl_queue.specs.Accounts.{IsMoment};

    ghost fact = { IsMoment };
}

/// One part is lent to a hand.
pub(crate) struct LendOne;

impl Split<Account> for LendOne {
    ghost use Rattle.std.specs.Prelude.{false, []};
    ghost use Rattle.dactl_queue.specs.Accounts.{having_lent, account};

    ghost left = { having_lent };

    ghost right = { λ _. account 1 false [] [] };
}

/// All parts are lent to the only hand.
pub(crate) struct LendAll;

impl Split<Account> for LendAll {
    ghost use Rattle.dactl_queue.specs.Accounts.{nothing};

    ghost left = { λ _. nothing };

    ghost right = { λ v. v };
}

/// A hand is given back.
pub(crate) struct GiveBack;

impl Join<Account> for GiveBack {
    ghost use Rattle.dactl_queue.specs.Accounts.{joined, nothing};

    ghost both = { joined };

    ghost spent = { nothing };
}
