//! The rule of each deque, and what each step on a deque does to the accounts.

use crossbeam_deque::protocol::{Join, Lesson, Outcome, Protocol, Split};
use crossbeam_deque::{Pass, Stealer, Worker};
use dactl_model::graph::NodeId;
use dactl_queue::Account;
use std::alloc::Global;

/// What was put into a deque is what was taken out and what it holds.
pub struct Even;

impl Protocol<NodeId, Account> for Even {
    ghost use Rattle.std.specs.Prelude.{false, []};
    ghost use Rattle.dactl_queue.specs.Accounts.{Balanced, account, nothing};

    ghost holds = { Balanced };

    ghost first = { account 256 false [] [] };

    ghost guest = { nothing };
}

/// A deque with the right to put and to take, which its hand has.
pub(crate) type Owner = Worker<NodeId, Global, Account, Even>;

/// A deque with the right to take at the front, which other hands have.
pub(crate) type Thief = Stealer<NodeId, Global, Account, Even>;

/// What a hand knows of another hand's deque.
pub(crate) type Trail = Pass<NodeId, Account>;

/// Nodes are put into the deque.
pub(crate) struct Put;

impl Outcome<NodeId, Account> for Put {
    ghost use Rattle.dactl_steal.specs.Deques.{Puts};

    ghost then = { Puts };
}

/// Nodes are taken out of the deque.
pub(crate) struct TakeOut;

impl Outcome<NodeId, Account> for TakeOut {
    ghost use Rattle.dactl_steal.specs.Deques.{Takes, WasEmpty};

    ghost then = { Takes };

    ghost empty = { WasEmpty };
}

/// The nodes in the deque are counted.
pub(crate) struct Count;

impl Lesson<NodeId, Account> for Count {
    ghost use Rattle.dactl_queue.specs.Accounts.{IsMoment};

    ghost fact = { IsMoment };
}

/// One part is lent to another hand.
pub(crate) struct LendOne;

impl Split<Account> for LendOne {
    ghost use Rattle.std.specs.Prelude.{false, []};
    ghost use Rattle.dactl_queue.specs.Accounts.{having_lent, account};

    ghost left = { having_lent };

    ghost right = { λ _. account 1 false [] [] };
}

/// A part is given back.
pub(crate) struct GiveBack;

impl Join<Account> for GiveBack {
    ghost use Rattle.dactl_queue.specs.Accounts.{joined, nothing};

    ghost both = { joined };

    ghost spent = { nothing };
}
