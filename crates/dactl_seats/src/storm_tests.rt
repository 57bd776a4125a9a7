//! One reads a cell through a box, and others overwrite the cell again and again.

ghost use Rattle.dactl_shared.specs.Stores.{WorksFor};

use crate::game::{Game, Scene, is_played};
use crate::rest::Rest;
use crate::table::Table;
use crate::trying::{answer, probed_at, tried_at};
use dactl_model::graph::{End, Entry, Event, Limits, NodeId, Room};
use dactl_shared::WorkerSeat;
use dactl_state::Answer;
use std::alloc::Global;
use std::sync::Wait;

/// Node 0 is `Top`, 1 the cell, 2 `Get` over the box 3, and 4 to 6 `Put`.
const STORM: &str =
    "MODULE M; SYMBOL REWRITABLE Get, Put; SYMBOL OVERWRITABLE Cell; SYMBOL CREATABLE Top, Box, Nil, Yes; RULE Get[Box[Cell]] => Yes; Put[c:Cell] => Nil, c := Cell; INITIAL => Top[c:Cell *Get[Box[c]] *Put[c] *Put[c] *Put[c]]; ENDMODULE M;";

const LIMITS: Limits = Limits {
    nodes: 100,
    arcs: 400,
    budget: 10,
};

// The first seat's firing of `Get`.
const GOT: Entry = Entry {
    worker: 1,
    event: Event::Fire {
        node: NodeId { number: 2 },
        rule: 5,
    },
};

// The second seat's firing of a `Put`.
const fn put(number: u32) -> Entry {
    Entry {
        worker: 2,
        event: Event::Fire {
            node: NodeId { number },
            rule: 6,
        },
    }
}

// Whether the first seat's attempt at `Get` comes too late for the second, which overwrites the
// cell at the `Put` of this number.
fn comes_late<R: Wait>(
    rt: &R,
    alloc: Global,
    table: &Table,
    first: &mut WorkerSeat,
    second: &mut WorkerSeat,
    number: u32,
) -> Option<bool>
    requires first { WorksFor table.now.store first.old }
    requires second { WorksFor table.now.store second.old }
    ensures first { WorksFor table.now.store first.new }
    ensures second { WorksFor table.now.store second.new }
{
    let get = probed_at(rt, alloc, table, first, 2)?;
    let put = tried_at(rt, alloc, table, second, number)?;
    let late = answer(rt, alloc, &table.store, first, &get)?;
    Some(put == Answer::Committed && is_late(late, number))
}

// Whether the answer is Stale at the box, which the `Put` of this number changed once more.
fn is_late(answer: Answer, number: u32) -> bool {
    match answer {
        Answer::Stale { node, was, now } => {
            node.number == 3 && was.wrapping_add(4) == number && now.wrapping_add(3) == number
        }
        _ => false,
    }
}

/// Three times the first seat comes too late for `Get`. Then nobody is left to come between.
struct ThreeTimesLate;

impl Game for ThreeTimesLate {
    fn play<R: Wait>(
        &self,
        rt: &R,
        alloc: Global,
        table: &Table,
        first: &mut WorkerSeat,
        second: &mut WorkerSeat,
    ) -> Option<bool> {
        let late = comes_late(rt, alloc, table, first, second, 4)?
            && comes_late(rt, alloc, table, first, second, 5)?
            && comes_late(rt, alloc, table, first, second, 6)?;
        let got = tried_at(rt, alloc, table, first, 2)?;
        let counts = first.stale() == 3 && first.passive() == 0 && second.stale() == 0;
        Some(late && got == Answer::Committed && counts)
    }
}

#[test]
fn a_reader_is_late_three_times(rt: HostRuntime) {
    let journal = [put(4), put(5), put(6), GOT];
    let rest = Rest {
        end: Some(End::Normal),
        journal: &journal,
        graph: b"@1 Top[@2 @3 @4 @5 @6]\n@2 Cell\n@3 Yes\n@4 Nil\n@5 Nil\n@6 Nil\n",
    };
    let scene = Scene {
        text: STORM,
        limits: LIMITS,
        rest,
    };
    assert!(rt; is_played(&rt, rt.alloc(), &scene, &ThreeTimesLate) == Some(true));
}

/// The budget is used up before the first seat commits.
struct LastEntry;

impl Game for LastEntry {
    fn play<R: Wait>(
        &self,
        rt: &R,
        alloc: Global,
        table: &Table,
        first: &mut WorkerSeat,
        second: &mut WorkerSeat,
    ) -> Option<bool> {
        let get = probed_at(rt, alloc, table, first, 2)?;
        let put = tried_at(rt, alloc, table, second, 4)?;
        let late = answer(rt, alloc, &table.store, first, &get)?;
        Some(put == Answer::Committed && late == Answer::Ended(End::Budget) && first.stale() == 0)
    }
}

#[test]
fn a_reader_finds_the_budget_used_up(rt: HostRuntime) {
    let journal = [put(4)];
    let rest = Rest {
        end: Some(End::Budget),
        journal: &journal,
        graph: b"@1 Top[@2 @3 @5 @6 @7]\n@2 Cell\n@3 *Get[@4]\n@4 Box[@2]\n@5 Nil\n@6 *Put[@2]\n@7 *Put[@2]\n",
    };
    let scene = Scene {
        text: STORM,
        limits: Limits {
            nodes: 100,
            arcs: 400,
            budget: 1,
        },
        rest,
    };
    assert!(rt; is_played(&rt, rt.alloc(), &scene, &LastEntry) == Some(true));
}

const NEEDED: Room = Room { nodes: 2, arcs: 0 };

const LEFT: Room = Room { nodes: 1, arcs: 22 };

// A `Put` needs a node more than are left.
const FULL: End = End::Full {
    node: NodeId { number: 4 },
    rule: 6,
    needed: NEEDED,
    left: LEFT,
};

/// There is no room for a `Put`. The run has ended by that, though nodes are active.
struct NoRoom;

impl Game for NoRoom {
    fn play<R: Wait>(
        &self,
        rt: &R,
        alloc: Global,
        table: &Table,
        first: &mut WorkerSeat,
        second: &mut WorkerSeat,
    ) -> Option<bool> {
        let full = Answer::Full {
            node: NodeId { number: 4 },
            rule: 6,
            needed: NEEDED,
            left: LEFT,
        };
        let get = probed_at(rt, alloc, table, first, 2)?;
        let put = tried_at(rt, alloc, table, second, 4)?;
        let late = answer(rt, alloc, &table.store, first, &get)?;
        let active = table.store.next_active(rt, second)?;
        let is_active = matches!(active.number, 2 | 4 | 5 | 6);
        Some(put == full && late == Answer::Ended(FULL) && is_active)
    }
}

#[test]
fn a_writer_finds_no_room(rt: HostRuntime) {
    let rest = Rest {
        end: Some(FULL),
        journal: &[],
        graph: b"@1 Top[@2 @3 @5 @6 @7]\n@2 Cell\n@3 *Get[@4]\n@4 Box[@2]\n@5 *Put[@2]\n@6 *Put[@2]\n@7 *Put[@2]\n",
    };
    let scene = Scene {
        text: STORM,
        limits: Limits {
            nodes: 8,
            arcs: 32,
            budget: 10,
        },
        rest,
    };
    assert!(rt; is_played(&rt, rt.alloc(), &scene, &NoRoom) == Some(true));
}

/// Both seats probe `Get` before either commits.
struct SameNode;

impl Game for SameNode {
    fn play<R: Wait>(
        &self,
        rt: &R,
        alloc: Global,
        table: &Table,
        first: &mut WorkerSeat,
        second: &mut WorkerSeat,
    ) -> Option<bool> {
        let get = probed_at(rt, alloc, table, first, 2)?;
        let same = probed_at(rt, alloc, table, second, 2)?;
        let got = answer(rt, alloc, &table.store, first, &get)?;
        let late = answer(rt, alloc, &table.store, second, &same)?;
        let counts = first.passive() == 0 && second.passive() == 1 && second.stale() == 0;
        Some(got == Answer::Committed && late == Answer::Passive && counts)
    }
}

#[test]
fn two_readers_try_the_same_node(rt: HostRuntime) {
    let rest = Rest {
        end: None,
        journal: &[GOT],
        graph: b"@1 Top[@2 @3 @4 @5 @6]\n@2 Cell\n@3 Yes\n@4 *Put[@2]\n@5 *Put[@2]\n@6 *Put[@2]\n",
    };
    let scene = Scene {
        text: STORM,
        limits: LIMITS,
        rest,
    };
    assert!(rt; is_played(&rt, rt.alloc(), &scene, &SameNode) == Some(true));
}
