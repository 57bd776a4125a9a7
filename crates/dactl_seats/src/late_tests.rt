//! A reader comes too late: between its probe and its commit a writer overwrites the cell that it
//! read.

ghost use Rattle.dactl_shared.specs.Stores.{WorksFor};

use crate::game::{Game, Scene, is_played};
use crate::rest::Rest;
use crate::table::Table;
use crate::trying::{answer, probed_at, there, told};
use dactl_model::footprint::Attempt;
use dactl_model::graph::{End, Entry, Event, Limits, NodeId};
use dactl_shared::WorkerSeat;
use dactl_state::Answer;
use std::alloc::Global;
use std::sync::Wait;

/// Node 0 is `Top`, 1 the cell, 2 `Get` over the box 3, and 4 `Put`.
const CELL: &str =
    "MODULE M; SYMBOL REWRITABLE Get, Put; SYMBOL OVERWRITABLE Cell; SYMBOL CREATABLE Top, Box, Nil, Used, Yes; RULE Get[Box[Cell]] => Yes; Put[c:Cell] => Nil, c := Used; INITIAL => Top[c:Cell *Get[Box[c]] *Put[c]]; ENDMODULE M;";

const LIMITS: Limits = Limits {
    nodes: 100,
    arcs: 400,
    budget: 10,
};

const GET: Event = Event::Fire {
    node: NodeId { number: 2 },
    rule: 5,
};

const PUT: Event = Event::Fire {
    node: NodeId { number: 4 },
    rule: 6,
};

const NOTE: Event = Event::Note {
    node: NodeId { number: 2 },
};

const JOURNAL: [Entry; 2] = [
    Entry {
        worker: 2,
        event: PUT,
    },
    Entry {
        worker: 1,
        event: NOTE,
    },
];

const GRAPH: &[u8] = b"@1 Top[@2 @3 @5]\n@2 Used\n@3 Get[@4]\n@4 Box[@2]\n@5 Nil\n";

/// Of a box that leads elsewhere since the first entry.
const STALE: Answer = Answer::Stale {
    node: NodeId { number: 3 },
    was: 0,
    now: 1,
};

// Whether the attempt asks for the event, by readings of these nodes at these versions.
fn asks(attempt: &Attempt, event: Event, read: &[(u32, u32)]) -> bool {
    let readings = attempt.footprint.readings();
    attempt.event == event
        && readings.len() == read.len()
        && readings.iter().zip(read.iter()).all(|(reading, (number, version))| {
            reading.node.number == *number && reading.version == *version
        })
}

// The version of the node of this number.
fn version<R: Wait>(rt: &R, table: &Table, seat: &mut WorkerSeat, number: u32) -> Option<u32>
    requires { WorksFor table.now.store seat.old }
    ensures { WorksFor table.now.store seat.new }
{
    let node = there(rt, &table.store, seat, number)?;
    Some(table.store.read(rt, seat, node).version)
}

// Whether the seat overwrites the cell.
fn puts<R: Wait>(rt: &R, alloc: Global, table: &Table, seat: &mut WorkerSeat) -> Option<bool>
    requires { WorksFor table.now.store seat.old }
    ensures { WorksFor table.now.store seat.new }
{
    let put = probed_at(rt, alloc, table, seat, 4)?;
    let told = told(rt, alloc, &table.store, seat, &put)?;
    Some(
        asks(&put, PUT, &[(4, 0), (1, 0)])
            && told.answer == Answer::Committed
            && told.woken.list().is_empty(),
    )
}

// Whether the nodes have the versions that overwriting the cell leaves: the owners of arcs to it
// and the new nodes have that of its entry.
fn has_versions<R: Wait>(rt: &R, table: &Table, seat: &mut WorkerSeat) -> bool
    requires { WorksFor table.now.store seat.old }
    ensures { WorksFor table.now.store seat.new }
{
    version(rt, table, seat, 0) == Some(1)
        && version(rt, table, seat, 1) == Some(0)
        && version(rt, table, seat, 2) == Some(0)
        && version(rt, table, seat, 3) == Some(1)
        && version(rt, table, seat, 4) == Some(1)
        && version(rt, table, seat, 5) == Some(1)
        && version(rt, table, seat, 6) == Some(1)
        && version(rt, table, seat, 7) == None
}

// Whether the seat finds that no rule matches now, and notifies, which is an end.
fn notes<R: Wait>(rt: &R, alloc: Global, table: &Table, seat: &mut WorkerSeat) -> Option<bool>
    requires { WorksFor table.now.store seat.old }
    ensures { WorksFor table.now.store seat.new }
{
    let note = probed_at(rt, alloc, table, seat, 2)?;
    let first = answer(rt, alloc, &table.store, seat, &note)?;
    let second = answer(rt, alloc, &table.store, seat, &note)?;
    Some(
        asks(&note, NOTE, &[(2, 0), (3, 1), (6, 1)])
            && first == Answer::Committed
            && second == Answer::Ended(End::Normal),
    )
}

/// The first seat reads the cell for `Get`, and the second overwrites it.
struct LateReader;

impl Game for LateReader {
    fn play<R: Wait>(
        &self,
        rt: &R,
        alloc: Global,
        table: &Table,
        first: &mut WorkerSeat,
        second: &mut WorkerSeat,
    ) -> Option<bool> {
        let get = probed_at(rt, alloc, table, first, 2)?;
        let puts = puts(rt, alloc, table, second)?;
        let is_stale = answer(rt, alloc, &table.store, first, &get)? == STALE;
        let read = asks(&get, GET, &[(2, 0), (3, 0), (1, 0)]);
        let has_versions = has_versions(rt, table, second);
        let notes = notes(rt, alloc, table, first)?;
        let counts = first.stale() == 1 && first.passive() == 0 && second.stale() == 0;
        Some(puts && is_stale && read && has_versions && notes && counts)
    }
}

#[test]
fn a_late_reader_reads_again(rt: HostRuntime) {
    let rest = Rest {
        end: Some(End::Normal),
        journal: &JOURNAL,
        graph: GRAPH,
    };
    let scene = Scene {
        text: CELL,
        limits: LIMITS,
        rest,
    };
    assert!(rt; is_played(&rt, rt.alloc(), &scene, &LateReader) == Some(true));
}
