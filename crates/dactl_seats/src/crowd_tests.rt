//! Four threads share a long run.

ghost use Rattle.std.specs.Prelude.{◌≡◌};
ghost use Rattle.std.specs.Thread.{IsSync};
ghost use Rattle.dactl_shared.specs.Stores.{WorksFor, program_of};

use crate::rest::is_run;
use crate::table::{Table, laid, last_seat, left};
use crate::trying::tried_next;
use dactl_decide::Deciders;
use dactl_model::graph::{End, Entry, Limits};
use dactl_shared::{SharedStore, WorkerSeat};
use dactl_state::{Answer, Finished};
use std::alloc::Global;
use std::sync::Wait;
use std::thread::{Threads, join};

/// Four rings, in each of which one node is active and wakes the next, for ever and with no new
/// nodes; and a cell that many calls turn over at the same time.
const RINGS: &str =
    "MODULE M; SYMBOL REWRITABLE Pass, Turn; SYMBOL OVERWRITABLE Cell; SYMBOL CREATABLE Top, On, Off, Done; RULE Pass[x] -> *x; Turn[c:Cell[On]] => Done, c := Cell[Off]; Turn[c:Cell[Off]] => Done, c := Cell[On]; INITIAL => Top[*a:Pass[Pass[Pass[a]]] *b:Pass[Pass[Pass[b]]] *d:Pass[Pass[Pass[d]]] *e:Pass[Pass[Pass[e]]] c:Cell[Off] *Turn[c] *Turn[c] *Turn[c] *Turn[c] *Turn[c] *Turn[c] *Turn[c] *Turn[c]]; ENDMODULE M;";

/// The commits of each thread.
const SHARE: u32 = 25_000;

/// The start has 23 nodes, and each of 8 calls makes 3.
const LIMITS: Limits = Limits {
    nodes: 64,
    arcs: 256,
    budget: 4 * SHARE,
};

// Takes steps until the seat has made its share.
fn works<R: Wait>(
    rt: &R,
    alloc: Global,
    store: &SharedStore,
    deciders: &Deciders,
    mut seat: WorkerSeat,
) -> WorkerSeat
    requires program { deciders.now.program ≡ program_of store.now }
    requires own { WorksFor store.now seat }
    ensures { WorksFor store.now result }
{
    let mut due = SHARE;
    for _ in rt.forever() {
        if due == 0 {
            break;
        }
        match tried_next(rt, alloc, store, deciders, &mut seat) {
            Some(Answer::Committed) => due -= 1,
            Some(Answer::Passive | Answer::Stale { .. }) => {}
            Some(Answer::Full { .. } | Answer::Ended(_)) | None => break,
        }
    }
    seat
}

// Two threads work.
fn work_in_two<R: Threads + Wait + Sync>(
    rt: &R,
    alloc: Global,
    store: &SharedStore,
    deciders: &Deciders,
    seats: (WorkerSeat, WorkerSeat),
) -> (WorkerSeat, WorkerSeat)
    requires program { deciders.now.program ≡ program_of store.now }
    requires own { WorksFor store.now seats.0 × WorksFor store.now seats.1 }
    ensures { WorksFor store.now result.0 × WorksFor store.now result.1 }
{
    let (first, second) = seats;
    join(
        rt,
        || works(rt, alloc, store, deciders, first),
        || works(rt, alloc, store, deciders, second),
    )
}

// Four threads work.
fn work_in_four<R: Threads + Wait + Sync>(
    rt: &R,
    alloc: Global,
    store: &SharedStore,
    deciders: &Deciders,
    front: (WorkerSeat, WorkerSeat),
    rear: (WorkerSeat, WorkerSeat),
) -> ((WorkerSeat, WorkerSeat), (WorkerSeat, WorkerSeat))
    requires program { deciders.now.program ≡ program_of store.now }
    requires front { WorksFor store.now front.0 × WorksFor store.now front.1 }
    requires rear { WorksFor store.now rear.0 × WorksFor store.now rear.1 }
    ensures front { WorksFor store.now result.0.0 × WorksFor store.now result.0.1 }
    ensures rear { WorksFor store.now result.1.0 × WorksFor store.now result.1.1 }
{
    join(
        rt,
        || -> (WorkerSeat, WorkerSeat)
            requires sync { IsSync R.row }
            requires program { deciders.now.program ≡ program_of store.now }
            requires own { WorksFor store.now front.0 × WorksFor store.now front.1 }
            ensures { WorksFor store.entry.now result.0 × WorksFor store.entry.now result.1 }
        { work_in_two(rt, alloc, store, deciders, front) },
        || -> (WorkerSeat, WorkerSeat)
            requires sync { IsSync R.row }
            requires program { deciders.now.program ≡ program_of store.now }
            requires own { WorksFor store.now rear.0 × WorksFor store.now rear.1 }
            ensures { WorksFor store.entry.now result.0 × WorksFor store.entry.now result.1 }
        { work_in_two(rt, alloc, store, deciders, rear) },
    )
}

// What is left when four threads have worked.
fn worked<R: Threads + Wait + Sync>(rt: &R, alloc: Global) -> Option<Finished> {
    let (table, mut seats) = laid(rt, alloc, RINGS, LIMITS, 4)?;
    let first = last_seat(&table, &mut seats)?;
    let second = last_seat(&table, &mut seats)?;
    let third = last_seat(&table, &mut seats)?;
    let fourth = last_seat(&table, &mut seats)?;
    let Table {
        mut store,
        deciders,
    } = table;
    let ((first, second), (third, fourth)) = work_in_four(
        rt,
        alloc,
        &store,
        &deciders,
        (first, second),
        (third, fourth),
    );
    store.rejoin(first);
    store.rejoin(second);
    store.rejoin(third);
    store.rejoin(fourth);
    Some(left(store.close()))
}

// How many entries the worker has.
fn share_of(journal: &[Entry], worker: u8) -> usize {
    journal
        .iter()
        .filter(|entry| entry.worker == worker)
        .count()
}

// Whether each of the four workers has its share of the entries.
fn is_shared(journal: &[Entry]) -> bool {
    journal.len() == 4 * SHARE as usize
        && (1..=4).all(|worker| share_of(journal, worker) == SHARE as usize)
}

#[test]
fn four_threads_commit_100000_steps(rt: HostRuntime) {
    let finished = worked(&rt, rt.alloc());
    let Some(finished) = finished else {
        assert!(rt; false, "a seat is missing");
        return;
    };
    assert!(rt; finished.end == Some(End::Budget) && is_shared(&finished.journal));
    assert!(rt; is_run(rt.alloc(), &finished));
}
