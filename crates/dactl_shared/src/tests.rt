//! Turns through two seats, on one thread. Commits are tested with compiled texts, since an attempt
//! comes of a probe.

ghost use Rattle.std.specs.Prelude.{◌≡◌, [], None, All, IfSome};
ghost use Rattle.dactl_shared.specs.Stores.{WorksFor, IsFresh};

use crate::{SharedStore, WorkerSeat};
use dactl_model::Memory;
use dactl_model::arithmetic::arithmetic_rule;
use dactl_model::graph::{Label, Limits, Mark, NodeId};
use dactl_model::program::{Class, FreshNode, Op, Program, Rule, Start, Symbol};
use dactl_model::validity::is_valid;
use dactl_state::State;
use sqlite_items::Items;
use std::alloc::Global;
use std::sync::Wait;

/// The symbol of the first node.
const TRUE: Label = Label::Symbol(5);

const NODE: NodeId = NodeId { number: 0 };

const LIMITS: Limits = Limits {
    nodes: 10,
    arcs: 40,
    budget: 5,
};

fn symbols(alloc: Global) -> Result<Items<Symbol>, Memory> {
    let names: [&[u8]; 7] = [b"IAdd", b"ISub", b"IMul", b"IEq", b"ILt", b"True", b"False"];
    let mut all = Items::new(alloc);
    for name in names {
        all.push(Symbol {
            name: Items::from_slice(alloc, name)?,
            class: Class::Creatable,
        })?;
    }
    Ok(all)
}

fn rules(alloc: Global) -> Result<Items<Rule>, Memory> {
    let operations = [Op::Add, Op::Sub, Op::Mul, Op::Eq, Op::Lt];
    let mut all = Items::new(alloc);
    for (number, op) in operations.into_iter().enumerate() {
        all.push(arithmetic_rule(alloc, number as u32, op)?)?;
    }
    Ok(all)
}

// The rules of the arithmetic, with one active node.
fn program(alloc: Global) -> Result<Program, Memory> {
    let mut fresh = Items::new(alloc);
    fresh.push(FreshNode {
        label: TRUE,
        arcs: Items::new(alloc),
        mark: Mark::Active,
    })?;
    Ok(Program {
        symbols: symbols(alloc)?,
        rules: rules(alloc)?,
        start: Start { fresh, root: 0 },
        wide: false,
    })
}

fn begun(alloc: Global) -> Option<State>
    ensures { IfSome result (λ state. (state.journal ≡ []) × (state.full ≡ None)) }
{
    let program = program(alloc).ok()?;
    if !is_valid(&program) {
        return None;
    }
    State::begin(alloc, program, LIMITS).ok()
}

// Whether the seat finds the first graph.
fn finds_start<R: Wait>(rt: &R, store: &SharedStore, seat: &mut WorkerSeat) -> bool
    requires { WorksFor store.now seat.old }
    ensures { WorksFor store.now seat.new }
{
    if store.count(rt, seat) != 1 {
        return false;
    }
    let reading = store.read(rt, seat, NODE);
    reading.label == TRUE
        && reading.version == 0
        && reading.targets.count == 0
        && store.next_active(rt, seat) == Some(NODE)
}

// One of the seats.
fn taken(store: &SharedStore, seats: &mut Vec<WorkerSeat>) -> Option<WorkerSeat>
    requires { All (IsFresh store.now) seats.old.items }
    ensures seat { IfSome result (IsFresh store.now) }
    ensures left { All (IsFresh store.now) seats.new.items }
{
    let _ = store;
    seats.pop()
}

fn is_fresh(seat: &WorkerSeat, number: u8) -> bool {
    seat.number() == number && seat.stale() == 0 && seat.passive() == 0
}

// Whether both seats find the first graph, and the state is closed with it.
fn both_find_start<R: Wait>(rt: &R, alloc: Global) -> Option<bool> {
    let state = begun(alloc)?;
    let Ok((mut store, mut seats)) = SharedStore::new(alloc, state, 2) else {
        return None;
    };
    let mut second = taken(&store, &mut seats)?;
    let mut first = taken(&store, &mut seats)?;
    let fresh = is_fresh(&first, 1) && is_fresh(&second, 2) && store.limits() == LIMITS;
    let found = finds_start(rt, &store, &mut first) && finds_start(rt, &store, &mut second);
    store.rejoin(first);
    store.rejoin(second);
    let state = store.close();
    Some(fresh && found && state.count() == 1 && state.end().is_none())
}

#[test]
fn seats_find_what_the_state_has(rt: HostRuntime) {
    assert!(rt; both_find_start(&rt, rt.alloc()) == Some(true));
}
