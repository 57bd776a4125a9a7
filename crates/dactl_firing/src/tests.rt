mod matching;
mod nodes;
mod programs;

ghost use Rattle.std.specs.Prelude.{◌≡◌, ◌+◌, ◌≤◌, IfOk, IsTrue};
ghost use Rattle.dactl_model.specs.Programs.{IsValid as IsValidProgram};
ghost use Rattle.dactl_store.specs.Redirecting.{IsLatest};

use crate::{Full, fire, note};
use dactl_model::footprint::Woken;
use dactl_model::graph::{Label, Mark, NodeId, Room};
use dactl_model::program::Program;
use dactl_model::validity::is_valid;
use dactl_model::view::View;
use dactl_store::{BeginCause, Memory, Store};
use matching::is_match;
use nodes::{id, is_node};
use programs::{
    A, CONS, Contractum, F, G, NOTHING, arc, from, from_root, new, node, old, program, to, to_both,
    waits_for,
};
use std::alloc::Global;
use std::test::Fail;
use std::time::Instant;

fn begin(alloc: Global, program: &Program, room: Room) -> Result<Store, BeginCause>
    requires { IsValidProgram program.now }
    ensures room { IfOk result (λ store. store.room ≡ room) }
    ensures latest { IfOk result (IsLatest 1) }
{
    Store::begin(alloc, &program.start, room)
}

fn room(nodes: u32, arcs: u32) -> Room {
    Room { nodes, arcs }
}

fn symbol(number: u32) -> Label {
    Label::Symbol(number)
}

/// A rule that is to fire at a node, with these nodes for its variables.
#[derive(Clone, Copy)]
struct Call<'a> {
    node: NodeId,
    rule: u32,
    bound: &'a [NodeId],
}

/// The rule of `F` at the first of the nodes of its variables.
fn own_call(bound: &[NodeId; 3]) -> Call<'_> {
    Call {
        node: bound[0],
        rule: 5,
        bound,
    }
}

/// Whether the rule has this answer as entry 5, and makes these nodes active. The list of woken nodes has
/// the node at which it fires before.
fn answers(
    alloc: Global,
    program: &Program,
    store: &mut Store,
    call: Call<'_>,
    full: Option<Full>,
    wakes: &[NodeId],
) -> bool
    requires program { IsValidProgram program.now }
    requires latest { IsLatest 1 store.old }
{
    let Call { node, rule, bound } = call;
    let count = store.next_number();
    let Ok(mut woken) = Woken::with_room(alloc, count + store.left().nodes) else {
        return false;
    };
    if node.number >= count || !is_match(store, program, node, rule, bound) {
        return false;
    }
    woken.push(node);
    let answer = fire(store, program, node, rule, bound, 5, &mut woken).err();
    answer == full && woken.list() == wakes
}

/// `r:F[x y] => m:##G[^x ^*F[x y]], x := y, *x`, and the start `*F[a b]`, `a:A`, `b:A` and
/// `Cons[@0 ^a b]`.
fn everything(alloc: Global) -> Result<Program, Memory> {
    let both = [waits_for(old(1)), waits_for(new(1))];
    let own = [to(old(1)), to(old(2))];
    let fresh = [
        node(symbol(G), Mark::Waiting(2), &both),
        node(symbol(F), Mark::Active, &own),
    ];
    let made = Contractum {
        fresh: &fresh,
        moves: &[from_root(new(0)), from(1, old(2))],
        wakes: &[1],
        suspend: 0,
    };
    let call = to_both(1, 2);
    let arcs = [to(new(0)), waits_for(new(1)), to(new(2))];
    let start = [
        node(symbol(F), Mark::Active, &call),
        node(symbol(A), Mark::Idle, &[]),
        node(symbol(A), Mark::Idle, &[]),
        node(symbol(CONS), Mark::Idle, &arcs),
    ];
    program(alloc, made, &start)
}

/// Whether the nodes of that start are as they were.
fn is_unchanged(store: &Store) -> bool {
    let call = [(1, false), (2, false)];
    let arcs = [(0, false), (1, true), (2, false)];
    store.next_number() == 4
        && store.root() == id(0)
        && is_node(store, 0, 0, Mark::Active, symbol(F), &call)
        && is_node(store, 1, 0, Mark::Idle, symbol(A), &[])
        && is_node(store, 2, 0, Mark::Idle, symbol(A), &[])
        && is_node(store, 3, 0, Mark::Idle, symbol(CONS), &arcs)
}

/// Whether the root and the nodes of that start are as the rule leaves them.
fn has_sent(store: &Store) -> bool {
    let call = [(2, false), (2, false)];
    let arcs = [(4, false), (2, true), (2, false)];
    store.next_number() == 6
        && store.root() == id(4)
        && is_node(store, 0, 5, Mark::Idle, symbol(F), &call)
        && is_node(store, 1, 0, Mark::Active, symbol(A), &[])
        && is_node(store, 2, 0, Mark::Idle, symbol(A), &[])
        && is_node(store, 3, 5, Mark::Idle, symbol(CONS), &arcs)
}

/// Whether the new nodes are as the rule makes them.
fn has_made(store: &Store) -> bool {
    let both = [(2, true), (5, true)];
    let own = [(2, false), (2, false)];
    is_node(store, 4, 5, Mark::Waiting(2), symbol(G), &both)
        && is_node(store, 5, 5, Mark::Active, symbol(F), &own)
}

/// Whether the rule fires in a room that is just enough, and sends all arcs and the root.
fn sends_all(alloc: Global, program: &Program) -> bool
    requires { IsValidProgram program.now }
{
    let Ok(mut store) = begin(alloc, program, room(6, 9)) else {
        return false;
    };
    let bound = [id(0), id(1), id(2)];
    answers(
        alloc,
        program,
        &mut store,
        own_call(&bound),
        None,
        &[id(1), id(5)],
    ) && has_sent(&store)
        && has_made(&store)
}

/// The arcs of old nodes, those of the contractum and the root are sent once, and keep their flags;
/// and a node that is redirected is woken itself.
#[test]
fn arcs_and_the_root_are_sent_once(rt: HostRuntime) -> Result<(), Fail> {
    let program = everything(rt.alloc())?;
    assert!(&rt; is_valid(&program));
    assert!(&rt; sends_all(rt.alloc(), &program));
    Ok(())
}

/// Whether the rule is refused in this room, of which the start leaves so much, and leaves the store.
fn is_refused(alloc: Global, program: &Program, limit: Room, left: Room) -> bool
    requires { IsValidProgram program.now }
{
    let Ok(mut store) = begin(alloc, program, limit) else {
        return false;
    };
    let bound = [id(0), id(1), id(2)];
    let needed = room(2, 4);
    let full = Some(Full { needed, left });
    answers(alloc, program, &mut store, own_call(&bound), full, &[]) && is_unchanged(&store)
}

/// The start takes four nodes and five arcs, and the rule two and four, so a node or an arc is wanting.
#[test]
fn a_rule_without_room_leaves_the_store(rt: HostRuntime) -> Result<(), Fail> {
    let program = everything(rt.alloc())?;
    assert!(&rt; is_valid(&program));
    assert!(&rt; is_refused(rt.alloc(), &program, room(5, 9), room(1, 4)));
    assert!(&rt; is_refused(rt.alloc(), &program, room(6, 8), room(2, 3)));
    Ok(())
}

/// `r:F[x y] -> *r *x *y *r`, where the start is `A`, `*F[@2 @0]` and `#Cons[^@1 @0]`.
fn waking(alloc: Global) -> Result<Program, Memory> {
    let made = Contractum {
        fresh: &[],
        moves: &[],
        wakes: &[0, 1, 2, 0],
        suspend: 0,
    };
    let call = to_both(2, 0);
    let arcs = [waits_for(new(1)), to(new(0))];
    let start = [
        node(symbol(A), Mark::Idle, &[]),
        node(symbol(F), Mark::Active, &call),
        node(symbol(CONS), Mark::Waiting(1), &arcs),
    ];
    program(alloc, made, &start)
}

/// Whether node 0 is active, and the others have these marks, the last one with a flag where it waits.
fn are_marked(store: &Store, second: Mark, third: Mark, waits: bool) -> bool {
    let call = [(2, false), (0, false)];
    let arcs = [(1, waits), (0, false)];
    is_node(store, 0, 0, Mark::Active, symbol(A), &[])
        && is_node(store, 1, 0, second, symbol(F), &call)
        && is_node(store, 2, 0, third, symbol(CONS), &arcs)
}

/// Whether a notification of the node of this number makes these nodes active.
fn wakes(alloc: Global, store: &mut Store, number: u32, nodes: &[NodeId]) -> bool {
    let count = store.next_number();
    let Ok(mut woken) = Woken::with_room(alloc, count) else {
        return false;
    };
    if number >= count {
        return false;
    }
    note(store, id(number), &mut woken);
    woken.list() == nodes
}

/// Whether the rule of that program wakes the idle nodes alone, and its node then the one that waits.
fn wakes_each_once(alloc: Global, program: &Program) -> bool
    requires { IsValidProgram program.now }
{
    let Ok(mut store) = begin(alloc, program, room(3, 4)) else {
        return false;
    };
    let bound = [id(1), id(2), id(0)];
    answers(
        alloc,
        program,
        &mut store,
        own_call(&bound),
        None,
        &[id(0), id(1)],
    ) && are_marked(&store, Mark::Active, Mark::Waiting(1), true)
        && wakes(alloc, &mut store, 1, &[id(2)])
        && are_marked(&store, Mark::Idle, Mark::Active, false)
}

/// The woken nodes are listed from the least one on, each once; one that waits goes on waiting, until
/// it is notified.
#[test]
fn woken_nodes_are_listed_once(rt: HostRuntime) -> Result<(), Fail> {
    let program = waking(rt.alloc())?;
    assert!(&rt; is_valid(&program));
    assert!(&rt; wakes_each_once(rt.alloc(), &program));
    Ok(())
}

/// `r:F[x y] -> #r *r *x`, with so many `#`, and the start `*F[a b]`, `a:A` and `b:A`, where these of the
/// two arcs are flagged.
fn suspending(alloc: Global, suspend: u8, flags: [bool; 2]) -> Result<Program, Memory> {
    let made = Contractum {
        wakes: &[0, 1],
        suspend,
        ..NOTHING
    };
    let [first, second] = flags;
    let call = [arc(new(1), first), arc(new(2), second)];
    let start = [
        node(symbol(F), Mark::Active, &call),
        node(symbol(A), Mark::Idle, &[]),
        node(symbol(A), Mark::Idle, &[]),
    ];
    program(alloc, made, &start)
}

/// Whether the rule of that program leaves its node with this mark and its arcs as they were, and makes these
/// nodes active.
fn leaves(alloc: Global, program: &Program, flags: [bool; 2], mark: Mark, wakes: &[NodeId]) -> bool
    requires { IsValidProgram program.now }
{
    let Ok(mut store) = begin(alloc, program, room(3, 2)) else {
        return false;
    };
    let [first, second] = flags;
    let bound = [id(0), id(1), id(2)];
    answers(alloc, program, &mut store, own_call(&bound), None, wakes)
        && is_node(&store, 0, 0, mark, symbol(F), &[(1, first), (2, second)])
        && is_node(&store, 1, 0, Mark::Active, symbol(A), &[])
}

/// Whether that program is valid, and its rule does so.
fn suspends(
    alloc: Global,
    suspend: u8,
    flags: [bool; 2],
    mark: Mark,
    wakes: &[NodeId],
) -> Result<bool, Memory> {
    let program = suspending(alloc, suspend, flags)?;
    Ok(is_valid(&program) && leaves(alloc, &program, flags, mark, wakes))
}

/// The node at which the rule fires waits again for as many notifications as it asks, but for no more than
/// its own flagged arcs; where it has none it stays active.
#[test]
fn a_root_waits_along_its_own_arcs(rt: HostRuntime) -> Result<(), Fail> {
    let woken = [id(1)];
    let active = [id(0), id(1)];
    assert!(&rt; suspends(rt.alloc(), 1, [true, false], Mark::Waiting(1), &woken)?);
    assert!(&rt; suspends(rt.alloc(), 1, [true, true], Mark::Waiting(1), &woken)?);
    assert!(&rt; suspends(rt.alloc(), 3, [true, true], Mark::Waiting(2), &woken)?);
    assert!(&rt; suspends(rt.alloc(), 1, [false, false], Mark::Active, &active)?);
    Ok(())
}

/// The start `*Op[x y]` of an arithmetic symbol, which is also that of its rule, and two integers.
fn calling(alloc: Global, operation: u32, x: i128, y: i128) -> Result<Program, Memory> {
    let call = to_both(1, 2);
    let start = [
        node(symbol(operation), Mark::Active, &call),
        node(Label::Integer(x), Mark::Idle, &[]),
        node(Label::Integer(y), Mark::Idle, &[]),
    ];
    program(alloc, NOTHING, &start)
}

/// Whether the root is a new active node with this label.
fn has_result(store: &Store, label: Label) -> bool {
    store.next_number() == 4
        && store.root() == id(3)
        && is_node(store, 3, 5, Mark::Active, label, &[])
}

/// Whether the rule of the operation makes that node.
fn results(alloc: Global, program: &Program, operation: u32, label: Label) -> bool
    requires { IsValidProgram program.now }
{
    let Ok(mut store) = begin(alloc, program, room(4, 2)) else {
        return false;
    };
    let call = Call {
        node: id(0),
        rule: operation,
        bound: &[id(1), id(2)],
    };
    answers(alloc, program, &mut store, call, None, &[id(3)]) && has_result(&store, label)
}

/// Whether the operation makes this label of the integers.
fn computes(alloc: Global, operation: u32, x: i128, y: i128, label: Label) -> Result<bool, Memory> {
    let program = calling(alloc, operation, x, y)?;
    Ok(is_valid(&program) && results(alloc, &program, operation, label))
}

/// The sum, the difference, the product and the two comparisons of 40 and 2.
#[test]
fn arithmetic_rules_make_a_result(rt: HostRuntime) -> Result<(), Fail> {
    for (operation, label) in [
        (0, Label::Integer(42)),
        (1, Label::Integer(38)),
        (2, Label::Integer(80)),
        (3, symbol(6)),
        (4, symbol(6)),
    ] {
        assert!(&rt; computes(rt.alloc(), operation, 40, 2, label)?);
    }
    Ok(())
}

/// The sum of the greatest 64-bit integer and 1.
#[test]
fn a_sum_may_have_more_than_64_bits(rt: HostRuntime) -> Result<(), Fail> {
    let sum = Label::Integer(0x8000_0000_0000_0000);
    assert!(&rt; computes(rt.alloc(), 0, 0x7fff_ffff_ffff_ffff, 1, sum)?);
    Ok(())
}

/// `r:F[x y] => #Cons[x ^*F[x y]]`, and the start `*F[a b]`, `a:A` and `b:A`.
fn growing(alloc: Global) -> Result<Program, Memory> {
    let cell = [to(old(1)), waits_for(new(1))];
    let rest = [to(old(1)), to(old(2))];
    let fresh = [
        node(symbol(CONS), Mark::Waiting(1), &cell),
        node(symbol(F), Mark::Active, &rest),
    ];
    let made = Contractum {
        fresh: &fresh,
        moves: &[from_root(new(0))],
        wakes: &[],
        suspend: 0,
    };
    let call = to_both(1, 2);
    let start = [
        node(symbol(F), Mark::Active, &call),
        node(symbol(A), Mark::Idle, &[]),
        node(symbol(A), Mark::Idle, &[]),
    ];
    program(alloc, made, &start)
}

/// Whether the rule fires as this entry, where these are the nodes of its variables.
fn fires(
    program: &Program,
    store: &mut Store,
    bound: [NodeId; 3],
    entry: u32,
    woken: &mut Woken,
) -> bool
    requires program { IsValidProgram program.now }
    requires latest { IsLatest entry store.old }
    requires room { store.old.room.nodes ≤ woken.old.room }
    ensures room { store.new.room.nodes ≤ woken.new.room }
    ensures latest { IsTrue result → IsLatest (entry + 1) store.new }
{
    let [node, ..] = bound;
    node.number < store.next_number()
        && is_match(store, program, node, 5, &bound)
        && fire(store, program, node, 5, &bound, entry, woken).is_ok()
}

/// How often the rule fires, each time at the active node, up to so many times.
fn firings(program: &Program, store: &mut Store, most: u32, woken: &mut Woken) -> u32
    requires program { IsValidProgram program.now }
    requires latest { IsLatest 1 store.old }
    requires room { store.old.room.nodes ≤ woken.old.room }
{
    for entry in 0..most {
        let Some(node) = store.active() else {
            return entry;
        };
        let bound = [node, id(1), id(2)];
        if !fires(program, store, bound, entry + 1, woken) {
            return entry;
        }
    }
    most
}

/// How many firings are measured below. Each takes two nodes and four arcs, so that they fill a store of the
/// greatest limits.
const FIRINGS: u32 = 1_000_000;

/// How often the rule fires, where one more is tried. It prints how long they took together.
fn measured(
    rt: &HostRuntime,
    program: &Program,
    store: &mut Store,
    woken: &mut Woken,
) -> Result<u32, Fail>
    requires program { IsValidProgram program.now }
    requires latest { IsLatest 1 store.old }
    requires room { store.old.room.nodes ≤ woken.old.room }
{
    let begun = Instant::now(rt)?;
    let count = firings(program, store, FIRINGS + 1, woken);
    let took = begun.elapsed(rt)?.as_micros();
    println!(rt; "{count} firings in {took} microseconds")?;
    Ok(count)
}

/// Whether the last firing that there is room for is the last one.
fn fill(rt: &HostRuntime, program: &Program) -> Result<bool, Fail>
    requires { IsValidProgram program.now }
{
    let limit = room(3 + 2 * FIRINGS, 2 + 4 * FIRINGS);
    let mut store = begin(rt.alloc(), program, limit)?;
    let mut woken = Woken::with_room(rt.alloc(), limit.nodes)?;
    let count = measured(rt, program, &mut store, &mut woken)?;
    Ok(count == FIRINGS && store.left() == room(0, 0) && woken.list().is_empty())
}

/// The nodes and arcs of a million firings are added, and no more.
#[test]
fn many_firings_fill_the_store(rt: HostRuntime) -> Result<(), Fail> {
    let program = growing(rt.alloc())?;
    assert!(&rt; is_valid(&program));
    assert!(&rt; fill(&rt, &program)?);
    Ok(())
}
