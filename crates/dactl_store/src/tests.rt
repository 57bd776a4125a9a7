ghost use Rattle.std.specs.Prelude.{◌≡◌, ◌+◌, ◌<◌, ◌^◌, IfOk};
ghost use Rattle.dactl_model.specs.Graphs.{HasNode};
ghost use Rattle.dactl_store.specs.Held.{IsValid};
ghost use Rattle.dactl_store.specs.Redirecting.{IsLatest};

use crate::{BeginCause, Memory, Store};
use dactl_model::arithmetic::arithmetic_rule;
use dactl_model::footprint::Woken;
use dactl_model::graph::{Label, Mark, NodeId, Room};
use dactl_model::program::{Class, FreshArc, FreshNode, Mention, Op, Program, Rule, Start, Symbol};
use dactl_model::validity::is_valid;
use dactl_model::view::View;
use sqlite_items::Items;
use std::alloc::Global;
use std::process::Abort;
use std::test::Fail;

/// Symbols named by one letter each; a store knows them by their numbers alone.
fn symbols(alloc: Global) -> Result<Items<Symbol>, Memory> {
    let mut all = Items::new(alloc);
    for letter in b'A'..b'H' {
        all.push(Symbol {
            name: Items::from_slice(alloc, &[letter])?,
            class: Class::Rewritable,
        })?;
    }
    Ok(all)
}

fn rules(alloc: Global) -> Result<Items<Rule>, Memory> {
    let operations = [Op::Add, Op::Sub, Op::Mul, Op::Eq, Op::Lt];
    let mut all = Items::new(alloc);
    for (number, op) in operations.into_iter().enumerate() {
        all.push(arithmetic_rule(alloc, number as u32, op)?)?;
    }
    Ok(all)
}

fn symbol(number: u32) -> Label {
    Label::Symbol(number)
}

fn node(
    alloc: Global,
    label: Label,
    mark: Mark,
    arcs: &[(u32, bool)],
) -> Result<FreshNode, Memory> {
    let mut fresh = Items::new(alloc);
    for &(to, waits) in arcs {
        fresh.push(FreshArc {
            to: Mention::Fresh(to),
            waits,
        })?;
    }
    Ok(FreshNode {
        label,
        arcs: fresh,
        mark,
    })
}

/// `##True[^@1 ^@1 @2]`, `*False`, `*ILt[@1 ^@2]` and `7`.
fn start(alloc: Global) -> Result<Start, Memory> {
    let waiting = [(1, true), (1, true), (2, false)];
    let to_itself = [(1, false), (2, true)];
    let mut fresh = Items::new(alloc);
    fresh.push(node(alloc, symbol(5), Mark::Waiting(2), &waiting)?)?;
    fresh.push(node(alloc, symbol(6), Mark::Active, &[])?)?;
    fresh.push(node(alloc, symbol(4), Mark::Active, &to_itself)?)?;
    fresh.push(node(alloc, Label::Integer(7), Mark::Idle, &[])?)?;
    Ok(Start { fresh, root: 0 })
}

fn program(alloc: Global) -> Result<Program, Memory> {
    Ok(Program {
        symbols: symbols(alloc)?,
        rules: rules(alloc)?,
        start: start(alloc)?,
        wide: true,
    })
}

fn room(nodes: u32, arcs: u32) -> Room {
    Room { nodes, arcs }
}

/// The store with the start, and this room. Each version from 1 on is later than those in it.
fn begun(rt: &impl Abort, alloc: Global, room: Room) -> Result<Store, BeginCause>
    ensures { IfOk result (IsLatest 1) }
{
    let Ok(program) = program(alloc) else {
        return Err(BeginCause::Memory);
    };
    assert!(rt; is_valid(&program));
    let store = Store::begin(alloc, &program.start, room)?;
    Ok(store)
}

fn id(number: u32) -> NodeId
    ensures { result.number ≡ number }
{
    NodeId { number }
}

/// Whether these are the arcs of the node, each with its flag.
fn has_arcs(store: &Store, node: NodeId, arcs: &[(u32, bool)]) -> bool
    requires valid { IsValid store.now }
    requires node { HasNode store.now.graph node }
{
    let count = store.arity(node);
    if arcs.len() != count as usize {
        return false;
    }
    for place in 0..count {
        let arc = store.arc(node, place);
        let (target, waits) = arcs[place as usize];
        if arc.target.number != target || arc.waits != waits {
            return false;
        }
    }
    true
}

/// Whether there is a node of this number, with this version, mark and label and these arcs.
fn is_node(
    store: &Store,
    number: u32,
    version: u32,
    mark: Mark,
    label: Label,
    arcs: &[(u32, bool)],
) -> bool {
    if number >= store.next_number() {
        return false;
    }
    let node = id(number);
    store.version(node) == version
        && store.mark(node) == mark
        && store.label(node) == label
        && has_arcs(store, node, arcs)
}

/// Whether the nodes of the start are as they were, but for this root, these targets in the place of the
/// nodes 1 and 2, and this version of those that have arcs.
fn has_start(store: &Store, root: u32, targets: [u32; 2], version: u32) -> bool {
    let [one, two] = targets;
    let waiting = [(one, true), (one, true), (two, false)];
    let to_itself = [(one, false), (two, true)];
    store.next_number() >= 4
        && store.root() == id(root)
        && is_node(store, 0, version, Mark::Waiting(2), symbol(5), &waiting)
        && is_node(store, 1, 0, Mark::Active, symbol(6), &[])
        && is_node(store, 2, version, Mark::Active, symbol(4), &to_itself)
        && is_node(store, 3, 0, Mark::Idle, Label::Integer(7), &[])
}

/// Whether a store with this room has the start, and so much room left.
fn begins(rt: &impl Abort, alloc: Global, limit: Room, left: Room) -> bool {
    match begun(rt, alloc, limit) {
        Ok(store) => has_start(&store, 0, [1, 2], 0) && store.left() == left,
        Err(_) => false,
    }
}

/// The start fits exactly into a room of 4 nodes and 5 arcs.
#[test]
fn a_store_begins_with_the_start(rt: HostRuntime) {
    assert!(&rt; begins(&rt, rt.alloc(), room(6, 8), room(2, 3)));
    assert!(&rt; begins(&rt, rt.alloc(), room(4, 5), room(0, 0)));
}

/// Whether the start is refused for this room, with what it needs and what is left.
fn is_refused(rt: &impl Abort, alloc: Global, limit: Room) -> bool {
    match begun(rt, alloc, limit) {
        Err(BeginCause::Small { needed, left }) => needed == room(4, 5) && left == limit,
        _ => false,
    }
}

/// There is room for a node or an arc too few.
#[test]
fn a_start_without_room_is_refused_with_both_counts(rt: HostRuntime) {
    assert!(&rt; is_refused(&rt, rt.alloc(), room(3, 8)));
    assert!(&rt; is_refused(&rt, rt.alloc(), room(6, 4)));
}

/// Whether the active nodes of these numbers come in turn.
fn are_active(store: &mut Store, numbers: &[u32]) -> bool {
    for number in numbers {
        if store.active() != Some(id(*number)) {
            return false;
        }
    }
    true
}

/// Gives the node of this number a mark, if there is one.
fn mark_node(store: &mut Store, number: u32, mark: Mark) -> bool {
    if number >= store.next_number() {
        return false;
    }
    store.set_mark(id(number), mark);
    true
}

/// Whether, each time that a node gets another mark, the active nodes have their turns.
fn take_turns(store: &mut Store) -> bool {
    for (number, mark, turns) in [
        (1, Mark::Active, [1, 2, 1]),
        (1, Mark::Idle, [2, 2, 2]),
        (3, Mark::Active, [2, 3, 2]),
        (2, Mark::Waiting(1), [3, 3, 3]),
    ] {
        if !mark_node(store, number, mark) || !are_active(store, &turns) {
            return false;
        }
    }
    true
}

/// The ring has the active nodes alone, each in its turn.
#[test]
fn active_nodes_take_turns(rt: HostRuntime) -> Result<(), Fail> {
    let mut store = begun(&rt, rt.alloc(), room(6, 8))?;
    assert!(&rt; take_turns(&mut store) && store.any_active());
    assert!(&rt; mark_node(&mut store, 3, Mark::Idle));
    assert!(&rt; !store.any_active() && store.active().is_none());
    Ok(())
}

/// Whether the first node is read with its label, its targets in order, and its version.
fn is_read(store: &Store) -> bool {
    if store.next_number() == 0 {
        return false;
    }
    let reading = store.reading(id(0));
    let [first, second, third, ..] = reading.targets.nodes;
    reading.node == id(0)
        && reading.label == symbol(5)
        && reading.version == 0
        && reading.targets.count == 3
        && first == id(1)
        && second == id(1)
        && third == id(2)
}

/// A reading names each target as often as there are arcs to it.
#[test]
fn a_reading_has_the_targets_in_order(rt: HostRuntime) -> Result<(), Fail> {
    let store = begun(&rt, rt.alloc(), room(6, 8))?;
    assert!(&rt; is_read(&store));
    Ok(())
}

/// Adds `*True` with one flagged arc to the target, if there is room.
fn append_leading_to(store: &mut Store, target: u32, version: u32) -> Option<NodeId> {
    let left = store.left();
    let room = store.next_number() + left.nodes;
    if left.nodes == 0 || left.arcs == 0 || target >= room {
        return None;
    }
    let node = store.append(symbol(5), Mark::Active, version);
    store.append_arc(node, id(target), true);
    Some(node)
}

/// Whether two nodes are added where there is room for two. The first leads to the second, which is still
/// to be added then.
fn takes_two(store: &mut Store) -> bool {
    append_leading_to(store, 5, 8) == Some(id(4))
        && store.left() == room(1, 2)
        && append_leading_to(store, 0, 9) == Some(id(5))
        && append_leading_to(store, 0, 10).is_none()
}

/// The new nodes stand behind those of the start, and have their turns behind them.
#[test]
fn nodes_are_added_up_to_the_room(rt: HostRuntime) -> Result<(), Fail> {
    let mut store = begun(&rt, rt.alloc(), room(6, 8))?;
    assert!(&rt; takes_two(&mut store) && has_start(&store, 0, [1, 2], 0));
    assert!(&rt; is_node(&store, 4, 8, Mark::Active, symbol(5), &[(5, true)]));
    assert!(&rt; is_node(&store, 5, 9, Mark::Active, symbol(5), &[(0, true)]));
    assert!(&rt; are_active(&mut store, &[1, 2, 4, 5, 1]));
    Ok(())
}

/// Whether a new node with this label, if there is room for it, is read with it.
fn keeps(store: &mut Store, label: Label) -> bool {
    if store.left().nodes == 0 {
        return false;
    }
    let node = store.append(label, Mark::Idle, 7);
    is_node(store, node.number, 7, Mark::Idle, label, &[]) && store.reading(node).label == label
}

/// A character is another label than the integer of its byte.
#[test]
fn a_label_is_kept_whole(rt: HostRuntime) -> Result<(), Fail> {
    let mut store = begun(&rt, rt.alloc(), room(6, 8))?;
    assert!(&rt; keeps(&mut store, Label::Character(b'a')));
    assert!(&rt; keeps(&mut store, Label::Integer(i128::MIN)));
    assert!(&rt; !is_node(&store, 4, 7, Mark::Idle, Label::Integer(97), &[]));
    Ok(())
}

/// Redirects by two pairs, if their nodes are within the room.
fn redirect(store: &mut Store, moves: [(u32, u32); 2], version: u32) -> bool
    requires { IsLatest version store.old }
    ensures { IsLatest (version + 1) store.new }
{
    let room = store.next_number() + store.left().nodes;
    let [(first, first_to), (second, second_to)] = moves;
    if first.max(first_to).max(second.max(second_to)) >= room {
        return false;
    }
    let pairs = [(id(first), id(first_to)), (id(second), id(second_to))];
    store.redirect(&pairs, version);
    true
}

/// Whether the root, the targets and the versions are sent, in turn, by a pair that would follow another, a
/// root and a second pair of one node, pairs that change nothing, two nodes that change places, and a node
/// that is still to be added. The redirections give the versions from 1 on, and each node has the last one
/// that one of its arcs got.
fn are_sent(store: &mut Store) -> bool
    requires { IsLatest 1 store.old }
{
    let mut version = 1;
    for (moves, root, targets, given) in [
        ([(1, 3), (3, 2)], 0, [3, 2], 1),
        ([(0, 1), (0, 2)], 1, [3, 2], 1),
        ([(2, 2), (3, 3)], 1, [3, 2], 1),
        ([(2, 3), (3, 2)], 1, [2, 3], 4),
        ([(3, 5), (1, 5)], 5, [2, 5], 5),
        ([(2, 1), (5, 5)], 5, [1, 5], 6),
    ] {
        if !redirect(store, moves, version) || !has_start(store, root, targets, given) {
            return false;
        }
        version += 1;
    }
    true
}

/// All pairs are followed at the same time, and the first one that begins with a node counts.
#[test]
fn targets_are_sent_once(rt: HostRuntime) -> Result<(), Fail> {
    let mut store = begun(&rt, rt.alloc(), room(6, 8))?;
    assert!(&rt; are_sent(&mut store));
    Ok(())
}

/// Whether a notification of the node of this number makes these nodes active.
fn wakes(alloc: Global, store: &mut Store, number: u32, nodes: &[NodeId]) -> Result<bool, Memory> {
    let count = store.next_number();
    let mut woken = Woken::with_room(alloc, count)?;
    if number >= count {
        return Ok(false);
    }
    store.notify(id(number), &mut woken);
    Ok(woken.list() == nodes)
}

/// Whether node 0 is active and waits no more, node 1 is idle, and node 2 has this mark, and a flag where it
/// waits.
fn is_notified(store: &Store, mark: Mark, waits: bool) -> bool {
    let plain = [(1, false), (1, false), (2, false)];
    let to_itself = [(1, false), (2, waits)];
    is_node(store, 0, 0, Mark::Active, symbol(5), &plain)
        && is_node(store, 1, 0, Mark::Idle, symbol(6), &[])
        && is_node(store, 2, 0, mark, symbol(4), &to_itself)
}

/// Node 0 waits along two arcs for node 1, to which node 2 has a plain arc; and node 2 has a flagged
/// arc to itself.
#[test]
fn a_node_that_waits_takes_one_notification_for_each_arc(rt: HostRuntime) -> Result<(), Fail> {
    let mut store = begun(&rt, rt.alloc(), room(6, 8))?;
    assert!(&rt; wakes(rt.alloc(), &mut store, 1, &[id(0)])?);
    assert!(&rt; is_notified(&store, Mark::Active, true));
    assert!(&rt; wakes(rt.alloc(), &mut store, 2, &[])?);
    assert!(&rt; is_notified(&store, Mark::Idle, false) && are_active(&mut store, &[0, 0]));
    Ok(())
}
