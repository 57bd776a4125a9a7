//! The check of a trace, line by line.
ghost use Rattle.std.specs.Prelude.{◌≡◌, ◌≤◌, [], IfOk, IfErr, length};
ghost use Rattle.dactl_model.specs.declared.graph.Event.TheVariants.{Fire};
ghost use Rattle.dactl_model.specs.Ending.{room_left};
ghost use Rattle.dactl_model.specs.Programs.{IsValid};
ghost use Rattle.dactl_verify.specs.Rooms.{limits_of};
ghost use Rattle.dactl_verify.specs.Steps.{IsReached, IsOutcome, IsFoundAt};
ghost use Rattle.dactl_verify.specs.Verdicts.{IsFront, IsVerdict};

use crate::line::read_line;
use crate::room::{exceeds, needed_by, room_of};
use crate::verdict::Verdict;
use dactl_base::line::split_line;
use dactl_model::Memory;
use dactl_model::graph::{Entry, Event, Graph, NodeId, Room};
use dactl_model::program::Program;
use dactl_plain::{allowed_match, fire_in_place, start_graph, step};
use std::alloc::Global;

/// The graph after the entries so far, and how many arcs it has.
#[derive(Drop)]
pub struct Reached {
    graph: Graph,
    arcs: u32,
}

/// What an event comes to: it may not happen, there is no room for it, or it leads to a graph.
#[derive(Drop)]
pub enum Outcome {
    Wrong,
    Full {
        node: NodeId,
        rule: u32,
        needed: Room,
        left: Room,
    },
    Right(Reached),
}

/// What a line comes to: the check stops with it, or it is that of an entry and leads to a graph.
#[derive(Drop)]
pub enum Found {
    Stops(Verdict),
    Leads { entry: Entry, after: Reached },
}

impl Reached {
    // What the room leaves beside the graph.
    fn left(&self, room: Room) -> Room
        requires few { room.nodes ≤ 2000000 }
        requires reached { IsReached room self.now }
        ensures { result ≡ room_left (limits_of room) self.now.graph }
    {
        Room {
            nodes: room.nodes - self.graph.nodes.len() as u32,
            arcs: room.arcs - self.arcs,
        }
    }
}

// What a firing comes to. The room is asked where the rule is allowed, and before it fires.
fn after_fire(
    alloc: Global,
    program: &Program,
    room: Room,
    reached: Reached,
    node: NodeId,
    rule: u32,
) -> Result<Outcome, Memory>
    requires program { IsValid program.now }
    requires room { room.nodes ≤ 2000000 }
    requires reached { IsReached room reached }
    ensures { IfOk result (IsOutcome program.now room reached.graph (Fire node rule)) }
{
    let Some(bindings) = allowed_match(alloc, program, &reached.graph, node, rule)? else {
        return Ok(Outcome::Wrong);
    };
    let needed = needed_by(&program.rule(rule).body);
    let left = reached.left(room);
    if exceeds(needed, left) {
        return Ok(Outcome::Full {
            node,
            rule,
            needed,
            left,
        });
    }
    let Reached { graph, arcs } = reached;
    let after = fire_in_place(alloc, program, graph, node, rule, bindings.as_slice())?;
    Ok(Outcome::Right(Reached {
        graph: after,
        arcs: arcs + needed.arcs,
    }))
}

// What an event comes to. A notification takes no room.
fn after_event(
    alloc: Global,
    program: &Program,
    room: Room,
    reached: Reached,
    event: Event,
) -> Result<Outcome, Memory>
    requires program { IsValid program.now }
    requires room { room.nodes ≤ 2000000 }
    requires reached { IsReached room reached }
    ensures { IfOk result (IsOutcome program.now room reached.graph event) }
{
    match event {
        Event::Fire { node, rule } => after_fire(alloc, program, room, reached, node, rule),
        Event::Note { .. } => {
            let Reached { graph, arcs } = reached;
            match step(alloc, program, graph, event)? {
                Some(after) => Ok(Outcome::Right(Reached { graph: after, arcs })),
                None => Ok(Outcome::Wrong),
            }
        }
    }
}

// What the line of this number comes to.
fn check_line(
    alloc: Global,
    program: &Program,
    room: Room,
    reached: Reached,
    line: &[u8],
    number: u32,
) -> Result<Found, Memory>
    requires program { IsValid program.now }
    requires room { room.nodes ≤ 2000000 }
    requires reached { IsReached room reached }
    ensures { IfOk result (IsFoundAt program.now room reached.graph number line.now) }
{
    let Some(entry) = read_line(line, number) else {
        return Ok(Found::Stops(Verdict::Wrong { line: number }));
    };
    match after_event(alloc, program, room, reached, entry.event)? {
        Outcome::Wrong => Ok(Found::Stops(Verdict::Wrong { line: number })),
        Outcome::Full {
            node,
            rule,
            needed,
            left,
        } => Ok(Found::Stops(Verdict::Full {
            line: number,
            node,
            rule,
            needed,
            left,
        })),
        Outcome::Right(after) => Ok(Found::Leads { entry, after }),
    }
}

/// Checks the trace as a journal of the program, line by line, in a room for so many nodes and
/// arcs. The journal holds the entries of the lines before the one at which the check stopped, or
/// of all lines. Where memory is wanting, it holds entries of first lines that were right.
///
/// # Errors
///
/// When memory is wanting.
pub fn verify(
    alloc: Global,
    program: &Program,
    trace: &[u8],
    room: Room,
    journal: &mut Vec<Entry>,
) -> Result<Verdict, Memory>
    requires program { IsValid program.now }
    requires trace { length trace.now ≤ 1048576 }
    requires room { room.nodes ≤ 2000000 }
    requires journal { journal.old.items ≡ [] }
    ensures verdict { IfOk result (IsVerdict program.now trace.now room journal.new.items) }
    ensures front { IfErr result (λ _. IsFront program.now trace.now room journal.new.items) }
{
    let needed = room_of(program.start.fresh.as_slice());
    if exceeds(needed, room) {
        return Ok(Verdict::Small { needed, left: room });
    }
    let graph = start_graph(alloc, program)?;
    let mut reached = Reached {
        graph,
        arcs: needed.arcs,
    };
    let mut rest = trace;
    'lines: while !rest.is_empty() {
        let (line, behind) = split_line(rest);
        let number = journal.len() as u32 + 1;
        match check_line(alloc, program, room, reached, line, number)? {
            Found::Stops(verdict) => return Ok(verdict),
            Found::Leads { entry, after } => {
                journal.push(entry)?;
                reached = after;
                rest = behind;
            }
        }
    }
    Ok(Verdict::Valid)
}
