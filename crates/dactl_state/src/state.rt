//! A state whose commits check versions.

ghost use Rattle.std.specs.Prelude.{◌≡◌, ◌+◌, ◌<◌, ◌≤◌, [], All, IfOk, IfErr, IfSome, OnOk};
ghost use Rattle.std.specs.Prelude.{MatchOption, MatchBool, None, Some, length};
ghost use Rattle.dactl_active.specs.Ring.{turned};
ghost use Rattle.dactl_model.specs.Graphs.{HasNode};
ghost use Rattle.dactl_model.specs.declared.graph.Event.TheVariants.{Fire, Note};
ghost use Rattle.dactl_model.specs.declared.graph.End.TheVariants.{Full as FullEnd};
ghost use Rattle.dactl_model.specs.Ending.{IsPassive, IsFull, Ends};
ghost use Rattle.dactl_model.specs.Matching.{IsActive};
ghost use Rattle.dactl_model.specs.Acts.{node_of_event};
ghost use Rattle.dactl_model.specs.Programs.{IsValid};
ghost use Rattle.dactl_model.specs.RuleTold.{Shows};
ghost use Rattle.dactl_model.specs.Steps.{MayHappen};
ghost use Rattle.dactl_model.specs.Versions.{IsShown};
ghost use Rattle.dactl_store.specs.Held.{IsReadingOf, IsValid as IsHeld};
ghost use Rattle.dactl_store.specs.Start.{IsCause};
ghost use Rattle.dactl_state.specs.Grown.{HasNotGrown, IsFirstGrown};
ghost use Rattle.dactl_state.specs.Ends.{EndBy};

use dactl_firing::{Full, fire, note};
use dactl_model::footprint::{Attempt, Woken};
use dactl_model::graph::{End, Entry, Event, Limits, Mark, NodeId, Room};
use dactl_model::program::Program;
use dactl_model::reading::Reading;
use dactl_model::view::View;
use dactl_store::{BeginCause, Store};
use std::alloc::Global;
use std::marker::Model;

/// Why a state could not begin: the start is too large for the limits, or there was not the memory. The
/// program is handed back.
#[derive(Drop)]
pub struct NotBegun {
    pub program: Program,
    pub cause: BeginCause,
}

/// What a commit answers.
#[derive(Clone, Copy, Debug, PartialEq, Eq)]
pub enum Answer {
    /// The step was made, and the journal has one entry more.
    Committed,
    /// A node that was read has another label or other targets since then. It is the first such reading;
    /// `was` is the version that was read, and `now` the greater one that the node has.
    Stale {
        node: NodeId,
        was: u32,
        now: u32,
    },
    /// The event's node is not active, so there is nothing to do there.
    Passive,
    /// The rule needs more nodes or more arcs than are left. The run has ended by this.
    Full {
        node: NodeId,
        rule: u32,
        needed: Room,
        left: Room,
    },
    /// The run had ended before.
    Ended(End),
}

/// What a run leaves: its program, the last graph with versions, the journal, and the end if there is one.
#[derive(Drop)]
pub struct Finished {
    pub program: Program,
    pub store: Store,
    pub journal: Vec<Entry>,
    pub end: Option<End>,
}

/// The state of a run: the graph that the journal leads to from the program's start, with the version of each
/// node, within limits on nodes, arcs and entries.
///
/// All memory is taken when it is made, that of a journal of the greatest length too.
#[derive(Drop)]
pub struct State {
    program: Program,
    limits: Limits,
    store: Store,
    journal: Vec<Entry>,
    done: u32,
    full: Option<End>,
}

impl Model for State {
    ghost use Rattle.std.specs.Prelude.{◌≡◌, ◌≤◌, length, vec_capacity};
    ghost use Rattle.std.specs.Coded.{codes};
    ghost use Rattle.dactl_model.specs.contracts.program.Pat as pat;
    ghost use Rattle.dactl_state.specs.Runs.{Run, IsCourse};

    ghost Value = { Run };

    ghost coded = { Prim.hlevel (codes, pat.the_row.coded) };

    ghost view = { λ s. record {
      program = s.program;
      limits = s.limits;
      journal = s.journal.items;
      held = s.store;
      full = s.full;
    } };

    ghost invariant = { λ s. IsCourse (record {
      program = s.program;
      limits = s.limits;
      journal = s.journal.items;
      held = s.store;
      full = s.full;
    })
        × (s.done ≡ length s.journal.items)
        × (s.limits.budget ≤ vec_capacity s.journal) };
}

// Does nothing. Its clause tells of the store that nodes and arcs are within the room.
fn keep(store: &Store)
    ensures { IsHeld store.now }
{
    store.next_number();
}

// Whether the node is there and active.
fn is_active(store: &Store, node: NodeId) -> bool
    ensures { MatchBool result (IsActive store.now.graph node) (IsActive store.now.graph node → ⊥) }
{
    node.number < store.next_number() && store.mark(node) == Mark::Active
}

// The first reading whose node has a greater version, with that version.
fn first_grown(store: &Store, readings: &[Reading]) -> Option<(Reading, u32)>
    requires { All (λ r. HasNode store.now.graph r.node) readings.now }
    ensures { MatchOption result
        (All (HasNotGrown store.now) readings.now)
        (λ g. IsFirstGrown store.now readings.now g.0 g.1) }
{
    for reading in readings {
        let now = store.version(reading.node);
        if reading.version < now {
            return Some((*reading, now));
        }
    }
    None
}

fn node_of(event: Event) -> NodeId
    ensures { result ≡ node_of_event event }
{
    match event {
        Event::Fire { node, .. } | Event::Note { node } => node,
    }
}

impl State {
    ghost use Rattle.dactl_state.specs.Runs.{IsCourse, IsFirst, EndOf, Commits, Refuses, IsCurrent};
    ghost use Rattle.dactl_state.specs.Runs.{IsStepped, TellsRest, room_of};

    /// A state before its first entry. It takes all the memory that it will ever have.
    ///
    /// # Errors
    /// `Small` where the start has more nodes or more arcs than the limits allow, with both counts; `Memory`
    /// where it has not, and there was not the memory, or the limits allow more nodes than a store can have
    /// room for. The program is handed back.
    pub fn begin(alloc: Global, program: Program, limits: Limits) -> Result<State, NotBegun>
        requires { IsValid program }
        ensures ok { IfOk result (λ s. IsFirst program limits s × IsCourse s) }
        ensures err { IfErr result (λ e.
            (e.program ≡ program) × IsCause program.start (room_of limits) e.cause) }
    {
        let room = Room {
            nodes: limits.nodes,
            arcs: limits.arcs,
        };
        let store = match Store::begin(alloc, &program.start, room) {
            Ok(store) => store,
            Err(cause) => return Err(NotBegun { program, cause }),
        };
        keep(&store);
        let Ok(journal) = Vec::with_capacity(alloc, limits.budget as usize) else {
            let cause = BeginCause::Memory;
            return Err(NotBegun { program, cause });
        };
        Ok(State {
            program,
            limits,
            store,
            journal,
            done: 0,
            full: None,
        })
    }

    /// The limits of the run.
    pub fn limits(&self) -> Limits
        ensures { result ≡ self.now.limits }
    {
        self.limits
    }

    /// The number of nodes. Nodes are numbered from 0 and never removed, so it is the number of the next one.
    pub fn count(&self) -> u32
        ensures count { result ≡ length self.now.held.graph.nodes }
        ensures course { IsCourse self.now }
    {
        self.store.next_number()
    }

    /// What stands at a node, with its version: the number of the entry that last changed it, or 0.
    pub fn read(&self, node: NodeId) -> Reading
        requires { HasNode self.now.held.graph node }
        ensures reading { IsReadingOf self.now.held node result }
        ensures shown { IsShown self.now.program self.now.journal result }
        ensures course { IsCourse self.now }
    {
        self.store.reading(node)
    }

    /// A node that is active, if there is one, whether the run has ended or not. Each active node has its
    /// turn.
    pub fn next_active(&mut self) -> Option<NodeId>
        ensures active { MatchOption result
            (IsPassive self.old.held.graph)
            (IsActive self.old.held.graph) }
        ensures turned { self.new ≡ record self.old {
          held = record self.old.held { active = turned self.old.held.active };
        } }
        ensures course { IsCourse self.old × IsCourse self.new }
    {
        self.store.active()
    }

    /// The end, if there is one: that of a commit that was answered `Full`, else `Normal` where no node is
    /// active, else `Budget` where the journal has as many entries as the budget allows.
    pub fn end(&self) -> Option<End>
        ensures end { EndOf self.now result }
        ensures ends { IfSome result
            (Ends self.now.program self.now.limits self.now.journal self.now.held.graph) }
        ensures course { IsCourse self.now }
    {
        end_by(&self.store, self.done, self.limits.budget, self.full)
    }

    /// What the run leaves.
    pub fn finish(self) -> Finished
        ensures program { result.program ≡ self.program }
        ensures store { result.store ≡ self.held }
        ensures journal { result.journal.items ≡ self.journal }
        ensures end { EndOf self result.end }
        ensures ends { IfSome result.end
            (Ends self.program self.limits self.journal self.held.graph) }
        ensures course { IsCourse self }
    {
        let end = end_by(&self.store, self.done, self.limits.budget, self.full);
        let State {
            program,
            limits: _,
            store,
            journal,
            done: _,
            full: _,
        } = self;
        Finished {
            program,
            store,
            journal,
            end,
        }
    }

    // The answer to an attempt that is not tried: the run has ended, the node is not active, or a reading
    // has grown.
    fn refusal(&self, attempt: &Attempt) -> Option<Answer>
        requires { All (IsShown self.now.program self.now.journal) attempt.now.footprint.readings }
        ensures refuses { MatchOption result
            (IsCurrent self.now attempt.now.event attempt.now.footprint.readings)
            (Refuses self.now attempt.now.event attempt.now.footprint.readings) }
        ensures rest { IfSome result (TellsRest self.now) }
        ensures course { IsCourse self.now }
    {
        if let Some(end) = end_by(&self.store, self.done, self.limits.budget, self.full) {
            return Some(Answer::Ended(end));
        }
        if !is_active(&self.store, node_of(attempt.event)) {
            return Some(Answer::Passive);
        }
        let (reading, now) = first_grown(&self.store, attempt.footprint.readings())?;
        Some(Answer::Stale {
            node: reading.node,
            was: reading.version,
            now,
        })
    }

    // Fires the rule as the next entry, or keeps a full end.
    fn fire(
        &mut self,
        node: NodeId,
        rule: u32,
        bindings: &[NodeId],
        worker: u8,
        woken: &mut Woken,
    ) -> Result<(), Full>
        requires free { EndOf self.old None }
        requires may { MayHappen self.old.program self.old.held.graph
            bindings.now (Fire node rule) }
        requires room { self.old.limits.nodes ≤ woken.old.room }
        ensures ok { OnOk result
            (IsStepped self.old self.new (Fire node rule) worker woken.new.list) }
        ensures full { IfErr result (λ f.
            IsFull self.old.program self.old.limits self.old.held.graph node rule f.needed f.left) }
        ensures kept { IfErr result (λ f.
            self.new ≡ record self.old { full = Some (FullEnd node rule f.needed f.left) }) }
        ensures none { IfErr result (λ f. woken.new.list ≡ []) }
        ensures course { IsCourse self.old × IsCourse self.new }
        ensures list_room { woken.new.room ≡ woken.old.room }
    {
        let entry = self.done + 1;
        if let Err(full) = fire(
            &mut self.store,
            &self.program,
            node,
            rule,
            bindings,
            entry,
            woken,
        ) {
            self.full = Some(End::Full {
                node,
                rule,
                needed: full.needed,
                left: full.left,
            });
            return Err(full);
        }
        keep(&self.store);
        let event = Event::Fire { node, rule };
        self.journal.push_reserved(Entry { worker, event });
        self.done = entry;
        Ok(())
    }

    // The node notifies as the next entry.
    fn note(&mut self, node: NodeId, worker: u8, woken: &mut Woken)
        requires free { EndOf self.old None }
        requires may { MayHappen self.old.program self.old.held.graph [] (Note node) }
        requires room { self.old.limits.nodes ≤ woken.old.room }
        ensures stepped { IsStepped self.old self.new (Note node) worker woken.new.list }
        ensures course { IsCourse self.old × IsCourse self.new }
        ensures list_room { woken.new.room ≡ woken.old.room }
    {
        note(&mut self.store, node, woken);
        keep(&self.store);
        let event = Event::Note { node };
        self.journal.push_reserved(Entry { worker, event });
        self.done += 1;
    }

    /// Makes the step that the attempt asks for, as the next entry of the journal, which is the worker's.
    /// `woken` gets the nodes that it makes active, in ascending order, and is empty where it is not made.
    ///
    /// The readings may come from different moments. It is enough that no version has grown since: what was
    /// read is then still so, and the step that it shows may happen now. No pattern is matched again.
    ///
    /// It takes time for the readings, and for what the step changes.
    pub fn commit(&mut self, attempt: &Attempt, worker: u8, woken: &mut Woken) -> Answer
        requires shows { Shows
            self.old.program
            attempt.now.footprint.readings
            attempt.now.footprint.bindings
            attempt.now.event }
        requires shown { All
            (IsShown self.old.program self.old.journal)
            attempt.now.footprint.readings }
        requires room { self.old.limits.nodes ≤ woken.old.room }
        ensures commits { Commits
            self.old
            self.new
            attempt.now.event
            attempt.now.footprint.readings
            worker
            woken.new.list
            result }
        ensures rest { TellsRest self.old result }
        ensures course { IsCourse self.old × IsCourse self.new }
        ensures room { woken.new.room ≡ woken.old.room }
    {
        if let Some(answer) = self.refusal(attempt) {
            woken.clear();
            return answer;
        }
        match attempt.event {
            Event::Fire { node, rule } => {
                let bindings = attempt.footprint.bindings();
                match self.fire(node, rule, bindings, worker, woken) {
                    Ok(()) => Answer::Committed,
                    Err(Full { needed, left }) => Answer::Full {
                        node,
                        rule,
                        needed,
                        left,
                    },
                }
            }
            Event::Note { node } => {
                self.note(node, worker, woken);
                Answer::Committed
            }
        }
    }
}

// The end by a store, a number of entries, a budget and a kept end.
fn end_by(store: &Store, done: u32, budget: u32, full: Option<End>) -> Option<End>
    ensures { EndBy store.now.graph done budget full result }
{
    if full.is_some() {
        return full;
    }
    if !store.any_active() {
        return Some(End::Normal);
    }
    if done == budget {
        return Some(End::Budget);
    }
    None
}
