//! Turns of two seats on one thread, in the order that a test writes down.

ghost use Rattle.dactl_shared.specs.Stores.{WorksFor};

use crate::rest::{Rest, is_left, is_run};
use crate::table::{Table, laid, last_seat, left};
use dactl_model::graph::Limits;
use dactl_shared::WorkerSeat;
use std::alloc::Global;
use std::sync::Wait;
use std::thread::Threads;

/// What the two seats do.
pub(crate) trait Game {
    /// Whether the answers are those that were expected. None where memory is wanting, or a node is
    /// not there.
    fn play<R: Wait>(
        &self,
        rt: &R,
        alloc: Global,
        table: &Table,
        first: &mut WorkerSeat,
        second: &mut WorkerSeat,
    ) -> Option<bool>
        requires first { WorksFor table.now.store first.old }
        requires second { WorksFor table.now.store second.old }
        ensures first { WorksFor table.now.store first.new }
        ensures second { WorksFor table.now.store second.new };
}

/// The program and the limits of a game, and what it leaves.
#[derive(Clone, Copy)]
pub(crate) struct Scene<'a> {
    pub text: &'a str,
    pub limits: Limits,
    pub rest: Rest<'a>,
}

/// Whether the game gives the answers that it expects, and leaves what the scene says.
pub(crate) fn is_played<R: Threads + Wait + Sync, G: Game>(
    rt: &R,
    alloc: Global,
    scene: &Scene,
    game: &G,
) -> Option<bool> {
    let (mut table, mut seats) = laid(rt, alloc, scene.text, scene.limits, 2)?;
    let mut second = last_seat(&table, &mut seats)?;
    let mut first = last_seat(&table, &mut seats)?;
    let answered = game.play(rt, alloc, &table, &mut first, &mut second)?;
    table.store.rejoin(first);
    table.store.rejoin(second);
    let Table { store, deciders: _ } = table;
    let finished = left(store.close());
    let is_left = is_left(alloc, &finished, &scene.rest)?;
    Some(answered && is_left && is_run(alloc, &finished))
}
