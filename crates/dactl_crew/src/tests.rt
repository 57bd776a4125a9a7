//! Crews over either board run a small program to its end.

ghost use Rattle.std.specs.Prelude.{◌≤◌};
ghost use Rattle.dactl_crew.specs.Running.{AreLimits};

use crate::{EndedRun, Unprepared, prepare};
use dactl_model::Memory;
use dactl_model::arithmetic::arithmetic_rule;
use dactl_model::graph::{End, Label, Limits, Mark};
use dactl_model::program::{Class, FreshArc, FreshNode, Mention, Op, Program, Rule, Start, Symbol};
use dactl_model::validity::is_valid;
use dactl_workers::{OpenGate, WorkerReport};
use sqlite_items::Items;
use std::alloc::Global;
use std::process::Abort;
use std::sync::Wait;
use std::test::Fail;
use std::thread::Threads;

/// Seven symbols, of which the first is that of sums.
fn symbols(alloc: Global) -> Result<Items<Symbol>, Memory> {
    let mut all = Items::new(alloc);
    for letter in b'A'..b'H' {
        all.push(Symbol {
            name: Items::from_slice(alloc, &[b'S', letter])?,
            class: Class::Rewritable,
        })?;
    }
    Ok(all)
}

fn rules(alloc: Global) -> Result<Items<Rule>, Memory> {
    let mut all = Items::new(alloc);
    for (number, op) in [Op::Add, Op::Sub, Op::Mul, Op::Eq, Op::Lt]
        .into_iter()
        .enumerate()
    {
        all.push(arithmetic_rule(alloc, number as u32, op)?)?;
    }
    Ok(all)
}

fn integer(alloc: Global, integer: i128) -> FreshNode {
    FreshNode {
        label: Label::Integer(integer),
        arcs: Items::new(alloc),
        mark: Mark::Idle,
    }
}

fn arc(number: u32) -> FreshArc {
    FreshArc {
        to: Mention::Fresh(number),
        waits: false,
    }
}

/// The sum of 1 and 2. It takes two steps: the rule of sums, and the notification of its result.
fn sum(alloc: Global) -> Result<Program, Memory> {
    let mut fresh = Items::new(alloc);
    fresh.push(FreshNode {
        label: Label::Symbol(0),
        arcs: Items::from_slice(alloc, &[arc(1), arc(2)])?,
        mark: Mark::Active,
    })?;
    fresh.push(integer(alloc, 1))?;
    fresh.push(integer(alloc, 2))?;
    Ok(Program {
        symbols: symbols(alloc)?,
        rules: rules(alloc)?,
        start: Start { fresh, root: 0 },
        wide: false,
    })
}

/// Room for so many nodes and four times as many arcs, and five entries.
fn limits(nodes: u32) -> Limits
    requires { (1 ≤ nodes) × (nodes ≤ 2000000) }
    ensures { AreLimits result }
{
    Limits {
        nodes,
        arcs: 4 * nodes,
        budget: 5,
    }
}

/// How many entries the reports count, and how many nodes were offered.
fn counts(reports: &[WorkerReport]) -> (u64, u64) {
    let (mut commits, mut offered) = (0u64, 0u64);
    for report in reports {
        commits = commits.wrapping_add(report.commits());
        offered = offered.wrapping_add(report.offered());
    }
    (commits, offered)
}

/// Whether the run took both steps, and has a report for each worker.
fn is_whole(run: &EndedRun, workers: u8) -> bool {
    run.ended == End::Normal
        && run.journal.len() == 2
        && run.reports.len() == usize::from(workers)
        && counts(run.reports.as_slice()) == (2, 1)
}

/// Whether so many workers run the program over such a board.
fn is_run<R: Threads + Wait + Sync>(
    rt: &R,
    alloc: Global,
    program: &Program,
    workers: u8,
    steal: bool,
) -> bool {
    if !is_valid(program) || workers < 1 || workers > 16 {
        return false;
    }
    let Ok(copy) = program.copy(alloc) else {
        return false;
    };
    match prepare(alloc, copy, limits(10), workers, steal) {
        Ok(prepared) => is_whole(&prepared.run(rt, &OpenGate), workers),
        Err(_) => false,
    }
}

#[test]
fn crews_over_either_board_run_to_the_end(rt: HostRuntime) -> Result<(), Fail> {
    let program = sum(rt.alloc())?;
    for (workers, steal) in [(1, false), (2, false), (1, true), (2, true)] {
        assert!(rt;
            is_run(&rt, rt.alloc(), &program, workers, steal),
            "{workers} {steal}"
        );
    }
    Ok(())
}

/// Whether a run with room for two nodes is refused, since its first graph has three.
fn is_small(alloc: Global, program: &Program) -> bool {
    if !is_valid(program) {
        return false;
    }
    let Ok(copy) = program.copy(alloc) else {
        return false;
    };
    match prepare(alloc, copy, limits(2), 1, true) {
        Err(Unprepared::Small { program: _, needed }) => needed.nodes == 3 && needed.arcs == 2,
        _ => false,
    }
}

#[test]
fn a_first_graph_that_does_not_fit_is_refused(rt: HostRuntime) -> Result<(), Fail> {
    let program = sum(rt.alloc())?;
    assert!(rt; is_small(rt.alloc(), &program));
    Ok(())
}
