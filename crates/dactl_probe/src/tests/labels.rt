//! Integers and characters.
use super::{F, attempt_at, content, get_and_put, id, program, rule, term};
use dactl_model::Memory;
use dactl_model::graph::{Event, Label};
use dactl_model::program::{Pat, Program};
use dactl_model::reading::Reading;
use std::alloc::Global;
use std::test::Fail;

/// The event that a probe of node 0 finds.
fn event_at(alloc: Global, program: &Program, graph: &[Reading]) -> Result<Option<Event>, Memory> {
    Ok(attempt_at(alloc, program, graph, 0)?.map(|found| found.event))
}

/// The event at `F` over a node with the label, where `F['a']` is rule 5 and, in a later group,
/// `F[CHAR]` is rule 6.
fn event_over(alloc: Global, label: Label) -> Result<Option<Event>, Memory> {
    let letter = rule(alloc, F, 5, 0, Pat::Letter(b'a'))?;
    let other = rule(alloc, F, 6, 0, Pat::Char)?;
    let program = program(alloc, true, letter, other)?;
    let graph = [term(F, &[1]), content(label, &[])];
    event_at(alloc, &program, &graph)
}

/// The event at the sum of the greatest integer of 64 bits and 1.
fn event_at_sum(alloc: Global, wide: bool) -> Result<Option<Event>, Memory> {
    let program = get_and_put(alloc, wide)?;
    let greatest = content(Label::Integer(0x7fff_ffff_ffff_ffff), &[]);
    let graph = [term(0, &[1, 2]), greatest, content(Label::Integer(1), &[])];
    event_at(alloc, &program, &graph)
}

fn fire(rule: u32) -> Event {
    Event::Fire { node: id(0), rule }
}

#[test]
fn characters_decide(rt: HostRuntime) -> Result<(), Fail> {
    let quiet = Event::Note { node: id(0) };
    let cases = [
        (Label::Character(b'a'), fire(5)),
        (Label::Character(b'b'), fire(6)),
        (Label::Integer(97), quiet),
    ];
    for (label, event) in cases {
        assert_eq!(rt; event_over(rt.alloc(), label)?, Some(event));
    }
    Ok(())
}

#[test]
fn a_sum_lies_in_the_range_of_the_program(rt: HostRuntime) -> Result<(), Fail> {
    let quiet = Event::Note { node: id(0) };
    for (wide, event) in [(false, quiet), (true, fire(0))] {
        assert_eq!(rt; event_at_sum(rt.alloc(), wide)?, Some(event));
    }
    Ok(())
}
