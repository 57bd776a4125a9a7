//! Nodes put on a board and taken from it.

ghost use Rattle.std.specs.Prelude.{◌≡◌, ◌+◌, ◌<◌, ◌≤◌, All, vec_len};
ghost use Rattle.std.specs.Thread.{IsSync};
ghost use Rattle.dactl_queue.specs.Boards.{HandFits, IsFresh, back_of};

use crate::{Board, RuledBoard, RuledHand};
use dactl_model::graph::NodeId;
use std::process::Abort;
use std::sync::Wait;
use std::test::Fail;
use std::thread::{Threads, join};

/// The nodes that each thread offers.
const EACH: u32 = 2500;

/// The board's room, where many threads use it.
const ROOM: u32 = 64;

fn node(number: u32) -> NodeId {
    NodeId { number }
}

fn next_hand(board: &RuledBoard, hands: &mut Vec<RuledHand>) -> RuledHand
    requires some { 0 < vec_len hands.old }
    requires fresh { All (IsFresh board.now) hands.old.items }
    ensures hand { IsFresh board.now result }
    ensures fresh { All (IsFresh board.now) hands.new.items }
    ensures count { vec_len hands.new + 1 ≡ vec_len hands.old }
{
    match hands.pop() {
        Some(hand) => hand,
        None => unreachable!(),
    }
}

#[test]
fn one_hand_gets_its_nodes_in_order(rt: HostRuntime) -> Result<(), Fail> {
    let (mut board, mut hands) = RuledBoard::new(rt.alloc(), 2, 1)?;
    let mut hand = next_hand(&board, &mut hands);
    assert_eq!(rt; board.offer(&rt, &mut hand, node(7)), Ok(()));
    assert_eq!(rt; board.offer(&rt, &mut hand, node(8)), Ok(()));
    assert_eq!(rt; board.offer(&rt, &mut hand, node(9)), Err(node(9)));
    assert_eq!(rt; board.take(&rt, &mut hand), Some(node(7)));
    assert_eq!(rt; board.take(&rt, &mut hand), Some(node(8)));
    assert_eq!(rt; board.take(&rt, &mut hand), None);
    board.rejoin(hand);
    assert_eq!(rt; board.close(&rt), 0);
    Ok(())
}

#[test]
fn a_hand_gets_what_another_put(rt: HostRuntime) -> Result<(), Fail> {
    let (board, mut hands) = RuledBoard::new(rt.alloc(), 2, 2)?;
    let mut first = next_hand(&board, &mut hands);
    let mut second = next_hand(&board, &mut hands);
    assert_eq!(rt; board.offer(&rt, &mut first, node(7)), Ok(()));
    assert_eq!(rt; board.take(&rt, &mut second), Some(node(7)));
    assert_eq!(rt; board.take(&rt, &mut second), None);
    Ok(())
}

/// A hand, the first node that it offers, and the nodes that came to it.
#[derive(Drop)]
struct Worker<H> {
    hand: H,
    first: u32,
    got: Vec<u32>,
}

/// Offers many nodes and takes after each. A node that is handed back counts as taken.
fn offer_and_take<B: Board, R: Wait>(rt: &R, board: &B, worker: Worker<B::Hand>) -> Worker<B::Hand>
    requires fits { B.fits board.now worker.hand }
    requires none { B.back worker.hand ≡ 0 }
    requires first { worker.first ≤ 10000 }
    ensures { B.fits board.now result.hand }
{
    let Worker {
        mut hand,
        first,
        mut got,
    } = worker;
    for round in 0..EACH {
        if let Err(node) = board.offer(rt, &mut hand, node(first + round)) {
            let _ = got.push(node.number);
        }
        if let Some(node) = board.take(rt, &mut hand) {
            let _ = got.push(node.number);
        }
    }
    Worker { hand, first, got }
}

fn in_two<R: Threads + Wait + Sync>(
    rt: &R,
    board: &RuledBoard,
    first: Worker<RuledHand>,
    second: Worker<RuledHand>,
) -> (Worker<RuledHand>, Worker<RuledHand>)
    requires fits { HandFits board.now first.hand × HandFits board.now second.hand }
    requires none { (back_of first.hand ≡ 0) × (back_of second.hand ≡ 0) }
    requires first { (first.first ≤ 10000) × (second.first ≤ 10000) }
    ensures { HandFits board.now result.0.hand × HandFits board.now result.1.hand }
{
    join(
        rt,
        || offer_and_take(rt, board, first),
        || offer_and_take(rt, board, second),
    )
}

fn in_four<R: Threads + Wait + Sync>(
    rt: &R,
    board: &RuledBoard,
    first: Worker<RuledHand>,
    second: Worker<RuledHand>,
    third: Worker<RuledHand>,
    fourth: Worker<RuledHand>,
) -> (
    (Worker<RuledHand>, Worker<RuledHand>),
    (Worker<RuledHand>, Worker<RuledHand>),
)
    requires front { HandFits board.now first.hand × HandFits board.now second.hand }
    requires rear { HandFits board.now third.hand × HandFits board.now fourth.hand }
    requires front_none { (back_of first.hand ≡ 0) × (back_of second.hand ≡ 0) }
    requires rear_none { (back_of third.hand ≡ 0) × (back_of fourth.hand ≡ 0) }
    requires front_first { (first.first ≤ 10000) × (second.first ≤ 10000) }
    requires rear_first { (third.first ≤ 10000) × (fourth.first ≤ 10000) }
    ensures front { HandFits board.now result.0.0.hand × HandFits board.now result.0.1.hand }
    ensures rear { HandFits board.now result.1.0.hand × HandFits board.now result.1.1.hand }
{
    join(
        rt,
        || -> (Worker<RuledHand>, Worker<RuledHand>)
            requires sync { IsSync R.row }
            requires fits { HandFits board.now first.hand × HandFits board.now second.hand }
            requires none { (back_of first.hand ≡ 0) × (back_of second.hand ≡ 0) }
            requires first { (first.first ≤ 10000) × (second.first ≤ 10000) }
            ensures front { HandFits board.entry.now result.0.hand }
            ensures rear { HandFits board.entry.now result.1.hand }
        { in_two(rt, board, first, second) },
        || -> (Worker<RuledHand>, Worker<RuledHand>)
            requires sync { IsSync R.row }
            requires fits { HandFits board.now third.hand × HandFits board.now fourth.hand }
            requires none { (back_of third.hand ≡ 0) × (back_of fourth.hand ≡ 0) }
            requires first { (third.first ≤ 10000) × (fourth.first ≤ 10000) }
            ensures front { HandFits board.entry.now result.0.hand }
            ensures rear { HandFits board.entry.now result.1.hand }
        { in_two(rt, board, third, fourth) },
    )
}

/// Takes what is left on the board.
fn take_rest<R: Wait>(rt: &R, board: &RuledBoard, worker: &mut Worker<RuledHand>)
    requires { HandFits board.now worker.old.hand }
    ensures { HandFits board.now worker.new.hand }
{
    for _ in 0..ROOM {
        if let Some(node) = board.take(rt, &mut worker.hand) {
            let _ = worker.got.push(node.number);
        }
    }
}

/// Notes numbers that were not noted before.
fn note(rt: &impl Abort, noted: &mut [bool], numbers: &[u32]) {
    for number in numbers {
        let place = *number as usize;
        assert!(rt; place < noted.len() && !noted[place], "{place} came twice");
        noted[place] = true;
    }
}

#[test]
fn four_threads_lose_no_node(rt: HostRuntime) -> Result<(), Fail> {
    let (mut board, mut hands) = RuledBoard::new(rt.alloc(), ROOM, 4)?;
    let got = Vec::new(rt.alloc());
    let hand = next_hand(&board, &mut hands);
    let mut first = Worker {
        hand,
        first: 0,
        got,
    };
    let got = Vec::new(rt.alloc());
    let hand = next_hand(&board, &mut hands);
    let mut second = Worker {
        hand,
        first: EACH,
        got,
    };
    let got = Vec::new(rt.alloc());
    let hand = next_hand(&board, &mut hands);
    let mut third = Worker {
        hand,
        first: 2 * EACH,
        got,
    };
    let got = Vec::new(rt.alloc());
    let hand = next_hand(&board, &mut hands);
    let mut fourth = Worker {
        hand,
        first: 3 * EACH,
        got,
    };

    ((first, second), (third, fourth)) = in_four(&rt, &board, first, second, third, fourth);
    take_rest(&rt, &board, &mut first);

    let mut noted = Vec::from_elem(rt.alloc(), false, 4 * EACH as usize)?;
    for worker in [&first, &second, &third, &fourth] {
        note(&rt, noted.as_mut_slice(), worker.got.as_slice());
    }
    assert!(rt; noted.iter().all(|is_noted| *is_noted));

    board.rejoin(first.hand);
    board.rejoin(second.hand);
    board.rejoin(third.hand);
    board.rejoin(fourth.hand);
    assert_eq!(rt; board.close(&rt), 0);
    Ok(())
}
