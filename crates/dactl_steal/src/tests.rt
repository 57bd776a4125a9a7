//! A node that one hand puts, and another takes.

ghost use Rattle.std.specs.Prelude.{◌≡◌, ◌+◌, ◌^◌, ◌-◌, ◌<◌, ◌≤◌, All, length, vec_len};
ghost use Rattle.dactl_steal.specs.Boards.{HandFits, IsFresh, back_of, put_of};

use crate::{StealBoard, StealHand};
use dactl_model::graph::NodeId;
use dactl_queue::Board;
use std::sync::Wait;
use std::test::Fail;

fn next_hand(board: &StealBoard, hands: &mut Vec<StealHand>) -> StealHand
    requires some { 0 < vec_len hands.old }
    requires fresh { All (IsFresh board.now) hands.old.items }
    ensures hand { IsFresh board.now result }
    ensures fresh { All (IsFresh board.now) hands.new.items }
    ensures count { vec_len hands.new + 1 ≡ vec_len hands.old }
{
    match hands.pop() {
        Some(hand) => hand,
        None => unreachable!(),
    }
}

/// Whether the board took the node.
fn offers<R: Wait>(rt: &R, board: &StealBoard, hand: &mut StealHand, number: u32) -> bool
    requires hand { HandFits board.now hand.old }
    requires backs { back_of hand.old < 2 ^ 64 - 1 }
    ensures hand { HandFits board.now hand.new }
    ensures put { length (put_of hand.new) ≤ length (put_of hand.old) + 1 }
    ensures back { back_of hand.new ≤ back_of hand.old + 1 }
{
    match board.offer(rt, hand, NodeId { number }) {
        Ok(()) => true,
        Err(_) => false,
    }
}

/// Whether the hand got this node, or none.
fn takes<R: Wait>(rt: &R, board: &StealBoard, hand: &mut StealHand, number: Option<u32>) -> bool
    requires { HandFits board.now hand.old }
    ensures hand { HandFits board.now hand.new }
    ensures put { put_of hand.new ≡ put_of hand.old }
    ensures back { back_of hand.new ≡ back_of hand.old }
{
    board.take(rt, hand).map(|node| node.number) == number
}

#[test]
fn a_hand_steals_what_another_put(rt: HostRuntime) -> Result<(), Fail> {
    let (mut board, mut hands) = StealBoard::new(rt.alloc(), 2, 2)?;
    let mut second = next_hand(&board, &mut hands);
    let mut first = next_hand(&board, &mut hands);
    assert!(rt; offers(&rt, &board, &mut first, 7));
    assert!(rt; offers(&rt, &board, &mut first, 8));
    assert!(rt; takes(&rt, &board, &mut second, Some(7)));
    assert!(rt; takes(&rt, &board, &mut first, Some(8)));
    assert!(rt; takes(&rt, &board, &mut first, None));
    assert!(rt; takes(&rt, &board, &mut second, None));
    board.rejoin(first);
    board.rejoin(second);
    assert_eq!(rt; board.close(), 0);
    Ok(())
}
