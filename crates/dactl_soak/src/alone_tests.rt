//! Boards are hints: a node that one gives is tried first, and one that gives nothing changes no
//! graph.

ghost use Rattle.std.specs.Prelude.{◌≡◌, ◌<◌};

use crate::alone::{printed, worked};
use crate::boards::{DullBoard, DullHand, Offers};
use crate::calling::{compiled, is_run};
use dactl_model::graph::{End, Entry, Event, Limits, NodeId};
use dactl_queue::{Board, RuledBoard};
use std::alloc::Global;
use std::sync::Wait;
use std::thread::Threads;

/// A call that waits for two nodes, which are active and which no rule matches.
const BOTH: &str =
    "MODULE M; SYMBOL REWRITABLE Both; SYMBOL CREATABLE A, B; RULE Both[A A] => *B; INITIAL => ##Both[^*A ^*A]; ENDMODULE M;";

const ONE_STEP: Limits = Limits {
    nodes: 8,
    arcs: 32,
    budget: 1,
};

// The only entry of a run whose board gives this node.
fn first_step<R: Threads + Wait + Sync>(rt: &R, alloc: Global, number: u32) -> Option<Entry> {
    let program = compiled(rt, alloc, BOTH)?;
    let board = DullBoard {
        offers: Offers::Refused,
        gives: Some(NodeId { number }),
    };
    let finished = worked(rt, alloc, program, ONE_STEP, &board, DullHand::new(alloc))?;
    match finished.journal.as_slice() {
        [entry] => Some(*entry),
        _ => None,
    }
}

#[test]
fn a_worker_tries_the_node_that_the_board_gives(rt: HostRuntime) {
    for number in [1, 2] {
        let event = Event::Note {
            node: NodeId { number },
        };
        let entry = first_step(&rt, rt.alloc(), number);
        assert!(rt; entry == Some(Entry { worker: 1, event }), "{number}");
    }
}

// Whether it is a step at one of the two nodes that are active.
fn is_note(entry: Option<Entry>) -> bool {
    match entry {
        Some(
            Entry {
                worker: 1,
                event: Event::Note { node },
            },
        ) => node.number == 1 || node.number == 2,
        _ => false,
    }
}

// A node that waits, and two that are not there.
#[test]
fn a_worker_passes_over_a_node_that_is_not_active(rt: HostRuntime) {
    for number in [0, 3, 99] {
        let entry = first_step(&rt, rt.alloc(), number);
        assert!(rt; is_note(entry), "{number}");
    }
}

/// Two sums of leaves.
const TREES: &str =
    "MODULE M; IMPORTS Arithmetic; SYMBOL REWRITABLE Sum; SYMBOL CREATABLE Pair, Node, Leaf; RULE Sum[Leaf[i]] => *i | Sum[Node[l r]] => ##IAdd[^*Sum[l] ^*Sum[r]]; INITIAL => Pair[*Sum[Node[Leaf[1] Node[Leaf[2] Leaf[3]]]] *Sum[Node[Leaf[4] Leaf[5]]]]; ENDMODULE M;";

/// Five steps for each leaf, less three for each tree.
const STEPS: usize = 19;

const GRAPH: &[u8] = b"@1 Pair[@2 @3]\n@2 6\n@3 9\n";

const LIMITS: Limits = Limits {
    nodes: 64,
    arcs: 256,
    budget: 64,
};

// Whether a worker with this hand adds the leaves of both trees.
fn adds_both<B: Board, R: Threads + Wait + Sync>(
    rt: &R,
    alloc: Global,
    board: &B,
    hand: B::Hand,
) -> Option<bool>
where
    B::Hand: Drop,
    requires hand { B.fits board.now hand }
    requires back { B.back hand ≡ 0 }
{
    let program = compiled(rt, alloc, TREES)?;
    let finished = worked(rt, alloc, program, LIMITS, board, hand)?;
    let sink = printed(alloc, &finished)?;
    let journal = finished.journal.as_slice();
    let is_whole = journal.len() == STEPS && is_run(alloc, &finished.program, journal);
    Some(is_whole && finished.end == Some(End::Normal) && sink.held() == GRAPH)
}

#[test]
fn boards_that_give_nothing_change_no_graph(rt: HostRuntime) {
    for offers in [Offers::Refused, Offers::Kept] {
        let board = DullBoard {
            offers,
            gives: None,
        };
        let hand = DullHand::new(rt.alloc());
        assert!(rt; adds_both(&rt, rt.alloc(), &board, hand) == Some(true));
    }
}

// The same on a board whose nodes are taken in the order in which they were put.
fn adds_both_in_order<R: Threads + Wait + Sync>(rt: &R, alloc: Global, room: u32) -> Option<bool>
    requires { 0 < room }
{
    let (board, mut hands) = RuledBoard::new(alloc, room, 1).ok()?;
    let hand = hands.pop()?;
    adds_both(rt, alloc, &board, hand)
}

#[test]
fn a_board_that_hands_nodes_on_changes_no_graph(rt: HostRuntime) {
    for room in [1, 64] {
        assert!(rt;
            adds_both_in_order(&rt, rt.alloc(), room) == Some(true),
            "{room}"
        );
    }
}
