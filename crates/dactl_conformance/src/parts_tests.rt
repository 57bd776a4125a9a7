//! Inputs in parts: a text, a marker line, and what follows it.

use crate::testing::{called, expect};
use dactl_layers::texts::{BOTH, LOOP, PAIR};
use dactl_model::graph::{Entry, Event, NodeId};
use std::alloc::{AllocError, Global};

// The two, one behind the other.
fn joined(alloc: Global, text: &str, rest: &str) -> Result<String, AllocError> {
    let mut input = String::from_str(alloc, text)?;
    input.push_str(rest)?;
    Ok(input)
}

#[test]
fn traces_are_judged(rt: HostRuntime) -> Result<(), AllocError> {
    let right = "\n%TRACE\n1 w1 fire 0 5\n2 w1 fire 1 5\n";
    for (text, words, rest, code, output) in [
        (LOOP, "--verify", right, 0, "valid 2\n"),
        (
            LOOP,
            "--verify|--trace|--workers|2|--budget|1",
            right,
            0,
            "valid 2\n",
        ),
        (LOOP, "--verify", "\n%TRACE", 0, "valid 0\n"),
        (
            LOOP,
            "--verify",
            "\n%TRACE\n1 w1 fire 0 5\n2 w1 fire 0 5\n",
            11,
            "invalid 2\n",
        ),
        // the last line has no end
        (
            LOOP,
            "--verify",
            "\n%TRACE\n1 w1 fire 0 5\n2 w1 fire 1 5",
            11,
            "invalid 2\n",
        ),
        (
            LOOP,
            "--verify",
            "\n%TRACE\n1 w1 note 0\n2 w1 fire 1 5\n",
            11,
            "invalid 1\n",
        ),
        (LOOP, "--verify|--nodes|2", right, 14, "no room 1\n"),
        (PAIR, "--verify|--nodes|1", "\n%TRACE\n", 9, "small 2 2\n"),
        (LOOP, "--verify|--check", "\n%TRACE\n2", 0, "ok\n"),
        // a marker is a whole line, and is missed before the text is looked at
        (LOOP, "--verify|--check", "\n%TRACE ", 12, "missing part\n"),
        ("?", "--verify", "\n%GRAPH\n", 12, "missing part\n"),
        ("", "--verify|--sample|4", right, 12, "missing part\n"),
        ("x", "--verify", right, 3, "refused Unexpected 0\n"),
        ("", "", "%TRACE\n", 3, "refused BadByte 0\n"),
        (
            "",
            "--verify|--resume",
            right,
            2,
            "usage: dactl [OPTIONS] < TEXT\n",
        ),
    ] {
        let input = joined(rt.alloc(), text, rest)?;
        expect(&rt, rt.alloc(), words, input.as_str(), code, output)?;
    }
    Ok(())
}

#[test]
fn runs_go_on_from_graphs(rt: HostRuntime) -> Result<(), AllocError> {
    let waits = "@1 ##Both[^@2 ^@3]\n@2 *A\n@3 *A\n";
    for (words, graph, code, output) in [
        ("--resume", waits, 0, "normal 4\n@1 B\n"),
        (
            "--resume|--budget|1|--workers|1",
            "@1 *B\n",
            0,
            "normal 1\n@1 B\n",
        ),
        ("--resume|--nodes|2", waits, 9, "small 3 2\n"),
        // targets stand in the order of the walk
        (
            "--resume",
            "@1 ##Both[^@3 ^@2]\n@2 *A\n@3 *A\n",
            13,
            "bad graph 1\n",
        ),
        ("--resume", "@1 #Both[@2 @2]\n@2 A\n", 13, "bad graph 1\n"),
        // a node that the root does not reach
        ("--resume", "@1 B\n@2 A\n", 13, "bad graph 2\n"),
        ("--resume", "@1 B\n@2 A", 13, "bad graph 2\n"),
        ("--resume", "", 13, "bad graph 1\n"),
        ("--resume|--check", "", 0, "ok\n"),
        ("--verify", waits, 12, "missing part\n"),
    ] {
        let input = joined(rt.alloc(), BOTH, "\n%GRAPH\n")?;
        let input = joined(rt.alloc(), input.as_str(), graph)?;
        expect(&rt, rt.alloc(), words, input.as_str(), code, output)?;
    }
    Ok(())
}

#[test]
fn judged_entries_are_kept(rt: HostRuntime) -> Result<(), AllocError> {
    let input = joined(rt.alloc(), LOOP, "\n%TRACE\n1 w3 fire 0 5\n2 w1 fire 0 5\n")?;
    let answered = called(&rt, rt.alloc(), "--verify", input.as_str())?;
    let first = Entry {
        event: Event::Fire {
            node: NodeId { number: 0 },
            rule: 5,
        },
        worker: 3,
    };
    assert_eq!(rt; answered.kept.journal.as_slice(), [first].as_slice());
    assert!(rt; answered.kept.end.is_none() && answered.kept.program.is_some());
    Ok(())
}
