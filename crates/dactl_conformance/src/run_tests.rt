//! Whole programs that run: their ends, their graphs and their steps.

use crate::testing::{called, expect};
use dactl_layers::texts::{
    APPEND, APPENDED, BOTH, CHAIN, CHOICES, KEPT_FLAG, LOOP, PAIR, SHARED_CELL, TWO_OF_ONE,
};
use dactl_model::graph::{End, NodeId, Room};
use std::alloc::AllocError;

#[test]
fn programs_run_to_their_end(rt: HostRuntime) -> Result<(), AllocError> {
    for (text, output) in [
        (APPEND, APPENDED),
        (PAIR, "normal 0\n@1 Pair[@2 @2]\n@2 Nil\n"),
        // a cycle
        (
            "MODULE M; SYMBOL CREATABLE Cons, Nil; INITIAL => x:Cons[Nil x]; ENDMODULE M;",
            "normal 0\n@1 Cons[@2 @1]\n@2 Nil\n",
        ),
        // a name that is mentioned before it is given, and a root that is a mention
        (
            "MODULE M; SYMBOL CREATABLE A, Pair; INITIAL => p, p:Pair[x x:A]; ENDMODULE M;",
            "normal 0\n@1 Pair[@2 @2]\n@2 A\n",
        ),
        // a node that waits for an idle one, and one that waits for itself
        (
            "MODULE M; SYMBOL CREATABLE F, A; INITIAL => #F[^A]; ENDMODULE M;",
            "normal 0\n@1 #F[^@2]\n@2 A\n",
        ),
        (
            "MODULE M; SYMBOL CREATABLE F; INITIAL => *x:F[^x]; ENDMODULE M;",
            "normal 1\n@1 F[@1]\n",
        ),
        // a flag whose owner waits for nothing
        (
            "MODULE M; SYMBOL CREATABLE F, A; INITIAL => F[^*A]; ENDMODULE M;",
            "normal 1\n@1 F[@2]\n@2 A\n",
        ),
        // names in the contractum of a rule
        (
            "MODULE M; SYMBOL REWRITABLE F; SYMBOL CREATABLE G, A; RULE F => G[x:A x]; INITIAL => *F; ENDMODULE M;",
            "normal 1\n@1 G[@2 @2]\n@2 A\n",
        ),
    ] {
        expect(&rt, rt.alloc(), "", text, 0, output)?;
    }
    Ok(())
}

// Each step with its node and its rule, by the program's own numbers.
#[test]
fn runs_go_step_by_step(rt: HostRuntime) -> Result<(), AllocError> {
    for (text, output) in [
        (
            APPEND,
            "normal 4\n1 w1 fire 0 6\n2 w1 note 5\n3 w1 fire 6 5\n4 w1 note 4\n@1 Cons[@2 @3]\n@2 Nil\n@3 Nil\n",
        ),
        // two notifications by two nodes, and two by one node
        (
            BOTH,
            "normal 4\n1 w1 note 1\n2 w1 note 2\n3 w1 fire 0 5\n4 w1 note 3\n@1 B\n",
        ),
        (
            "MODULE M; SYMBOL REWRITABLE Both; SYMBOL CREATABLE A, B; RULE Both[A A] => *B; INITIAL => ##Both[^*x:A ^x]; ENDMODULE M;",
            "normal 3\n1 w1 note 1\n2 w1 fire 0 5\n3 w1 note 2\n@1 B\n",
        ),
        // a redirected arc keeps its flag
        (
            KEPT_FLAG,
            "normal 4\n1 w1 fire 1 6\n2 w1 note 2\n3 w1 fire 0 5\n4 w1 note 3\n@1 B\n",
        ),
        // groups: the later rule of a group is free where the earlier one does not match, and a
        // later group waits for the earlier ones
        (CHOICES, "normal 2\n1 w1 fire 0 6\n2 w1 note 2\n@1 B\n"),
        (
            "MODULE M; SYMBOL REWRITABLE F; SYMBOL CREATABLE A, B, Nil; RULE F[ANY] => *A; F[Nil] => *B; INITIAL => *F[Nil]; ENDMODULE M;",
            "normal 2\n1 w1 fire 0 5\n2 w1 note 2\n@1 A\n",
        ),
        // one variable at two places
        (
            "MODULE M; SYMBOL REWRITABLE Knot; SYMBOL CREATABLE Cons, Nil, Yes, No; RULE Knot[x:Cons[ANY x]] => *Yes; Knot[ANY] => *No; INITIAL => *Knot[x:Cons[Nil x]]; ENDMODULE M;",
            "normal 2\n1 w1 fire 0 5\n2 w1 note 3\n@1 Yes\n",
        ),
        (
            "MODULE M; SYMBOL REWRITABLE Knot; SYMBOL CREATABLE Cons, Nil, Yes, No; RULE Knot[x:Cons[ANY x]] => *Yes; Knot[ANY] => *No; INITIAL => *Knot[Cons[Nil Nil]]; ENDMODULE M;",
            "normal 2\n1 w1 fire 0 6\n2 w1 note 4\n@1 No\n",
        ),
    ] {
        expect(&rt, rt.alloc(), "--workers|1|--trace", text, 0, output)?;
    }
    Ok(())
}

#[test]
fn redirections_happen_at_once(rt: HostRuntime) -> Result<(), AllocError> {
    for (text, output) in [
        // the arcs of the new nodes are redirected too
        (
            "MODULE M; SYMBOL REWRITABLE F; SYMBOL CREATABLE G, Nil; RULE r:F[x] => G[r]; INITIAL => *F[Nil]; ENDMODULE M;",
            "normal 1\n1 w1 fire 0 5\n@1 G[@1]\n",
        ),
        // of two redirections of one node the first counts
        (TWO_OF_ONE, "normal 1\n1 w1 fire 0 5\n@1 Out[@2]\n@2 A\n"),
        // what a node is redirected to is not redirected again, and two may change places
        (
            CHAIN,
            "normal 1\n1 w1 fire 0 5\n@1 Pair[@2 @3]\n@2 Cell\n@3 A\n",
        ),
        (
            "MODULE M; SYMBOL REWRITABLE Swap; SYMBOL OVERWRITABLE Cell; SYMBOL CREATABLE Pair, A, B; RULE Swap[m:Cell[ANY] n:Cell[ANY]] => Pair[m n], m := n, n := m; INITIAL => *Swap[Cell[A] Cell[B]]; ENDMODULE M;",
            "normal 1\n1 w1 fire 0 5\n@1 Pair[@2 @4]\n@2 Cell[@3]\n@3 B\n@4 Cell[@5]\n@5 A\n",
        ),
        // a cell that is written while another node has it
        (
            SHARED_CELL,
            "normal 2\n1 w1 fire 2 5\n2 w1 fire 4 6\n@1 Top[@2 @3 @4]\n@2 Used\n@3 Yes\n@4 Nil\n",
        ),
        // a variable that is woken, at the root and below it
        (
            "MODULE M; SYMBOL REWRITABLE F; SYMBOL CREATABLE A; RULE F[x] -> *x; INITIAL => *F[A]; ENDMODULE M;",
            "normal 2\n1 w1 fire 0 5\n2 w1 note 1\n@1 F[@2]\n@2 A\n",
        ),
    ] {
        expect(&rt, rt.alloc(), "--workers|1|--trace", text, 0, output)?;
    }
    Ok(())
}

#[test]
fn integers_are_of_64_bits(rt: HostRuntime) -> Result<(), AllocError> {
    for (call, output) in [
        (
            "IAdd[9223372036854775807 1]",
            "normal 1\n@1 IAdd[@2 @3]\n@2 9223372036854775807\n@3 1\n",
        ),
        (
            "IAdd[9223372036854775807 -1]",
            "normal 2\n@1 9223372036854775806\n",
        ),
        (
            "ISub[-9223372036854775808 1]",
            "normal 1\n@1 ISub[@2 @3]\n@2 -9223372036854775808\n@3 1\n",
        ),
        ("IMul[-3 7]", "normal 2\n@1 -21\n"),
        ("IEq[3 3]", "normal 2\n@1 True\n"),
        ("IEq[3 -3]", "normal 2\n@1 False\n"),
        ("ILt[-4 3]", "normal 2\n@1 True\n"),
        ("ILt[3 3]", "normal 2\n@1 False\n"),
    ] {
        let text = format!(in rt.alloc();
            "MODULE M; IMPORTS Arithmetic; INITIAL => *{call}; ENDMODULE M;"
        )?;
        expect(&rt, rt.alloc(), "", text.as_str(), 0, output)?;
    }
    Ok(())
}

#[test]
fn words_say_how_a_text_is_run(rt: HostRuntime) -> Result<(), AllocError> {
    let again = "MODULE M; SYMBOL REWRITABLE F; RULE r:F -> *r; INITIAL => *F; ENDMODULE M;";
    for (words, text, code, output) in [
        ("--budget|4", APPEND, 0, APPENDED),
        (
            "--budget|3",
            APPEND,
            1,
            "budget 3\n@1 Cons[@2 @3]\n@2 Nil\n@3 *Nil\n",
        ),
        ("--budget|3", LOOP, 1, "budget 3\n@1 *Loop\n"),
        ("--budget|2", again, 1, "budget 2\n@1 *F\n"),
        ("--nodes|2", LOOP, 4, "full 1\n@1 *Loop\n"),
        (
            "--workers|1|--budget|2|--trace",
            LOOP,
            1,
            "budget 2\n1 w1 fire 0 5\n2 w1 fire 1 5\n@1 *Loop\n",
        ),
        ("--nodes|2|--budget|1", LOOP, 1, "budget 1\n@1 *Loop\n"),
        ("--nodes|1", PAIR, 9, "small 2 2\n"),
        ("--nodes|1|--check", PAIR, 0, "ok\n"),
        ("--check", APPEND, 0, "ok\n"),
        ("--workers|0", APPEND, 2, "usage: dactl [OPTIONS] < TEXT\n"),
        ("--help", APPEND, 2, "usage: dactl [OPTIONS] < TEXT\n"),
        ("--sample|4", "MODULE", 0, "normal 17\n@1 6\n"),
        ("--sample|64", "", 0, "normal 317\n@1 2016\n"),
        ("--sample|4|--check", "MODULE", 0, "ok\n"),
        ("--sample|4|--nodes|11", "", 9, "small 12 11\n"),
    ] {
        expect(&rt, rt.alloc(), words, text, code, output)?;
    }
    Ok(())
}

// The end that a full run keeps, with its counts.
#[test]
fn full_runs_keep_their_counts(rt: HostRuntime) -> Result<(), AllocError> {
    let answered = called(&rt, rt.alloc(), "--nodes=2", LOOP)?;
    let full = End::Full {
        node: NodeId { number: 1 },
        rule: 5,
        needed: Room { nodes: 1, arcs: 0 },
        left: Room { nodes: 0, arcs: 8 },
    };
    assert!(rt; answered.kept.end == Some(full) && answered.kept.journal.len() == 1);
    Ok(())
}
