//! Texts of equations, with the flag that asks for them.

use crate::testing::{called, expect};
use dactl_base::refusal::{Kind, Place, Refusal};
use dactl_layers::texts::APPEND;
use std::alloc::AllocError;

/// The sum of a list.
const LIST: &str =
    "DATA Cons, Nil; Sum[Nil] = 0; Sum[Cons[h t]] = IAdd[h Sum[t]]; MAIN = Sum[Cons[1 Cons[2 Nil]]];";

/// The sum of a tree, both halves at once.
const TREE: &str =
    "DATA Node, Leaf; Sum[Leaf[i]] = i; Sum[Node[l r]] = IAdd[Sum[l] Sum[r]]; MAIN = Sum[Node[Node[Leaf[1] Leaf[2]] Node[Leaf[3] Leaf[4]]]];";

#[test]
fn equations_give_main_its_value(rt: HostRuntime) -> Result<(), AllocError> {
    for (words, text, code, output) in [
        ("--fun|--workers|1", LIST, 0, "normal 12\n@1 3\n"),
        ("--fun|--workers|4", LIST, 0, "normal 12\n@1 3\n"),
        ("--fun|--workers|1", TREE, 0, "normal 23\n@1 10\n"),
        ("--fun|--workers|4", TREE, 0, "normal 23\n@1 10\n"),
        ("--fun|--steal", TREE, 0, "normal 23\n@1 10\n"),
        ("--fun|--check", TREE, 0, "ok\n"),
        (
            "--fun|--workers|1|--trace",
            "DATA A, B; F[A] = B; MAIN = F[A];",
            0,
            "normal 2\n1 w1 fire 0 5\n2 w1 note 2\n@1 B\n",
        ),
        // a call that no equation matches, and a sum past 64 bits, have no value
        (
            "--fun",
            "DATA A, B; F[A] = B; MAIN = F[B];",
            0,
            "normal 1\n@1 F[@2]\n@2 B\n",
        ),
        (
            "--fun",
            "MAIN = IAdd[9223372036854775807 1];",
            0,
            "normal 2\n@1 Chk[@2]\n@2 IAdd[@3 @4]\n@3 9223372036854775807\n@4 1\n",
        ),
        // a run that stops before its end
        (
            "--fun|--budget|1|--workers|1",
            "DATA A, B; F[A] = B; MAIN = F[A];",
            1,
            "budget 1\n@1 *B\n",
        ),
    ] {
        expect(&rt, rt.alloc(), words, text, code, output)?;
    }
    Ok(())
}

#[test]
fn equations_are_refused_at_their_first_fault(rt: HostRuntime) -> Result<(), AllocError> {
    for (words, text, output) in [
        ("--fun", "DATA A; MAIN = x;", "refused Unbound 15\n"),
        (
            "--fun",
            "F[G] = 1; G = 2; MAIN = 1;",
            "refused NotAConstructor 2\n",
        ),
        ("--fun", "DATA A; MAIN = A", "refused Unexpected 16\n"),
        ("--fun", APPEND, "refused Unexpected 0\n"),
        ("", LIST, "refused Unexpected 0\n"),
        // the sample text is one of modules
        ("--fun|--sample|4", LIST, "refused Unexpected 0\n"),
        ("--fun|--sample|4|--check", "", "refused Unexpected 0\n"),
    ] {
        expect(&rt, rt.alloc(), words, text, 3, output)?;
    }
    let answered = called(&rt, rt.alloc(), "--fun", "DATA A; F[1] = A; MAIN = F;")?;
    let arity = Refusal {
        kind: Kind::WrongArity,
        place: Place { byte: 25 },
    };
    assert!(rt; answered.is(3, b"refused WrongArity 25\n"));
    assert!(rt; answered.kept.refusal == Some(arity) && answered.kept.program.is_none());
    Ok(())
}

#[test]
fn equations_stand_before_a_marker(rt: HostRuntime) -> Result<(), AllocError> {
    for (words, text, code, output) in [
        (
            "--fun|--verify",
            "DATA A, B; F[A] = B; MAIN = F[A];\n%TRACE\n1 w3 fire 0 5\n2 w1 note 2\n",
            0,
            "valid 2\n",
        ),
        // a later group waits for the earlier ones
        (
            "--fun|--verify",
            "DATA A, B; F[A] = B; MAIN = F[A];\n%TRACE\n1 w3 fire 0 6\n",
            11,
            "invalid 1\n",
        ),
        (
            "--fun|--verify|--check",
            "DATA A; MAIN = A;\n%TRACE\n?",
            0,
            "ok\n",
        ),
        (
            "--fun|--verify",
            "MODULE M; SYMBOL CREATABLE A; INITIAL => A; ENDMODULE M;\n%TRACE\n",
            3,
            "refused Unexpected 0\n",
        ),
        ("--fun|--verify", LIST, 12, "missing part\n"),
        (
            "--fun|--resume",
            "DATA A, B; F[A] = B; MAIN = A;\n%GRAPH\n@1 *F[@2]\n@2 A\n",
            0,
            "normal 2\n@1 B\n",
        ),
        (
            "--fun|--resume",
            "DATA A, B; F[A] = B; MAIN = A;\n%GRAPH\n@1 *G\n",
            13,
            "bad graph 1\n",
        ),
    ] {
        expect(&rt, rt.alloc(), words, text, code, output)?;
    }
    Ok(())
}
