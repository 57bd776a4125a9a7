//! Texts that are no program, each kind of fault at its place.

use crate::testing::{called, expect};
use dactl_base::refusal::{Kind, Place, Refusal};
use dactl_layers::texts::APPEND;
use std::alloc::{AllocError, Global};
use std::sync::Wait;
use std::thread::Threads;

#[test]
fn tokens_grammar_and_names_are_refused(rt: HostRuntime) -> Result<(), AllocError> {
    for (text, output) in [
        ("", "refused Unexpected 0\n"),
        ("MODULE M;RULE F[x", "refused Unexpected 17\n"),
        ("MODULE M; ?", "refused BadByte 10\n"),
        ("MODULE M; { never closed", "refused BadByte 10\n"),
        (
            "MODULE M; INITIAL => 9223372036854775808;",
            "refused NumberTooWide 21\n",
        ),
        ("MODULE M; ENDMODULE N;", "refused Unexpected 20\n"),
        (
            "MODULE M; SYMBOL CREATABLE A, A; INITIAL => A; ENDMODULE M;",
            "refused TwiceDeclared 30\n",
        ),
        (
            "MODULE M; SYMBOL CREATABLE IAdd; INITIAL => IAdd; ENDMODULE M;",
            "refused TwiceDeclared 27\n",
        ),
        (
            "MODULE M; IMPORTS N; INITIAL => A; ENDMODULE M;",
            "refused UnknownModule 18\n",
        ),
        (
            "MODULE M; INITIAL => A; ENDMODULE M;",
            "refused UnknownName 21\n",
        ),
        (
            "MODULE M; INITIAL => IAdd[1 2]; ENDMODULE M;",
            "refused NotVisible 21\n",
        ),
        (
            "MODULE M; SYMBOL CREATABLE PUBLIC OVERWRITABLE A; INITIAL => A; ENDMODULE M;",
            "refused PublicTooStrong 34\n",
        ),
        (
            "MODULE M; SYMBOL REWRITABLE PUBLIC REWRITABLE A; INITIAL => A; ENDMODULE M;",
            "refused PublicTooStrong 35\n",
        ),
        // a later module is imported, and a pattern is given arguments or is not seen
        (
            "MODULE A; IMPORTS B; ENDMODULE A; MODULE B; ENDMODULE B;",
            "refused UnknownModule 18\n",
        ),
        (
            "MODULE M; SYMBOL REWRITABLE F; PATTERN P = ANY; RULE F[P[1]] => 1; ENDMODULE M;",
            "refused UnknownName 55\n",
        ),
        (
            "MODULE A; PATTERN P = ANY; ENDMODULE A; MODULE B; SYMBOL REWRITABLE F; RULE F[P] => 1; INITIAL => F; ENDMODULE B;",
            "refused NotVisible 78\n",
        ),
        ("MODULE M; ENDMODULE M;", "refused NoInitial 22\n"),
        (
            "MODULE M; SYMBOL CREATABLE A; INITIAL => A; INITIAL => A; ENDMODULE M;",
            "refused TwoInitials 44\n",
        ),
    ] {
        expect(&rt, rt.alloc(), "", text, 3, output)?;
    }
    Ok(())
}

#[test]
fn patterns_and_rules_are_refused(rt: HostRuntime) -> Result<(), AllocError> {
    for (text, output) in [
        (
            "MODULE M; SYMBOL CREATABLE A; PATTERN P = Q; PATTERN Q = P + A; INITIAL => A; ENDMODULE M;",
            "refused PatternCycle 38\n",
        ),
        // the first of two in a cycle, behind one that only leads to it
        (
            "MODULE M; SYMBOL CREATABLE A; PATTERN P = R; PATTERN Q = R; PATTERN R = A + Q; INITIAL => A; ENDMODULE M;",
            "refused PatternCycle 53\n",
        ),
        // a variable below `+`, to the right of `-` and in a named pattern
        (
            "MODULE M; SYMBOL REWRITABLE F; RULE F[(x + 1)] => 1; INITIAL => F; ENDMODULE M;",
            "refused BinderInChoice 39\n",
        ),
        (
            "MODULE M; SYMBOL REWRITABLE F; RULE F[(1 - x)] => 1; INITIAL => F; ENDMODULE M;",
            "refused BinderInChoice 43\n",
        ),
        (
            "MODULE M; SYMBOL REWRITABLE F; PATTERN P = F[x]; INITIAL => F; ENDMODULE M;",
            "refused BinderInChoice 45\n",
        ),
        (
            "MODULE M; SYMBOL REWRITABLE F; RULE F[x:1 x:2] => 1; INITIAL => F; ENDMODULE M;",
            "refused NamedTwice 42\n",
        ),
        (
            "MODULE M; SYMBOL REWRITABLE F; RULE F[1 1 1 1 1 1 1 1 1 1 1 1 1 1 1 1 1] => 1; INITIAL => F; ENDMODULE M;",
            "refused TooWide 36\n",
        ),
        // of two faults at one place the first of the kinds: a union at the root, and 65 nodes
        (
            "MODULE M; SYMBOL REWRITABLE F; PATTERN P = 1+1+1+1+1+1+1+1+1+1+1+1+1+1+1+1; RULE P+P+1 => 1; INITIAL => F; ENDMODULE M;",
            "refused RootNotRewritable 81\n",
        ),
        (
            "MODULE M; SYMBOL CREATABLE F; RULE F => F; INITIAL => F; ENDMODULE M;",
            "refused RootNotRewritable 35\n",
        ),
        (
            "MODULE M; SYMBOL CREATABLE F; INITIAL => F[1 1 1 1 1 1 1 1 1 1 1 1 1 1 1 1 1]; ENDMODULE M;",
            "refused TooWide 41\n",
        ),
        (
            "MODULE M; INITIAL => x; ENDMODULE M;",
            "refused Unbound 21\n",
        ),
        (
            "MODULE M; SYMBOL CREATABLE F; INITIAL => F[x:1 x:2]; ENDMODULE M;",
            "refused NamedTwice 47\n",
        ),
        (
            "MODULE M; PATTERN P = ANY; INITIAL => P; ENDMODULE M;",
            "refused NotCreatable 38\n",
        ),
        (
            "MODULE A; SYMBOL OVERWRITABLE PUBLIC CREATABLE Cell; ENDMODULE A; MODULE B; IMPORTS A; SYMBOL REWRITABLE F; RULE F[c:Cell] -> c := F; INITIAL => F; ENDMODULE B;",
            "refused NotOverwritable 126\n",
        ),
        (
            "MODULE M; SYMBOL REWRITABLE F; RULE r:F => 1, r := 2; INITIAL => F; ENDMODULE M;",
            "refused RedirectedTwice 46\n",
        ),
        (
            "MODULE M; SYMBOL REWRITABLE F; RULE F[x] => #x; INITIAL => F; ENDMODULE M;",
            "refused MarkOnBound 44\n",
        ),
        (
            "MODULE M; SYMBOL CREATABLE F, A; INITIAL => ##F[^*A]; ENDMODULE M;",
            "refused TooManyWaits 44\n",
        ),
    ] {
        expect(&rt, rt.alloc(), "", text, 3, output)?;
    }
    Ok(())
}

// Of several faults the one of the first phase is told, and of one phase the one that stands first.
#[test]
fn the_first_fault_is_told(rt: HostRuntime) -> Result<(), AllocError> {
    for (words, text, output) in [
        ("", "MODULE M; INITIAL => x ?", "refused BadByte 23\n"),
        (
            "--check",
            "MODULE M; INITIAL => x, A; ENDMODULE M;",
            "refused UnknownName 24\n",
        ),
        (
            "--check",
            "MODULE M; PATTERN P = P; INITIAL => x; ENDMODULE M;",
            "refused PatternCycle 18\n",
        ),
        (
            "--check",
            "MODULE M; SYMBOL CREATABLE True; INITIAL => B; ENDMODULE M;",
            "refused TwiceDeclared 27\n",
        ),
        (
            "--check",
            "MODULE M; SYMBOL REWRITABLE F; SYMBOL CREATABLE A; RULE A => F; PATTERN P = x; RULE F => y; INITIAL => #A; ENDMODULE M;",
            "refused RootNotRewritable 56\n",
        ),
        (
            "--check",
            "MODULE M; SYMBOL REWRITABLE F; SYMBOL CREATABLE A; PATTERN P = A + A; RULE F => P; PATTERN Q = x; INITIAL => #A; ENDMODULE M;",
            "refused NotCreatable 80\n",
        ),
        (
            "--check",
            "MODULE M; SYMBOL REWRITABLE F; RULE F => y; PATTERN P = F + P; INITIAL => #F; ENDMODULE M;",
            "refused PatternCycle 52\n",
        ),
        (
            "",
            "MODULE M; SYMBOL CREATABLE F; INITIAL => F[x y]; ENDMODULE M;",
            "refused Unbound 43\n",
        ),
    ] {
        expect(&rt, rt.alloc(), words, text, 3, output)?;
    }
    let answered = called(&rt, rt.alloc(), "", "MODULE M; INITIAL => x; ENDMODULE M;")?;
    let unbound = Refusal {
        kind: Kind::Unbound,
        place: Place { byte: 21 },
    };
    assert!(rt; answered.kept.refusal == Some(unbound) && answered.kept.program.is_none());
    Ok(())
}

// Where the last token of the text begins, or its end where that is a blank.
fn last_token(text: &str) -> usize {
    let bytes = text.as_bytes();
    let mut start = bytes.len();
    for place in (0..bytes.len()).rev() {
        if !bytes[place].is_ascii_alphanumeric() {
            break;
        }
        start = place;
    }
    if start == bytes.len() && start > 0 && bytes[start - 1].is_ascii_punctuation() {
        return start - 1;
    }
    start
}

// Whether the text is told to be unexpected at this place.
fn is_unexpected(alloc: Global, held: &[u8], place: usize) -> Result<bool, AllocError> {
    let line = format!(in alloc; "refused Unexpected {place}\n")?;
    Ok(held == line.as_bytes())
}

// Whether the text is told to be unexpected at its last token or at its end.
fn is_cut_off<R: Threads + Wait + Sync>(
    rt: &R,
    alloc: Global,
    text: &str,
) -> Result<bool, AllocError> {
    let answered = called(rt, alloc, "", text)?;
    let held = answered.sink.held();
    Ok(is_unexpected(alloc, held, last_token(text))? || is_unexpected(alloc, held, text.len())?)
}

// Each text that ends before the last semicolon of append.
#[test]
fn texts_that_are_cut_off_are_refused(rt: HostRuntime) -> Result<(), AllocError> {
    let end = APPEND.rfind(';').unwrap_or(APPEND.len());
    for length in 0..=end {
        if let Some(text) = APPEND.get(..length) {
            assert!(rt; is_cut_off(&rt, rt.alloc(), text)?, "after {length} bytes");
        }
    }
    Ok(())
}
