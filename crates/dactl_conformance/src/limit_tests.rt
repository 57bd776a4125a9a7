//! Texts at the limits of the language, and one step beyond.

use crate::testing::{expect, repeated};
use std::alloc::{AllocError, Global};

#[test]
fn repeated_parts_have_limits(rt: HostRuntime) -> Result<(), AllocError> {
    let rule = "MODULE M; SYMBOL REWRITABLE F; RULE ";
    let last = " INITIAL => F; ENDMODULE M;";
    let choice = "MODULE M; SYMBOL CREATABLE A; PATTERN P = A";
    let rest = "; INITIAL => A; ENDMODULE M;";
    let term = "MODULE M; SYMBOL CREATABLE F; INITIAL => F[1";
    for (front, part, times, back, code, output) in [
        (
            "MODULE M; INITIAL => ",
            "F[",
            201,
            "",
            3,
            "refused TooDeep 422\n",
        ),
        (rule, "F => F;", 4_096, last, 0, "ok\n"),
        (rule, "F => F;", 4_097, last, 3, "refused TooMany 28708\n"),
        // 63 nodes of a pattern, and 65
        (choice, " + A", 31, rest, 0, "ok\n"),
        (choice, " + A", 32, rest, 3, "refused TooWide 38\n"),
        // 16 arguments, and 17
        (term, " 1", 15, "]; ENDMODULE M;", 0, "ok\n"),
        (term, " 1", 16, "]; ENDMODULE M;", 3, "refused TooWide 41\n"),
    ] {
        let text = repeated(rt.alloc(), front, part, times, back)?;
        expect(&rt, rt.alloc(), "--check", text.as_str(), code, output)?;
    }
    Ok(())
}

// So many brackets, one inside the other.
fn nested(alloc: Global, times: usize) -> Result<String, AllocError> {
    let front = repeated(
        alloc,
        "MODULE M; SYMBOL CREATABLE F; INITIAL => ",
        "F[",
        times,
        "",
    )?;
    repeated(alloc, front.as_str(), "]", times, "; ENDMODULE M;")
}

// A pattern of so many binders, one inside the other.
fn binders(alloc: Global, times: usize) -> Result<String, AllocError> {
    let mut text = String::from_str(alloc, "MODULE M; SYMBOL REWRITABLE F; RULE F[")?;
    for number in 1..=times {
        let binder = format!(in alloc; "a{number}:(")?;
        text.push_str(binder.as_str())?;
    }
    text.push_str("ANY")?;
    repeated(
        alloc,
        text.as_str(),
        ")",
        times,
        "] => F; INITIAL => F; ENDMODULE M;",
    )
}

// A pattern of three symbols with sixteen variables each and so many further variables.
fn variables(alloc: Global, times: usize) -> Result<String, AllocError> {
    let mut text = String::from_str(
        alloc,
        "MODULE M; SYMBOL REWRITABLE F; SYMBOL CREATABLE G; RULE F[",
    )?;
    for number in 0..48 {
        let front = if number % 16 == 0 { "G[" } else { "" };
        let back = if number % 16 == 15 { "] " } else { " " };
        let variable = format!(in alloc; "{front}a{number}{back}")?;
        text.push_str(variable.as_str())?;
    }
    for number in 0..times {
        let variable = format!(in alloc; "b{number} ")?;
        text.push_str(variable.as_str())?;
    }
    text.push_str("] => F; INITIAL => F; ENDMODULE M;")?;
    Ok(text)
}

// Named patterns, each of which has the one before it twice.
fn doubled(alloc: Global, names: &[u8]) -> Result<String, AllocError> {
    let mut text = String::from_str(alloc, "MODULE M; SYMBOL CREATABLE A; PATTERN Pa = A + A; ")?;
    let mut before = 'a';
    for &name in names {
        let named = name as char;
        let pattern = format!(in alloc; "PATTERN P{named} = P{before} + P{before}; ")?;
        text.push_str(pattern.as_str())?;
        before = named;
    }
    text.push_str("INITIAL => A; ENDMODULE M;")?;
    Ok(text)
}

// A module, a symbol, and so many further symbols.
fn names(alloc: Global, times: usize) -> Result<String, AllocError> {
    let mut text = String::from_str(alloc, "MODULE M; SYMBOL CREATABLE F")?;
    for number in 0..times {
        let name = format!(in alloc; ",S{number}")?;
        text.push_str(name.as_str())?;
    }
    text.push_str("; INITIAL => F; ENDMODULE M;")?;
    Ok(text)
}

// So many named patterns, each the name of the one before, and a pattern that has the last of them
// twice. The first stands for 31 nodes.
fn aliases(alloc: Global, times: usize) -> Result<String, AllocError> {
    let mut text = String::from_str(
        alloc,
        "MODULE M; SYMBOL REWRITABLE F; PATTERN P0 = 1+1+1+1+1+1+1+1+1+1+1+1+1+1+1+1; ",
    )?;
    for number in 1..=times {
        let before = number - 1;
        let pattern = format!(in alloc; "PATTERN P{number} = P{before}; ")?;
        text.push_str(pattern.as_str())?;
    }
    let rule = format!(in alloc;
        "RULE F[(P{times}+P{times})] => F; F[(P{times}+P{times}+1)] => F; "
    )?;
    text.push_str(rule.as_str())?;
    text.push_str("INITIAL => F; ENDMODULE M;")?;
    Ok(text)
}

/// A text with so much of one thing.
#[derive(Clone, Copy)]
enum Much {
    Nested(usize),
    Binders(usize),
    Variables(usize),
    Names(usize),
    Aliases(usize),
    Doubled(&'static [u8]),
}

fn text_of(alloc: Global, much: Much) -> Result<String, AllocError> {
    match much {
        Much::Nested(times) => nested(alloc, times),
        Much::Binders(times) => binders(alloc, times),
        Much::Variables(times) => variables(alloc, times),
        Much::Names(times) => names(alloc, times),
        Much::Aliases(times) => aliases(alloc, times),
        Much::Doubled(names) => doubled(alloc, names),
    }
}

#[test]
fn patterns_and_brackets_have_limits(rt: HostRuntime) -> Result<(), AllocError> {
    let many = b"bcdefghijklmnopqrstuvwxyzABCDEFGHIJKLMN".as_slice();
    for (much, code, output) in [
        (Much::Nested(200), 0, "ok\n"),
        (Much::Nested(201), 3, "refused TooDeep 442\n"),
        (Much::Binders(64), 0, "ok\n"),
        (Much::Binders(65), 3, "refused TooWide 36\n"),
        (Much::Variables(12), 0, "ok\n"),
        (Much::Variables(13), 3, "refused TooWide 56\n"),
        // the module, a symbol and 16,382 more are 16,384 names
        (Much::Names(16_382), 0, "ok\n"),
        (Much::Names(16_383), 3, "refused TooMany 103593\n"),
        (Much::Aliases(1_000), 3, "refused TooWide 20888\n"),
        (Much::Doubled(b"bcde".as_slice()), 0, "ok\n"),
        (Much::Doubled(many), 3, "refused TooWide 146\n"),
    ] {
        let text = text_of(rt.alloc(), much)?;
        expect(&rt, rt.alloc(), "--check", text.as_str(), code, output)?;
    }
    Ok(())
}
