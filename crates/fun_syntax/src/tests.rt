//! A text for each kind of fault, and what a text reads.

use crate::read::read_fun;
use dactl_base::refusal::{Kind, Memory, Place, Refusal, TextFault};
use std::alloc::Global;

fn refuses(rt: &HostRuntime, text: &[u8], kind: Kind, byte: u32) -> bool {
    let expected = Refusal {
        kind,
        place: Place { byte },
    };
    if text.len() > 1_048_576 {
        return false;
    }
    match read_fun(rt.alloc(), text) {
        Err(TextFault::Refused(refusal)) => refusal == expected,
        _ => false,
    }
}

// A text with a word so many times in the middle.
fn repeated(
    alloc: Global,
    before: &[u8],
    word: &[u8],
    count: usize,
    after: &[u8],
) -> Result<Vec<u8>, Memory> {
    let mut text = Vec::from_slice(alloc, before)?;
    for _ in 0..count {
        text.extend_from_slice(word)?;
    }
    text.extend_from_slice(after)?;
    Ok(text)
}

#[test]
fn each_kind_has_its_place(rt: HostRuntime) {
    let table: [(&[u8], Kind, u32); 16] = [
        (b"MAIN = ?".as_slice(), Kind::BadByte, 7),
        (
            b"MAIN = 9223372036854775808;".as_slice(),
            Kind::NumberTooWide,
            7,
        ),
        (b"F = 1; DATA B; MAIN = 1;".as_slice(), Kind::Unexpected, 7),
        (b"DACTL 2; MAIN = 1;".as_slice(), Kind::Unexpected, 0),
        (b"MAIN = 1".as_slice(), Kind::Unexpected, 8),
        (b"DATA A, A; MAIN = A;".as_slice(), Kind::TwiceDeclared, 8),
        (b"DATA ISub; MAIN = 1;".as_slice(), Kind::TwiceDeclared, 5),
        (b"Chk = 1; MAIN = 1;".as_slice(), Kind::TwiceDeclared, 0),
        (
            b"True[x] = x; MAIN = 1;".as_slice(),
            Kind::RootNotRewritable,
            0,
        ),
        (b"MAIN = Foo;".as_slice(), Kind::UnknownName, 7),
        (
            b"F[IAdd[1 2]] = 1; MAIN = 1;".as_slice(),
            Kind::NotAConstructor,
            2,
        ),
        (b"F[x] = x; MAIN = F[1 2];".as_slice(), Kind::WrongArity, 17),
        (
            b"F = 1; F[x] = x; MAIN = F;".as_slice(),
            Kind::WrongArity,
            7,
        ),
        (
            b"DATA P; F[P[x x]] = x; MAIN = 1;".as_slice(),
            Kind::NamedTwice,
            14,
        ),
        (b"F[x] = y; MAIN = 1;".as_slice(), Kind::Unbound, 7),
        (b"MAIN = x;".as_slice(), Kind::Unbound, 7),
    ];
    for (text, kind, byte) in table {
        assert!(&rt; refuses(&rt, text, kind, byte), "{kind:?} at {byte}");
    }
}

#[test]
fn long_texts_have_bounds(rt: HostRuntime) -> Result<(), Memory> {
    let alloc = rt.alloc();
    let deep = repeated(alloc, b"MAIN = ", b"F[", 101, b"")?;
    assert!(&rt; refuses(&rt, deep.as_slice(), Kind::TooDeep, 208));
    let wide = repeated(alloc, b"DATA A; MAIN = A[", b"1 ", 17, b"];")?;
    assert!(&rt; refuses(&rt, wide.as_slice(), Kind::TooWide, 15));
    let many = repeated(alloc, b"", b"F = 1;", 4094, b"MAIN = F;")?;
    assert!(&rt; refuses(&rt, many.as_slice(), Kind::TooMany, 24558));
    Ok(())
}

#[test]
fn equations_are_read(rt: HostRuntime) -> Result<(), TextFault> {
    let text =
        b"DATA Cons, Nil; DATA A; Sum[Nil] = 0; Sum[Cons[h t]] = IAdd[h Sum[t]]; MAIN = Sum[Cons[-1 Nil[]]];";
    let found = read_fun(rt.alloc(), text.as_slice())?;
    assert_eq!(&rt; found.constructors.len(), 3);
    assert_eq!(&rt; found.equations.len(), 2);
    Ok(())
}
