ghost use Rattle.std.specs.Prelude.{◌≤◌, length};

use crate::integers::integer;
use crate::scan::tokens;
use crate::token::{Token, TokenKind};
use dactl_base::refusal::{Kind, Place, Refusal, TextFault};

fn at(kind: TokenKind, from: u32, to: u32) -> Token {
    Token { kind, from, to }
}

fn refuses(rt: &HostRuntime, text: &[u8], kind: Kind, byte: u32) -> bool {
    let expected = Refusal {
        kind,
        place: Place { byte },
    };
    if text.len() > 1_048_576 {
        return false;
    }
    match tokens(rt.alloc(), text) {
        Err(TextFault::Refused(refusal)) => refusal == expected,
        _ => false,
    }
}

#[test]
fn the_longest_token_is_taken(rt: HostRuntime) -> Result<(), TextFault> {
    let text = b"MODULE MODULES {a{b} x:=-1\t=>12ab->--5 - 7_|";
    let expected = [
        at(TokenKind::Keyword, 0, 6),
        at(TokenKind::Upper, 7, 14),
        at(TokenKind::Lower, 21, 22),
        at(TokenKind::Sign, 22, 24),
        at(TokenKind::Integer, 24, 26),
        at(TokenKind::Sign, 27, 29),
        at(TokenKind::Integer, 29, 31),
        at(TokenKind::Lower, 31, 33),
        at(TokenKind::Sign, 33, 35),
        at(TokenKind::Sign, 35, 36),
        at(TokenKind::Integer, 36, 38),
        at(TokenKind::Sign, 39, 40),
        at(TokenKind::Integer, 41, 42),
    ];
    assert!(&rt; text.len() <= 1_048_576);
    // `_` begins no token.
    let stopped = match tokens(rt.alloc(), text.as_slice()) {
        Err(TextFault::Refused(refusal)) => refusal.place.byte,
        _ => 0,
    };
    assert_eq!(&rt; stopped, 42);
    let (whole, _) = text.as_slice().split_at(42);
    let found = tokens(rt.alloc(), whole)?;
    assert!(&rt; found.as_slice() == expected.as_slice());
    Ok(())
}

#[test]
fn the_header_makes_language_2(rt: HostRuntime) -> Result<(), TextFault> {
    let text = b"DACTL 2; 'a'''' CHAR-DACTL";
    let expected = [
        at(TokenKind::Header, 0, 8),
        at(TokenKind::Character, 9, 12),
        at(TokenKind::Character, 12, 15),
        at(TokenKind::Keyword, 16, 20),
        at(TokenKind::Sign, 20, 21),
        at(TokenKind::Upper, 21, 26),
    ];
    assert!(&rt; text.len() <= 1_048_576);
    let found = tokens(rt.alloc(), text.as_slice())?;
    assert!(&rt; found.as_slice() == expected.as_slice());
    Ok(())
}

#[test]
fn language_1_has_no_header(rt: HostRuntime) -> Result<(), TextFault> {
    let text = b"DACTL 2:CHAR";
    let expected = [
        at(TokenKind::Upper, 0, 5),
        at(TokenKind::Integer, 6, 7),
        at(TokenKind::Sign, 7, 8),
        at(TokenKind::Upper, 8, 12),
    ];
    assert!(&rt; text.len() <= 1_048_576);
    let found = tokens(rt.alloc(), text.as_slice())?;
    assert!(&rt; found.as_slice() == expected.as_slice());
    Ok(())
}

#[test]
fn the_first_fault_is_told(rt: HostRuntime) {
    let table: [(&[u8], Kind, u32); 6] = [
        (b"MODULE M; ?".as_slice(), Kind::BadByte, 10),
        (
            b"MODULE M; INITIAL => 9223372036854775808;".as_slice(),
            Kind::NumberTooWide,
            21,
        ),
        (
            b"x -9223372036854775809 ?".as_slice(),
            Kind::NumberTooWide,
            2,
        ),
        (b"x { {} {".as_slice(), Kind::BadByte, 7),
        (b"}".as_slice(), Kind::BadByte, 0),
        (b"a > b".as_slice(), Kind::BadByte, 2),
    ];
    for (text, kind, byte) in table {
        assert!(&rt; refuses(&rt, text, kind, byte), "at {byte}");
    }
}

#[test]
fn the_first_fault_of_language_2_is_told(rt: HostRuntime) {
    let table: [(&[u8], Kind, u32); 5] = [
        (
            b"DACTL 2; 170141183460469231731687303715884105728".as_slice(),
            Kind::NumberTooWide,
            9,
        ),
        (b"MODULE M; INITIAL => 'a';".as_slice(), Kind::BadByte, 21),
        (b"DACTL 2;'".as_slice(), Kind::BadByte, 8),
        (b"DACTL 2; ''a".as_slice(), Kind::BadByte, 9),
        (b" DACTL 2; 'a'".as_slice(), Kind::BadByte, 10),
    ];
    for (text, kind, byte) in table {
        assert!(&rt; refuses(&rt, text, kind, byte), "at {byte}");
    }
}

#[test]
fn integers_have_their_values(rt: HostRuntime) {
    let table: [(&[u8], Option<i128>); 6] = [
        (
            b"9223372036854775807".as_slice(),
            Some(0x7fff_ffff_ffff_ffff),
        ),
        (
            b"-9223372036854775808".as_slice(),
            Some(-0x8000_0000_0000_0000),
        ),
        (b"-9223372036854775809".as_slice(), None),
        (b"0000000000000000000000000007".as_slice(), Some(7)),
        (b"-0".as_slice(), Some(0)),
        (b"-00012".as_slice(), Some(-12)),
    ];
    for (word, value) in table {
        assert!(&rt; integer(false, word) == value);
    }
}

#[test]
fn integers_of_language_2_have_their_values(rt: HostRuntime) {
    let table: [(&[u8], Option<i128>); 5] = [
        (
            b"170141183460469231731687303715884105727".as_slice(),
            Some(i128::MAX),
        ),
        (b"170141183460469231731687303715884105728".as_slice(), None),
        (
            b"-170141183460469231731687303715884105728".as_slice(),
            Some(i128::MIN),
        ),
        (b"-170141183460469231731687303715884105729".as_slice(), None),
        (
            b"9223372036854775808".as_slice(),
            Some(0x8000_0000_0000_0000),
        ),
    ];
    for (word, value) in table {
        assert!(&rt; integer(true, word) == value);
    }
}
