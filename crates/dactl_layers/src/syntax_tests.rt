//! The canonical text of a tree, in both languages.

use crate::texts::APPEND;
use dactl_base::refusal::{Kind, TextFault};
use dactl_syntax::{parse, write_text};
use dactl_tokens::tokens;

// The tree of a text, written as the canonical text.
fn rewritten(rt: &HostRuntime, text: &[u8]) -> Result<Vec<u8>, TextFault> {
    let alloc = rt.alloc();
    if text.len() > 1_048_576 {
        return Err(TextFault::Memory);
    }
    let found = tokens(alloc, text)?;
    let tree = parse(alloc, text, found.as_slice())?;
    Ok(write_text(alloc, &tree)?)
}

// The byte at which a text is unexpected.
fn unexpected_at(rt: &HostRuntime, text: &[u8]) -> Option<u32> {
    match rewritten(rt, text) {
        Err(TextFault::Refused(refusal)) if refusal.kind == Kind::Unexpected => {
            Some(refusal.place.byte)
        }
        _ => None,
    }
}

#[test]
fn canonical_texts_read_the_same(rt: HostRuntime) -> Result<(), TextFault> {
    let canonical =
        "MODULE Main ;\nSYMBOL REWRITABLE Append ;\nSYMBOL CREATABLE Cons , Nil ;\nRULE Append [ Nil y ] => * y ;\nAppend [ Cons [ h t ] y ] => * Cons [ h * Append [ t y ] ] ;\nINITIAL => * Append [ Cons [ Nil Nil ] Nil ] ;\nENDMODULE Main ;\n";
    let once = rewritten(&rt, APPEND.as_bytes())?;
    assert!(rt; once.as_slice() == canonical.as_bytes());
    let twice = rewritten(&rt, once.as_slice())?;
    assert!(rt; twice.as_slice() == once.as_slice());
    Ok(())
}

#[test]
fn characters_are_written_as_they_are(rt: HostRuntime) -> Result<(), TextFault> {
    let text = b"DACTL 2;MODULE M;RULE F['\''(CHAR-' ')]=>*'a',x:-01;INITIAL=>F[];ENDMODULE M;";
    let canonical =
        b"DACTL 2;\nMODULE M ;\nRULE F [ '\'' ( CHAR - ' ' ) ] => * 'a' , x : -1 ;\nINITIAL => F ;\nENDMODULE M ;\n";
    let once = rewritten(&rt, text.as_slice())?;
    assert!(&rt; once.as_slice() == canonical.as_slice());
    let twice = rewritten(&rt, once.as_slice())?;
    assert!(&rt; twice.as_slice() == once.as_slice());
    Ok(())
}

#[test]
fn language_1_has_a_name_char(rt: HostRuntime) -> Result<(), TextFault> {
    let text = b"MODULE CHAR;INITIAL=>CHAR;ENDMODULE CHAR;";
    let canonical = b"MODULE CHAR ;\nINITIAL => CHAR ;\nENDMODULE CHAR ;\n";
    let written = rewritten(&rt, text.as_slice())?;
    assert!(&rt; written.as_slice() == canonical.as_slice());
    Ok(())
}

#[test]
fn a_header_alone_is_no_text(rt: HostRuntime) {
    let table: [(&[u8], u32); 4] = [
        (b"DACTL 2;".as_slice(), 8),
        (b"DACTL 3;".as_slice(), 0),
        (b"DACTL 2; DACTL 2;".as_slice(), 9),
        (b"DACTL 2; MODULE CHAR;".as_slice(), 16),
    ];
    for (text, byte) in table {
        assert!(&rt; unexpected_at(&rt, text) == Some(byte), "at {byte}");
    }
}
