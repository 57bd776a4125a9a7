//! Which names a symbol may have.
ghost use Rattle.std.specs.Prelude.{◌≡◌};
ghost use Rattle.std.specs.List.{list_all};
ghost use Rattle.dactl_model.specs.Names as names;

fn is_capital(byte: u8) -> bool
    ensures { result ≡ names.is_capital byte }
{
    b'A' <= byte && byte <= b'Z'
}

fn is_word_byte(byte: u8) -> bool
    ensures { result ≡ names.is_word_byte byte }
{
    is_capital(byte) || b'a' <= byte && byte <= b'z' || b'0' <= byte && byte <= b'9' || byte == b'_'
}

fn begins_capital(name: &[u8]) -> bool
    ensures { result ≡ names.begins_capital name.now }
{
    match name {
        [] => false,
        [first, ..] => is_capital(*first),
    }
}

fn are_word_bytes(bytes: &[u8]) -> bool
    ensures { result ≡ list_all names.is_word_byte bytes.now }
{
    bytes.iter().all(|&byte| is_word_byte(byte))
}

#[tactic(auto, unfolding(crate::specs::Names::is_keyword, crate::specs::Names::keywords))]
fn is_keyword(wide: bool, name: &[u8]) -> bool
    ensures { result ≡ names.is_keyword wide name.now }
{
    name == b"MODULE".as_slice()
        || name == b"ENDMODULE".as_slice()
        || name == b"IMPORTS".as_slice()
        || name == b"SYMBOL".as_slice()
        || name == b"PATTERN".as_slice()
        || name == b"RULE".as_slice()
        || name == b"INITIAL".as_slice()
        || name == b"PUBLIC".as_slice()
        || name == b"REWRITABLE".as_slice()
        || name == b"OVERWRITABLE".as_slice()
        || name == b"CREATABLE".as_slice()
        || name == b"ANY".as_slice()
        || name == b"INT".as_slice()
        || wide && name == b"CHAR".as_slice()
}

/// Whether the bytes are the spelling of a name with a capital letter, in a language with
/// characters or in one without.
pub fn is_upper_name(wide: bool, name: &[u8]) -> bool
    ensures { result ≡ names.is_upper_name wide name.now }
{
    begins_capital(name) && are_word_bytes(name) && !is_keyword(wide, name)
}
