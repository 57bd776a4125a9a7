//! Words of a canonical text.

ghost use Rattle.std.specs.Prelude.{◌≡◌, ◌++◌, OnOk};
ghost use Rattle.std.specs.Fmt.{signed_decimal};
ghost use Rattle.dactl_syntax.specs.Canonical as canonical;

use dactl_base::digits::Digits;
use dactl_meaning::tree::Name;
use std::alloc::AllocError;

/// Writes a token and one space.
///
/// # Errors
///
/// Where memory for the text is wanting; `out` then has what was written before it.
pub fn word(out: &mut Vec<u8>, word: &[u8]) -> Result<(), AllocError>
    ensures { OnOk result (out.new.items ≡ out.old.items ++ canonical.word word.now) }
{
    out.extend_from_slice(word)?;
    out.push(b' ')?;
    Ok(())
}

/// Writes `;` and one LF.
///
/// # Errors
///
/// Where memory for the text is wanting; `out` then has what was written before it.
pub fn line_end(out: &mut Vec<u8>) -> Result<(), AllocError>
    ensures { OnOk result (out.new.items ≡ out.old.items ++ canonical.line_end) }
{
    out.push(b';')?;
    out.push(b'\n')?;
    Ok(())
}

/// Writes the bytes of a name and one space.
///
/// # Errors
///
/// Where memory for the text is wanting; `out` then has what was written before it.
pub fn name(out: &mut Vec<u8>, name: &Name) -> Result<(), AllocError>
    ensures { OnOk result (out.new.items ≡ out.old.items ++ canonical.word name.now.text) }
{
    word(out, name.text.as_slice())
}

/// Writes an integer in decimal digits, behind `-` where it is below zero, and one space.
///
/// # Errors
///
/// Where memory for the text is wanting; `out` then has what was written before it.
pub fn integer(out: &mut Vec<u8>, value: i128) -> Result<(), AllocError>
    ensures { OnOk result (out.new.items ≡ out.old.items ++ canonical.word (signed_decimal value)) }
{
    let mut digits = Digits::new();
    word(out, digits.text(value))
}

/// Writes a character, its byte between two `'`.
///
/// # Errors
///
/// Where memory for the text is wanting; `out` then has what was written before it.
pub fn character(out: &mut Vec<u8>, byte: u8) -> Result<(), AllocError>
    ensures { OnOk result (out.new.items ≡ out.old.items ++ canonical.character byte) }
{
    word(out, [b'\'', byte, b'\''].as_slice())
}

/// Writes a token before each part but the first, which has the index 0.
///
/// # Errors
///
/// Where memory for the text is wanting; `out` then has what was written before it.
pub fn before(out: &mut Vec<u8>, index: usize, token: &[u8]) -> Result<(), AllocError>
    ensures { OnOk result (out.new.items ≡ out.old.items ++
        canonical.before_text index (canonical.word token.now)) }
{
    if index > 0 {
        return word(out, token);
    }
    Ok(())
}
