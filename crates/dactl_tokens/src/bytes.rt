//! Tests on single bytes.

ghost use Rattle.std.specs.Prelude.{◌≡◌, ◌==◌, ◌&&◌};
ghost use Rattle.dactl_tokens.specs.Spelling as spell;

/// Whether a byte is a space, a tab, LF or CR.
pub fn is_blank(byte: u8) -> bool
    ensures { result ≡ spell.is_blank byte }
{
    byte == b' ' || byte == b'\t' || byte == b'\n' || byte == b'\r'
}

/// Whether a byte is `A` to `Z`.
pub fn is_upper(byte: u8) -> bool
    ensures { result ≡ spell.is_upper byte }
{
    b'A' <= byte && byte <= b'Z'
}

/// Whether a byte is `a` to `z`.
pub fn is_lower(byte: u8) -> bool
    ensures { result ≡ spell.is_lower byte }
{
    b'a' <= byte && byte <= b'z'
}

/// Whether a byte is `0` to `9`.
pub fn is_digit(byte: u8) -> bool
    ensures { result ≡ spell.is_digit byte }
{
    b'0' <= byte && byte <= b'9'
}

/// Whether a name may go on with a byte: a letter, a digit or `_`.
pub fn is_word(byte: u8) -> bool
    ensures { result ≡ spell.is_word byte }
{
    is_upper(byte) || is_lower(byte) || is_digit(byte) || byte == b'_'
}

/// Whether a byte alone is a sign.
#[tactic(auto, unfolding(crate::specs::Spelling::is_sign_byte))]
pub fn is_sign_byte(byte: u8) -> bool
    ensures { result ≡ spell.is_sign_byte byte }
{
    byte == b'['
        || byte == b']'
        || byte == b'('
        || byte == b')'
        || byte == b';'
        || byte == b','
        || byte == b'|'
        || byte == b':'
        || byte == b'='
        || byte == b'*'
        || byte == b'#'
        || byte == b'^'
        || byte == b'+'
        || byte == b'-'
}

/// Whether two bytes are one sign: `:=`, `=>` or `->`.
#[tactic(auto, unfolding(crate::specs::Spelling::is_long_sign))]
pub fn is_long_sign(first: u8, second: u8) -> bool
    ensures { result ≡ spell.is_long_sign first second }
{
    (first == b':' && second == b'=')
        || (first == b'=' && second == b'>')
        || (first == b'-' && second == b'>')
}

/// Whether the bytes behind a first `'` make a character.
pub fn is_character(byte: u8, last: u8) -> bool
    ensures { result ≡ (spell.is_printable byte && (last == 39)) }
{
    b' ' <= byte && byte <= b'~' && last == b'\''
}

/// Whether an integer with a sign stands there.
pub fn is_minus(first: u8, second: u8) -> bool
    ensures { result ≡ ((first == 45) && spell.is_digit second) }
{
    first == b'-' && is_digit(second)
}
