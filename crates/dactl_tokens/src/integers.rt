//! The value of an integer.

ghost use Rattle.std.specs.Prelude.{◌≡◌, ◌+◌, ◌^◌, min, pos, ◌-ℤ◌, nat_lt, nat_le, if◌then◌else◌};
ghost use Rattle.std.specs.Prelude.{Some, None};
ghost use Rattle.dactl_tokens.specs.Spelling.{decimal, bound, is_too_wide, value_of};

/// How far below zero an integer of 128 bits may be.
const MOST_BELOW: u128 = 1 << 127;

/// How far below zero an integer may be.
fn bound(wide: bool) -> u128
    ensures { result ≡ bound wide }
{
    if wide { MOST_BELOW } else { 1 << 63 }
}

/// The value of digits, or one past all ranges if it is greater.
fn magnitude(digits: &[u8]) -> u128
    ensures { result ≡ min (decimal 0 digits.now) (2 ^ 127 + 1) }
{
    let mut value: u128 = 0;
    for digit in digits {
        let units = u128::from(digit.saturating_sub(b'0'));
        value = value
            .saturating_mul(10)
            .saturating_add(units)
            .min(MOST_BELOW + 1);
    }
    value
}

fn above(wide: bool, magnitude: u128) -> Option<i128>
    ensures { result ≡ (if nat_le (bound wide) magnitude then None else Some (pos magnitude)) }
{
    if magnitude >= bound(wide) {
        return None;
    }
    Some(magnitude as i128)
}

fn below(wide: bool, magnitude: u128) -> Option<i128>
    ensures { result ≡ (if nat_lt (bound wide) magnitude then None else Some
        (pos 0 -ℤ pos magnitude)) }
{
    if magnitude > bound(wide) {
        return None;
    }
    if magnitude == MOST_BELOW {
        return Some(i128::MIN);
    }
    Some(0 - magnitude as i128)
}

/// The value that the bytes of an integer spell: none where it doesn't fit the language, which has
/// integers of 128 bits where `wide` is set and of 64 bits otherwise.
#[tactic(auto, unfolding(crate::specs::Spelling::is_too_wide))]
pub fn integer(wide: bool, word: &[u8]) -> Option<i128>
    ensures { result ≡ (if is_too_wide wide word.now then None else Some (value_of word.now)) }
{
    match word {
        [b'-', digits @ ..] => below(wide, magnitude(digits)),
        digits => above(wide, magnitude(digits)),
    }
}
