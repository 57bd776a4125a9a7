//! Numbers read from their decimal texts, and what stands before and behind them.
ghost use Rattle.std.specs.Prelude.{◌≡◌, ◌≢◌, ◌++◌, ◌^◌, ◌<◌, ℕ, ℤ, List};
ghost use Rattle.std.specs.Prelude.{MatchOption, Some, FitsSigned, true};
ghost use Rattle.std.specs.Char.{is_ascii_digit};
ghost use Rattle.std.specs.Fmt.{decimal, signed_decimal};
ghost use Rattle.std.specs.Int.{w128};
ghost use Rattle.std.specs.List.{list_all, prefix_len};
ghost use Rattle.dactl_base.specs.Readers.{Stops, BeginsWith};

use crate::digits::Digits;

/// What follows the prefix.
pub fn strip<'a>(bytes: &'a [u8], prefix: &[u8]) -> Option<&'a [u8]>
    ensures { MatchOption result
        ((rest : List ℕ) → bytes.now ≢ prefix.now ++ rest)
        (λ rest. bytes.now ≡ prefix.now ++ rest.now) }
{
    bytes.strip_prefix(prefix)
}

fn count_digits(bytes: &[u8]) -> usize
    ensures { result ≡ prefix_len is_ascii_digit bytes.now }
{
    bytes
        .iter()
        .take_while(|byte| byte.is_ascii_digit())
        .count()
}

// The decimal digits that the bytes begin with, and what follows them.
fn split_digits(bytes: &[u8]) -> (&[u8], &[u8])
    ensures joined { bytes.now ≡ result.0.now ++ result.1.now }
    ensures digits { list_all is_ascii_digit result.0.now ≡ true }
    ensures behind { Stops is_ascii_digit result.1.now }
{
    bytes.split_at(count_digits(bytes))
}

// The integer that `parse` finds in the bytes: it takes zeros and a `+` before the digits.
fn loose_integer(word: &[u8]) -> Option<i128>
    ensures { (z : ℤ) → FitsSigned w128 z → word.now ≡ signed_decimal z → result ≡ Some z }
{
    match str::from_utf8(word) {
        Ok(text) => text.parse().ok(),
        Err(_) => None,
    }
}

/// The integer of 128 bits whose decimal text the bytes are.
pub fn integer_of(word: &[u8]) -> Option<i128>
    ensures { MatchOption result
        ((z : ℤ) → FitsSigned w128 z → word.now ≢ signed_decimal z)
        (λ z. FitsSigned w128 z × (word.now ≡ signed_decimal z)) }
{
    let value = loose_integer(word)?;
    let mut digits = Digits::new();
    if digits.text(value) == word {
        Some(value)
    } else {
        None
    }
}

// The number of 32 bits whose decimal text the digits are.
fn value_of(digits: &[u8]) -> Option<u32>
    ensures { MatchOption result
        ((number : ℕ) → number < 2 ^ 32 → digits.now ≢ decimal number)
        (λ number. (number < 2 ^ 32) × (digits.now ≡ decimal number)) }
{
    let value = integer_of(digits)?;
    if 0 <= value && value < 0x1_0000_0000 {
        Some(value as u32)
    } else {
        None
    }
}

/// The number behind the prefix, and what follows it. A number has 32 bits, and no zero before it.
pub fn read_number<'a>(prefix: &[u8], bytes: &'a [u8]) -> Option<(u32, &'a [u8])>
    ensures { MatchOption result
        ((number : ℕ) (rest : List ℕ) → BeginsWith prefix.now bytes.now number rest → ⊥)
        (λ found. BeginsWith prefix.now bytes.now found.0 found.1.now) }
{
    let behind = strip(bytes, prefix)?;
    let (digits, rest) = split_digits(behind);
    let number = value_of(digits)?;
    Some((number, rest))
}
