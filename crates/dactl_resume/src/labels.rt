//! Marks and labels.
ghost use Rattle.std.specs.Prelude.{◌≡◌, ◌≢◌, ◌↔◌, ◌||◌, ◌∷◌, ◌++◌, ℕ, ℤ, List};
ghost use Rattle.std.specs.Prelude.{length, replicate, MatchOption, IsTrue, true};
ghost use Rattle.std.specs.List.{list_all, prefix_len};
ghost use Rattle.std.specs.Fmt.{signed_decimal};
ghost use Rattle.dactl_base.specs.Readers.{Stops};
ghost use Rattle.dactl_model.specs.declared.graph.Label.{Label as TheLabel};
ghost use Rattle.dactl_model.specs.declared.graph.Label.TheVariants.{Integer, Character};
ghost use Rattle.dactl_model.specs.declared.graph.Mark.{Mark as TheMark};
ghost use Rattle.dactl_model.specs.Integers as integers;
ghost use Rattle.dactl_model.specs.Integers.{InRange};
ghost use Rattle.dactl_resume.specs.Restriction.{IsOfLanguage};
ghost use Rattle.dactl_model.specs.Programs.{IsValid};
ghost use Rattle.dactl_print.specs.Lines.{mark_text, label_text};
ghost use Rattle.dactl_resume.specs.Found.{found_in, ArePlaces};
ghost use Rattle.dactl_resume.specs.Parts as parts;
ghost use Rattle.dactl_resume.specs.Parts.{names_of, IsFewMark, BeginsMark};
ghost use Rattle.dactl_resume.specs.Parts.{IsLabelOf, IsWord, BeginsLabel};

use crate::names::Names;
use dactl_base::numbers::integer_of;
use dactl_model::graph::{Label, Mark};
use dactl_model::integers::is_word;
use dactl_model::program::Program;

fn is_sign(byte: u8) -> bool
    ensures { result ≡ parts.is_sign byte }
{
    byte == b'*' || byte == b'#'
}

fn count_signs(bytes: &[u8]) -> usize
    ensures { result ≡ prefix_len parts.is_sign bytes.now }
{
    bytes.iter().take_while(|byte| is_sign(**byte)).count()
}

// The signs that the bytes begin with, and what follows them.
fn split_signs(bytes: &[u8]) -> (&[u8], &[u8])
    ensures joined { bytes.now ≡ result.0.now ++ result.1.now }
    ensures signs { list_all parts.is_sign result.0.now ≡ true }
    ensures behind { Stops parts.is_sign result.1.now }
{
    bytes.split_at(count_signs(bytes))
}

// Whether all of them are `#`.
fn are_waits(signs: &[u8]) -> bool
    ensures { IsTrue result ↔ (signs.now ≡ replicate (length signs.now) 35) }
{
    signs.iter().all(|sign| *sign == b'#')
}

// The mark that the signs are.
fn mark_of(signs: &[u8]) -> Option<Mark>
    ensures { MatchOption result
        ((mark : TheMark) → IsFewMark mark → signs.now ≢ mark_text mark)
        (λ mark. IsFewMark mark × (signs.now ≡ mark_text mark)) }
{
    match signs {
        [] => Some(Mark::Idle),
        [b'*'] => Some(Mark::Active),
        _ => {
            if signs.len() > 16 || !are_waits(signs) {
                return None;
            }
            Some(Mark::Waiting(signs.len() as u8))
        }
    }
}

/// The mark that the bytes begin with, and what follows it: none, `*`, or up to 16 times `#`.
pub fn read_mark(bytes: &[u8]) -> Option<(Mark, &[u8])>
    ensures { MatchOption result
        ((mark : TheMark) (rest : List ℕ) → BeginsMark bytes.now mark rest → ⊥)
        (λ found. BeginsMark bytes.now found.0 found.1.now) }
{
    let (signs, rest) = split_signs(bytes);
    let mark = mark_of(signs)?;
    Some((mark, rest))
}

fn is_label_byte(byte: u8) -> bool
    ensures { result ≡ parts.is_label_byte byte }
{
    byte != b'[' && byte != b'\n'
}

fn ends_label(rest: &[u8]) -> bool
    ensures { IsTrue result ↔ Stops parts.is_label_byte rest.now }
{
    match rest {
        [] => true,
        [first, ..] => !is_label_byte(*first),
    }
}

fn count_word(bytes: &[u8]) -> usize
    ensures { result ≡ prefix_len parts.is_label_byte bytes.now }
{
    bytes
        .iter()
        .take_while(|byte| is_label_byte(**byte))
        .count()
}

// What stands before the first `[` or LF, and what follows it.
fn split_word(bytes: &[u8]) -> (&[u8], &[u8])
    ensures joined { bytes.now ≡ result.0.now ++ result.1.now }
    ensures word { list_all parts.is_label_byte result.0.now ≡ true }
    ensures behind { Stops parts.is_label_byte result.1.now }
{
    bytes.split_at(count_word(bytes))
}

fn is_in_range(wide: bool, value: i128) -> bool
    ensures { result ≡ (wide || integers.is_word value) }
{
    wide || is_word(value)
}

// The integer of the program's language that the word is.
fn integer_label(wide: bool, word: &[u8]) -> Option<Label>
    ensures { MatchOption result
        ((z : ℤ) → InRange wide z → word.now ≢ signed_decimal z)
        (λ label. (z : ℤ) × (label ≡ Integer z) × InRange wide z × (word.now ≡ signed_decimal z)) }
{
    let value = integer_of(word)?;
    if is_in_range(wide, value) {
        Some(Label::Integer(value))
    } else {
        None
    }
}

// The symbol or the integer that the word is.
fn word_label(program: &Program, names: &Names, word: &[u8]) -> Option<Label>
    requires { ArePlaces (names_of program.now) (found_in names.now.places) }
    ensures { MatchOption result
        ((label : TheLabel) → IsLabelOf program.now label → IsWord label
        → word.now ≢ label_text program.now label)
        (λ label. IsLabelOf program.now label × IsWord label
        × (word.now ≡ label_text program.now label)) }
{
    match names.number(word) {
        Some(symbol) => Some(Label::Symbol(symbol)),
        None => integer_label(program.wide, word),
    }
}

// The byte between the quotes that the bytes begin with, and what follows them.
fn split_quoted(bytes: &[u8]) -> Option<(u8, &[u8])>
    ensures { MatchOption result
        ((byte : ℕ) (rest : List ℕ) → bytes.now ≢ 39 ∷ byte ∷ 39 ∷ rest)
        (λ found. bytes.now ≡ 39 ∷ found.0 ∷ 39 ∷ found.1.now) }
{
    match bytes {
        [b'\'', byte, b'\'', rest @ ..] => Some((*byte, rest)),
        _ => None,
    }
}

fn is_character(wide: bool, byte: u8) -> bool
    ensures { IsTrue result ↔ IsOfLanguage wide (Character byte) }
{
    wide && b' ' <= byte && byte <= b'~'
}

/// The label that the bytes begin with, and what follows it: a name of a symbol, an integer, or a
/// character of the program's language, up to a `[` or LF.
pub fn read_label<'a>(
    program: &Program,
    names: &Names,
    bytes: &'a [u8],
) -> Option<(Label, &'a [u8])>
    requires valid { IsValid program.now }
    requires names { ArePlaces (names_of program.now) (found_in names.now.places) }
    ensures { MatchOption result
        ((label : TheLabel) (rest : List ℕ) → BeginsLabel program.now bytes.now label rest → ⊥)
        (λ found. BeginsLabel program.now bytes.now found.0 found.1.now) }
{
    if let Some((byte, rest)) = split_quoted(bytes) {
        if !is_character(program.wide, byte) || !ends_label(rest) {
            return None;
        }
        return Some((Label::Character(byte), rest));
    }
    let (word, rest) = split_word(bytes);
    let label = word_label(program, names, word)?;
    Some((label, rest))
}
