//! How the words are read as settings.

ghost use Rattle.std.specs.Prelude.{◌≡◌, ◌⊎◌, map, IfOk, IfErr, SomeIff, true, false};
ghost use Rattle.std.specs.String.{string_bytes};
ghost use Rattle.std.specs.Char.{is_ascii_digit};
ghost use Rattle.std.specs.List.{list_all};
ghost use Rattle.std.specs.Str.Parse.{digits_value};
ghost use Rattle.clap.specs.Words.{found_of, rows_of};
ghost use Rattle.dactl_settings.specs.Limits.{IsWithinLimits};
ghost use Rattle.dactl_settings.specs.Reading as spec;

use crate::command::command;
use crate::fault::UsageFault;
use crate::settings::Settings;
use clap::ArgMatches;
use std::alloc::Global;

fn is_digits(text: &str) -> bool
    ensures { result ≡ list_all is_ascii_digit text.now }
{
    text.bytes().all(|byte| byte.is_ascii_digit())
}

// The number of a text of decimal digits, where it is from 1 to the greatest.
fn read_number(text: &str, greatest: u32) -> Option<u32>
    ensures { SomeIff result (spec.is_number greatest text.now ≡ true) (digits_value 10 text.now) }
{
    // `parse` also takes a leading plus.
    if !is_digits(text) {
        return None;
    }
    let number = text.parse().ok()?;
    if (1..=greatest).contains(&number) {
        Some(number)
    } else {
        None
    }
}

// The number that the words give the option.
fn number_of(matches: &ArgMatches<'_>, name: &str, greatest: u32) -> Result<Option<u32>, UsageFault>
    ensures fits { IfOk result (λ _.
        spec.fits (rows_of (found_of matches.now)) (name.now, greatest) ≡ true) }
    ensures number { IfOk result (λ number.
        number ≡ spec.number_of (rows_of (found_of matches.now)) name.now) }
    ensures fault { IfErr result (λ fault. fault ≡ UsageFault.Number) }
    ensures misfit { IfErr result (λ _.
        spec.fits (rows_of (found_of matches.now)) (name.now, greatest) ≡ false) }
{
    match matches.get_str(name) {
        None => Ok(None),
        Some(text) => match read_number(text, greatest) {
            Some(number) => Ok(Some(number)),
            None => Err(UsageFault::Number),
        },
    }
}

// Whether the words have the flag. Then `clap` keeps the text `true` for it, and else `false`.
fn has_flag(matches: &ArgMatches<'_>, name: &str) -> bool
    ensures { result ≡ spec.has_flag (rows_of (found_of matches.now)) name.now }
{
    match matches.get_str(name) {
        None => false,
        Some(text) => text == "true",
    }
}

// The settings, where they do not ask both for the check of a trace and for a start from a graph.
fn unless_both(settings: Settings) -> Result<Settings, UsageFault>
    ensures { result ≡ spec.unless_both settings }
{
    if settings.verify && settings.resume {
        Err(UsageFault::Both)
    } else {
        Ok(settings)
    }
}

// The settings of the words that the command has matched.
fn settings_in(matches: &ArgMatches<'_>) -> Result<Settings, UsageFault>
    ensures { result ≡ spec.checked_settings (rows_of (found_of matches.now)) }
{
    let workers = number_of(matches, "workers", 16)?.unwrap_or(4);
    let budget = number_of(matches, "budget", 4_000_000)?.unwrap_or(1_000_000);
    let nodes = number_of(matches, "nodes", 2_000_000)?.unwrap_or(200_000);
    let sample = number_of(matches, "sample", 20_000)?;
    unless_both(Settings {
        workers: workers as u8,
        budget,
        nodes,
        trace: has_flag(matches, "trace"),
        check: has_flag(matches, "check"),
        sample,
        verify: has_flag(matches, "verify"),
        resume: has_flag(matches, "resume"),
        fun: has_flag(matches, "fun"),
        steal: has_flag(matches, "steal"),
    })
}

/// Reads the words of the command line, of which the first is the program's name and is never
/// judged. A list without any word asks for the usual settings, as one with the name alone does.
///
/// # Errors
///
/// `Words` where a word is none of the command's, stands twice, or has no text where one is due;
/// else `Number` where the text of an option is no number in its range; else `Both` where
/// `--verify` and `--resume` stand together. `Memory` where memory is wanting.
pub fn read_settings(alloc: Global, words: &[String]) -> Result<Settings, UsageFault>
    ensures settings { (result ≡ spec.settings_of (map string_bytes words.now))
        ⊎ (result ≡ Err UsageFault.Memory) }
    ensures limits { IfOk result IsWithinLimits }
{
    let matches = command(alloc)?.try_get_matches_from(words)?;
    settings_in(&matches)
}
