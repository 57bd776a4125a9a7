//! The text of a call: what the source gives to its end, or the sample text.

ghost use Rattle.std.specs.Prelude.{◌≡◌, ◌≤◌, []};
ghost use Rattle.dactl_settings.specs.Limits.{IsWithinLimits};
ghost use Rattle.dactl_top.specs.Devices.{source_change};
ghost use Rattle.dactl_top.specs.Input.{HasRead, HasTaken};

use dactl_base::source::Source;
use dactl_sample::sample_text;
use dactl_settings::Settings;
use std::alloc::Global;

/// How many bytes a text may have.
pub const LONGEST: usize = 1_048_576;

// How many bytes are asked for at once.
const PIECE: usize = 4_096;

/// How the reading of a source ended.
#[derive(Clone, Copy, Debug, PartialEq, Eq)]
pub enum Input {
    /// All of it is read.
    Whole,
    /// It gave one byte more than a text may have.
    TooLong,
    /// It failed.
    Failed,
    /// There is no memory for what it gave.
    Short,
}

/// Reads all that the source gives, up to one byte more than a text may have, onto an empty `text`.
pub fn read_all<S: Source>(source: &mut S, text: &mut Vec<u8>) -> Input
    requires { text.old.items ≡ [] }
    ensures read { HasRead (source_change S.left S.faults source.old source.new)
        text.new.items result }
    ensures later { S.faults source.old ≤ S.faults source.new }
{
    let mut piece = [0u8; PIECE];
    'reading: while text.len() <= LONGEST {
        let room = (LONGEST + 1 - text.len()).min(PIECE);
        let Ok(count) = source.read(&mut piece[..room]) else {
            return Input::Failed;
        };
        if count == 0 {
            return Input::Whole;
        }
        if text.extend_from_slice(&piece[..count]).is_err() {
            return Input::Short;
        }
    }
    Input::TooLong
}

/// Takes the text that the settings ask for onto an empty `text`.
pub fn take_text<S: Source>(
    alloc: Global,
    settings: Settings,
    source: &mut S,
    text: &mut Vec<u8>,
) -> Input
    requires limits { IsWithinLimits settings }
    requires empty { text.old.items ≡ [] }
    ensures { HasTaken settings.sample (source_change S.left S.faults source.old source.new)
        text.new.items result }
{
    let Some(count) = settings.sample else {
        return read_all(source, text);
    };
    match sample_text(alloc, count) {
        Ok(sample) => {
            *text = sample;
            Input::Whole
        }
        Err(_) => Input::Short,
    }
}
