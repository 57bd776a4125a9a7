//! The lines of a text.
ghost use Rattle.std.specs.Prelude.{◌≡◌, ◌+◌, ◌<◌, ◌≤◌, ◌↔◌, ℕ};
ghost use Rattle.std.specs.Prelude.{length, slice_get, IsTrue, MatchOption};
ghost use Rattle.dactl_resume.specs.Answers.{lines_of, DiffersFirst};

use dactl_base::line::split_line;

/// How many lines the text has.
pub fn count_lines(text: &[u8]) -> u32
    requires { length text.now ≤ 1048576 }
    ensures { result ≡ length (lines_of text.now) }
{
    let mut count = 0;
    let mut rest = text;
    'lines: while !rest.is_empty() {
        let (_, behind) = split_line(rest);
        rest = behind;
        count += 1;
    }
    count
}

// Whether both texts have the same byte there.
fn agree_at(text: &[u8], other: &[u8], at: usize) -> bool
    ensures { IsTrue result
        ↔ ((at < length text.now) × (slice_get text.now at ≡ slice_get other.now at)) }
{
    match (text.get(at), other.get(at)) {
        (Some(byte), Some(same)) => *byte == *same,
        _ => false,
    }
}

/// The first line in which the texts differ, counted from 1: one that the other text has not,
/// differs too. None where the texts are the same.
pub fn first_difference(text: &[u8], other: &[u8]) -> Option<u32>
    requires { length text.now ≤ 1048576 }
    ensures { MatchOption result
        (text.now ≡ other.now)
        (λ line. (i : ℕ) × (line ≡ i + 1) × DiffersFirst text.now other.now i) }
{
    let mut line = 1;
    let mut at = 0;
    'bytes: while agree_at(text, other, at) {
        if text[at] == b'\n' {
            line += 1;
        }
        at += 1;
    }
    if text.len() <= at && other.len() <= at {
        None
    } else {
        Some(line)
    }
}
