//! An input in two parts, with a marker line between them.
ghost use Rattle.std.specs.Prelude.{◌≡◌, ◌≤◌, ◌↔◌, IfSome, IfNone, IsTrue, length};
ghost use Rattle.dactl_base.specs.Parts.{first_line, AreParts, HasNoLine};

/// Where the first part of an input ends, and where the second one begins, in bytes.
#[derive(Clone, Copy, Debug, PartialEq, Eq)]
pub struct Parts {
    pub text_end: u32,
    pub rest: u32,
}

// The bytes before the first LF.
fn first_line(bytes: &[u8]) -> &[u8]
    ensures { result.now ≡ first_line bytes.now }
{
    let mut len = 0;
    'line: while len < bytes.len() && bytes[len] != b'\n' {
        len += 1;
    }
    &bytes[..len]
}

fn is_same(line: &[u8], other: &[u8]) -> bool
    ensures { IsTrue result ↔ (line.now ≡ other.now) }
{
    line == other
}

/// The parts before and behind the first line that is exactly the marker, whose LF belongs to
/// neither. None where no line is. A line begins the input or follows an LF, and it ends before an
/// LF or at the end of the input.
pub fn split_parts(input: &[u8], marker: &[u8]) -> Option<Parts>
    requires { length input.now ≤ 1048576 }
    ensures some { IfSome result (λ parts. AreParts input.now marker.now parts) }
    ensures none { IfNone result (HasNoLine input.now marker.now) }
{
    let mut from = 0;
    'lines: while from <= input.len() {
        let (_, rest) = input.split_at(from);
        let line = first_line(rest);
        let behind = from + line.len() + 1;
        if is_same(line, marker) {
            return Some(Parts {
                text_end: from as u32,
                rest: behind.min(input.len()) as u32,
            });
        }
        from = behind;
    }
    None
}
