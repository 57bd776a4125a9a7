//! The parts of an input: its text, and the rest behind a marker line.

ghost use Rattle.std.specs.Prelude.{◌≤◌, IfSome, IfNone, length};
ghost use Rattle.dactl_base.specs.Parts.{HasNoLine};
ghost use Rattle.dactl_top.specs.Input.{longest};
ghost use Rattle.dactl_top.specs.Parts.{AreBeside, IsParted, LacksPart, marker_of};

use dactl_base::parts::split_parts;
use dactl_settings::Settings;

/// The line between a text and a trace of it.
const TRACE_MARKER: &[u8] = b"%TRACE";

/// The line between a text and a printed graph of its program.
const GRAPH_MARKER: &[u8] = b"%GRAPH";

/// An input in parts. Without a marker line all of it is the text, and the rest is empty.
pub struct InputParts<'a> {
    pub text: &'a [u8],
    pub rest: &'a [u8],
}

// The parts beside the first line that is the marker.
fn part_at<'a>(input: &'a [u8], marker: &[u8]) -> Option<InputParts<'a>>
    requires { length input.now ≤ longest }
    ensures some { IfSome result (λ found. AreBeside marker.now input.now
        found.text.now found.rest.now) }
    ensures none { IfNone result (HasNoLine input.now marker.now) }
{
    let parts = split_parts(input, marker)?;
    let (text, _) = input.split_at(parts.text_end as usize);
    let (_, rest) = input.split_at(parts.rest as usize);
    Some(InputParts { text, rest })
}

/// The parts of the input by the marker line that the settings ask for, where they ask for one.
/// None where the input lacks it.
pub fn part_input(settings: Settings, input: &[u8]) -> Option<InputParts<'_>>
    requires { length input.now ≤ longest }
    ensures some { IfSome result (λ found. IsParted (marker_of settings) input.now
        found.text.now found.rest.now) }
    ensures short { IfSome result (λ found. (length found.text.now ≤ longest)
        × (length found.rest.now ≤ longest)) }
    ensures none { IfNone result (LacksPart (marker_of settings) input.now) }
{
    if settings.verify {
        part_at(input, TRACE_MARKER)
    } else if settings.resume {
        part_at(input, GRAPH_MARKER)
    } else {
        Some(InputParts {
            text: input,
            rest: &[],
        })
    }
}
