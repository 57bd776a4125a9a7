//! Blanks and comments.

ghost use Rattle.std.specs.Prelude.{◌<◌, length, IfSome, IfNone};
ghost use Rattle.dactl_tokens.specs.Lexes.{Open};
ghost use Rattle.dactl_tokens.specs.Found.{Halts, Skips, Closes};

use crate::bytes::is_blank;

/// What stands behind the next `}`.
fn close(bytes: &[u8]) -> Option<&[u8]>
    ensures some { IfSome result
        (λ rest. Closes bytes.now rest.now × (length rest.now < length bytes.now)) }
    ensures none { IfNone result (Open bytes.now) }
{
    let mut rest = bytes;
    'body: while let [first, after @ ..] = rest {
        if *first == b'}' {
            return Some(after);
        }
        rest = after;
    }
    None
}

/// What stands behind one blank or comment.
fn gap_step(bytes: &[u8]) -> Option<&[u8]>
    ensures some { IfSome result
        (λ rest. Skips bytes.now rest.now × (length rest.now < length bytes.now)) }
    ensures none { IfNone result (Halts bytes.now) }
{
    match bytes {
        [] => None,
        [first, after @ ..] => {
            if is_blank(*first) {
                Some(after)
            } else if *first == b'{' {
                close(after)
            } else {
                None
            }
        }
    }
}

/// What stands behind a gap.
pub fn skip_gap(bytes: &[u8]) -> &[u8]
    ensures skips { Skips bytes.now result.now }
    ensures halts { Halts result.now }
{
    let mut rest = bytes;
    'gap: while let Some(after) = gap_step(rest) {
        rest = after;
    }
    rest
}
