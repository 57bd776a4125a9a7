//! The lines of a text, one after another.
ghost use Rattle.std.specs.Prelude.{◌≡◌, ◌++◌, ◌<◌, ◌≤◌, ◌==◌, length, not};
ghost use Rattle.std.specs.List.{prefix_len};
ghost use Rattle.dactl_base.specs.Readers.{next_line};

// How many bytes stand before the first LF.
fn count_before_feed(bytes: &[u8]) -> usize
    ensures { result ≡ prefix_len (λ b. not (b == 10)) bytes.now }
{
    bytes.iter().take_while(|byte| **byte != b'\n').count()
}

/// The next line of a text of at most 1 MiB, with its LF, and what follows it. The last line may
/// have no LF.
pub fn split_line(bytes: &[u8]) -> (&[u8], &[u8])
    requires some { 0 < length bytes.now }
    requires few { length bytes.now ≤ 1048576 }
    ensures line { result.0.now ≡ next_line bytes.now }
    ensures joined { bytes.now ≡ result.0.now ++ result.1.now }
    ensures shorter { length result.1.now < length bytes.now }
{
    let len = (count_before_feed(bytes) + 1).min(bytes.len());
    bytes.split_at(len)
}
