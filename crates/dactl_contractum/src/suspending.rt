//! Mentions that make the root of a rule wait again.
ghost use Rattle.std.specs.Prelude.{◌≡◌, map, min};
ghost use Rattle.dactl_meaning.specs.Contractum.{asked_by, hashes};
ghost use Rattle.dactl_contractum.specs.Drawing.{mention_of};
ghost use Rattle.dactl_contractum.specs.Told.{is_suspension, suspensions_in};

use crate::drawing::Mentioned;
use crate::variables::Variables;
use dactl_meaning::tree::Marks;

/// The most notifications for which a root waits again.
const MOST_NOTIFICATIONS: u32 = 16;

/// Whether the mention has `#` before one of these names of the root.
pub fn is_suspending(roots: &Variables, mention: Mentioned) -> bool
    ensures { result ≡ is_suspension roots.now (mention_of mention.entry) }
{
    match mention.marks {
        Marks::Plain | Marks::Star { .. } => false,
        Marks::Hashes { .. } => roots.contains(mention.name.text.as_slice()),
    }
}

/// How many notifications these marks ask for.
fn asked(marks: Marks) -> u8
    ensures { result ≡ min 16 (hashes marks) }
{
    match marks {
        Marks::Plain | Marks::Star { .. } => 0,
        Marks::Hashes { count, .. } => count.min(MOST_NOTIFICATIONS) as u8,
    }
}

/// How many notifications the root is to wait for again, or 0 where no mention asks for any.
pub fn suspend(roots: &Variables, mentions: &[Mentioned]) -> u8
    ensures { result ≡ asked_by (suspensions_in roots.now (map mention_of mentions.now)) }
{
    for mention in mentions {
        if is_suspending(roots, *mention) {
            return asked(mention.marks);
        }
    }
    0
}
