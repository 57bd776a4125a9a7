//! What an answer adds: an entry, and one to a number that a seat keeps.

ghost use Rattle.std.specs.Prelude.{◌≡◌};
ghost use Rattle.dactl_shared.specs.Counts.{entry_by, raised, stale_by, passive_by};

use dactl_model::graph::{Entry, Event};
use dactl_state::Answer;

/// The entry that a commit of the event added, if any.
pub fn entry_of(answer: &Answer, worker: u8, event: Event) -> Option<Entry>
    ensures { result ≡ entry_by answer.now worker event }
{
    match answer {
        Answer::Committed => Some(Entry { worker, event }),
        _ => None,
    }
}

/// One more. The greatest number stays.
fn raise(number: u64) -> u64
    ensures { result ≡ raised number }
{
    if number == u64::MAX {
        number
    } else {
        number + 1
    }
}

/// How many answers were Stale, with this one.
pub fn stale_after(answer: &Answer, number: u64) -> u64
    ensures { result ≡ stale_by answer.now number }
{
    match answer {
        Answer::Stale {
            node: _,
            was: _,
            now: _,
        } => raise(number),
        _ => number,
    }
}

/// How many answers were Passive, with this one.
pub fn passive_after(answer: &Answer, number: u64) -> u64
    ensures { result ≡ passive_by answer.now number }
{
    match answer {
        Answer::Passive => raise(number),
        _ => number,
    }
}
