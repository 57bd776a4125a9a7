//! One line of a trace, and the entry that it tells.
ghost use Rattle.std.specs.Prelude.{◌≡◌, ◌≢◌, ◌↔◌, ◌++◌, ℕ, List};
ghost use Rattle.std.specs.Prelude.{IsTrue, MatchOption, codes};
ghost use Rattle.dactl_base.specs.Readers.{BeginsWith};
ghost use Rattle.dactl_model.specs.declared.graph.NodeId.{NodeId};
ghost use Rattle.dactl_model.specs.declared.graph.Event.{Event};
ghost use Rattle.dactl_model.specs.declared.graph.Event.TheVariants.{Fire, Note};
ghost use Rattle.dactl_model.specs.declared.graph.Entry.{Entry};
ghost use Rattle.dactl_print.specs.Texts.{event_text, line_feed};
ghost use Rattle.dactl_verify.specs.Lines.{IsWorker, IsLineOf, HasWords};

use dactl_base::numbers::read_number;
use dactl_model::graph::{Entry, Event, NodeId};

fn is_end(bytes: &[u8]) -> bool
    ensures { IsTrue result ↔ (bytes.now ≡ line_feed) }
{
    bytes == b"\n".as_slice()
}

// The firing that the rest of a line tells.
fn read_fire(text: &[u8]) -> Option<Event>
    ensures { MatchOption result
        ((node : NodeId) (rule : ℕ) → HasWords (Fire node rule)
        → text.now ≢ event_text (Fire node rule) ++ line_feed)
        (λ event. HasWords event × (text.now ≡ event_text event ++ line_feed)) }
{
    let (node, rest) = read_number(b" fire ", text)?;
    let (rule, end) = read_number(b" ", rest)?;
    if !is_end(end) {
        return None;
    }
    Some(Event::Fire {
        node: NodeId { number: node },
        rule,
    })
}

// The notification that the rest of a line tells.
fn read_note(text: &[u8]) -> Option<Event>
    ensures { MatchOption result
        ((node : NodeId) → HasWords (Note node) → text.now ≢ event_text (Note node) ++ line_feed)
        (λ event. HasWords event × (text.now ≡ event_text event ++ line_feed)) }
{
    let (node, end) = read_number(b" note ", text)?;
    if !is_end(end) {
        return None;
    }
    Some(Event::Note {
        node: NodeId { number: node },
    })
}

// The event that the rest of a line tells.
fn read_event(text: &[u8]) -> Option<Event>
    ensures { MatchOption result
        ((event : Event) → HasWords event → text.now ≢ event_text event ++ line_feed)
        (λ event. HasWords event × (text.now ≡ event_text event ++ line_feed)) }
{
    match read_fire(text) {
        Some(event) => Some(event),
        None => read_note(text),
    }
}

// The worker that the rest of a line tells, and what follows it.
fn read_worker(text: &[u8]) -> Option<(u8, &[u8])>
    ensures { MatchOption result
        ((worker : ℕ) (rest : List ℕ) → IsWorker worker
        → BeginsWith (codes " w") text.now worker rest → ⊥)
        (λ found. IsWorker found.0 × BeginsWith (codes " w") text.now found.0 found.1.now) }
{
    let (worker, rest) = read_number(b" w", text)?;
    if worker < 1 || 16 < worker {
        return None;
    }
    Some((worker as u8, rest))
}

/// The entry that the line tells, if it is the line of an entry with this number and a worker from
/// 1 to 16.
pub fn read_line(line: &[u8], number: u32) -> Option<Entry>
    ensures { MatchOption result
        ((entry : Entry) → HasWords entry.event → IsLineOf number entry line.now → ⊥)
        (λ entry. HasWords entry.event × IsLineOf number entry line.now) }
{
    let (own, behind) = read_number(b"", line)?;
    if own != number {
        return None;
    }
    let (worker, rest) = read_worker(behind)?;
    let event = read_event(rest)?;
    Some(Entry { worker, event })
}
