//! What was read of a node.
ghost use Rattle.std.specs.Prelude.{◌≡◌, ◌&&◌, ◌==◌, length};
ghost use Rattle.std.specs.Option.{option_copied};
ghost use Rattle.dactl_model.specs.Patterns.{has_symbol};
ghost use Rattle.dactl_model.specs.Readings.{reading_of, targets_of};

use dactl_model::graph::NodeId;
use dactl_model::reading::Reading;

/// The reading of the node, if it was read.
pub fn reading_of(readings: &[Reading], node: NodeId) -> Option<&Reading>
    ensures { option_copied result ≡ reading_of readings.now node }
{
    readings
        .iter()
        .find(|reading| reading.node.number == node.number)
}

/// The targets that were read, in order.
pub fn targets_of(reading: &Reading) -> &[NodeId]
    ensures { result.now ≡ targets_of reading.now.targets }
{
    &reading.targets.nodes[..reading.targets.count as usize]
}

/// Whether the node has the symbol and so many targets.
pub fn has_shape(reading: &Reading, symbol: u32, arity: usize) -> bool
    ensures { result ≡
        (has_symbol reading.now.label symbol
        && (arity == length (targets_of reading.now.targets))) }
{
    reading.label.has_symbol(symbol) && arity == targets_of(reading).len()
}
