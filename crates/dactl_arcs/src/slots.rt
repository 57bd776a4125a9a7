//! The slots of a pool: a spare one for each pair of a redirection, and behind them two for each target.

ghost use Rattle.std.specs.Prelude.{◌≡◌, ◌<◌, ◌^◌, true};
ghost use Rattle.dactl_arcs.specs.Slots.{IsHoused, seen, slot_of};

use crate::lists::ArcRecord;
use crate::pool::MOST_MOVES;

/// The slot for the arcs into a target, by their flag. The two slots of a target lie side by side, so that a pool of
/// which few targets are used uses few slots, all in front.
#[inline(always)]
pub fn slot_for(target: u32, waits: bool) -> u32
    requires { slot_of target true < 2 ^ 32 }
    ensures { result ≡ slot_of target waits }
{
    let plain = target + target + MOST_MOVES;
    if waits { plain + 1 } else { plain }
}

/// The arc that names its slot, by its target.
#[inline(always)]
pub fn arc_seen(arc: ArcRecord) -> ArcRecord
    requires { IsHoused arc }
    ensures { result ≡ seen arc }
{
    ArcRecord {
        target: (arc.target - MOST_MOVES) / 2,
        ..arc
    }
}
