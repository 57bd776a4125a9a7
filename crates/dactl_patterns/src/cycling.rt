//! Named patterns that reach themselves.

ghost use Rattle.std.specs.Prelude.{◌≡◌, ◌↔◌, IsTrue, OnOk, IfOk};
ghost use Rattle.dactl_symbols.specs.Least.{TellsLeast};
ghost use Rattle.dactl_patterns.specs.Cycling as spec;
ghost use Rattle.dactl_patterns.specs.Levels.{IsDescending, level_in};
ghost use Rattle.dactl_patterns.specs.Cycles.{DeclaredCycle, SomeCycle, stands_behind};

use crate::declarations::Declared;
use crate::levels::{Levels, is_free};
use crate::uses::{Pattern, Web};
use dactl_base::refusal::{Kind, Refusal};
use dactl_model::Memory;
use dactl_symbols::least::lesser;
use indexmap::IndexSet;

fn gain(reached: &mut IndexSet<Pattern>, names: &[Pattern]) -> Result<(), Memory>
    ensures { OnOk result (spec.Gains reached.old.keys names.now reached.new.keys) }
{
    for name in names {
        reached.insert(*name)?;
    }
    Ok(())
}

/// Whether the named pattern reaches itself.
fn reaches_itself(web: &Web, pattern: Pattern) -> Result<bool, Memory>
    ensures { IfOk result (λ does. IsTrue does ↔ spec.ReachesItself web.now.text.now pattern) }
{
    let mut reached = IndexSet::new(web.alloc);
    let first = web.named_from(pattern)?;
    gain(&mut reached, first.as_slice())?;
    let mut at = 0;
    'walk: while at < reached.len() {
        let names = web.named_from(reached[at])?;
        gain(&mut reached, names.as_slice())?;
        at += 1;
    }
    Ok(reached.contains(&pattern))
}

fn cycle_at(web: &Web, levels: &Levels, declared: Declared) -> Result<Option<Refusal>, Memory>
    requires { IsDescending web.now.text.now (level_in levels.now) }
    ensures { IfOk result (TellsLeast (DeclaredCycle web.now.text.now declared)) }
{
    if is_free(web, levels, declared.pattern)? || !reaches_itself(web, declared.pattern)? {
        return Ok(None);
    }
    Ok(Some(Refusal {
        kind: Kind::PatternCycle,
        place: declared.place,
    }))
}

/// Whether the named pattern stands behind the fault.
fn is_behind(declared: Declared, fault: Option<Refusal>) -> bool
    ensures { result ≡ stands_behind declared.place.byte fault }
{
    match fault {
        Some(refusal) => refusal.place.byte < declared.place.byte,
        None => false,
    }
}

/// The fault of the first of the named patterns that reaches itself.
///
/// # Errors
/// `AllocError` for want of memory.
pub fn first_cycle(
    web: &Web,
    levels: &Levels,
    patterns: &[Declared],
) -> Result<Option<Refusal>, Memory>
    requires { IsDescending web.now.text.now (level_in levels.now) }
    ensures { IfOk result (TellsLeast (SomeCycle web.now.text.now patterns.now)) }
{
    let mut first = None;
    for declared in patterns {
        if is_behind(*declared, first) {
            continue;
        }
        let here = cycle_at(web, levels, *declared)?;
        first = lesser(first, here);
    }
    Ok(first)
}
