//! Levels of named patterns: none names one of a higher level, so all of a cycle have the same.

ghost use Rattle.std.specs.Prelude.{◌≡◌, ◌≤◌, true, All, IfOk};
ghost use Rattle.dactl_patterns.specs.Cycles.{all_declared};
ghost use Rattle.dactl_patterns.specs.Cycling.{ReachesItself};
ghost use Rattle.dactl_patterns.specs.Levels.{level_in, DescendsAt, IsDescending};

use crate::declarations::Declared;
use crate::uses::{Pattern, Web};
use dactl_model::Memory;
use indexmap::{IndexMap, IndexSet};
use std::alloc::Global;

/// The levels of named patterns.
pub type Levels = IndexMap<Pattern, usize>;

/// The level of the named pattern, which is 0 where it has none.
pub fn level(levels: &Levels, pattern: Pattern) -> usize
    ensures { result ≡ level_in levels.now pattern }
{
    match levels.get(&pattern) {
        Some(level) => *level,
        None => 0,
    }
}

/// Whether none of the named patterns has a level above this one.
fn are_below(levels: &Levels, names: &[Pattern], most: usize) -> bool
    ensures { result ≡ true → All (λ a. level_in levels.now a ≤ most) names.now }
{
    for name in names {
        if level(levels, *name) > most {
            return false;
        }
    }
    true
}

/// Whether the named pattern names none of its own level, and so is in no cycle. For one of level 0
/// it answers false.
///
/// # Errors
/// `AllocError` for want of memory.
pub fn is_free(web: &Web, levels: &Levels, pattern: Pattern) -> Result<bool, Memory>
    requires { IsDescending web.now.text.now (level_in levels.now) }
    ensures { IfOk result (λ free. free ≡ true → ¬ ReachesItself web.now.text.now pattern) }
{
    let own = level(levels, pattern);
    if own == 0 {
        return Ok(false);
    }
    let names = web.named_from(pattern)?;
    Ok(are_below(levels, names.as_slice(), own - 1))
}

fn descends_at(web: &Web, levels: &Levels, pattern: Pattern) -> Result<bool, Memory>
    ensures { IfOk result (λ does. does ≡ true →
        DescendsAt web.now.text.now (level_in levels.now) pattern) }
{
    let names = web.named_from(pattern)?;
    Ok(are_below(levels, names.as_slice(), level(levels, pattern)))
}

fn descend(web: &Web, levels: &Levels, patterns: &[Declared]) -> Result<bool, Memory>
    ensures { IfOk result (λ all. all ≡ true →
        All (λ p. DescendsAt web.now.text.now (level_in levels.now) p.pattern) patterns.now) }
{
    for declared in patterns {
        if !descends_at(web, levels, declared.pattern)? {
            return Ok(false);
        }
    }
    Ok(true)
}

/// Opens the named pattern, to come back to it after those that it names and that have not begun.
fn begin(
    web: &Web,
    pattern: Pattern,
    begun: &IndexSet<Pattern>,
    open: &mut Vec<Pattern>,
) -> Result<(), Memory> {
    open.push(pattern)?;
    for name in web.named_from(pattern)?.as_slice() {
        if !begun.contains(name) {
            open.push(*name)?;
        }
    }
    Ok(())
}

/// Ends the named pattern and those that it reaches, each after those that it names, but for
/// cycles. Those that have begun were gone through before.
fn end_from(
    web: &Web,
    first: Pattern,
    begun: &mut IndexSet<Pattern>,
    ended: &mut IndexSet<Pattern>,
) -> Result<(), Memory> {
    let mut open = Vec::new(web.alloc);
    open.push(first)?;
    for _ in 0..usize::MAX {
        let Some(pattern) = open.pop() else {
            break;
        };
        if begun.insert(pattern)? {
            begin(web, pattern, begun, &mut open)?;
        } else {
            ended.insert(pattern)?;
        }
    }
    Ok(())
}

/// The named patterns, each after those that it names, but for cycles.
fn ended(web: &Web, patterns: &[Declared]) -> Result<IndexSet<Pattern>, Memory> {
    let mut begun = IndexSet::new(web.alloc);
    let mut ended = IndexSet::new(web.alloc);
    for declared in patterns {
        end_from(web, declared.pattern, &mut begun, &mut ended)?;
    }
    Ok(ended)
}

/// The named patterns that name each.
type Namers = IndexMap<Pattern, Vec<Pattern>>;

fn note_namer(
    alloc: Global,
    namers: &mut Namers,
    named: Pattern,
    namer: Pattern,
) -> Result<(), Memory> {
    match namers.get_mut(&named) {
        Some(list) => list.push(namer)?,
        None => {
            let mut list = Vec::new(alloc);
            list.push(namer)?;
            namers.insert(named, list)?;
        }
    }
    Ok(())
}

fn namers(web: &Web, patterns: &[Pattern]) -> Result<Namers, Memory> {
    let mut namers = IndexMap::new(web.alloc);
    for pattern in patterns {
        for name in web.named_from(*pattern)?.as_slice() {
            note_namer(web.alloc, &mut namers, *name, *pattern)?;
        }
    }
    Ok(namers)
}

/// Gives this level to the named pattern and to those that reach it, but for those that have one.
fn level_from(
    alloc: Global,
    namers: &Namers,
    levels: &mut Levels,
    first: Pattern,
    level: usize,
) -> Result<(), Memory> {
    let mut open = Vec::new(alloc);
    open.push(first)?;
    for _ in 0..usize::MAX {
        let Some(pattern) = open.pop() else {
            break;
        };
        if !levels.contains_key(&pattern) {
            levels.insert(pattern, level)?;
            if let Some(list) = namers.get(&pattern) {
                open.extend_from_slice(list.as_slice())?;
            }
        }
    }
    Ok(())
}

/// Levels of these named patterns, of which two have the same if each reaches the other: the last
/// one to end is reached by those alone that it reaches, and so on among the others.
fn levels_of(web: &Web, ended: &[Pattern]) -> Result<Levels, Memory> {
    let namers = namers(web, ended)?;
    let mut levels = IndexMap::new(web.alloc);
    for number in (0..ended.len()).rev() {
        level_from(web.alloc, &namers, &mut levels, ended[number], number + 1)?;
    }
    Ok(levels)
}

fn numbered(web: &Web, patterns: &[Declared]) -> Result<Levels, Memory> {
    let ended = ended(web, patterns)?;
    levels_of(web, ended.as_slice())
}

/// Levels of the named patterns. They are looked through once more: were one to name another of a
/// higher level, then all would be 0.
///
/// # Errors
/// `AllocError` for want of memory.
pub fn levels(web: &Web, patterns: &[Declared]) -> Result<Levels, Memory>
    requires { patterns.now ≡ all_declared web.now.text.now }
    ensures { IfOk result (λ levels. IsDescending web.now.text.now (level_in levels)) }
{
    let levels = numbered(web, patterns)?;
    if descend(web, &levels, patterns)? {
        Ok(levels)
    } else {
        Ok(IndexMap::new(web.alloc))
    }
}
