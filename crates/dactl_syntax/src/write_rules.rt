//! Rules of a canonical text.

ghost use Rattle.std.specs.Prelude.{◌≡◌, ◌++◌, OnOk, map};
ghost use Rattle.dactl_syntax.specs.Canonical.{comma, bar, separated, arrow_text, part_text};
ghost use Rattle.dactl_syntax.specs.Canonical.{rule_text, group_text};

use crate::write_patterns::{Standing, pattern};
use crate::write_terms::term;
use crate::write_words::{before, line_end, name, word};
use dactl_meaning::tree::{Group, Part, RuleTree};
use std::alloc::AllocError;

fn part(out: &mut Vec<u8>, part: &Part) -> Result<(), AllocError>
    ensures { OnOk result (out.new.items ≡ out.old.items ++ part_text part.now) }
{
    match part {
        Part::Term { term: value } => term(out, value),
        Part::Redirect { left, term: value } => {
            name(out, left)?;
            word(out, b":=".as_slice())?;
            term(out, value)
        }
    }
}

fn parts(out: &mut Vec<u8>, parts: &[Part]) -> Result<(), AllocError>
    ensures { OnOk result (out.new.items ≡ out.old.items ++
        separated comma (map part_text parts.now)) }
{
    for index in 0..parts.len() {
        before(out, index, b",".as_slice())?;
        part(out, &parts[index])?;
    }
    Ok(())
}

fn arrow(out: &mut Vec<u8>, redirects: bool) -> Result<(), AllocError>
    ensures { OnOk result (out.new.items ≡ out.old.items ++ arrow_text redirects) }
{
    if redirects {
        return word(out, b"=>".as_slice());
    }
    word(out, b"->".as_slice())
}

fn rule(out: &mut Vec<u8>, rule: &RuleTree) -> Result<(), AllocError>
    ensures { OnOk result (out.new.items ≡ out.old.items ++ rule_text rule.now) }
{
    pattern(out, &rule.pattern, Standing::Whole)?;
    arrow(out, rule.redirects)?;
    parts(out, rule.parts.as_slice())
}

fn rules(out: &mut Vec<u8>, rules: &[RuleTree]) -> Result<(), AllocError>
    ensures { OnOk result (out.new.items ≡ out.old.items ++
        separated bar (map rule_text rules.now)) }
{
    for index in 0..rules.len() {
        before(out, index, b"|".as_slice())?;
        rule(out, &rules[index])?;
    }
    Ok(())
}

/// Writes a group of rules.
///
/// # Errors
///
/// Where memory for the text is wanting; `out` then has what was written before it.
pub fn group(out: &mut Vec<u8>, group: &Group) -> Result<(), AllocError>
    ensures { OnOk result (out.new.items ≡ out.old.items ++ group_text group.now) }
{
    rules(out, group.rules.as_slice())?;
    line_end(out)
}
