//! Which named patterns a named pattern names.

ghost use Rattle.std.specs.Prelude.{◌≡◌, ◌++◌, OnOk, IfOk};
ghost use Rattle.std.specs.Option.{option_to_list};
ghost use Rattle.std.specs.List.{filter_map};
ghost use Rattle.dactl_symbols.specs.Scoping.{IsScopesOf};
ghost use Rattle.dactl_patterns.specs.Cycling as spec;

use crate::lookups::{named_tree, seen};
use crate::occurrences::{Use, found_in};
use dactl_meaning::tree::{Name, Text};
use dactl_model::Memory;
use dactl_symbols::sight::{Scopes, Seen};
use std::alloc::Global;

/// A named pattern, by the numbers of its module and of its item there.
pub type Pattern = (usize, usize);

/// A text whose named patterns name each other, and what its modules see.
#[derive(Drop)]
pub struct Web<'a> {
    pub alloc: Global,
    pub text: &'a Text,
    pub scopes: &'a Scopes,
    ghost scoped: { IsScopesOf text.now scopes.now },
}

impl Web<'_> {
    fn note_pattern(
        &self,
        found: &mut Vec<Pattern>,
        owner: usize,
        name: &Name,
    ) -> Result<(), Memory>
        ensures { OnOk result (found.new.items ≡
            found.old.items ++ option_to_list (spec.pattern_at self.now.text.now owner name.now)) }
    {
        if let Some(Seen::Pattern { module, item }) = seen(self.text, self.scopes, owner, name) {
            found.push((module, item))?;
        }
        Ok(())
    }

    fn patterns_among(&self, owner: usize, uses: &[Use]) -> Result<Vec<Pattern>, Memory>
        ensures { IfOk result (λ found. found.items ≡
            filter_map (spec.pattern_at self.now.text.now owner) (spec.told uses.now)) }
    {
        let mut found = Vec::new(self.alloc);
        for one in uses {
            self.note_pattern(&mut found, owner, one.name)?;
        }
        Ok(found)
    }

    /// The named patterns that the named pattern names, as often as it does.
    ///
    /// # Errors
    /// `AllocError` for want of memory.
    pub fn named_from(&self, pattern: Pattern) -> Result<Vec<Pattern>, Memory>
        ensures { IfOk result (λ found. found.items ≡ spec.named_from self.now.text.now pattern) }
    {
        match named_tree(self.text, pattern) {
            Some(tree) => {
                let found = found_in(self.alloc, tree)?;
                self.patterns_among(pattern.0, found.uses.as_slice())
            }
            None => Ok(Vec::new(self.alloc)),
        }
    }
}
