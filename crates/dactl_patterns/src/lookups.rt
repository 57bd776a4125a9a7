//! What a module sees under a name, and the pattern behind the numbers of a named pattern.

ghost use Rattle.std.specs.Prelude.{◌≡◌, option_map};
ghost use Rattle.std.specs.Option.{option_copied};
ghost use Rattle.dactl_meaning.specs.Declarations.{item_pattern, named_pattern};
ghost use Rattle.dactl_meaning.specs.Sight.{sees};
ghost use Rattle.dactl_symbols.specs.Scoping.{IsScopesOf, told};

use crate::uses::Pattern;
use dactl_meaning::tree::{Item, Name, PatternTree, Text};
use dactl_symbols::sight::{Scopes, Seen};

/// What the module sees under the name.
pub fn seen(text: &Text, scopes: &Scopes, owner: usize, name: &Name) -> Option<Seen>
    requires { IsScopesOf text.now scopes.now }
    ensures { option_map told result ≡ sees text.now owner name.now.text }
{
    scopes.look(owner, name.text.as_slice())
}

fn item_tree(item: &Item) -> Option<&PatternTree>
    ensures { option_copied result ≡ item_pattern item.now }
{
    match item {
        Item::Named { pattern, .. } => Some(pattern),
        Item::Imports { .. } | Item::Symbols { .. } | Item::Rules { .. } | Item::Initial { .. } =>
            None,
    }
}

/// The tree of the named pattern of these numbers, if there is one.
pub fn named_tree<'a>(text: &'a Text, pattern: Pattern) -> Option<&'a PatternTree>
    ensures { option_copied result ≡ named_pattern text.now pattern.0 pattern.1 }
{
    let module = text.modules.get(pattern.0)?;
    item_tree(module.items.get(pattern.1)?)
}
