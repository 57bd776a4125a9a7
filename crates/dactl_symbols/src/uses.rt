//! The faults of a text in the names that its patterns and terms use.

ghost use Rattle.std.specs.Prelude.{◌≡◌};
ghost use Rattle.std.specs.List.{flat_map, enumerate_from};
ghost use Rattle.dactl_meaning.specs.Uses.{pattern_uses, term_uses, part_uses, rule_uses};
ghost use Rattle.dactl_meaning.specs.Uses.{item_uses, uses};
ghost use Rattle.dactl_symbols.specs.Least.{least_by};
ghost use Rattle.dactl_symbols.specs.Declaring.{entity_of};
ghost use Rattle.dactl_symbols.specs.UseFaults.{is_known_entity, use_at, node_uses, arg_uses};
ghost use Rattle.dactl_symbols.specs.UseFaults.{use_fault as the_fault};

use crate::least::lesser;
use crate::sight::Scopes;
use crate::survey::Entity;
use dactl_base::refusal::{Kind, Refusal};
use dactl_meaning::tree::{
    ArgTree, Group, Item, Name, NodeTree, Part, PatternTree, RuleTree, Sign, TermTree, Text,
};

/// Whether a name of this entity may be used: one of a symbol, or of a pattern where it is given no
/// arguments.
fn is_known(entity: Entity, given: bool) -> bool
    ensures { result ≡ is_known_entity (entity_of entity) given }
{
    match entity {
        Entity::Module => false,
        Entity::Symbol { .. } => true,
        Entity::Pattern { .. } => !given,
    }
}

/// The fault of a use of the name, which is looked up once.
fn use_fault(scopes: &Scopes, owner: usize, name: &Name, given: bool) -> Option<Refusal>
    ensures { result ≡ the_fault scopes.now owner (use_at name.now given) }
{
    let place = name.place;
    let unknown = Some(Refusal {
        kind: Kind::UnknownName,
        place,
    });
    let Some(meaning) = scopes.names().meaning(name.text.as_slice()) else {
        return unknown;
    };
    if !is_known(meaning.entity, given) {
        return unknown;
    }
    if scopes.seen(owner, meaning).is_some() {
        return None;
    }
    Some(Refusal {
        kind: Kind::NotVisible,
        place,
    })
}

#[cycle(pattern_faults)]
fn pattern(scopes: &Scopes, owner: usize, tree: &PatternTree) -> Option<Refusal>
    ensures { result ≡ least_by (the_fault scopes.now owner) (pattern_uses tree.now) }
{
    match tree {
        PatternTree::Sym { name, args } => {
            let own = use_fault(scopes, owner, name, !args.is_empty());
            lesser(own, patterns(scopes, owner, args.as_slice()))
        }
        PatternTree::Binder { inner, .. } => pattern(scopes, owner, inner.get()),
        PatternTree::Chain { first, rest } => {
            let before = pattern(scopes, owner, first.get());
            lesser(before, links(scopes, owner, rest.as_slice()))
        }
        PatternTree::Any
        | PatternTree::Int
        | PatternTree::Char
        | PatternTree::Integer { .. }
        | PatternTree::Letter { .. }
        | PatternTree::Variable { .. } => None,
    }
}

#[cycle(pattern_faults)]
fn patterns(scopes: &Scopes, owner: usize, trees: &[PatternTree]) -> Option<Refusal>
    ensures { result ≡ least_by (the_fault scopes.now owner) (flat_map pattern_uses trees.now) }
{
    let mut least = None;
    for tree in trees {
        least = lesser(least, pattern(scopes, owner, tree));
    }
    least
}

#[cycle(pattern_faults)]
fn links(scopes: &Scopes, owner: usize, rest: &[(Sign, PatternTree)]) -> Option<Refusal>
    ensures { result
        ≡ least_by (the_fault scopes.now owner) (flat_map (λ l. pattern_uses l.1) rest.now) }
{
    let mut least = None;
    for link in rest {
        least = lesser(least, pattern(scopes, owner, &link.1));
    }
    least
}

#[cycle(term_faults)]
fn node(scopes: &Scopes, owner: usize, tree: &NodeTree) -> Option<Refusal>
    ensures { result ≡ least_by (the_fault scopes.now owner) (node_uses tree.now) }
{
    match tree {
        NodeTree::Integer { .. } | NodeTree::Letter { .. } => None,
        NodeTree::Sym { name, args } => {
            let own = use_fault(scopes, owner, name, false);
            lesser(own, node_args(scopes, owner, args.as_slice()))
        }
    }
}

#[cycle(term_faults)]
fn node_args(scopes: &Scopes, owner: usize, args: &[ArgTree]) -> Option<Refusal>
    ensures { result ≡ least_by (the_fault scopes.now owner) (flat_map arg_uses args.now) }
{
    let mut least = None;
    for one in args {
        least = lesser(least, node_arg(scopes, owner, one));
    }
    least
}

#[cycle(term_faults)]
fn node_arg(scopes: &Scopes, owner: usize, arg: &ArgTree) -> Option<Refusal>
    ensures { result ≡ least_by (the_fault scopes.now owner) (arg_uses arg.now) }
{
    term(scopes, owner, &arg.term)
}

#[cycle(term_faults)]
fn term(scopes: &Scopes, owner: usize, tree: &TermTree) -> Option<Refusal>
    ensures { result ≡ least_by (the_fault scopes.now owner) (term_uses tree.now) }
{
    match &tree.node {
        None => None,
        Some(made) => node(scopes, owner, made),
    }
}

fn part(scopes: &Scopes, owner: usize, part: &Part) -> Option<Refusal>
    ensures { result ≡ least_by (the_fault scopes.now owner) (part_uses part.now) }
{
    match part {
        Part::Term { term: value } => term(scopes, owner, value),
        Part::Redirect { term: value, .. } => term(scopes, owner, value),
    }
}

fn parts(scopes: &Scopes, owner: usize, parts: &[Part]) -> Option<Refusal>
    ensures { result ≡ least_by (the_fault scopes.now owner) (flat_map part_uses parts.now) }
{
    let mut least = None;
    for one in parts {
        least = lesser(least, part(scopes, owner, one));
    }
    least
}

fn rules(scopes: &Scopes, owner: usize, rules: &[RuleTree]) -> Option<Refusal>
    ensures { result ≡ least_by (the_fault scopes.now owner) (flat_map rule_uses rules.now) }
{
    let mut least = None;
    for rule in rules {
        let left = pattern(scopes, owner, &rule.pattern);
        let right = parts(scopes, owner, rule.parts.as_slice());
        least = lesser(least, lesser(left, right));
    }
    least
}

fn groups(scopes: &Scopes, owner: usize, groups: &[Group]) -> Option<Refusal>
    ensures { result
        ≡ least_by (the_fault scopes.now owner)
        (flat_map (λ g. flat_map rule_uses g.rules) groups.now) }
{
    let mut least = None;
    for group in groups {
        least = lesser(least, rules(scopes, owner, group.rules.as_slice()));
    }
    least
}

fn terms(scopes: &Scopes, owner: usize, terms: &[TermTree]) -> Option<Refusal>
    ensures { result ≡ least_by (the_fault scopes.now owner) (flat_map term_uses terms.now) }
{
    let mut least = None;
    for one in terms {
        least = lesser(least, term(scopes, owner, one));
    }
    least
}

fn item(scopes: &Scopes, owner: usize, tree: &Item) -> Option<Refusal>
    ensures { result ≡ least_by (the_fault scopes.now owner) (item_uses tree.now) }
{
    match tree {
        Item::Imports { .. } | Item::Symbols { .. } => None,
        Item::Named { pattern: meant, .. } => pattern(scopes, owner, meant),
        Item::Rules { groups: written } => groups(scopes, owner, written.as_slice()),
        Item::Initial { terms: written, .. } => terms(scopes, owner, written.as_slice()),
    }
}

fn items(scopes: &Scopes, owner: usize, items: &[Item]) -> Option<Refusal>
    ensures { result ≡ least_by (the_fault scopes.now owner) (flat_map item_uses items.now) }
{
    let mut least = None;
    for one in items {
        least = lesser(least, item(scopes, owner, one));
    }
    least
}

/// The first fault of the names that a text uses, by its place. Each use is looked up once.
pub fn first_use_fault(scopes: &Scopes, text: &Text) -> Option<Refusal>
    ensures { result ≡ least_by (λ u. the_fault scopes.now u.0 u.1) (uses text.now) }
{
    let mut least = None;
    for (owner, tree) in text.modules.as_slice().iter().enumerate() {
        least = lesser(least, items(scopes, owner, tree.items.as_slice()));
    }
    least
}
