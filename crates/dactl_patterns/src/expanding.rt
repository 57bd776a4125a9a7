//! The expansion of a pattern, as far as it is small.

ghost use Rattle.std.specs.Prelude.{◌≡◌, ℕ, ◌+◌, ◌≤◌, ◌<◌, ◌^◌, IfOk, IfSome};
ghost use Rattle.std.specs.Option.{option_copied};
ghost use Rattle.dactl_model.specs.declared.program.Pat.{Pat};
ghost use Rattle.dactl_meaning.specs.Expansion as expansion;
ghost use Rattle.dactl_meaning.specs.Expansion.{pattern_nodes};
ghost use Rattle.dactl_patterns.specs.Table.{IsKnown, IsRight, IsWithin};
ghost use Rattle.dactl_patterns.specs.Expanding as spec;

use crate::copying::copied;
use crate::lookups::seen;
use crate::named::{Known, NamedPatterns};
use crate::names::number;
use dactl_meaning::tree::{Name, PatternTree, Sign};
use dactl_model::Memory;
use dactl_model::program::Pat;
use dactl_symbols::sight::Seen;
use sqlite_items::{Boxed, Items};
use std::alloc::{AllocError, Global};

/// A pattern, and how many nodes it has; binders don't count.
#[derive(Drop)]
pub struct Small {
    pub pat: Pat,
    pub nodes: usize,
}

/// What patterns of a module are expanded by: what is known of named patterns, the number of the
/// module, and the names whose places are the numbers of variables; `None` leaves variables out.
#[derive(Drop)]
pub struct Expander<'a> {
    pub alloc: Global,
    pub patterns: &'a NamedPatterns<'a>,
    pub owner: usize,
    pub variables: Option<&'a [Items<u8>]>,
}

/// A pattern of one node.
fn leaf(pat: Pat, most: usize) -> Option<Small>
    ensures within { IfSome result (λ s. s.nodes ≤ most) }
    ensures is { pattern_nodes pat ≡ 1 → IsWithin most pat result }
{
    if most == 0 {
        return None;
    }
    Some(Small { pat, nodes: 1 })
}

fn joined(alloc: Global, sign: Sign, left: Small, right: Small) -> Result<Small, Memory>
    requires { left.nodes + right.nodes < 2 ^ 63 }
    ensures pat { IfOk result (λ s. s.pat ≡ expansion.join sign left.pat right.pat) }
    ensures nodes { IfOk result (λ s. s.nodes ≡ 1 + (left.nodes + right.nodes)) }
{
    let nodes = 1 + (left.nodes + right.nodes);
    let left = Boxed::new(alloc, left.pat)?;
    let right = Boxed::new(alloc, right.pat)?;
    let pat = match sign {
        Sign::Plus => Pat::Union { left, right },
        Sign::Minus => Pat::Less { left, right },
    };
    Ok(Small { pat, nodes })
}

/// The expansion of the named pattern, if it has at most so many nodes.
fn taken(alloc: Global, known: &Known, most: usize) -> Result<Option<Small>, Memory>
    requires { most ≤ 64 }
    ensures within { IfOk result (λ r. IfSome r (λ s. s.nodes ≤ most)) }
    ensures is { IfOk result (λ r. (p : Pat) → IsKnown p known.now → IsWithin most p r) }
{
    match &known.small {
        Some(small) => {
            if small.nodes > most {
                return Ok(None);
            }
            let pat = copied(alloc, &small.pat)?;
            Ok(Some(Small {
                pat,
                nodes: small.nodes,
            }))
        }
        None => Ok(None),
    }
}

impl Expander<'_> {
    /// The pattern with the variable's name before it, where variables count.
    fn bound(&self, name: &Name, inner: Small) -> Result<Small, Memory>
        requires { spec.IsReady self.now }
        ensures pat { IfOk result (λ s. s.pat ≡
            expansion.at_variable (option_copied self.now.variables) name.now.text inner.pat) }
        ensures nodes { IfOk result (λ s. s.nodes ≡ inner.nodes) }
    {
        match self.variables {
            None => Ok(inner),
            Some(names) => {
                let var = number(names, name.text.as_slice()) as u8;
                let Small { pat, nodes } = inner;
                let inner = Boxed::new(self.alloc, pat)?;
                Ok(Small {
                    pat: Pat::Bind { var, inner },
                    nodes,
                })
            }
        }
    }

    /// The expansion of a named pattern, if it has at most so many nodes.
    fn pattern(&self, module: usize, item: usize, most: usize) -> Result<Option<Small>, Memory>
        requires { most ≤ 64 }
        ensures within { IfOk result (λ r. IfSome r (λ s. s.nodes ≤ most)) }
        ensures is { IfOk result (λ r. (named : ℕ → ℕ → Pat) →
            IsRight named self.now.patterns.now → IsWithin most (named «module» item) r) }
    {
        match self.patterns.known.get(&(module, item)) {
            Some(known) => taken(self.alloc, known, most),
            None => Err(AllocError),
        }
    }

    /// The expansion of the pattern, if it has at most so many nodes.
    ///
    /// # Errors
    /// `AllocError` for want of memory, or where the pattern uses a named pattern that isn't in the
    /// table.
    #[cycle(expanding)]
    pub fn expand(&self, tree: &PatternTree, most: usize) -> Result<Option<Small>, Memory>
        requires ready { spec.IsReady self.now }
        requires few { most ≤ 64 }
        ensures within { IfOk result (λ r. IfSome r (λ s. s.nodes ≤ most)) }
        ensures is { IfOk result (spec.Expands self.now most tree.now) }
    {
        match tree {
            PatternTree::Any => Ok(leaf(Pat::Any, most)),
            PatternTree::Int => Ok(leaf(Pat::Int, most)),
            PatternTree::Char => Ok(leaf(Pat::Char, most)),
            PatternTree::Integer { value } => Ok(leaf(Pat::Literal(*value), most)),
            PatternTree::Letter { value } => Ok(leaf(Pat::Letter(*value), most)),
            PatternTree::Variable { name } => match leaf(Pat::Any, most) {
                Some(inner) => Ok(Some(self.bound(name, inner)?)),
                None => Ok(None),
            },
            PatternTree::Binder { name, inner } => match self.expand(inner.get(), most)? {
                Some(inner) => Ok(Some(self.bound(name, inner)?)),
                None => Ok(None),
            },
            PatternTree::Sym { name, args } => self.at_name(name, args.as_slice(), most),
            PatternTree::Chain { first, rest } => match self.expand(first.get(), most)? {
                Some(first) => self.chain(first, rest.as_slice(), most),
                None => Ok(None),
            },
        }
    }

    #[cycle(expanding)]
    fn at_name(
        &self,
        name: &Name,
        args: &[PatternTree],
        most: usize,
    ) -> Result<Option<Small>, Memory>
        requires ready { spec.IsReady self.now }
        requires few { most ≤ 64 }
        ensures within { IfOk result (λ r. IfSome r (λ s. s.nodes ≤ most)) }
        ensures is { IfOk result (spec.ExpandsName self.now most name.now.text args.now) }
    {
        match seen(self.patterns.text, self.patterns.scopes, self.owner, name) {
            Some(Seen::Symbol { id, .. }) => self.symbol(id, args, most),
            Some(Seen::Pattern { module, item }) => self.pattern(module, item, most),
            None => Ok(leaf(Pat::Any, most)),
        }
    }

    #[cycle(expanding)]
    fn symbol(
        &self,
        symbol: u32,
        args: &[PatternTree],
        most: usize,
    ) -> Result<Option<Small>, Memory>
        requires ready { spec.IsReady self.now }
        requires few { most ≤ 64 }
        ensures within { IfOk result (λ r. IfSome r (λ s. s.nodes ≤ most)) }
        ensures is { IfOk result (spec.ExpandsSymbol self.now most symbol args.now) }
    {
        if most == 0 {
            return Ok(None);
        }
        let mut pats = Items::new(self.alloc);
        let mut nodes = 1;
        for argument in args {
            let Some(small) = self.expand(argument, most - nodes)? else {
                return Ok(None);
            };
            pats.push(small.pat)?;
            nodes += small.nodes;
        }
        let pat = Pat::Sym { symbol, args: pats };
        Ok(Some(Small { pat, nodes }))
    }

    /// Folds the links of a chain onto its first pattern, to the left.
    #[cycle(expanding)]
    fn chain(
        &self,
        first: Small,
        rest: &[(Sign, PatternTree)],
        most: usize,
    ) -> Result<Option<Small>, Memory>
        requires ready { spec.IsReady self.now }
        requires few { most ≤ 64 }
        requires first { first.nodes ≤ most }
        ensures within { IfOk result (λ r. IfSome r (λ s. s.nodes ≤ most)) }
        ensures is { IfOk result (spec.ExpandsChain self.now most first rest.now) }
    {
        let mut folded = first;
        for link in rest {
            if folded.nodes == most {
                return Ok(None);
            }
            let Some(right) = self.expand(&link.1, most - folded.nodes - 1)? else {
                return Ok(None);
            };
            folded = joined(self.alloc, link.0, folded, right)?;
        }
        Ok(Some(folded))
    }
}
