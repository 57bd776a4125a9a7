//! The rules of a translation, each in a group of its own.

ghost use Rattle.std.specs.Prelude.{◌≡◌, [], ◌∷◌, ◌++◌, IfOk, OnOk, map, length};
ghost use Rattle.dactl_meaning.specs.declared.tree.Part.TheVariants as parts;
ghost use Rattle.fun_meaning.specs.Functions.{first_ones};
ghost use Rattle.fun_compile.specs.Knowing.{IsReady, told};
ghost use Rattle.fun_compile.specs.Translated as spec;

use crate::names::{NOWHERE, word};
use crate::patterns::{any_call, bound, pattern_trees, values};
use crate::terms::{Translator, bare};
use dactl_meaning::tree::{Group, Marks, Part, PatternTree, RuleTree, TermTree};
use dactl_model::Memory;
use fun_meaning::tree::Equation;
use sqlite_items::Items;
use std::alloc::Global;

/// A right side of this term alone.
fn part(alloc: Global, term: TermTree) -> Result<Items<Part>, Memory>
    ensures { IfOk result (λ all. all ≡ parts.Term term ∷ []) }
{
    let mut all = Items::new(alloc);
    all.push(Part::Term { term })?;
    Ok(all)
}

/// Puts the rule behind the groups, in a group of its own.
fn push_rule(alloc: Global, groups: &mut Items<Group>, rule: RuleTree) -> Result<(), Memory>
    ensures { OnOk result (groups.new ≡ groups.old ++ spec.group_of rule ∷ []) }
{
    let mut rules = Items::new(alloc);
    rules.push(rule)?;
    groups.push(Group { rules })?;
    Ok(())
}

/// The last rule of a function: `r:F[ANY .. ANY] -> r`, by which a call that no equation matches
/// comes to rest and tells nobody.
fn rest_rule(alloc: Global, symbol: &[u8], count: usize) -> Result<RuleTree, Memory>
    ensures { IfOk result (λ rule. rule ≡ spec.rest_tree symbol.now count) }
{
    let call = any_call(alloc, symbol, count)?;
    let root = bare(alloc, Marks::Plain, b"r")?;
    Ok(RuleTree {
        place: NOWHERE,
        pattern: bound(alloc, b"r", call)?,
        redirects: false,
        parts: part(alloc, root)?,
    })
}

/// `Chk[x:(INT + True + False)]`.
fn check_pattern(alloc: Global) -> Result<PatternTree, Memory>
    ensures { IfOk result (λ tree. tree ≡ spec.check_tree.pattern) }
{
    let mut args = Items::new(alloc);
    args.push(bound(alloc, b"x", values(alloc)?)?)?;
    Ok(PatternTree::Sym {
        name: word(alloc, b"Chk")?,
        args,
    })
}

/// `Chk[x:(INT + True + False)] => *x`.
fn check_rule(alloc: Global) -> Result<RuleTree, Memory>
    ensures { IfOk result (λ rule. rule ≡ spec.check_tree) }
{
    let value = bare(alloc, Marks::Star { place: NOWHERE }, b"x")?;
    Ok(RuleTree {
        place: NOWHERE,
        pattern: check_pattern(alloc)?,
        redirects: true,
        parts: part(alloc, value)?,
    })
}

/// Puts the last rules of these functions behind the groups.
fn push_rests(alloc: Global, groups: &mut Items<Group>, firsts: &[&Equation]) -> Result<(), Memory>
    ensures { OnOk result (groups.new ≡ groups.old
        ++ map (λ eq. spec.group_of (spec.rest_tree eq.head.text (length eq.patterns)))
        (told firsts.now)) }
{
    for equation in firsts {
        let head = equation.head.text.as_slice();
        let rule = rest_rule(alloc, head, equation.patterns.len())?;
        push_rule(alloc, groups, rule)?;
    }
    Ok(())
}

impl Translator<'_> {
    /// The rule of an equation.
    fn equation_rule(&self, equation: &Equation) -> Result<RuleTree, Memory>
        requires { IsReady self.now }
        ensures { IfOk result (λ rule. rule ≡ spec.equation_tree self.now.fun.now equation.now) }
    {
        let pattern = PatternTree::Sym {
            name: word(self.alloc, equation.head.text.as_slice())?,
            args: pattern_trees(self.alloc, equation.patterns.as_slice())?,
        };
        let right = self.top(&equation.right)?;
        Ok(RuleTree {
            place: NOWHERE,
            pattern,
            redirects: true,
            parts: part(self.alloc, right)?,
        })
    }

    /// The rules of these equations.
    fn equation_groups(&self, equations: &[Equation]) -> Result<Items<Group>, Memory>
        requires { IsReady self.now }
        ensures { IfOk result (λ groups. groups
            ≡ map (λ eq. spec.group_of (spec.equation_tree self.now.fun.now eq)) equations.now) }
    {
        let mut groups = Items::new(self.alloc);
        for equation in equations {
            let rule = self.equation_rule(equation)?;
            push_rule(self.alloc, &mut groups, rule)?;
        }
        Ok(groups)
    }

    /// All rules, told the first equation of each function.
    ///
    /// # Errors
    ///
    /// `Memory` where memory is wanting, and where a call waits for more than 2^32 - 1 arguments.
    pub fn groups(&self, firsts: &[&Equation]) -> Result<Items<Group>, Memory>
        requires ready { IsReady self.now }
        requires firsts { told firsts.now ≡ first_ones self.now.fun.now.equations }
        ensures { IfOk result (λ groups. groups ≡ spec.groups_of self.now.fun.now) }
    {
        let mut groups = self.equation_groups(self.fun.equations.as_slice())?;
        push_rests(self.alloc, &mut groups, firsts)?;
        push_rule(self.alloc, &mut groups, check_rule(self.alloc)?)?;
        push_rule(self.alloc, &mut groups, rest_rule(self.alloc, b"Chk", 1)?)?;
        Ok(groups)
    }
}
