//! The compiler of rules.
ghost use Rattle.std.specs.Prelude.{◌≡◌, ◌<◌, ℕ, IfOk, Some, length, slice_get, map};
ghost use Rattle.dactl_model.specs.Programs.{IsValid};
ghost use Rattle.dactl_decide.specs.Decisions.{AreDecisions, IsWidest, AreRulesOf};
ghost use Rattle.dactl_decide.specs.Gathering.{AreTreesBelow, AreListsBelow};
ghost use Rattle.dactl_decide.specs.Orders.{is_orderly};
ghost use Rattle.dactl_decide.specs.PathTrees.{size};

use crate::Memory;
use crate::order::is_orderly;
use crate::path_tree::{PathTree, add, count};
use dactl_model::program::{Program, Rule};
use std::alloc::{AllocError, Global};
use std::marker::Model;

/// A program with its rules by symbol, and with a bound on the nodes that a probe reads. A probe
/// reads a node at most once for each path along arguments at which a rule tests a node.
#[derive(Drop)]
pub struct Deciders {
    program: Program,
    rules: Vec<Vec<u32>>,
    orderly: Vec<bool>,
    paths: Vec<u32>,
    widest: u32,
}

impl Model for Deciders {
    ghost use Rattle.std.specs.Prelude.{◌≡◌, length, map};
    ghost use Rattle.std.specs.Coded.{codes};
    ghost use Rattle.dactl_model.specs.contracts.program.Pat as pat;
    ghost use Rattle.dactl_decide.specs.Decisions.{Decisions, AreDecisions};

    ghost Value = { Decisions };

    ghost coded = { Prim.hlevel (codes, pat.the_row.coded) };

    ghost use Rattle.dactl_decide.specs.Gathering.{AreListsBelow};
    ghost use Rattle.dactl_decide.specs.Orders.{is_orderly};

    ghost view = { λ d. record { program = d.program; paths = d.paths.items; widest = d.widest } };

    ghost invariant = { λ d.
        AreDecisions (record { program = d.program; paths = d.paths.items; widest = d.widest })
        × AreListsBelow
        d.program.rules (length d.program.symbols) (length d.program.rules) d.rules.items
        × (d.orderly.items ≡ map is_orderly d.program.rules) };
}

/// A tree for each symbol, with the root's path alone.
fn roots(alloc: Global, program: &Program) -> Result<Vec<PathTree>, Memory>
    ensures { IfOk result (λ trees.
        AreTreesBelow program.now.rules (length program.now.symbols) 0 trees.items) }
{
    let mut trees = Vec::new(alloc);
    for _ in 0..program.symbols.len() {
        trees.push(PathTree::root(alloc))?;
    }
    Ok(trees)
}

/// For each symbol the paths at which the patterns of its rules test nodes.
fn trees(alloc: Global, program: &Program) -> Result<Vec<PathTree>, Memory>
    requires { IsValid program.now }
    ensures { IfOk result (λ trees.
        AreTreesBelow program.now.rules
        (length program.now.symbols) (length program.now.rules) trees.items) }
{
    let mut trees = roots(alloc, program)?;
    for rule in program.rules.as_slice() {
        add(alloc, &rule.pattern, &mut trees[rule.symbol as usize])?;
    }
    Ok(trees)
}

/// An empty list for each symbol.
fn no_rules(alloc: Global, program: &Program) -> Result<Vec<Vec<u32>>, Memory>
    ensures { IfOk result (λ lists.
        AreListsBelow program.now.rules (length program.now.symbols) 0 lists.items) }
{
    let mut lists = Vec::new(alloc);
    for _ in 0..program.symbols.len() {
        lists.push(Vec::new(alloc))?;
    }
    Ok(lists)
}

/// For each symbol the numbers of its rules.
fn rules_by_symbol(alloc: Global, program: &Program) -> Result<Vec<Vec<u32>>, Memory>
    requires { IsValid program.now }
    ensures { IfOk result (λ lists.
        AreListsBelow program.now.rules
        (length program.now.symbols) (length program.now.rules) lists.items) }
{
    let mut lists = no_rules(alloc, program)?;
    for (number, rule) in program.rules.as_slice().iter().enumerate() {
        lists[rule.symbol as usize].push(number as u32)?;
    }
    Ok(lists)
}

/// Which of the rules are orderly.
fn orders(alloc: Global, rules: &[Rule]) -> Result<Vec<bool>, Memory>
    ensures { IfOk result (λ orderly. orderly.items ≡ map is_orderly rules.now) }
{
    let mut orderly = Vec::new(alloc);
    for rule in rules {
        orderly.push(is_orderly(rule))?;
    }
    Ok(orderly)
}

/// How many paths each tree has.
fn counts(alloc: Global, trees: &[PathTree]) -> Result<Vec<u32>, Memory>
    ensures { IfOk result (λ paths. paths.items ≡ map size trees.now) }
{
    let mut paths = Vec::new(alloc);
    for tree in trees {
        paths.push(count(tree).ok_or(AllocError)?)?;
    }
    Ok(paths)
}

fn greatest(paths: &[u32]) -> u32
    ensures { IsWidest paths.now result }
{
    let mut widest = 1;
    for &count in paths {
        if count > widest {
            widest = count;
        }
    }
    widest
}

/// Compiles the rules of a valid program, of which the deciders keep a copy. The time is that of
/// reading the program and of adding up the arguments of its patterns.
///
/// # Errors
///
/// `Memory` for want of memory, and where the rules of one symbol test nodes at 2^32 different
/// paths or more. Nothing is left of the deciders then.
pub fn compile(alloc: Global, program: &Program) -> Result<Deciders, Memory>
    requires { IsValid program.now }
    ensures same { IfOk result (λ deciders. deciders.program ≡ program.now) }
    ensures decisions { IfOk result AreDecisions }
{
    let trees = trees(alloc, program)?;
    let paths = counts(alloc, trees.as_slice())?;
    let widest = greatest(paths.as_slice());
    let rules = rules_by_symbol(alloc, program)?;
    let orderly = orders(alloc, program.rules.as_slice())?;
    let program = program.copy(alloc)?;
    Ok(Deciders {
        program,
        rules,
        orderly,
        paths,
        widest,
    })
}

impl Deciders {
    /// The program that was compiled.
    pub fn program(&self) -> &Program
        ensures same { result.now ≡ self.now.program }
        ensures decisions { AreDecisions self.now }
    {
        &self.program
    }

    /// The numbers, ascending, of the rules with this symbol at the root.
    pub fn rules(&self, symbol: u32) -> &[u32]
        ensures { AreRulesOf self.now.program.rules symbol result.now }
    {
        match self.rules.get(symbol as usize) {
            Some(rules) => rules.as_slice(),
            None => &[],
        }
    }

    /// Whether each variable of the rule has one binder, and these stand in the order of their
    /// numbers: so that no two of them can stand for one variable at different nodes.
    pub fn is_orderly(&self, rule: u32) -> bool
        requires { rule < length self.now.program.rules }
        ensures { slice_get (map is_orderly self.now.program.rules) rule ≡ Some result }
    {
        self.orderly[rule as usize]
    }

    /// The most nodes that a probe reads at a node with this symbol of the program.
    pub fn paths(&self, symbol: u32) -> u32
        requires { symbol < length self.now.program.symbols }
        ensures number { slice_get self.now.paths symbol ≡ Some result }
        ensures decisions { AreDecisions self.now }
    {
        self.paths[symbol as usize]
    }

    /// The most nodes that any probe reads: at least 1.
    pub fn widest(&self) -> u32
        ensures widest { result ≡ self.now.widest }
        ensures decisions { AreDecisions self.now }
    {
        self.widest
    }
}
