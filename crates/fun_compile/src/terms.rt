//! Expressions as terms: what is not a value yet is made active, or waits for its arguments.

ghost use Rattle.std.specs.Prelude.{◌≡◌, ◌+◌, IfOk, map, if◌then◌else◌};
ghost use Rattle.dactl_meaning.specs.declared.tree.Marks.TheVariants as marks;
ghost use Rattle.dactl_meaning.specs.declared.tree.NodeTree.TheOpen.{NodeTree-F};
ghost use Rattle.dactl_meaning.specs.declared.tree.NodeTree.TheViews.{roll-NodeTree};
ghost use Rattle.dactl_meaning.specs.Unplaced.{nowhere};
ghost use Rattle.fun_meaning.specs.Names.{operation};
ghost use Rattle.fun_meaning.specs.Values.{is_constructor as is_made};
ghost use Rattle.fun_compile.specs.Translated as spec;
ghost use Rattle.fun_compile.specs.Knowing.{IsReady};
ghost use Rattle.fun_compile.specs.Putting.{shown, made_of, ArePut};

use crate::names::{NOWHERE, is_operation, set_of, word};
use dactl_meaning::tree::{ArgTree, Marks, Name, NodeTree, TermTree};
use dactl_model::Memory;
use fun_meaning::tree::{Expr, Fun};
use sqlite_items::Items;
use std::alloc::{AllocError, Global};
use std::collections::BTreeSet;

/// An expression as a term, and whether it is pure: without functions and arithmetic functions.
#[derive(Drop)]
pub struct Put {
    pub pure: bool,
    pub term: TermTree,
}

/// Arguments of a term, and how many of them it waits for.
#[derive(Drop)]
struct Arguments {
    args: Items<ArgTree>,
    waiting: u32,
}

/// What equations are translated by: the equations, and the names that `DATA` declares.
#[derive(Drop)]
pub struct Translator<'a> {
    pub alloc: Global,
    pub fun: &'a Fun,
    pub declared: BTreeSet<&'a [u8]>,
}

/// As many `#`, or `*` where there are none.
fn marks_for(count: u32) -> Marks
    ensures { result ≡ spec.marks_for count }
{
    match count {
        0 => Marks::Star { place: NOWHERE },
        _ => Marks::Hashes {
            place: NOWHERE,
            count,
        },
    }
}

/// A name alone, with marks before it.
///
/// # Errors
///
/// `Memory` where memory is wanting.
pub fn bare(alloc: Global, marks: Marks, name: &[u8]) -> Result<TermTree, Memory>
    ensures { IfOk result (λ term. term ≡ spec.bare marks name.now) }
{
    Ok(TermTree {
        marks,
        name: Some(word(alloc, name)?),
        node: None,
    })
}

/// A new node, with marks before it.
fn marked(marks: Marks, node: NodeTree) -> TermTree
    ensures { result ≡ spec.marked marks node }
{
    TermTree {
        marks,
        name: None,
        node: Some(node),
    }
}

/// An integer, which is a new node without marks.
fn integer(value: i64) -> TermTree
    ensures { result ≡ spec.marked marks.Plain (roll-NodeTree (NodeTree-F.Integer value nowhere)) }
{
    let value = value as i128;
    let node = NodeTree::Integer {
        value,
        place: NOWHERE,
    };
    marked(Marks::Plain, node)
}

/// `#Chk[^A]`.
fn checked(alloc: Global, term: TermTree) -> Result<TermTree, Memory>
    ensures { IfOk result (λ checked. checked ≡ spec.checked term) }
{
    let mut args = Items::new(alloc);
    args.push(ArgTree { waits: true, term })?;
    let name = word(alloc, b"Chk")?;
    Ok(marked(marks_for(1), NodeTree::Sym { name, args }))
}

/// The term with `*` before it.
fn starred(term: TermTree) -> TermTree
    ensures { result ≡ spec.starred term }
{
    let TermTree { name, node, .. } = term;
    TermTree {
        marks: Marks::Star { place: NOWHERE },
        name,
        node,
    }
}

/// The name over arguments, with marks before it.
fn call(alloc: Global, marks: Marks, name: &[u8], args: Items<ArgTree>) -> Result<TermTree, Memory>
    ensures { IfOk result (λ term.
        term ≡ spec.marked marks (roll-NodeTree (NodeTree-F.Sym (spec.word name.now) args))) }
{
    let name = word(alloc, name)?;
    Ok(marked(marks, NodeTree::Sym { name, args }))
}

/// A call, which is checked where its name is an arithmetic function.
fn wrapped(alloc: Global, name: &[u8], call: TermTree) -> Result<TermTree, Memory>
    ensures { IfOk result (λ term. term ≡ spec.wrapped (operation name.now) call) }
{
    if is_operation(name) {
        return checked(alloc, call);
    }
    Ok(call)
}

/// One more where it is not pure. More than 2^32 - 1 are want of memory.
fn counted(count: u32, pure: bool) -> Result<u32, Memory>
    ensures { IfOk result (λ more. more ≡ count + (if pure then 0 else 1)) }
{
    if pure {
        return Ok(count);
    }
    count.checked_add(1).ok_or(AllocError)
}

impl<'a> Translator<'a> {
    /// What translates these equations.
    ///
    /// # Errors
    ///
    /// `Memory` where there is not the memory for the set of the names that `DATA` declares.
    pub fn new(alloc: Global, fun: &'a Fun) -> Result<Translator<'a>, Memory>
        ensures ready { IfOk result IsReady }
        ensures fun { IfOk result (λ t. t.fun ≡ fun.entry) }
    {
        let declared = set_of(alloc, fun.constructors.as_slice())?;
        Ok(Translator {
            alloc,
            fun,
            declared,
        })
    }

    fn is_constructor(&self, name: &[u8]) -> bool
        requires { IsReady self.now }
        ensures { result ≡ is_made self.now.fun.now name.now }
    {
        name == b"True".as_slice() || name == b"False".as_slice() || self.declared.contains(name)
    }

    /// The expression as a term.
    #[cycle(putting)]
    fn put(&self, expression: &Expr) -> Result<Put, Memory>
        requires { IsReady self.now }
        ensures { IfOk result (λ p. shown p ≡ spec.put self.now.fun.now expression.now) }
    {
        match expression {
            Expr::Variable { name } => Ok(Put {
                pure: true,
                term: bare(self.alloc, Marks::Plain, name.text.as_slice())?,
            }),
            Expr::Integer { value } => Ok(Put {
                pure: true,
                term: integer(*value),
            }),
            Expr::Made { name, args } => self.made(name, args.as_slice()),
        }
    }

    /// A name over arguments as a term.
    #[cycle(putting)]
    fn made(&self, name: &Name, args: &[Expr]) -> Result<Put, Memory>
        requires { IsReady self.now }
        ensures { IfOk result (λ p. shown p ≡ made_of self.now.fun.now name.now.text args.now) }
    {
        let spelling = name.text.as_slice();
        let Arguments { args, waiting } = self.arguments(args)?;
        if waiting == 0 && self.is_constructor(spelling) {
            let term = call(self.alloc, Marks::Plain, spelling, args)?;
            return Ok(Put { pure: true, term });
        }
        let term = call(self.alloc, marks_for(waiting), spelling, args)?;
        let term = wrapped(self.alloc, spelling, term)?;
        Ok(Put { pure: false, term })
    }

    #[cycle(putting)]
    fn arguments(&self, args: &[Expr]) -> Result<Arguments, Memory>
        requires { IsReady self.now }
        ensures { IfOk result (ArePut (map (spec.put self.now.fun.now) args.now)) }
    {
        let mut list = Items::new(self.alloc);
        let mut waiting = 0;
        for expression in args {
            let Put { pure, term } = self.put(expression)?;
            waiting = counted(waiting, pure)?;
            list.push(ArgTree { waits: !pure, term })?;
        }
        Ok(Arguments {
            args: list,
            waiting,
        })
    }

    /// The expression as a term of a rule's right side, which the rule makes active.
    ///
    /// # Errors
    ///
    /// `Memory` where memory is wanting, and where a call waits for more than 2^32 - 1 arguments.
    pub fn top(&self, expression: &Expr) -> Result<TermTree, Memory>
        requires { IsReady self.now }
        ensures { IfOk result (λ term. term ≡ spec.top self.now.fun.now expression.now) }
    {
        let Put { pure, term } = self.put(expression)?;
        if pure { Ok(starred(term)) } else { Ok(term) }
    }
}
