//! Translations of small equations, written as a text.

use crate::translate;
use dactl_base::digits::Digits;
use dactl_base::refusal::Place;
use dactl_meaning::tree::{
    ArgTree, Group, Item, Marks, Module, Name, NodeTree, Part, PatternTree, RuleTree, Sign,
    TermTree, Text,
};
use dactl_model::Memory;
use dactl_model::program::Class;
use fun_meaning::tree::{Equation, Expr, Fun};
use sqlite_items::Items;
use std::alloc::Global;

// ---- equations

fn named(alloc: Global, text: &[u8]) -> Result<Name, Memory> {
    Ok(Name {
        text: Items::from_slice(alloc, text)?,
        place: Place { byte: 7 },
    })
}

fn variable(alloc: Global, text: &[u8]) -> Result<Expr, Memory> {
    Ok(Expr::Variable {
        name: named(alloc, text)?,
    })
}

fn nothing(alloc: Global, text: &[u8]) -> Result<Expr, Memory> {
    Ok(Expr::Made {
        name: named(alloc, text)?,
        args: Items::new(alloc),
    })
}

fn one(alloc: Global, text: &[u8], only: Expr) -> Result<Expr, Memory> {
    let mut args = Items::new(alloc);
    args.push(only)?;
    Ok(Expr::Made {
        name: named(alloc, text)?,
        args,
    })
}

fn two(alloc: Global, text: &[u8], first: Expr, second: Expr) -> Result<Expr, Memory> {
    let mut args = Items::new(alloc);
    args.push(first)?;
    args.push(second)?;
    Ok(Expr::Made {
        name: named(alloc, text)?,
        args,
    })
}

fn equation(alloc: Global, head: &[u8], pattern: Expr, right: Expr) -> Result<Equation, Memory> {
    let mut patterns = Items::new(alloc);
    patterns.push(pattern)?;
    Ok(Equation {
        head: named(alloc, head)?,
        patterns,
        right,
    })
}

/// `Cons[h t]`.
fn cell(alloc: Global) -> Result<Expr, Memory> {
    two(
        alloc,
        b"Cons",
        variable(alloc, b"h")?,
        variable(alloc, b"t")?,
    )
}

/// `IAdd[h Sum[t]]`.
fn sum_of_cell(alloc: Global) -> Result<Expr, Memory> {
    let rest = one(alloc, b"Sum", variable(alloc, b"t")?)?;
    two(alloc, b"IAdd", variable(alloc, b"h")?, rest)
}

/// `Sum[Nil] = 0; Sum[Cons[h t]] = IAdd[h Sum[t]];`.
fn sums(alloc: Global) -> Result<Items<Equation>, Memory> {
    let mut all = Items::new(alloc);
    all.push(equation(
        alloc,
        b"Sum",
        nothing(alloc, b"Nil")?,
        Expr::Integer { value: 0 },
    )?)?;
    all.push(equation(alloc, b"Sum", cell(alloc)?, sum_of_cell(alloc)?)?)?;
    Ok(all)
}

/// `DATA Cons, Nil;`, the equations of `Sum` and `MAIN = Sum[Cons[1 Nil]];`.
fn sum(alloc: Global) -> Result<Fun, Memory> {
    let mut constructors = Items::new(alloc);
    constructors.push(named(alloc, b"Cons")?)?;
    constructors.push(named(alloc, b"Nil")?)?;
    let list = two(
        alloc,
        b"Cons",
        Expr::Integer { value: 1 },
        nothing(alloc, b"Nil")?,
    )?;
    Ok(Fun {
        constructors,
        equations: sums(alloc)?,
        main: one(alloc, b"Sum", list)?,
    })
}

/// `DATA A; G[x] = 5; H[A] = A; MAIN = G[H[1]];`.
fn stuck(alloc: Global) -> Result<Fun, Memory> {
    let mut constructors = Items::new(alloc);
    constructors.push(named(alloc, b"A")?)?;
    let mut equations = Items::new(alloc);
    equations.push(equation(
        alloc,
        b"G",
        variable(alloc, b"x")?,
        Expr::Integer { value: 5 },
    )?)?;
    equations.push(equation(alloc, b"H", nothing(alloc, b"A")?, nothing(alloc, b"A")?)?)?;
    let inner = one(alloc, b"H", Expr::Integer { value: 1 })?;
    Ok(Fun {
        constructors,
        equations,
        main: one(alloc, b"G", inner)?,
    })
}

/// `MAIN = IAdd[9223372036854775807 1];`.
fn too_large(alloc: Global) -> Result<Fun, Memory> {
    let most = Expr::Integer { value: i64::MAX };
    Ok(Fun {
        constructors: Items::new(alloc),
        equations: Items::new(alloc),
        main: two(alloc, b"IAdd", most, Expr::Integer { value: 1 })?,
    })
}

// ---- a tree as a text

fn integer(out: &mut Vec<u8>, value: i128) -> Result<(), Memory> {
    let mut digits = Digits::new();
    out.extend_from_slice(digits.text(value))
}

fn names(out: &mut Vec<u8>, all: &[Name]) -> Result<(), Memory> {
    for name in all {
        out.push(b' ')?;
        out.extend_from_slice(name.text.as_slice())?;
    }
    Ok(())
}

#[cycle(writing_patterns)]
fn pattern(out: &mut Vec<u8>, tree: &PatternTree) -> Result<(), Memory> {
    match tree {
        PatternTree::Any => out.extend_from_slice(b"ANY"),
        PatternTree::Int => out.extend_from_slice(b"INT"),
        PatternTree::Char => out.extend_from_slice(b"CHAR"),
        PatternTree::Integer { value } => integer(out, *value),
        PatternTree::Letter { value } => out.extend_from_slice([*value].as_slice()),
        PatternTree::Variable { name } => out.extend_from_slice(name.text.as_slice()),
        PatternTree::Binder { name, inner } => {
            out.extend_from_slice(name.text.as_slice())?;
            out.extend_from_slice(b":")?;
            pattern(out, inner.get())
        }
        PatternTree::Sym { name, args } => {
            out.extend_from_slice(name.text.as_slice())?;
            patterns(out, args.as_slice())
        }
        PatternTree::Chain { first, rest } => {
            out.extend_from_slice(b"(")?;
            pattern(out, first.get())?;
            links(out, rest.as_slice())
        }
    }
}

#[cycle(writing_patterns)]
fn patterns(out: &mut Vec<u8>, all: &[PatternTree]) -> Result<(), Memory> {
    out.push(b'[')?;
    for one in all {
        pattern(out, one)?;
        out.push(b' ')?;
    }
    out.extend_from_slice(b"]")
}

#[cycle(writing_patterns)]
fn links(out: &mut Vec<u8>, rest: &[(Sign, PatternTree)]) -> Result<(), Memory> {
    for link in rest {
        out.push(if link.0 == Sign::Plus { b'+' } else { b'-' })?;
        pattern(out, &link.1)?;
    }
    out.extend_from_slice(b")")
}

fn marks(out: &mut Vec<u8>, marks: Marks) -> Result<(), Memory> {
    match marks {
        Marks::Plain => Ok(()),
        Marks::Star { .. } => out.extend_from_slice(b"*"),
        Marks::Hashes { count, .. } => {
            integer(out, count as i128)?;
            out.extend_from_slice(b"#")
        }
    }
}

#[cycle(writing_terms)]
fn term(out: &mut Vec<u8>, tree: &TermTree) -> Result<(), Memory> {
    marks(out, tree.marks)?;
    if let Some(name) = &tree.name {
        out.extend_from_slice(name.text.as_slice())?;
    }
    match &tree.node {
        Some(inner) => node(out, inner),
        None => Ok(()),
    }
}

#[cycle(writing_terms)]
fn node(out: &mut Vec<u8>, tree: &NodeTree) -> Result<(), Memory> {
    match tree {
        NodeTree::Integer { value, .. } => integer(out, *value),
        NodeTree::Letter { value, .. } => out.extend_from_slice([*value].as_slice()),
        NodeTree::Sym { name, args } => {
            out.extend_from_slice(name.text.as_slice())?;
            arguments(out, args.as_slice())
        }
    }
}

#[cycle(writing_terms)]
fn arguments(out: &mut Vec<u8>, all: &[ArgTree]) -> Result<(), Memory> {
    out.push(b'[')?;
    for argument in all {
        if argument.waits {
            out.push(b'^')?;
        }
        term(out, &argument.term)?;
        out.push(b' ')?;
    }
    out.extend_from_slice(b"]")
}

fn part(out: &mut Vec<u8>, part: &Part) -> Result<(), Memory> {
    match part {
        Part::Term { term: right } => term(out, right),
        Part::Redirect { term: right, .. } => {
            out.extend_from_slice(b":=")?;
            term(out, right)
        }
    }
}

fn rule(out: &mut Vec<u8>, rule: &RuleTree) -> Result<(), Memory> {
    pattern(out, &rule.pattern)?;
    out.extend_from_slice(if rule.redirects { b"=>" } else { b"->" })?;
    for one in rule.parts.as_slice() {
        part(out, one)?;
    }
    out.extend_from_slice(b"|")
}

fn group(out: &mut Vec<u8>, group: &Group) -> Result<(), Memory> {
    for one in group.rules.as_slice() {
        rule(out, one)?;
    }
    out.extend_from_slice(b";")
}

fn symbols(out: &mut Vec<u8>, class: Class, all: &[Name]) -> Result<(), Memory> {
    match class {
        Class::Rewritable => out.extend_from_slice(b"REWRITABLE")?,
        Class::Overwritable => out.extend_from_slice(b"OVERWRITABLE")?,
        Class::Creatable => out.extend_from_slice(b"CREATABLE")?,
    }
    names(out, all)
}

fn item(out: &mut Vec<u8>, item: &Item) -> Result<(), Memory> {
    match item {
        Item::Imports { names: all } => {
            out.extend_from_slice(b"IMPORTS")?;
            names(out, all.as_slice())?;
        }
        Item::Symbols {
            class,
            names: all,
            ..
        } => symbols(out, *class, all.as_slice())?,
        Item::Named { .. } => out.extend_from_slice(b"PATTERN")?,
        Item::Rules { groups } => {
            for one in groups.as_slice() {
                group(out, one)?;
            }
        }
        Item::Initial { terms, .. } => {
            out.extend_from_slice(b"INITIAL ")?;
            for one in terms.as_slice() {
                term(out, one)?;
            }
        }
    }
    out.extend_from_slice(b"\n")
}

fn module(out: &mut Vec<u8>, module: &Module) -> Result<(), Memory> {
    out.extend_from_slice(module.name.text.as_slice())?;
    out.extend_from_slice(b"\n")?;
    for one in module.items.as_slice() {
        item(out, one)?;
    }
    Ok(())
}

fn written(alloc: Global, text: &Text) -> Result<Vec<u8>, Memory> {
    let mut out = Vec::new(alloc);
    for one in text.modules.as_slice() {
        module(&mut out, one)?;
    }
    Ok(out)
}

/// The translation of the equations, as a text.
fn translation(alloc: Global, fun: &Fun) -> Result<Vec<u8>, Memory> {
    let text = translate(alloc, fun)?;
    written(alloc, &text)
}

// ---- tests

#[test]
fn a_sum_is_checked(rt: HostRuntime) -> Result<(), Memory> {
    let text = translation(rt.alloc(), &sum(rt.alloc())?)?;
    let wanted =
        b"Fun\nIMPORTS Arithmetic\nREWRITABLE Sum Chk\nCREATABLE Cons Nil\nSum[Nil[] ]=>*0|;Sum[Cons[h t ] ]=>1#Chk[^1#IAdd[h ^*Sum[t ] ] ]|;r:Sum[ANY ]->r|;Chk[x:(INT+True[]+False[]) ]=>*x|;r:Chk[ANY ]->r|;\nINITIAL *Sum[Cons[1 Nil[] ] ]\n";
    assert!(&rt; text.as_slice() == wanted.as_slice());
    Ok(())
}

#[test]
fn a_call_that_no_equation_matches_stays(rt: HostRuntime) -> Result<(), Memory> {
    let text = translation(rt.alloc(), &stuck(rt.alloc())?)?;
    let wanted =
        b"Fun\nIMPORTS Arithmetic\nREWRITABLE G H Chk\nCREATABLE A\nG[x ]=>*5|;H[A[] ]=>*A[]|;r:G[ANY ]->r|;r:H[ANY ]->r|;Chk[x:(INT+True[]+False[]) ]=>*x|;r:Chk[ANY ]->r|;\nINITIAL 1#G[^*H[1 ] ]\n";
    assert!(&rt; text.as_slice() == wanted.as_slice());
    Ok(())
}

#[test]
fn no_equations_are_a_module_too(rt: HostRuntime) -> Result<(), Memory> {
    let text = translation(rt.alloc(), &too_large(rt.alloc())?)?;
    let wanted =
        b"Fun\nIMPORTS Arithmetic\nREWRITABLE Chk\nChk[x:(INT+True[]+False[]) ]=>*x|;r:Chk[ANY ]->r|;\nINITIAL 1#Chk[^*IAdd[9223372036854775807 1 ] ]\n";
    assert!(&rt; text.as_slice() == wanted.as_slice());
    Ok(())
}
