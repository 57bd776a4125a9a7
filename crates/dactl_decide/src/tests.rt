use crate::{Deciders, compile};
use dactl_model::Memory;
use dactl_model::arithmetic::arithmetic_rule;
use dactl_model::graph::{Label, Mark};
use dactl_model::program::{Body, Class, FreshNode, Op, Pat, Program, Rule, Start, Symbol};
use dactl_model::validity::is_valid;
use sqlite_items::{Boxed, Items};
use std::alloc::Global;
use std::test::Fail;

/// `Get`, `Put`, `Cell` and `Box` are the symbols 7 to 10.
fn symbols(alloc: Global) -> Result<Items<Symbol>, Memory> {
    let names: [&[u8]; 11] = [
        b"IAdd", b"ISub", b"IMul", b"IEq", b"ILt", b"True", b"False", b"Get", b"Put", b"Cell",
        b"Box",
    ];
    let mut all = Items::new(alloc);
    for name in names {
        all.push(Symbol {
            name: Items::from_slice(alloc, name)?,
            class: Class::Rewritable,
        })?;
    }
    Ok(all)
}

fn cell(alloc: Global) -> Pat {
    Pat::Sym {
        symbol: 9,
        args: Items::new(alloc),
    }
}

/// The symbol over one argument.
fn over(alloc: Global, symbol: u32, argument: Pat) -> Result<Pat, Memory> {
    let mut args = Items::new(alloc);
    args.push(argument)?;
    Ok(Pat::Sym { symbol, args })
}

/// `Get[Box[Cell]]`.
fn get_pattern(alloc: Global) -> Result<Pat, Memory> {
    over(alloc, 7, over(alloc, 10, cell(alloc))?)
}

/// `Put[c:Cell]`.
fn put_pattern(alloc: Global) -> Result<Pat, Memory> {
    let inner = Boxed::new(alloc, cell(alloc))?;
    over(alloc, 8, Pat::Bind { var: 0, inner })
}

/// `Box[CHAR 'a']`.
fn box_pattern(alloc: Global) -> Result<Pat, Memory> {
    let mut args = Items::new(alloc);
    args.push(Pat::Char)?;
    args.push(Pat::Letter(b'a'))?;
    Ok(Pat::Sym { symbol: 10, args })
}

/// Deciders do not look at bodies, so these are empty.
fn empty_body(alloc: Global) -> Body {
    Body::Written {
        fresh: Items::new(alloc),
        moves: Items::new(alloc),
        wakes: Items::new(alloc),
        suspend: 0,
    }
}

/// The rules of the arithmetic, and as numbers 5 to 7 those of `Get`, `Put` and `Box`.
fn rules(alloc: Global) -> Result<Items<Rule>, Memory> {
    let mut all = Items::new(alloc);
    let operations = [Op::Add, Op::Sub, Op::Mul, Op::Eq, Op::Lt];
    for (number, op) in operations.into_iter().enumerate() {
        all.push(arithmetic_rule(alloc, number as u32, op)?)?;
    }
    all.push(Rule {
        symbol: 7,
        group: 5,
        variables: 0,
        pattern: get_pattern(alloc)?,
        body: empty_body(alloc),
    })?;
    all.push(Rule {
        symbol: 8,
        group: 6,
        variables: 1,
        pattern: put_pattern(alloc)?,
        body: empty_body(alloc),
    })?;
    all.push(Rule {
        symbol: 10,
        group: 7,
        variables: 0,
        pattern: box_pattern(alloc)?,
        body: empty_body(alloc),
    })?;
    Ok(all)
}

fn start(alloc: Global) -> Result<Start, Memory> {
    let mut fresh = Items::new(alloc);
    fresh.push(FreshNode {
        label: Label::Symbol(9),
        arcs: Items::new(alloc),
        mark: Mark::Idle,
    })?;
    Ok(Start { fresh, root: 0 })
}

fn get_put_and_box(alloc: Global) -> Result<Program, Memory> {
    Ok(Program {
        symbols: symbols(alloc)?,
        rules: rules(alloc)?,
        start: start(alloc)?,
        wide: true,
    })
}

/// The number of the symbol's paths, if the program has the symbol.
fn paths(deciders: &Deciders, symbol: u32) -> Option<u32> {
    if symbol as usize >= deciders.program().symbols.len() {
        return None;
    }
    Some(deciders.paths(symbol))
}

/// Whether the rule of the number is orderly, if there is one.
fn is_orderly(deciders: &Deciders, rule: u32) -> Option<bool> {
    if rule as usize >= deciders.program().rules.len() {
        return None;
    }
    Some(deciders.is_orderly(rule))
}

/// `Get` tests itself, its box and the cell in it; `Put` itself and its cell; `Cell`, without
/// rules, counts its root alone; `Box` tests itself and both characters; and `IAdd` itself and both
/// integers.
#[test]
fn the_paths_of_each_symbol_are_counted(rt: HostRuntime) -> Result<(), Fail> {
    let program = get_put_and_box(rt.alloc())?;
    assert!(rt; is_valid(&program));
    let deciders = compile(rt.alloc(), &program)?;
    for (symbol, count) in [(7, 3), (8, 2), (9, 1), (10, 3), (0, 3)] {
        assert_eq!(rt; paths(&deciders, symbol), Some(count));
    }
    assert_eq!(rt; deciders.widest(), 3);
    assert_eq!(rt; deciders.rules(8), [6].as_slice());
    assert!(rt; deciders.rules(9).is_empty());
    assert_eq!(rt; is_orderly(&deciders, 6), Some(true));
    Ok(())
}
