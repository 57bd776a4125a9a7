//! The calls of the compiler one by one: what modules see, expansions and programs.

use crate::compiling::compile;
use dactl_base::refusal::TextFault;
use dactl_meaning::tree::{Item, RuleTree, Text};
use dactl_model::graph::{Label, Mark};
use dactl_model::program::{
    Body, Class, FreshArc, FreshNode, Left, Mention, Move, Pat, Program, Rule, Symbol,
};
use dactl_patterns::{Expanded, pattern};
use dactl_symbols::scope;
use dactl_symbols::sight::{Scopes, Seen};
use dactl_syntax::parse;
use dactl_tokens::tokens;
use std::alloc::Global;

fn tree(alloc: Global, text: &[u8]) -> Result<Text, TextFault> {
    if text.len() > 1_048_576 {
        return Err(TextFault::Memory);
    }
    let tokens = tokens(alloc, text)?;
    parse(alloc, text, tokens.as_slice())
}

fn compiled(alloc: Global, text: &[u8]) -> Result<Program, TextFault> {
    if text.len() > 1_048_576 {
        return Err(TextFault::Memory);
    }
    compile(alloc, text)
}

/// Two modules. The second sees the public name of a cell and of a pattern, and no other of the
/// first.
const TWO: &[u8] =
    b"MODULE A; SYMBOL OVERWRITABLE PUBLIC CREATABLE Cell; SYMBOL CREATABLE Own; PATTERN PUBLIC P = ANY; ENDMODULE A; MODULE B; IMPORTS A, Arithmetic; SYMBOL REWRITABLE F; INITIAL => F; ENDMODULE B;";

fn symbol(id: u32, class: Class) -> Option<Seen> {
    Some(Seen::Symbol { id, class })
}

fn sees(scopes: &Scopes, owner: usize, name: &str, seen: Option<Seen>) -> bool {
    scopes.look(owner, name.as_bytes()) == seen
}

fn sees_names(scopes: &Scopes) -> bool {
    sees(scopes, 0, "Cell", symbol(7, Class::Overwritable))
        && sees(scopes, 1, "Cell", symbol(7, Class::Creatable))
        && sees(scopes, 0, "Own", symbol(8, Class::Creatable))
        && sees(scopes, 1, "Own", None)
        && sees(scopes, 1, "IAdd", symbol(0, Class::Creatable))
        && sees(scopes, 0, "IAdd", None)
        && sees(scopes, 1, "A", None)
        && sees(scopes, 1, "P", Some(Seen::Pattern { module: 0, item: 2 }))
}

fn has_classes(scopes: &Scopes) -> bool {
    scopes.class_for(0, 7) == Some(Class::Overwritable)
        && scopes.class_for(1, 7) == Some(Class::Creatable)
        && scopes.class_for(1, 8).is_none()
        && scopes.class_for(1, 9) == Some(Class::Rewritable)
        && scopes.class_for(1, 10).is_none()
}

// Seven symbols of the arithmetic and three of the text.
fn are_written(symbols: &[Symbol]) -> bool {
    match symbols {
        [_, _, _, _, _, _, _, cell, _, f] => {
            cell.name.as_slice() == b"Cell".as_slice()
                && cell.class == Class::Overwritable
                && f.name.as_slice() == b"F".as_slice()
        }
        _ => false,
    }
}

#[test]
fn modules_see_their_own_and_public_names(rt: HostRuntime) -> Result<(), TextFault> {
    let tree = tree(rt.alloc(), TWO)?;
    let scopes = scope(rt.alloc(), &tree)?;
    assert!(&rt; sees_names(&scopes) && has_classes(&scopes));
    let symbols = scopes.symbols(rt.alloc())?;
    assert!(&rt; are_written(symbols.as_slice()));
    Ok(())
}

/// A rule over `x:P` of a named pattern that is another's name, beside a bare variable.
const NAMED: &[u8] =
    b"MODULE M; SYMBOL REWRITABLE F; PATTERN P = Q; PATTERN Q = 1 - 2 - 3; RULE F[x:P y] => 1; INITIAL => F; ENDMODULE M;";

// `F[x:((1 - 2) - 3) y]`.
fn is_expanded(expanded: &Expanded) -> bool {
    let Pat::Sym { symbol: 7, args } = &expanded.pat else {
        return false;
    };
    let [
        Pat::Bind { var: 0, inner },
        Pat::Bind {
            var: 1,
            inner: second,
        },
    ] = args.as_slice()
    else {
        return false;
    };
    let Pat::Less { left, right } = inner.get() else {
        return false;
    };
    matches!(right.get(), Pat::Literal(3))
        && matches!(left.get(), Pat::Less { .. })
        && matches!(second.get(), Pat::Any)
        && expanded.variables.len() == 2
}

// The rule, if it is the only one of the items.
fn only_rule(items: &[Item]) -> Option<&RuleTree> {
    for item in items {
        if let Item::Rules { groups } = item {
            return groups.get(0)?.rules.get(0);
        }
    }
    None
}

#[test]
fn patterns_are_expanded(rt: HostRuntime) -> Result<(), TextFault> {
    let tree = tree(rt.alloc(), NAMED)?;
    let scopes = scope(rt.alloc(), &tree)?;
    let Some(module) = tree.modules.get(0) else {
        return Err(TextFault::Memory);
    };
    let Some(rule) = only_rule(module.items.as_slice()) else {
        return Err(TextFault::Memory);
    };
    let found = pattern(
        rt.alloc(),
        &tree,
        &scopes,
        0,
        false,
        rule.place,
        &rule.pattern,
    )?;
    assert!(&rt; is_expanded(&found));
    Ok(())
}

/// Groups of two modules.
const GROUPS: &[u8] =
    b"MODULE M; SYMBOL REWRITABLE PUBLIC CREATABLE F; SYMBOL CREATABLE PUBLIC CREATABLE A; RULE F[A] => A | F[1] => A; F[x] => *x; ENDMODULE M; MODULE N; IMPORTS M; SYMBOL REWRITABLE G; RULE G[F[x]] => *x; RULE G => A; INITIAL => *G[F[A]]; ENDMODULE N;";

// The groups are numbered over the whole text, behind the five of the arithmetic.
fn has_groups(rules: &[Rule]) -> bool {
    match rules {
        [_, _, _, _, last, a, b, c, d, e] => {
            last.group == 4
                && a.group == 5
                && b.group == 5
                && c.group == 6
                && d.group == 7
                && e.group == 8
        }
        _ => false,
    }
}

fn has_start(program: &Program) -> bool {
    program.symbols.len() == 10 && program.start.root == 0 && program.start.fresh.len() == 3
}

#[test]
fn groups_go_over_two_modules(rt: HostRuntime) -> Result<(), TextFault> {
    let program = compiled(rt.alloc(), GROUPS)?;
    assert!(&rt; has_groups(program.rules.as_slice()) && has_start(&program));
    Ok(())
}

/// A contractum that mentions a name before it is given, and redirects a variable beside the root.
const CONTRACTUM: &[u8] =
    b"MODULE M; SYMBOL REWRITABLE F; SYMBOL OVERWRITABLE C; SYMBOL CREATABLE P, Q; RULE F[c:C x] => P[b ^*x #b:Q[^x]], c := b, Q[7]; INITIAL => *F[C 1]; ENDMODULE M;";

fn is_node(node: &FreshNode, label: Label, arcs: &[FreshArc], mark: Mark) -> bool {
    node.label == label && node.arcs.as_slice() == arcs && node.mark == mark
}

// New nodes stand in the order of their symbols in the text.
fn has_nodes(fresh: &[FreshNode]) -> bool {
    let waits = FreshArc {
        to: Mention::Old(1),
        waits: true,
    };
    let plain = FreshArc {
        to: Mention::Fresh(1),
        waits: false,
    };
    let (p, q) = (Label::Symbol(9), Label::Symbol(10));
    match fresh {
        [outer, inner, cell, seven] => {
            is_node(outer, p, &[plain, waits, plain], Mark::Idle)
                && is_node(inner, q, &[waits], Mark::Waiting(1))
                && is_node(seven, Label::Integer(7), &[], Mark::Idle)
                && cell.label == q
        }
        _ => false,
    }
}

// The root is redirected before the others.
fn has_moves(moves: &[Move]) -> bool {
    let root = Move {
        from: Left::Root,
        to: Mention::Fresh(0),
    };
    let cell = Move {
        from: Left::Variable(0),
        to: Mention::Fresh(1),
    };
    moves == [root, cell].as_slice()
}

fn is_meant(rules: &[Rule]) -> bool {
    let [.., rule] = rules else {
        return false;
    };
    match &rule.body {
        Body::Written {
            fresh,
            moves,
            wakes,
            suspend,
        } => {
            has_nodes(fresh.as_slice())
                && *suspend == 0
                && has_moves(moves.as_slice())
                && wakes.as_slice() == [1].as_slice()
        }
        Body::Delta(_) => false,
    }
}

#[test]
fn contracta_are_meant(rt: HostRuntime) -> Result<(), TextFault> {
    let program = compiled(rt.alloc(), CONTRACTUM)?;
    assert!(&rt; is_meant(program.rules.as_slice()));
    Ok(())
}
