//! The faults of equations in what their names are.

ghost use Rattle.std.specs.Prelude.{◌≡◌, ◌≤◌, ◌+◌, ◌&&◌, ◌||◌, nat_lt, nat_le, IfOk, OnOk, length};
ghost use Rattle.fun_syntax.specs.Words.{found_in};
ghost use Rattle.fun_syntax.specs.Least.{least};
ghost use Rattle.fun_syntax.specs.Pieces.{pieces_of as the_pieces};
ghost use Rattle.fun_syntax.specs.Roles.{with_constructor, with_constructors, with_function};
ghost use Rattle.fun_syntax.specs.Roles.{with_functions, roles_of, is_called};
ghost use Rattle.fun_syntax.specs.Faults as spec;
ghost use Rattle.std.specs.List.{flat_map};

use crate::least::{lesser, when};
use crate::pieces::{Piece, pieces_in, pieces_of};
use crate::roles::{
    Role, Roles, built_ins, has_other_count, is_called, is_given, is_reserved, role_of,
};
use crate::variables::{Bound, twice_fault, unbound_fault};
use crate::words::enter;
use dactl_base::refusal::{Kind, Memory, Refusal};
use dactl_meaning::tree::Name;
use fun_meaning::tree::{Equation, Expr, Fun};
use std::alloc::Global;
use std::collections::BTreeMap;

/// How many `DATA` names and functions there may be.
const MOST_NAMES: usize = 16_382;

/// How many equations and functions there may be.
const MOST_RULES: usize = 4_094;

/// How many arguments a name may have.
const MOST_ARGUMENTS: usize = 16;

/// How many names, integers and variables a left side may have, its head among them.
const MOST_PIECES: usize = 64;

/// Declares a constructor, where there is room for so many names.
fn declare_constructor(
    roles: &mut Roles,
    alloc: Global,
    room: usize,
    name: &Name,
) -> Result<Option<Refusal>, Memory>
    ensures fault { IfOk result
        (λ fault. fault ≡ least (spec.constructor_faults (found_in roles.old) room name.now)) }
    ensures roles { OnOk result
        (found_in roles.new ≡ with_constructor (found_in roles.old) name.now) }
{
    let word = name.text.as_slice();
    let there = enter(roles, alloc, word, Role::Constructor)?;
    let twice = when(there || is_reserved(word), Kind::TwiceDeclared, name);
    let beyond = when(room == 0, Kind::TooMany, name);
    Ok(lesser(twice, beyond))
}

/// Declares constructors.
fn data_fault(roles: &mut Roles, alloc: Global, names: &[Name]) -> Result<Option<Refusal>, Memory>
    ensures fault { IfOk result (λ fault. fault ≡
        least (spec.data_faults (found_in roles.old) spec.most_names names.now)) }
    ensures roles { OnOk result
        (found_in roles.new ≡ with_constructors (found_in roles.old) names.now) }
{
    let mut told = None;
    let mut room = MOST_NAMES;
    let mut rest = names;
    'more: while let [name, after @ ..] = rest {
        let fault = declare_constructor(roles, alloc, room, name)?;
        told = lesser(told, fault);
        room = room.saturating_sub(1);
        rest = after;
    }
    Ok(told)
}

/// Declares a head, and answers how many functions it makes.
fn declare_function(roles: &mut Roles, alloc: Global, equation: &Equation) -> Result<usize, Memory>
    ensures new { IfOk result (λ new. new ≡ spec.new_functions (found_in roles.old) equation.now) }
    ensures within { IfOk result (λ new. new ≤ 1) }
    ensures roles { OnOk result
        (found_in roles.new ≡ with_function (found_in roles.old) equation.now) }
{
    let arity = equation.patterns.len();
    let word = equation.head.text.as_slice();
    let there = enter(roles, alloc, word, Role::Function { arity })?;
    if there { Ok(0) } else { Ok(1) }
}

fn is_beyond(names: usize, rules: usize, new: usize) -> bool
    requires { new ≤ 1 }
    ensures { result ≡ (nat_lt names new || nat_lt rules (1 + new)) }
{
    names < new || rules < 1 + new
}

/// The fault of a head that makes so many functions, where there is room for so many names and
/// rules.
fn declaring_fault(names: usize, rules: usize, head: &Name, new: usize) -> Option<Refusal>
    requires { new ≤ 1 }
    ensures { result ≡ least (spec.declaring_faults names rules head.now new) }
{
    let reserved = is_reserved(head.text.as_slice());
    let twice = when(reserved, Kind::TwiceDeclared, head);
    let beyond = when(is_beyond(names, rules, new), Kind::TooMany, head);
    lesser(twice, beyond)
}

/// Declares the heads of equations, where there is room for so many names.
fn head_fault(
    roles: &mut Roles,
    alloc: Global,
    room: usize,
    equations: &[Equation],
) -> Result<Option<Refusal>, Memory>
    ensures fault { IfOk result (λ fault. fault ≡
        least (spec.head_faults (found_in roles.old) room spec.most_rules equations.now)) }
    ensures roles { OnOk result
        (found_in roles.new ≡ with_functions (found_in roles.old) equations.now) }
{
    let mut told = None;
    let mut names = room;
    let mut rules = MOST_RULES;
    let mut rest = equations;
    'more: while let [equation, after @ ..] = rest {
        let new = declare_function(roles, alloc, equation)?;
        told = lesser(told, declaring_fault(names, rules, &equation.head, new));
        names = names.saturating_sub(new);
        rules = rules.saturating_sub(1 + new);
        rest = after;
    }
    Ok(told)
}

/// What the names are, and the fault of their declarations.
fn declare(alloc: Global, fun: &Fun) -> Result<(Roles, Option<Refusal>), Memory>
    ensures roles { IfOk result (λ x. found_in x.0 ≡ roles_of fun.now) }
    ensures fault { IfOk result (λ x. x.1 ≡ least (spec.declared_faults fun.now)) }
{
    let mut roles = built_ins(alloc)?;
    let data = data_fault(&mut roles, alloc, fun.constructors.as_slice())?;
    let room = MOST_NAMES.saturating_sub(fun.constructors.len());
    let heads = head_fault(&mut roles, alloc, room, fun.equations.as_slice())?;
    Ok((roles, lesser(data, heads)))
}

fn is_wide(count: usize, pieces: usize) -> bool
    ensures { result ≡ (nat_lt spec.most_arguments count || nat_le spec.most_pieces pieces) }
{
    count > MOST_ARGUMENTS || pieces >= MOST_PIECES
}

/// The fault of a head over so many patterns with so many pieces.
fn left_fault(role: Option<Role>, head: &Name, count: usize, pieces: usize) -> Option<Refusal>
    ensures { result ≡ least (spec.left_faults role head.now count pieces) }
{
    let given = when(is_given(role), Kind::RootNotRewritable, head);
    let other = when(has_other_count(role, count), Kind::WrongArity, head);
    let wide = when(is_wide(count, pieces), Kind::TooWide, head);
    lesser(given, lesser(other, wide))
}

fn is_misplaced(role: Option<Role>, in_pattern: bool) -> bool
    ensures { result ≡ (in_pattern && is_called role) }
{
    in_pattern && is_called(role)
}

/// The fault of a name over so many arguments.
fn name_fault(role: Option<Role>, in_pattern: bool, name: &Name, count: usize) -> Option<Refusal>
    ensures { result ≡ least (spec.name_faults role in_pattern name.now count) }
{
    let unknown = when(role.is_none(), Kind::UnknownName, name);
    let called = when(is_misplaced(role, in_pattern), Kind::NotAConstructor, name);
    let other = when(has_other_count(role, count), Kind::WrongArity, name);
    let wide = when(count > MOST_ARGUMENTS, Kind::TooWide, name);
    lesser(unknown, lesser(called, lesser(other, wide)))
}

fn piece_fault(roles: &Roles, in_pattern: bool, piece: &Piece) -> Option<Refusal>
    ensures { result ≡ least (spec.piece_faults (found_in roles.now) in_pattern piece.now) }
{
    match piece {
        Piece::Variable { .. } | Piece::Integer => None,
        Piece::Made { name, count } => {
            let role = role_of(roles, name.text.as_slice());
            name_fault(role, in_pattern, name, *count)
        }
    }
}

fn use_fault(roles: &Roles, in_pattern: bool, pieces: &[Piece]) -> Option<Refusal>
    ensures { result ≡ least (spec.use_faults (found_in roles.now) in_pattern pieces.now) }
{
    let mut told = None;
    for piece in pieces {
        told = lesser(told, piece_fault(roles, in_pattern, piece));
    }
    told
}

/// The fault of an expression over these variables.
fn expression_fault(
    alloc: Global,
    roles: &Roles,
    bound: &Bound,
    tree: &Expr,
) -> Result<Option<Refusal>, Memory>
    ensures { IfOk result (λ fault. fault ≡ least
        (spec.expression_faults (found_in roles.now) (found_in bound.now) (the_pieces tree.now))) }
{
    let found = pieces_in(alloc, tree)?;
    let names = use_fault(roles, false, found.as_slice());
    let variables = unbound_fault(bound, found.as_slice());
    Ok(lesser(names, variables))
}

/// The fault of a left side with these pieces beside its head.
fn left_side_fault(
    alloc: Global,
    roles: &Roles,
    bound: &mut Bound,
    equation: &Equation,
    pieces: &[Piece],
) -> Result<Option<Refusal>, Memory>
    ensures fault { IfOk result (λ fault. fault ≡ least (spec.side_faults (found_in roles.now)
        (found_in bound.old) equation.now.head (length equation.now.patterns) pieces.now)) }
    ensures bound { OnOk result
        (found_in bound.new ≡ spec.with_pieces (found_in bound.old) pieces.now) }
{
    let head = &equation.head;
    let role = role_of(roles, head.text.as_slice());
    let own = left_fault(role, head, equation.patterns.len(), pieces.len());
    let names = use_fault(roles, true, pieces);
    let twice = twice_fault(bound, alloc, pieces)?;
    Ok(lesser(own, lesser(names, twice)))
}

fn equation_fault(
    alloc: Global,
    roles: &Roles,
    equation: &Equation,
) -> Result<Option<Refusal>, Memory>
    ensures { IfOk result (λ fault. fault ≡
        least (spec.equation_faults (found_in roles.now) equation.now)) }
{
    let pieces = pieces_of(alloc, equation.patterns.as_slice())?;
    let mut bound = BTreeMap::new(alloc);
    let left = left_side_fault(alloc, roles, &mut bound, equation, pieces.as_slice())?;
    let right = expression_fault(alloc, roles, &bound, &equation.right)?;
    Ok(lesser(left, right))
}

fn equations_fault(
    alloc: Global,
    roles: &Roles,
    equations: &[Equation],
) -> Result<Option<Refusal>, Memory>
    ensures { IfOk result (λ fault. fault ≡
        least (flat_map (spec.equation_faults (found_in roles.now)) equations.now)) }
{
    let mut told = None;
    for equation in equations {
        let fault = equation_fault(alloc, roles, equation)?;
        told = lesser(told, fault);
    }
    Ok(told)
}

/// The fault of equations that is told, if there is one.
///
/// # Errors
///
/// Where memory is wanting.
pub fn first_fault(alloc: Global, fun: &Fun) -> Result<Option<Refusal>, Memory>
    ensures { IfOk result (λ fault. fault ≡ least (spec.faults_of fun.now)) }
{
    let (roles, declared) = declare(alloc, fun)?;
    let equations = equations_fault(alloc, &roles, fun.equations.as_slice())?;
    let main = expression_fault(alloc, &roles, &BTreeMap::new(alloc), &fun.main)?;
    Ok(lesser(declared, lesser(equations, main)))
}
