//! What stands in a pattern: the places of its variables, and its uses of names.

ghost use Rattle.std.specs.Prelude.{◌≡◌, [], ◌∷◌, OnOk, IfOk};
ghost use Rattle.dactl_meaning.specs.Expansion as spec;
ghost use Rattle.dactl_patterns.specs.Occurring.{place_at, Puts, HasFound};
ghost use Rattle.dactl_patterns.specs.Occurring.{PutsTree, PutsTrees, PutsLinks};

use dactl_meaning::tree::{Name, PatternTree, Sign};
use std::alloc::{AllocError, Global};

/// A place of a variable: whether `:` stands behind it, and whether it stands below `+` or to the
/// right of `-`.
#[derive(Clone, Copy)]
pub struct Occurrence<'a> {
    pub name: &'a Name,
    pub given: bool,
    pub in_choice: bool,
}

/// A use of a symbol or of a named pattern, and how many arguments it is given.
#[derive(Clone, Copy)]
pub struct Use<'a> {
    pub name: &'a Name,
    pub args: usize,
}

/// What stands in patterns, in the order of their tokens: the places of variables, and the uses of
/// symbols and of named patterns.
#[derive(Drop)]
pub struct Found<'a> {
    pub places: Vec<Occurrence<'a>>,
    pub uses: Vec<Use<'a>>,
}

fn is_plus(sign: Sign) -> bool
    ensures { result ≡ spec.is_plus sign }
{
    match sign {
        Sign::Plus => true,
        Sign::Minus => false,
    }
}

/// Whether a `+` stands among these links of a chain.
pub fn has_plus(rest: &[(Sign, PatternTree)]) -> bool
    ensures { result ≡ spec.has_plus rest.now }
{
    for link in rest {
        if is_plus(link.0) {
            return true;
        }
    }
    false
}

/// Puts what stands in the pattern at the ends of the lists. `choice` says whether the pattern
/// itself stands below `+` or to the right of `-`.
#[cycle(put)]
fn put<'a>(found: &mut Found<'a>, tree: &'a PatternTree, choice: bool) -> Result<(), AllocError>
    ensures { OnOk result (PutsTree choice tree.now found.old found.new) }
{
    match tree {
        PatternTree::Any
        | PatternTree::Int
        | PatternTree::Char
        | PatternTree::Integer { .. }
        | PatternTree::Letter { .. } => Ok(()),
        PatternTree::Sym { name, args } => {
            let args = args.as_slice();
            put_use(found, name, args.len())?;
            put_arguments(found, args, choice)
        }
        PatternTree::Variable { name } => put_place(found, name, false, choice),
        PatternTree::Binder { name, inner } => {
            put_place(found, name, true, choice)?;
            put(found, inner.get(), choice)
        }
        PatternTree::Chain { first, rest } => {
            put(found, first.get(), choice || has_plus(rest.as_slice()))?;
            put_links(found, rest.as_slice())
        }
    }
}

fn put_place<'a>(
    found: &mut Found<'a>,
    name: &'a Name,
    given: bool,
    in_choice: bool,
) -> Result<(), AllocError>
    ensures { OnOk result (Puts found.old found.new (place_at name.now given in_choice ∷ []) []) }
{
    found.places.push(Occurrence {
        name,
        given,
        in_choice,
    })?;
    Ok(())
}

fn put_use<'a>(found: &mut Found<'a>, name: &'a Name, args: usize) -> Result<(), AllocError>
    ensures { OnOk result (Puts found.old found.new [] ((name.now, args) ∷ [])) }
{
    found.uses.push(Use { name, args })?;
    Ok(())
}

#[cycle(put)]
fn put_arguments<'a>(
    found: &mut Found<'a>,
    args: &'a [PatternTree],
    choice: bool,
) -> Result<(), AllocError>
    ensures { OnOk result (PutsTrees choice args.now found.old found.new) }
{
    for argument in args {
        put(found, argument, choice)?;
    }
    Ok(())
}

#[cycle(put)]
fn put_links<'a>(found: &mut Found<'a>, rest: &'a [(Sign, PatternTree)]) -> Result<(), AllocError>
    ensures { OnOk result (PutsLinks rest.now found.old found.new) }
{
    for link in rest {
        put(found, &link.1, true)?;
    }
    Ok(())
}

/// What stands in the pattern, which itself stands in no choice.
///
/// # Errors
/// `AllocError` for want of memory.
pub fn found_in<'a>(alloc: Global, tree: &'a PatternTree) -> Result<Found<'a>, AllocError>
    ensures { IfOk result (λ found. HasFound found tree.now) }
{
    let mut found = Found {
        places: Vec::new(alloc),
        uses: Vec::new(alloc),
    };
    put(&mut found, tree, false)?;
    Ok(found)
}
