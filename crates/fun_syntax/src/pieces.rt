//! Expressions as flat lists.

ghost use Rattle.std.specs.Prelude.{◌≡◌, ◌++◌, IfOk, OnOk};
ghost use Rattle.std.specs.List.{flat_map};
ghost use Rattle.fun_syntax.specs.Pieces.{pieces_of as the_pieces};

use dactl_base::refusal::Memory;
use dactl_meaning::tree::Name;
use fun_meaning::tree::Expr;
use sqlite_items::Items;
use std::alloc::Global;

/// A variable, an integer, or a name with the number of its arguments.
#[derive(Debug, Drop)]
pub enum Piece {
    Variable { name: Name },
    Integer,
    Made { name: Name, count: usize },
}

fn copy(alloc: Global, name: &Name) -> Result<Name, Memory>
    ensures { IfOk result (λ copy. copy ≡ name.now) }
{
    Ok(Name {
        text: Items::from_slice(alloc, name.text.as_slice())?,
        place: name.place,
    })
}

#[cycle(gathering)]
fn gather(found: &mut Vec<Piece>, alloc: Global, tree: &Expr) -> Result<(), Memory>
    ensures { OnOk result (found.new.items ≡ found.old.items ++ the_pieces tree.now) }
{
    match tree {
        Expr::Variable { name } => {
            let name = copy(alloc, name)?;
            found.push(Piece::Variable { name })?;
        }
        Expr::Integer { .. } => {
            found.push(Piece::Integer)?;
        }
        Expr::Made { name, args } => {
            let name = copy(alloc, name)?;
            let count = args.len();
            found.push(Piece::Made { name, count })?;
            gather_all(found, alloc, args.as_slice())?;
        }
    }
    Ok(())
}

#[cycle(gathering)]
fn gather_all(found: &mut Vec<Piece>, alloc: Global, trees: &[Expr]) -> Result<(), Memory>
    ensures { OnOk result (found.new.items ≡ found.old.items ++ flat_map the_pieces trees.now) }
{
    for tree in trees {
        gather(found, alloc, tree)?;
    }
    Ok(())
}

/// The pieces of expressions one after the other, each name before its arguments.
///
/// # Errors
///
/// Where memory is wanting.
pub fn pieces_of(alloc: Global, trees: &[Expr]) -> Result<Vec<Piece>, Memory>
    ensures { IfOk result (λ found. found.items ≡ flat_map the_pieces trees.now) }
{
    let mut found = Vec::new(alloc);
    gather_all(&mut found, alloc, trees)?;
    Ok(found)
}

/// The pieces of one expression.
///
/// # Errors
///
/// Where memory is wanting.
pub fn pieces_in(alloc: Global, tree: &Expr) -> Result<Vec<Piece>, Memory>
    ensures { IfOk result (λ found. found.items ≡ the_pieces tree.now) }
{
    let mut found = Vec::new(alloc);
    gather(&mut found, alloc, tree)?;
    Ok(found)
}
