//! The faults of equations in their variables.

ghost use Rattle.std.specs.Prelude.{◌≡◌, IfOk, OnOk};
ghost use Rattle.fun_syntax.specs.Words.{found_in};
ghost use Rattle.fun_syntax.specs.Least.{least};
ghost use Rattle.fun_syntax.specs.Faults as spec;

use crate::least::{lesser, when};
use crate::pieces::Piece;
use crate::words::enter;
use dactl_base::refusal::{Kind, Memory, Place, Refusal};
use std::alloc::Global;
use std::collections::BTreeMap;

/// The variables of a left side, each with its first place.
pub type Bound = BTreeMap<Vec<u8>, Place>;

/// Adds the variable that a piece is, if it is one.
fn bind(bound: &mut Bound, alloc: Global, piece: &Piece) -> Result<Option<Refusal>, Memory>
    ensures fault { IfOk result
        (λ fault. fault ≡ least (spec.again_faults (found_in bound.old) piece.now)) }
    ensures bound { OnOk result
        (found_in bound.new ≡ spec.with_piece (found_in bound.old) piece.now) }
{
    match piece {
        Piece::Variable { name } => {
            let there = enter(bound, alloc, name.text.as_slice(), name.place)?;
            Ok(when(there, Kind::NamedTwice, name))
        }
        Piece::Integer | Piece::Made { .. } => Ok(None),
    }
}

/// Adds the variables of a left side, and answers the first that stands there before.
///
/// # Errors
///
/// Where memory is wanting; `bound` then has the variables that were added before.
pub fn twice_fault(
    bound: &mut Bound,
    alloc: Global,
    pieces: &[Piece],
) -> Result<Option<Refusal>, Memory>
    ensures fault { IfOk result
        (λ fault. fault ≡ least (spec.twice_faults (found_in bound.old) pieces.now)) }
    ensures bound { OnOk result
        (found_in bound.new ≡ spec.with_pieces (found_in bound.old) pieces.now) }
{
    let mut told = None;
    let mut rest = pieces;
    'more: while let [piece, after @ ..] = rest {
        let fault = bind(bound, alloc, piece)?;
        told = lesser(told, fault);
        rest = after;
    }
    Ok(told)
}

fn free_fault(bound: &Bound, piece: &Piece) -> Option<Refusal>
    ensures { result ≡ least (spec.free_faults (found_in bound.now) piece.now) }
{
    match piece {
        Piece::Variable { name } => {
            let there = bound.contains_key(name.text.as_slice());
            when(!there, Kind::Unbound, name)
        }
        Piece::Integer | Piece::Made { .. } => None,
    }
}

/// The first variable of a right side that is not bound.
pub fn unbound_fault(bound: &Bound, pieces: &[Piece]) -> Option<Refusal>
    ensures { result ≡ least (spec.unbound_faults (found_in bound.now) pieces.now) }
{
    let mut told = None;
    for piece in pieces {
        told = lesser(told, free_fault(bound, piece));
    }
    told
}
