//! Making the hands of a board.

ghost use Rattle.std.specs.Prelude.{◌≡◌, ℕ, ◌+◌, ◌-◌, ◌<◌, ◌≤◌, [], List, map, length, vec_len};
ghost use Rattle.std.specs.Prelude.{All, IfOk, None};
ghost use Rattle.crossbeam_deque.specs.Handles.{stealer_deque, worker_deque};
ghost use Rattle.crossbeam_queue.specs.Passes.{view, IsPassOf};
ghost use Rattle.dactl_steal.specs.Making.{IsNewOwn, IsSeated, AreSeated, own_deque};
ghost use Rattle.dactl_steal.specs.Members.{everyone, member, numbers_from};

use crate::board::{Memory, StealHand};
use crate::other::Other;
use crate::own::Own;
use crate::roll::{Badge, Enrol, Roll};
use crate::rule::{Owner, Thief};
use std::alloc::Global;
use std::collections::VecDeque;

/// Places for what each hand has of its own, and of the others' deques.
pub(crate) type Places = (Vec<Option<Own>>, Vec<Vec<Option<Other>>>);

/// The slots with which a deque begins.
const FIRST: usize = 64;

/// A deque that holds nothing, and an empty reserve.
fn own_of(alloc: Global, room: u32) -> Result<Own, Memory>
    ensures { IfOk result (IsNewOwn room 0) }
{
    let deque = Owner::fifo_as(alloc, FIRST)?;
    let reserve = VecDeque::with_capacity(alloc, room as usize)?;
    Ok(Own { deque, reserve })
}

/// The hand with this number, which has nothing of the others' deques.
fn hand_of(
    alloc: Global,
    roll: &Roll,
    keeper: &mut Badge,
    room: u32,
    number: u8,
) -> Result<StealHand, Memory>
    requires keeper { IsPassOf roll.now keeper.old }
    requires numbers { view keeper.old ≡ member (numbers_from number (256 - number)) [] [] }
    ensures keeper { IsPassOf roll.now keeper.new }
    ensures numbers { IfOk result (λ _.
        view keeper.new ≡ member (numbers_from (number + 1) (255 - number)) [] []) }
    ensures seated { IfOk result (IsSeated roll.now number) }
    ensures own { IfOk result (λ h. IsNewOwn room 0 h.own) }
{
    let own = own_of(alloc, room)?;
    let badge = roll.another::<Enrol>(keeper);
    Ok(StealHand {
        number,
        own,
        others: Vec::new(alloc),
        badge,
        back: 0,
    })
}

/// So many hands, in the order of their numbers.
pub(crate) fn deal(
    alloc: Global,
    roll: &Roll,
    keeper: &mut Badge,
    room: u32,
    hands: u8,
) -> Result<Vec<StealHand>, Memory>
    requires keeper { IsPassOf roll.now keeper.old }
    requires numbers { view keeper.old ≡ member everyone [] [] }
    ensures keeper { IsPassOf roll.now keeper.new }
    ensures numbers { IfOk result (λ _.
        view keeper.new ≡ member (numbers_from hands (256 - hands)) [] []) }
    ensures count { IfOk result (λ made. vec_len made ≡ hands) }
    ensures seated { IfOk result (λ made. AreSeated roll.now room made.items) }
{
    let mut made = Vec::with_capacity(alloc, usize::from(hands))?;
    for number in 0..hands {
        made.push(hand_of(alloc, roll, keeper, room, number)?)?;
    }
    Ok(made)
}

/// The stealers of the hands' deques, in the order of the hands.
pub(crate) fn thieves_of(alloc: Global, hands: &[StealHand]) -> Result<Vec<Thief>, Memory>
    ensures { IfOk result (λ thieves. map stealer_deque thieves.items ≡ map own_deque hands.now) }
{
    let mut thieves = Vec::with_capacity(alloc, hands.len())?;
    for place in 0..hands.len() {
        thieves.push(hands[place].own.deque.stealer()?)?;
    }
    Ok(thieves)
}

/// A place for what each hand has of its own, and for its row, with nothing in it.
pub(crate) fn places_of(alloc: Global, hands: u8) -> Result<Places, Memory>
    ensures owns { IfOk result (λ p. (length p.0.items ≡ hands)
        × All (λ slot. slot ≡ None) p.0.items) }
    ensures rows { IfOk result (λ p. (length p.1.items ≡ hands)
        × All (λ row. row.items ≡ []) p.1.items) }
{
    let mut owns = Vec::with_capacity(alloc, usize::from(hands))?;
    let mut rows = Vec::with_capacity(alloc, usize::from(hands))?;
    for _ in 0..hands {
        owns.push(None)?;
        rows.push(Vec::new(alloc))?;
    }
    Ok((owns, rows))
}
