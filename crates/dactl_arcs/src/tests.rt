//! Three arcs between four nodes, with the records that a reader would write down, and a pool at the greatest
//! size.

ghost use Rattle.std.specs.Prelude.{◌≡◌, ◌<◌, ℕ, map, IfOk};
ghost use Rattle.dactl_arcs.specs.Moves.{record_at};
ghost use Rattle.dactl_arcs.specs.Pool.{arcs_into, targets};

use super::*;
use std::alloc::{AllocError, Global};
use std::test::Fail;

fn record(owner: u32, target: u32, waits: bool) -> ArcRecord {
    ArcRecord {
        owner,
        target,
        waits,
    }
}

// Adds three arcs, for which there is room, and one more; and whether the calls answer so.
fn add_three(pool: &mut ArcPool) -> bool
    requires { targets pool.old ≡ 4 }
    ensures targets { targets pool.new ≡ 4 }
    ensures newest { pool.new.newest ≡ pool.old.newest }
{
    let first = pool.add(0, 1, true).ok();
    let second = pool.add(0, 2, false).ok();
    let third = pool.add(3, 1, false).ok();
    let further = pool.add(0, 0, false).ok();
    first == Some(0) && second == Some(1) && third == Some(2) && further.is_none()
}

// Whether the pool is full of these three arcs.
fn has_three(pool: &ArcPool, first: ArcRecord, second: ArcRecord, third: ArcRecord) -> bool {
    pool.len() == 3
        && pool.room() == 3
        && pool.arc(0) == first
        && pool.arc(1) == second
        && pool.arc(2) == third
}

// Whether these are the last changes of three arcs.
fn have_changed(pool: &ArcPool, first: u32, second: u32, third: u32) -> bool {
    pool.len() == 3
        && pool.changed(0) == first
        && pool.changed(1) == second
        && pool.changed(2) == third
}

// The owners that wait for a target, in the order of a walk.
fn owners_into(alloc: Global, pool: &ArcPool, target: u32) -> Result<Vec<u32>, AllocError>
    requires { target < targets pool.now }
    ensures { let owner = λ (arc : ℕ). (record_at pool.now.arcs arc).owner in
        IfOk result (λ owners. owners.items ≡ map owner (arcs_into pool.now target)) }
{
    let mut owners = Vec::new(alloc);
    let mut at = pool.first_into(target);
    while let Some(arc) = at {
        owners.push(pool.arc(arc).owner)?;
        at = pool.next_into(arc);
    }
    Ok(owners)
}

#[test]
fn arcs_move_together_and_lose_their_flags(rt: HostRuntime) -> Result<(), Fail> {
    let mut pool = ArcPool::with_room(rt.alloc(), 4, 3)?;
    assert!(rt; add_three(&mut pool));
    pool.redirect(&[(1, 2), (2, 3)], 1);
    assert!(rt;
        has_three(
            &pool,
            record(0, 2, true),
            record(0, 3, false),
            record(3, 2, false)
        )
    );
    pool.clear_waits(2);
    assert!(rt;
        has_three(
            &pool,
            record(0, 2, false),
            record(0, 3, false),
            record(3, 2, false)
        )
    );
    Ok(())
}

#[test]
fn an_arc_changes_where_its_target_does(rt: HostRuntime) -> Result<(), Fail> {
    let mut pool = ArcPool::with_room(rt.alloc(), 4, 3)?;
    assert!(rt; add_three(&mut pool));
    pool.redirect(&[(1, 2)], 1);
    assert!(rt; have_changed(&pool, 1, 0, 1));
    pool.redirect(&[(2, 2), (2, 0)], 2);
    assert!(rt; have_changed(&pool, 1, 0, 1));
    pool.redirect(&[(2, 3), (3, 2)], 5);
    assert!(rt; have_changed(&pool, 5, 5, 5));
    Ok(())
}

// Adds three arcs into one target, along two of which their owners wait.
fn add_two_that_wait(pool: &mut ArcPool)
    requires { targets pool.old ≡ 4 }
    ensures targets { targets pool.new ≡ 4 }
    ensures newest { pool.new.newest ≡ pool.old.newest }
{
    let _ = pool.add(0, 1, true);
    let _ = pool.add(2, 1, false);
    let _ = pool.add(3, 1, true);
}

#[test]
fn a_walk_visits_the_arcs_that_wait(rt: HostRuntime) -> Result<(), Fail> {
    let mut pool = ArcPool::with_room(rt.alloc(), 4, 3)?;
    add_two_that_wait(&mut pool);
    pool.redirect(&[(1, 3)], 1);
    let mut owners = owners_into(rt.alloc(), &pool, 3)?;
    owners.sort_unstable();
    assert_eq!(rt; owners.as_slice(), [0, 3].as_slice());
    pool.clear_waits(3);
    assert!(rt; pool.first_into(3).is_none());
    Ok(())
}

const TARGETS: u32 = 2_000_000;

const ARCS: u32 = 8_000_000;

// Four arcs into each target.
fn fill(pool: &mut ArcPool)
    requires { targets pool.old ≡ TARGETS }
    ensures number { targets pool.new ≡ TARGETS }
    ensures newest { pool.new.newest ≡ pool.old.newest }
{
    for arc in 0..ARCS {
        let node = arc % TARGETS;
        let _ = pool.add(node, node, true);
    }
}

// Redirects the arcs into one target to the next, and from there to the one after it, to the end.
fn gather(pool: &mut ArcPool)
    requires number { targets pool.old ≡ TARGETS }
    requires newest { pool.old.newest ≡ 0 }
    ensures number { targets pool.new ≡ TARGETS }
{
    for from in 0..TARGETS - 1 {
        pool.redirect(&[(from, from + 1)], from + 1);
    }
}

// Whether all arcs are there, and the first one leads to the last target.
fn is_gathered(pool: &ArcPool) -> bool {
    pool.len() == ARCS && pool.arc(0).target == TARGETS - 1 && pool.changed(0) == TARGETS - 1
}

// Two million redirections among eight million arcs, of which the last ones each redirect nearly all arcs.
// They end in the time that a test has only because none of them touches the arcs of the longer list.
#[test]
fn a_redirection_touches_the_shorter_list(rt: HostRuntime) -> Result<(), Fail> {
    let mut pool = ArcPool::with_room(rt.alloc(), TARGETS, ARCS)?;
    fill(&mut pool);
    gather(&mut pool);
    assert!(rt; is_gathered(&pool));
    Ok(())
}
