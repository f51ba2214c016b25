ghost use Rattle.std.specs.Prelude.{◌≡◌, ℕ, ◌+◌, ◌<◌, length, IfOk, OnOk, OnErr};
ghost use Rattle.sat_watch.specs.Threads.{CanWatch};
ghost use Rattle.sat_watch.specs.Watching.{Right};

use super::*;
use cnf_core::Lit;
use no_memory::NoMemory;
use std::alloc::Global;
use std::test::Fail;

// Adds a clause to watches that a trail of which nothing was gone through finds right.
fn insert(watches: &mut Watches, trail: &Trail, lits: &[Lit]) -> Result<u32, NoMemory>
    requires can { CanWatch watches.old.vars lits.now }
    requires right { Right watches.old trail.now }
    requires start { trail.now.passed ≡ 0 }
    ensures right { OnOk result (Right watches.new trail.now) }
    ensures vars { OnOk result (watches.new.vars ≡ watches.old.vars) }
{
    let clause = watches.add(lits)?;
    watches.watch(clause);
    Ok(clause)
}

// Each variable below 10,000 implies the next.
fn chain(watches: &mut Watches, trail: &Trail) -> Result<(), NoMemory>
    requires right { Right watches.old trail.now }
    requires start { trail.now.passed ≡ 0 }
    requires vars { watches.old.vars ≡ 10000 }
    ensures right { OnOk result (Right watches.new trail.now) }
    ensures vars { OnOk result (watches.new.vars ≡ 10000) }
{
    for var in 1..10_000 {
        insert(
            watches,
            trail,
            &[Lit::negative(var), Lit::positive(var + 1)],
        )?;
    }
    Ok(())
}

// The row: (1 2) and (-1 2 3), with 1 true and 2 false.
#[test]
fn a_clause_becomes_unit(rt: HostRuntime) -> Result<(), Fail> {
    let mut watches = Watches::new(rt.alloc(), 3)?;
    let mut trail = Trail::new(rt.alloc(), 3)?;
    insert(&mut watches, &trail, &[Lit::positive(1), Lit::positive(2)])?;
    insert(
        &mut watches,
        &trail,
        &[Lit::negative(1), Lit::positive(2), Lit::positive(3)],
    )?;
    trail.set(Lit::positive(1), None);
    trail.set(Lit::negative(2), None);
    assert_eq!(rt; watches.propagate(&mut trail), None);
    assert_eq!(rt; trail.value(3), Some(true));
    Ok(())
}

// The same, with 3 false besides.
#[test]
fn a_clause_becomes_false(rt: HostRuntime) -> Result<(), Fail> {
    let mut watches = Watches::new(rt.alloc(), 3)?;
    let mut trail = Trail::new(rt.alloc(), 3)?;
    insert(&mut watches, &trail, &[Lit::positive(1), Lit::positive(2)])?;
    let second = insert(
        &mut watches,
        &trail,
        &[Lit::negative(1), Lit::positive(2), Lit::positive(3)],
    )?;
    trail.set(Lit::positive(1), None);
    trail.set(Lit::negative(2), None);
    trail.set(Lit::negative(3), None);
    assert_eq!(rt; watches.propagate(&mut trail), Some(second));
    Ok(())
}

// One decision forces a chain of 9,999 implications, and takes it away again.
#[test]
fn a_long_chain(rt: HostRuntime) -> Result<(), Fail> {
    let mut watches = Watches::new(rt.alloc(), 10_000)?;
    let mut trail = Trail::new(rt.alloc(), 10_000)?;
    chain(&mut watches, &trail)?;
    trail.decide(Lit::positive(1));
    assert_eq!(rt; watches.propagate(&mut trail), None);
    assert_eq!(rt; trail.entries().len(), 10_000);
    assert_eq!(rt; trail.value(10_000), Some(true));
    trail.back_to(0);
    assert_eq!(rt; trail.entries().len(), 0);
    assert_eq!(rt; trail.value(10_000), None);
    Ok(())
}

// A watch that moves by itself stands in its new list alone.
#[test]
fn a_watch_moves(rt: HostRuntime) -> Result<(), Fail> {
    let mut watches = Watches::new(rt.alloc(), 3)?;
    let clause = watches.add(&[Lit::positive(1), Lit::positive(2), Lit::negative(3)])?;
    watches.watch(clause);
    watches.move_watch(clause, Lit::positive(2), Lit::negative(3));
    assert_eq!(rt; watches.lits(clause).len(), 3);
    Ok(())
}
