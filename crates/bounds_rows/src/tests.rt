ghost use Rattle.std.specs.Prelude.{◌≡◌, ◌≤◌, [], ◌∷◌, None, false, true, IfOk};
ghost use Rattle.std.specs.Thread.{IsSync};
ghost use Rattle.taco_unit.specs.declared.stmt.Stmt.TheVariants.{Block};
ghost use Rattle.bounds_table.specs.Core.{AreLawful, opening, tuple_count as tuples_of};
ghost use Rattle.bounds_table.specs.Rule.{IsOf};
ghost use Rattle.bounds_rows.specs.Row.{link, row as row_lem};

use bounds_table::{Bounds, Core, Event, Mark, Pass, Reply};
use canonical_order::{Tuple, tuple_at, tuple_count};
use heap_core::{Problem, Value};
use no_memory::NoMemory;
use sqlite_items::Items;
use std::alloc::Global;
use std::test::Fail;
use std::thread::{Threads, join};
use taco_unit::{ClassDef, FieldDef, Kind, MethodDef, Name, Scope, Stmt, Unit};

fn one_class(alloc: Global) -> Result<Items<ClassDef>, NoMemory>
    ensures { IfOk result (λ l. l ≡ record { name = 76 ∷ []; fields = 0 ∷ []; methods = 0 ∷ []; invariants = [] } ∷ []) }
{
    let name = Name::new(alloc, b"L")?;
    let fields = Items::from_slice(alloc, &[0])?;
    let methods = Items::from_slice(alloc, &[0])?;
    let mut classes = Items::new(alloc);
    classes.push(ClassDef {
        name,
        fields,
        methods,
        invariants: Items::new(alloc),
    })?;
    Ok(classes)
}

fn one_field(alloc: Global, bare: bool) -> Result<Items<FieldDef>, NoMemory>
    ensures { IfOk result (λ l. l ≡ record { name = 110 ∷ []; class = 0; kind = link bare; nullable = true } ∷ []) }
{
    let name = Name::new(alloc, b"n")?;
    let mut fields = Items::new(alloc);
    fields.push(FieldDef {
        name,
        class: 0,
        kind: if bare { Kind::Int } else { Kind::Ref(0) },
        nullable: true,
    })?;
    Ok(fields)
}

pub(crate) fn one_method(alloc: Global, bare: bool) -> Result<Items<MethodDef>, NoMemory>
    ensures { IfOk result (λ l. l ≡ record { name = 109 ∷ []; class = 0; fixed = bare; params = []; result = None; locals = []; needs = []; gives = []; body = Block [] } ∷ []) }
{
    let name = Name::new(alloc, b"m")?;
    let mut methods = Items::new(alloc);
    methods.push(MethodDef {
        name,
        class: 0,
        fixed: bare,
        params: Items::new(alloc),
        result: None,
        locals: Items::new(alloc),
        needs: Items::new(alloc),
        gives: Items::new(alloc),
        body: Stmt::Block(Items::new(alloc)),
    })?;
    Ok(methods)
}

/// The class L with a field of its own kind and a method that does nothing; with `bare`, the field is
/// an `int` and the method static, so that there are no tuples.
fn row(alloc: Global, bare: bool, objects: u8) -> Result<Problem, NoMemory>
    requires low { 1 ≤ objects }
    requires high { objects ≤ 12 }
    ensures { IfOk result (λ p. p ≡ row_lem bare objects) }
{
    let classes = one_class(alloc)?;
    let fields = one_field(alloc, bare)?;
    let methods = one_method(alloc, bare)?;
    Ok(Problem {
        unit: Unit {
            classes,
            fields,
            methods,
        },
        method: 0,
        scope: Scope {
            objects,
            ints: 4,
            loops: 3,
            calls: 2,
        },
    })
}

/// Makes these steps, one after the other.
fn make(alloc: Global, core: &mut Core, events: &[Event]) -> Result<Vec<Reply>, NoMemory>
    requires { AreLawful core.old events.now }
{
    let mut replies = Vec::new(alloc);
    for event in events {
        replies.push(core.step(*event)?)?;
    }
    Ok(replies)
}

/// Two workers copy, clear two tuples, claim one pair each, keep and look, and are joined.
fn steps_of_two(alloc: Global, core: &mut Core) -> Result<Vec<Reply>, NoMemory>
    requires { core.old ≡ opening (row_lem false 2) }
{
    make(
        alloc,
        core,
        &[
            Event::Split { worker: 0 },
            Event::CopyWord { worker: 0, word: 0 },
            Event::CopyWord { worker: 1, word: 0 },
            Event::Clear {
                worker: 1,
                tuple: 0,
            },
            Event::Clear {
                worker: 0,
                tuple: 2,
            },
            Event::CopyWord { worker: 0, word: 0 },
            Event::Claim {
                worker: 0,
                round: 0,
                tuple: 3,
            },
            Event::Claim {
                worker: 1,
                round: 0,
                tuple: 3,
            },
            Event::KeepWord {
                worker: 1,
                word: 0,
                bits: 2,
            },
            Event::SeeKept { worker: 0, word: 0 },
            Event::Join {
                worker: 0,
                other: 1,
            },
        ],
    )
}

#[test]
fn the_steps_of_two_workers(rt: HostRuntime) -> Result<(), Fail> {
    let problem = row(rt.alloc(), false, 2)?;
    let mut core = Core::new(rt.alloc(), &problem)?;
    let replies = steps_of_two(rt.alloc(), &mut core)?;
    let expected = [
        Reply::Worker(1),
        Reply::Word(511),
        Reply::Word(511),
        Reply::Done,
        Reply::Done,
        Reply::Word(506),
        Reply::Claimed(true),
        Reply::Claimed(false),
        Reply::Done,
        Reply::Word(2),
        Reply::Done,
    ];
    assert_eq!(rt; replies.as_slice(), expected.as_slice());
    let marks = core.marks()?;
    assert_eq!(rt; marks.tuples, 9);
    assert_eq!(rt; marks.table.as_slice(), [506].as_slice());
    assert_eq!(rt; marks.kept.as_slice(), [2].as_slice());
    Ok(())
}

#[test]
fn tuples_are_counted(rt: HostRuntime) -> Result<(), Fail> {
    let one = row(rt.alloc(), false, 1)?;
    assert_eq!(rt; tuple_count(&one), 4);
    let two = row(rt.alloc(), false, 2)?;
    assert_eq!(rt; tuple_count(&two), 9);
    assert_eq!(rt; tuple_at(&two, 5), Tuple::Field(0, 0, Value::Obj(1)));
    Ok(())
}

#[test]
fn two_passes_share_the_table(rt: HostRuntime) -> Result<(), Fail> {
    let problem = row(rt.alloc(), false, 2)?;
    let (bounds, mut first) = Bounds::new(rt.alloc(), &problem)?;
    let mut second = bounds.split(&mut first);
    bounds.clear(&mut first, 0);
    let mut copy = [0u64];
    bounds.copy_into(&mut second, &mut copy);
    assert_eq!(rt; copy.as_slice(), [510].as_slice());
    bounds.keep(&mut first, 0, 2);
    assert_eq!(rt; bounds.kept(&mut second, 0), 2);
    assert!(rt; bounds.claim(&mut first, 0, 3));
    assert!(rt; !bounds.claim(&mut second, 0, 3));
    bounds.join(&mut first, second);
    let marks = bounds.close(first)?;
    assert_eq!(rt; marks.tuples, 9);
    assert_eq!(rt; marks.mark(0), Mark::Cleared);
    assert_eq!(rt; marks.mark(1), Mark::Kept);
    assert_eq!(rt; marks.mark(2), Mark::Open);
    Ok(())
}

#[test]
fn a_problem_without_tuples(rt: HostRuntime) -> Result<(), Fail> {
    let problem = row(rt.alloc(), true, 3)?;
    let (bounds, mut first) = Bounds::new(rt.alloc(), &problem)?;
    let second = bounds.split(&mut first);
    let mut copy = [0u64; 0];
    bounds.copy_into(&mut first, &mut copy);
    bounds.join(&mut first, second);
    let marks = bounds.close(first)?;
    assert_eq!(rt; marks.tuples, 0);
    assert_eq!(rt; marks.table.len(), 0);
    Ok(())
}

/// A pass, and for each round the tuples of the pairs that it gained.
#[derive(Drop)]
struct Gained {
    pass: Pass,
    pairs: [u64; 8],
}

/// Claims every pair.
fn claim_all(bounds: &Bounds, mut pass: Pass, count: u32) -> Gained
    requires of { IsOf bounds.now pass }
    requires count { count ≡ tuples_of bounds.now.problem }
    ensures { IsOf bounds.now result.pass }
{
    let mut pairs = [0; 8];
    for round in 0..8u8 {
        for tuple in 0..count {
            if bounds.claim(&mut pass, round, tuple) {
                pairs[usize::from(round)] |= 1u64 << (tuple % 64);
            }
        }
    }
    Gained { pass, pairs }
}

/// Two threads claim every pair.
fn both_claim<R: Threads + Sync>(
    rt: &R,
    bounds: &Bounds,
    first: Pass,
    second: Pass,
    count: u32,
) -> (Gained, Gained)
    requires first { IsOf bounds.now first }
    requires second { IsOf bounds.now second }
    requires count { count ≡ tuples_of bounds.now.problem }
    ensures first { IsOf bounds.now result.0.pass }
    ensures second { IsOf bounds.now result.1.pass }
{
    join(
        rt,
        move || -> Gained
            requires { IsOf bounds.now first × (count ≡ tuples_of bounds.now.problem) }
            ensures { IsOf bounds.entry.now result.pass }
        { claim_all(bounds, first, count) },
        move || -> Gained
            requires { IsOf bounds.now second × (count ≡ tuples_of bounds.now.problem) }
            ensures { IsOf bounds.entry.now result.pass }
        { claim_all(bounds, second, count) },
    )
}

/// Four threads claim every pair.
fn four_claim<R: Threads + Sync>(
    rt: &R,
    bounds: &Bounds,
    passes: ((Pass, Pass), (Pass, Pass)),
    count: u32,
) -> ((Gained, Gained), (Gained, Gained))
    requires first { IsOf bounds.now passes.0.0 × IsOf bounds.now passes.0.1 }
    requires second { IsOf bounds.now passes.1.0 × IsOf bounds.now passes.1.1 }
    requires count { count ≡ tuples_of bounds.now.problem }
    ensures first { IsOf bounds.now result.0.0.pass × IsOf bounds.now result.0.1.pass }
    ensures second { IsOf bounds.now result.1.0.pass × IsOf bounds.now result.1.1.pass }
{
    let ((a, b), (c, d)) = passes;
    join(
        rt,
        move || -> (Gained, Gained)
            requires { IsSync R.row × IsOf bounds.now a × IsOf bounds.now b × (count ≡ tuples_of bounds.now.problem) }
            ensures { IsOf bounds.entry.now result.0.pass × IsOf bounds.entry.now result.1.pass }
        { both_claim(rt, bounds, a, b, count) },
        move || -> (Gained, Gained)
            requires { IsSync R.row × IsOf bounds.now c × IsOf bounds.now d × (count ≡ tuples_of bounds.now.problem) }
            ensures { IsOf bounds.entry.now result.0.pass × IsOf bounds.entry.now result.1.pass }
        { both_claim(rt, bounds, c, d, count) },
    )
}

#[test]
fn four_threads_gain_each_pair_once(rt: HostRuntime) -> Result<(), Fail> {
    let problem = row(rt.alloc(), false, 2)?;
    let count = tuple_count(&problem);
    let (bounds, mut first) = Bounds::new(rt.alloc(), &problem)?;
    let second = bounds.split(&mut first);
    let third = bounds.split(&mut first);
    let fourth = bounds.split(&mut first);
    let passes = ((first, second), (third, fourth));
    let ((mut a, b), (c, d)) = four_claim(&rt, &bounds, passes, count);
    for round in 0..8 {
        let front = a.pairs[round] | b.pairs[round];
        let back = c.pairs[round] | d.pairs[round];
        assert_eq!(rt; front | back, 511);
        assert_eq!(rt; front & back, 0);
        assert_eq!(rt; a.pairs[round] & b.pairs[round], 0);
        assert_eq!(rt; c.pairs[round] & d.pairs[round], 0);
    }
    bounds.join(&mut a.pass, b.pass);
    bounds.join(&mut a.pass, c.pass);
    bounds.join(&mut a.pass, d.pass);
    let marks = bounds.close(a.pass)?;
    assert_eq!(rt; marks.table.as_slice(), [511].as_slice());
    Ok(())
}
