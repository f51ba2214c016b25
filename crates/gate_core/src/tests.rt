use crate::{Gate, Gates};
use std::test::Fail;

#[test]
fn equal_pairs_are_one_gate(rt: HostRuntime) -> Result<(), Fail> {
    let mut gates = Gates::new(rt.alloc())?;
    let a = gates.input()?;
    let b = gates.input()?;
    let both = gates.and(a, b)?;
    assert_eq!(rt; gates.and(b, a)?.number(), both.number());
    assert_eq!(rt; gates.nodes(), 4);
    assert_eq!(rt;
        gates.and(a, a.not())?.number(),
        Gate::constant(false).number()
    );
    assert_eq!(rt; gates.and(Gate::constant(true), b)?.number(), b.number());
    assert_eq!(rt; gates.nodes(), 4);
    Ok(())
}

// More nodes than the first table has heads, so that it is made anew.
#[test]
fn pairs_are_found_in_a_wider_table(rt: HostRuntime) -> Result<(), Fail> {
    let mut gates = Gates::new(rt.alloc())?;
    let a = gates.input()?;
    let b = gates.input()?;
    let both = gates.and(a, b)?;
    let mut all = both;
    for _ in 0..40 {
        let next = gates.input()?;
        all = gates.and(all, next)?;
    }
    assert_eq!(rt; gates.nodes(), 84);
    assert_eq!(rt; gates.and(b, a)?.number(), both.number());
    assert_eq!(rt; gates.nodes(), 84);
    Ok(())
}
