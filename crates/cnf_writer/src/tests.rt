use crate::write;
use gate_core::Gates;
use std::test::Fail;

// Nodes 1 and 2 are the inputs, node 3 their conjunction and node 4 one that no root leads to.
#[test]
fn a_conjunction_has_three_clauses(rt: HostRuntime) -> Result<(), Fail> {
    let mut gates = Gates::new(rt.alloc())?;
    let a = gates.input()?;
    let b = gates.input()?;
    let both = gates.and(a, b)?;
    let _beside = gates.and(a, b.not())?;
    let cnf = write(rt.alloc(), &gates, &[both])?;
    assert_eq!(rt; cnf.vars(), 4);
    assert_eq!(rt; cnf.clauses(), 4);
    let none = write(rt.alloc(), &gates, &[])?;
    assert_eq!(rt; none.clauses(), 0);
    Ok(())
}

#[test]
fn a_constant_root_has_no_clause_or_the_empty_one(rt: HostRuntime) -> Result<(), Fail> {
    let gates = Gates::new(rt.alloc())?;
    let yes = write(rt.alloc(), &gates, &[gates.constant(true)])?;
    assert_eq!(rt; yes.clauses(), 0);
    let no = write(rt.alloc(), &gates, &[gates.constant(false)])?;
    assert_eq!(rt; no.clauses(), 1);
    assert!(rt; !no.is_true_under(&[]));
    Ok(())
}
