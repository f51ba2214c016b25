ghost use Rattle.std.specs.Prelude.{◌≡◌, IfOk};

use crate::{Cnf, Lit};
use no_memory::NoMemory;
use std::alloc::Global;
use std::test::Fail;

/// x1 or x2, and not x1.
fn either(alloc: Global) -> Result<Cnf, NoMemory>
    ensures { IfOk result (λ cnf. cnf.vars ≡ 2) }
{
    let mut cnf = Cnf::new(alloc, 2);
    cnf.push_clause(&[Lit::positive(1), Lit::positive(2)])?;
    cnf.push_clause(&[Lit::negative(1)])?;
    Ok(cnf)
}

#[test]
fn a_literal_is_twice_its_variable(rt: HostRuntime) {
    assert_eq!(rt; Lit::positive(1).number(), 2);
    assert_eq!(rt; Lit::negative(1).number(), 3);
    assert_eq!(rt; Lit::negative(2147483647).number(), 4294967295);
    assert_eq!(rt; Lit::positive(7).negated(), Lit::negative(7));
}

#[test]
fn clauses_lie_in_order(rt: HostRuntime) -> Result<(), Fail> {
    let cnf = either(rt.alloc())?.copy()?;
    assert_eq!(rt; cnf.vars(), 2);
    assert_eq!(rt; cnf.clauses(), 2);
    assert_eq!(rt;
        cnf.clause(0),
        [Lit::positive(1), Lit::positive(2)].as_slice()
    );
    assert_eq!(rt; cnf.clause(1), [Lit::negative(1)].as_slice());
    Ok(())
}

#[test]
fn each_clause_wants_a_true_literal(rt: HostRuntime) -> Result<(), Fail> {
    let cnf = either(rt.alloc())?;
    assert!(rt; cnf.is_true_under(&[false, true]));
    assert!(rt; !cnf.is_true_under(&[true, true]));
    assert!(rt; !cnf.is_true_under(&[false, false]));
    Ok(())
}
