ghost use Rattle.std.specs.Prelude.{◌≤◌, ◌<◌, length};

use super::*;
use cnf_core::Cnf;
use derivation::{Log, check, read_cnf};
use std::alloc::Global;
use std::process::Abort;
use std::test::Fail;

/// Three pigeons in two holes.
const THREE_PIGEONS: &[u8] =
    b"p cnf 6 9\n1 2 0\n3 4 0\n5 6 0\n-1 -3 0\n-1 -5 0\n-3 -5 0\n-2 -4 0\n-2 -6 0\n-4 -6 0\n";

/// Four pigeons in three holes.
const FOUR_PIGEONS: &[u8] = b"p cnf 12 22\n1 2 3 0\n4 5 6 0\n7 8 9 0\n10 11 12 0\n\
    -1 -4 0\n-1 -7 0\n-1 -10 0\n-4 -7 0\n-4 -10 0\n-7 -10 0\n\
    -2 -5 0\n-2 -8 0\n-2 -11 0\n-5 -8 0\n-5 -11 0\n-8 -11 0\n\
    -3 -6 0\n-3 -9 0\n-3 -12 0\n-6 -9 0\n-6 -12 0\n-9 -12 0\n";

/// The heads of formulas over two variables, by the number of their clauses.
const HEADS: [&[u8]; 4] = [
    b"p cnf 2 0\n",
    b"p cnf 2 1\n",
    b"p cnf 2 2\n",
    b"p cnf 2 3\n",
];

/// The clauses over two variables, with tautologies and the empty one, and one that has a literal twice.
const PIECES: [&[u8]; 17] = [
    b"0 ",
    b"1 0 ",
    b"-1 0 ",
    b"1 -1 0 ",
    b"2 0 ",
    b"1 2 0 ",
    b"-1 2 0 ",
    b"1 -1 2 0 ",
    b"-2 0 ",
    b"1 -2 0 ",
    b"-1 -2 0 ",
    b"1 -1 -2 0 ",
    b"2 -2 0 ",
    b"1 2 -2 0 ",
    b"-1 2 -2 0 ",
    b"1 -1 2 -2 0 ",
    b"1 1 2 0 ",
];

fn solve_text(alloc: Global, text: &[u8], budget: u64) -> Result<Solved, Fail>
    requires { length text.now ≤ 67108864 }
{
    Ok(Solver::new(alloc, read_cnf(alloc, text)?, budget)?.solve()?)
}

fn is_refuted(cnf: &Cnf, log: &Log) -> Result<bool, Fail> {
    Ok(check(cnf, log)?.refuted)
}

#[test]
fn pigeons_are_refuted(rt: HostRuntime) -> Result<(), Fail> {
    let solved = solve_text(rt.alloc(), THREE_PIGEONS, 0)?;
    assert!(rt; matches!(&solved.answer, SatAnswer::Refuted));
    assert!(rt; is_refuted(&solved.cnf, &solved.log)?);
    Ok(())
}

#[test]
fn a_budget_is_spent(rt: HostRuntime) -> Result<(), Fail> {
    let solved = solve_text(rt.alloc(), FOUR_PIGEONS, 1)?;
    assert!(rt; matches!(&solved.answer, SatAnswer::Spent));
    assert_eq!(rt; solved.log.lines().len(), 1);
    assert!(rt; !is_refuted(&solved.cnf, &solved.log)?);
    let whole = solve_text(rt.alloc(), FOUR_PIGEONS, 0)?;
    assert!(rt; matches!(&whole.answer, SatAnswer::Refuted));
    assert!(rt; is_refuted(&whole.cnf, &whole.log)?);
    Ok(())
}

#[test]
fn units_are_satisfied(rt: HostRuntime) -> Result<(), Fail> {
    let solved = solve_text(rt.alloc(), b"p cnf 2 2\n1 0\n-1 2 0\n", 0)?;
    match &solved.answer {
        SatAnswer::Satisfied(values) => assert_eq!(rt; values.as_slice(), [true, true].as_slice()),
        _ => assert!(rt; false),
    }
    Ok(())
}

#[test]
fn no_clause_and_an_empty_one(rt: HostRuntime) -> Result<(), Fail> {
    let none = solve_text(rt.alloc(), b"p cnf 0 0\n", 0)?;
    assert!(rt; matches!(&none.answer, SatAnswer::Satisfied(_)));
    let empty = solve_text(rt.alloc(), b"p cnf 0 1\n0\n", 0)?;
    assert!(rt; matches!(&empty.answer, SatAnswer::Refuted));
    assert!(rt; is_refuted(&empty.cnf, &empty.log)?);
    Ok(())
}

/// Whether some of the four assignments to two variables satisfies the formula.
fn is_satisfiable(rt: &impl Abort, cnf: &Cnf) -> bool {
    assert_eq!(rt; cnf.vars(), 2);
    cnf.is_true_under(&[false, false])
        || cnf.is_true_under(&[false, true])
        || cnf.is_true_under(&[true, false])
        || cnf.is_true_under(&[true, true])
}

/// Solves the formula of these clauses, and compares the answer with the trial of all assignments.
fn compare(rt: &impl Abort, alloc: Global, clauses: &[&[u8]]) -> Result<(), Fail>
    requires { length clauses.now < 4 }
{
    let mut text = Vec::from_slice(alloc, HEADS[clauses.len()])?;
    for clause in clauses {
        text.extend_from_slice(clause)?;
    }
    assert!(rt; text.len() < 1000);
    let solved = solve_text(alloc, text.as_slice(), 0)?;
    let wanted = is_satisfiable(rt, &solved.cnf);
    match &solved.answer {
        SatAnswer::Satisfied(values) => {
            assert!(rt; wanted);
            assert_eq!(rt; values.len(), 2);
            assert_eq!(rt; solved.cnf.vars(), 2);
            assert!(rt; solved.cnf.is_true_under(values.as_slice()));
        }
        SatAnswer::Refuted => {
            assert!(rt; !wanted);
            assert!(rt; is_refuted(&solved.cnf, &solved.log)?);
        }
        SatAnswer::Spent => assert!(rt; false),
    }
    Ok(())
}

#[test]
fn all_of_two_variables(rt: HostRuntime) -> Result<(), Fail> {
    compare(&rt, rt.alloc(), &[])?;
    for first in PIECES {
        compare(&rt, rt.alloc(), &[first])?;
        for second in PIECES {
            compare(&rt, rt.alloc(), &[first, second])?;
            for third in PIECES {
                compare(&rt, rt.alloc(), &[first, second, third])?;
            }
        }
    }
    Ok(())
}
