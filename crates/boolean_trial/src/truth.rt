ghost use Rattle.std.specs.Prelude.{◌≡◌, false, slice_get, unwrap_or};
ghost use Rattle.boolean_trial.specs.Truth.{joined as joined_lem, truth_of};

use taco_unit::{Expr, Op};

/// What a logical operator makes of two truth values; false for other operators.
fn joined(op: Op, a: bool, b: bool) -> bool
    ensures { result ≡ joined_lem op a b }
{
    match op {
        Op::Eq | Op::Iff => a == b,
        Op::Ne => a != b,
        Op::And => a && b,
        Op::Or => a || b,
        Op::Implies => !a || b,
        _ => false,
    }
}

/// The argument of this number, counted from 0; false where there is none.
fn argument(args: &[bool], i: u8) -> bool
    ensures { result ≡ unwrap_or (slice_get args.now i) false }
{
    match args.get(i as usize) {
        Some(b) => *b,
        None => false,
    }
}

/// The truth value of a plain expression under these arguments and this result; for other
/// expressions it says nothing of use. Linear in the expression.
pub(crate) fn truth(expr: &Expr, args: &[bool], outcome: bool) -> bool
    ensures { result ≡ truth_of expr.now args.now outcome }
{
    match expr {
        Expr::Flag(b) => *b,
        Expr::Local(i) => argument(args, *i),
        Expr::Result => outcome,
        Expr::Not(a) => !truth(a.get(), args, outcome),
        Expr::Bin(op, a, b) => {
            let a = truth(a.get(), args, outcome);
            let b = truth(b.get(), args, outcome);
            joined(*op, a, b)
        }
        _ => false,
    }
}
