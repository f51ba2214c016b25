ghost use Rattle.std.specs.Prelude.{◌≡◌, IfOk};
ghost use Rattle.declared_names.specs.Faults.{soonest};
ghost use Rattle.declared_names.specs.Seen.{told, on, on_two};
ghost use Rattle.typed_forms.specs.Operators.{is_of_code as is_of_code_lem, literal as literal_lem, minus_told, minus_value, negated, op_of as op_of_lem, operand_faults, operand_sort as operand_sort_lem, operated, result_sort as result_sort_lem, wanted as wanted_lem, wants as wants_lem};

use crate::typed::{Typed, make_typed};
use declared_names::{Cause, Fault, Sort, earlier, fits, pair, unless};
use java_tree::Sign;
use no_memory::NoMemory;
use std::alloc::Global;
use taco_unit::{Expr, Op};

/// The fault of a value at this place that is of another kind than the one wanted.
#[tactic(auto, using(declared_names::proofs::Told::told_leaves))]
pub fn wanted(sort: Sort, at: u32, given: Sort) -> Option<Fault>
    ensures { result ≡ soonest (wanted_lem sort at given) }
{
    unless(fits(sort, given), at, Cause::Kinds)
}

/// The same of an operand.
#[tactic(auto, using(declared_names::proofs::Told::told_leaves))]
pub fn wants(sort: Sort, operand: &Typed) -> Option<Fault>
    ensures { result ≡ soonest (wants_lem sort operand.now) }
{
    wanted(sort, operand.at, operand.sort)
}

fn op_of(sign: Sign) -> Op
    ensures { result ≡ op_of_lem sign }
{
    match sign {
        Sign::Add => Op::Add,
        Sign::Sub => Op::Sub,
        Sign::Mul => Op::Mul,
        Sign::Eq => Op::Eq,
        Sign::Ne => Op::Ne,
        Sign::Lt => Op::Lt,
        Sign::Le => Op::Le,
        Sign::Gt => Op::Gt,
        Sign::Ge => Op::Ge,
        Sign::And => Op::And,
        Sign::Or => Op::Or,
        Sign::Implies => Op::Implies,
        Sign::Iff => Op::Iff,
    }
}

/// The kind of both operands, where the operator fixes it.
fn operand_sort(sign: Sign) -> Option<Sort>
    ensures { result ≡ operand_sort_lem sign }
{
    match sign {
        Sign::Add => Some(Sort::Int),
        Sign::Sub => Some(Sort::Int),
        Sign::Mul => Some(Sort::Int),
        Sign::Eq => None,
        Sign::Ne => None,
        Sign::Lt => Some(Sort::Int),
        Sign::Le => Some(Sort::Int),
        Sign::Gt => Some(Sort::Int),
        Sign::Ge => Some(Sort::Int),
        Sign::And => Some(Sort::Flag),
        Sign::Or => Some(Sort::Flag),
        Sign::Implies => Some(Sort::Flag),
        Sign::Iff => Some(Sort::Flag),
    }
}

fn result_sort(sign: Sign) -> Sort
    ensures { result ≡ result_sort_lem sign }
{
    match sign {
        Sign::Add => Sort::Int,
        Sign::Sub => Sort::Int,
        Sign::Mul => Sort::Int,
        Sign::Eq => Sort::Flag,
        Sign::Ne => Sort::Flag,
        Sign::Lt => Sort::Flag,
        Sign::Le => Sort::Flag,
        Sign::Gt => Sort::Flag,
        Sign::Ge => Sort::Flag,
        Sign::And => Sort::Flag,
        Sign::Or => Sort::Flag,
        Sign::Implies => Sort::Flag,
        Sign::Iff => Sort::Flag,
    }
}

/// Whether the operator may stand in code.
fn is_of_code(sign: Sign) -> bool
    ensures { result ≡ is_of_code_lem sign }
{
    match sign {
        Sign::Add => true,
        Sign::Sub => true,
        Sign::Mul => true,
        Sign::Eq => true,
        Sign::Ne => true,
        Sign::Lt => true,
        Sign::Le => true,
        Sign::Gt => true,
        Sign::Ge => true,
        Sign::And => true,
        Sign::Or => true,
        Sign::Implies => false,
        Sign::Iff => false,
    }
}

/// The fault of two operands.
#[tactic(auto, using(declared_names::proofs::Told::told_leaves))]
fn operand_fault(fixed: Option<Sort>, left: &Typed, right: &Typed) -> Option<Fault>
    ensures { result ≡ soonest (operand_faults fixed left.now right.now) }
{
    match fixed {
        Some(sort) => earlier(wants(sort, left), wants(sort, right)),
        None => wanted(left.sort, right.at, right.sort),
    }
}

/// Two operands joined by an operator, at this place, in a clause or in code.
#[tactic(auto, using(declared_names::proofs::Told::told_leaves))]
fn operate(
    alloc: Global,
    at: u32,
    clause: bool,
    sign: Sign,
    left: Typed,
    right: Typed,
) -> Result<Result<Typed, Fault>, NoMemory>
    ensures { IfOk result (λ r. r ≡ told (operated at clause sign left right)) }
{
    let form = unless(clause || is_of_code(sign), at, Cause::Kinds);
    match earlier(form, operand_fault(operand_sort(sign), &left, &right)) {
        Some(fault) => Ok(Err(fault)),
        None => make_typed(
            alloc,
            at,
            result_sort(sign),
            Expr::Bin(op_of(sign), left.expr, right.expr),
        ),
    }
}

/// The contrary of an operand.
#[tactic(auto, using(declared_names::proofs::Told::told_leaves))]
fn negate(alloc: Global, at: u32, operand: Typed) -> Result<Result<Typed, Fault>, NoMemory>
    ensures { IfOk result (λ r. r ≡ told (negated at operand)) }
{
    match wants(Sort::Flag, &operand) {
        Some(fault) => Ok(Err(fault)),
        None => make_typed(alloc, at, Sort::Flag, Expr::Not(operand.expr)),
    }
}

pub fn literal(number: u32) -> i32
    ensures { result ≡ literal_lem number }
{
    number.min(2147483647) as i32
}

/// The contrary of an operand that may have faults.
pub fn negated_value(
    alloc: Global,
    at: u32,
    operand: Result<Typed, Fault>,
) -> Result<Result<Typed, Fault>, NoMemory>
    ensures { IfOk result (λ r. r ≡ on operand (λ x. told (negated at x))) }
{
    match operand {
        Ok(operand) => negate(alloc, at, operand),
        Err(fault) => Ok(Err(fault)),
    }
}

/// Two operands that may have faults, joined by an operator.
pub fn operated_values(
    alloc: Global,
    at: u32,
    clause: bool,
    sign: Sign,
    left: Result<Typed, Fault>,
    right: Result<Typed, Fault>,
) -> Result<Result<Typed, Fault>, NoMemory>
    ensures { IfOk result (λ r. r ≡ on_two left right (λ x y. told (operated at clause sign x y))) }
{
    match pair(left, right) {
        Ok((left, right)) => operate(alloc, at, clause, sign, left, right),
        Err(fault) => Ok(Err(fault)),
    }
}

/// A minus before a value.
#[tactic(auto, using(declared_names::proofs::Told::told_leaves))]
fn subtract(alloc: Global, at: u32, operand: Typed) -> Result<Result<Typed, Fault>, NoMemory>
    ensures { IfOk result (λ r. r ≡ told (minus_value at operand)) }
{
    match wants(Sort::Int, &operand) {
        Some(fault) => Ok(Err(fault)),
        None => make_typed(alloc, at, Sort::Int, Expr::Neg(operand.expr)),
    }
}

/// A minus, directly before a literal or before another value, which may have faults.
#[tactic(auto, using(declared_names::proofs::Told::wholes))]
pub fn minus(
    alloc: Global,
    at: u32,
    number: Option<u32>,
    operand: Result<Typed, Fault>,
) -> Result<Result<Typed, Fault>, NoMemory>
    ensures { IfOk result (λ r. r ≡ minus_told at number operand) }
{
    match number {
        Some(n) => make_typed(alloc, at, Sort::Int, Expr::Num(-literal(n))),
        None => match operand {
            Ok(operand) => subtract(alloc, at, operand),
            Err(fault) => Ok(Err(fault)),
        },
    }
}
