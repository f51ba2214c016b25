//! The gates of numbers of any form.

ghost use Rattle.std.specs.Prelude.{IfOk, IsTrue};
ghost use Rattle.gate_core.specs.Circuit.{Keeps};
ghost use Rattle.rel_gates.specs.Naming.{are_named, number_uses};
ghost use Rattle.rel_gates.specs.Meant.{Stand};
ghost use Rattle.rel_gates.specs.Counted.{IsNumberOf};

use crate::members::set_gates;
use crate::named::Relations;
use crate::numbers::{
    Number, constant_number, count_of, difference_of, number_at, product_of, sum_of,
    variable_number,
};
use gate_core::Gates;
use heap_core::Problem;
use no_memory::NoMemory;
use rel_core::NumExpr;
use std::alloc::Global;

/// The gates of a number.
#[tactic(auto, using(gate_core::proofs::Values::growing))]
pub(crate) fn number_gates(
    alloc: Global,
    gates: &mut Gates,
    problem: &Problem,
    relations: &Relations,
    number: &NumExpr,
) -> Result<Number, NoMemory>
    requires stand { Stand gates.old relations.now }
    requires named { IsTrue (are_named relations.now (number_uses problem.now number.now)) }
    ensures number { IfOk result (λ n. IsNumberOf problem.now relations.now gates.new number.now n.bits.items n.there) }
    ensures keeps { Keeps gates.old gates.new }
{
    match number {
        NumExpr::Const(z) => constant_number(alloc, gates, problem, relations, *z),
        NumExpr::Var(relation) => variable_number(alloc, gates, problem, relations, *relation),
        NumExpr::At(set, relation) => {
            let members = set_gates(alloc, gates, problem, relations, set.get())?;
            let found = number_at(alloc, gates, problem, relations, &members, *relation)?;
            Ok(found)
        }
        NumExpr::Sum(a, b) => {
            let x = number_gates(alloc, gates, problem, relations, a.get())?;
            let y = number_gates(alloc, gates, problem, relations, b.get())?;
            let found = sum_of(alloc, gates, problem, &x, &y)?;
            Ok(found)
        }
        NumExpr::Diff(a, b) => {
            let x = number_gates(alloc, gates, problem, relations, a.get())?;
            let y = number_gates(alloc, gates, problem, relations, b.get())?;
            let found = difference_of(alloc, gates, problem, &x, &y)?;
            Ok(found)
        }
        NumExpr::Product(a, b) => {
            let x = number_gates(alloc, gates, problem, relations, a.get())?;
            let y = number_gates(alloc, gates, problem, relations, b.get())?;
            let found = product_of(alloc, gates, problem, &x, &y)?;
            Ok(found)
        }
        NumExpr::Count(set) => {
            let members = set_gates(alloc, gates, problem, relations, set.get())?;
            let found = count_of(alloc, gates, problem, relations, &members)?;
            Ok(found)
        }
    }
}
