//! The gates of numbers.

ghost use Rattle.std.specs.Prelude.{◌≡◌, ℕ, ◌+◌, ◌-◌, ◌≤◌, ◌+ℤ◌, ◌-ℤ◌, ◌*ℤ◌, int_lt, All, Some, None, length, if◌then◌else◌, IfOk, IsTrue};
ghost use Rattle.std.specs.Ordering.{int_eq};
ghost use Rattle.gate_core.specs.Circuit.{IsOf, Keeps};
ghost use Rattle.heap_core.specs.Outcomes.{in_bits};
ghost use Rattle.rel_core.specs.declared.sets.RelExpr.{RelExpr};
ghost use Rattle.rel_core.specs.declared.numbers.NumExpr.TheVariants.{Const, Var, At, Count};
ghost use Rattle.rel_core.specs.Uses.{AsNumber};
ghost use Rattle.rel_gates.specs.Naming.{is_named_for, wanted_one, wanted_each};
ghost use Rattle.rel_gates.specs.Meant.{Stand, AreSet};
ghost use Rattle.rel_gates.specs.Counted.{low_part as low_part_lem, IsStanding, IsNumberOf, IsOperation, IsComparison};

use crate::bits::constant_bits;
use crate::members::gates_for;
use crate::named::Relations;
use gate_arith::{below, both, count, difference, product, same, sum};
use gate_core::{Gate, Gates};
use gate_sets::at_only;
use heap_core::{Problem, well_posed};
use no_memory::NoMemory;
use rel_core::RelVar;
use std::alloc::Global;

/// The bits of a number in two's complement, lowest first, and whether the number is there.
#[derive(Drop)]
pub(crate) struct Number {
    pub(crate) bits: Vec<Gate>,
    pub(crate) there: Gate,
}

/// What the bits of a number below its sign count, where it lies in the width.
fn low_part(ints: u8, number: i32) -> Option<u32>
    requires low { 2 ≤ ints }
    requires high { ints ≤ 16 }
    ensures { result ≡ (if in_bits ints number then Some (low_part_lem (ints - 1) number) else None) }
{
    let edge = 1i64 << (ints - 1);
    let number = i64::from(number);
    if number < -edge || number >= edge {
        return None;
    }
    if number < 0 {
        Some((number + edge) as u32)
    } else {
        Some(number as u32)
    }
}

/// A number, where it lies in the width.
pub(crate) fn constant_number(
    alloc: Global,
    gates: &Gates,
    problem: &Problem,
    relations: &Relations,
    number: i32,
) -> Result<Number, NoMemory>
    ensures { IfOk result (λ n. IsNumberOf problem.now relations.now gates.now (Const number) n.bits.items n.there) }
{
    well_posed(problem);
    let places = usize::from(problem.scope.ints) - 1;
    let low = low_part(problem.scope.ints, number);
    let mut bits = constant_bits(alloc, gates, low.unwrap_or(0), places)?;
    bits.push(gates.constant(number < 0))?;
    Ok(Number {
        bits,
        there: gates.constant(low.is_some()),
    })
}

/// The number of a relation at place 0.
pub(crate) fn variable_number(
    alloc: Global,
    gates: &Gates,
    problem: &Problem,
    relations: &Relations,
    relation: RelVar,
) -> Result<Number, NoMemory>
    requires stand { Stand gates.now relations.now }
    requires named { IsTrue (is_named_for relations.now (wanted_one problem.now AsNumber relation)) }
    ensures { IfOk result (λ n. IsNumberOf problem.now relations.now gates.now (Var relation) n.bits.items n.there) }
{
    well_posed(problem);
    let list = gates_for(relations, relation);
    let mut bits = Vec::with_capacity(alloc, list.len())?;
    bits.extend_from_slice(list)?;
    Ok(Number {
        bits,
        there: gates.constant(true),
    })
}

/// The number of a relation at the only object of a set, and 0 where there is none.
pub(crate) fn number_at(
    alloc: Global,
    gates: &mut Gates,
    problem: &Problem,
    relations: &Relations,
    set: &[Gate],
    relation: RelVar,
) -> Result<Number, NoMemory>
    requires stand { Stand gates.old relations.now }
    requires set { All (IsOf gates.old) set.now }
    requires wide { length set.now ≡ problem.now.scope.objects + 1 }
    requires named { IsTrue (is_named_for relations.now (wanted_each problem.now AsNumber relation)) }
    ensures number { IfOk result (λ n. (e : RelExpr) → AreSet problem.now relations.now gates.old e set.now → IsNumberOf problem.now relations.now gates.new (At e relation) n.bits.items n.there) }
    ensures keeps { Keeps gates.old gates.new }
{
    well_posed(problem);
    let rows = gates_for(relations, relation);
    let width = usize::from(problem.scope.ints);
    let bits = at_only(alloc, gates, problem.scope.objects, set, rows, width)?;
    Ok(Number {
        bits,
        there: gates.constant(true),
    })
}

/// How many objects a set has, where that lies in the width.
pub(crate) fn count_of(
    alloc: Global,
    gates: &mut Gates,
    problem: &Problem,
    relations: &Relations,
    set: &[Gate],
) -> Result<Number, NoMemory>
    requires stand { Stand gates.old relations.now }
    requires set { All (IsOf gates.old) set.now }
    requires wide { length set.now ≡ problem.now.scope.objects + 1 }
    ensures number { IfOk result (λ n. (e : RelExpr) → AreSet problem.now relations.now gates.old e set.now → IsNumberOf problem.now relations.now gates.new (Count e) n.bits.items n.there) }
    ensures keeps { Keeps gates.old gates.new }
{
    well_posed(problem);
    let (_, objects) = set.split_at(1);
    let (bits, there) = count(alloc, gates, objects, problem.scope.ints)?;
    Ok(Number { bits, there })
}

/// The sum of two numbers, where both are there and it lies in the width.
#[tactic(auto, using(gate_core::proofs::Values::growing))]
pub(crate) fn sum_of(
    alloc: Global,
    gates: &mut Gates,
    problem: &Problem,
    a: &Number,
    b: &Number,
) -> Result<Number, NoMemory>
    requires left { IsStanding problem.now gates.old a.now.bits.items a.now.there }
    requires right { IsStanding problem.now gates.old b.now.bits.items b.now.there }
    ensures sum { IfOk result (λ n. IsOperation problem.now (λ x y. x +ℤ y) gates.old gates.new a.now.bits.items a.now.there b.now.bits.items b.now.there n.bits.items n.there) }
    ensures keeps { Keeps gates.old gates.new }
{
    well_posed(problem);
    let (bits, within) = sum(alloc, gates, &a.bits, &b.bits)?;
    let known = both(gates, a.there, b.there)?;
    let there = both(gates, known, within)?;
    Ok(Number { bits, there })
}

/// The first of two numbers less the second, where both are there and it lies in the width.
#[tactic(auto, using(gate_core::proofs::Values::growing))]
pub(crate) fn difference_of(
    alloc: Global,
    gates: &mut Gates,
    problem: &Problem,
    a: &Number,
    b: &Number,
) -> Result<Number, NoMemory>
    requires left { IsStanding problem.now gates.old a.now.bits.items a.now.there }
    requires right { IsStanding problem.now gates.old b.now.bits.items b.now.there }
    ensures difference { IfOk result (λ n. IsOperation problem.now (λ x y. x -ℤ y) gates.old gates.new a.now.bits.items a.now.there b.now.bits.items b.now.there n.bits.items n.there) }
    ensures keeps { Keeps gates.old gates.new }
{
    well_posed(problem);
    let (bits, within) = difference(alloc, gates, &a.bits, &b.bits)?;
    let known = both(gates, a.there, b.there)?;
    let there = both(gates, known, within)?;
    Ok(Number { bits, there })
}

/// The product of two numbers, where both are there and it lies in the width.
#[tactic(auto, using(gate_core::proofs::Values::growing))]
pub(crate) fn product_of(
    alloc: Global,
    gates: &mut Gates,
    problem: &Problem,
    a: &Number,
    b: &Number,
) -> Result<Number, NoMemory>
    requires left { IsStanding problem.now gates.old a.now.bits.items a.now.there }
    requires right { IsStanding problem.now gates.old b.now.bits.items b.now.there }
    ensures product { IfOk result (λ n. IsOperation problem.now (λ x y. x *ℤ y) gates.old gates.new a.now.bits.items a.now.there b.now.bits.items b.now.there n.bits.items n.there) }
    ensures keeps { Keeps gates.old gates.new }
{
    well_posed(problem);
    let (bits, within) = product(alloc, gates, &a.bits, &b.bits)?;
    let known = both(gates, a.there, b.there)?;
    let there = both(gates, known, within)?;
    Ok(Number { bits, there })
}

/// Whether two numbers are there and are the same.
#[tactic(auto, using(gate_core::proofs::Values::growing))]
pub(crate) fn are_same(
    gates: &mut Gates,
    problem: &Problem,
    a: &Number,
    b: &Number,
) -> Result<Gate, NoMemory>
    requires left { IsStanding problem.now gates.old a.now.bits.items a.now.there }
    requires right { IsStanding problem.now gates.old b.now.bits.items b.now.there }
    ensures same { IfOk result (IsComparison int_eq gates.old gates.new a.now.bits.items a.now.there b.now.bits.items b.now.there) }
    ensures keeps { Keeps gates.old gates.new }
{
    well_posed(problem);
    let test = same(gates, &a.bits, &b.bits)?;
    let known = both(gates, a.there, b.there)?;
    both(gates, known, test)
}

/// Whether two numbers are there and the first is below the second.
#[tactic(auto, using(gate_core::proofs::Values::growing))]
pub(crate) fn is_below(
    gates: &mut Gates,
    problem: &Problem,
    a: &Number,
    b: &Number,
) -> Result<Gate, NoMemory>
    requires left { IsStanding problem.now gates.old a.now.bits.items a.now.there }
    requires right { IsStanding problem.now gates.old b.now.bits.items b.now.there }
    ensures below { IfOk result (IsComparison int_lt gates.old gates.new a.now.bits.items a.now.there b.now.bits.items b.now.there) }
    ensures keeps { Keeps gates.old gates.new }
{
    well_posed(problem);
    let test = below(gates, &a.bits, &b.bits)?;
    let known = both(gates, a.there, b.there)?;
    both(gates, known, test)
}
