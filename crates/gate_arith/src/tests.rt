ghost use Rattle.std.specs.Prelude.{◌≡◌, ◌<◌, All, length, vec_len, IfOk, pos, ◌≤ℤ◌, negsuc};
ghost use Rattle.gate_core.specs.Circuit.{IsOf, Keeps};

use crate::{
    all_of, any_of, below, choice, count, difference, exclusive_or, product, same, select, sum,
};
use gate_core::{Gate, Gates, Node};
use no_memory::NoMemory;
use std::alloc::Global;
use std::test::Fail;

/// As many new inputs.
#[tactic(auto, using(gate_core::proofs::Values::growing))]
fn inputs(alloc: Global, gates: &mut Gates, width: usize) -> Result<Vec<Gate>, NoMemory>
    ensures of { IfOk result (λ r. All (IsOf gates.new) r.items) }
    ensures wide { IfOk result (λ r. vec_len r ≡ width) }
    ensures keeps { Keeps gates.old gates.new }
{
    let mut bits = Vec::new(alloc);
    for _place in 0..width {
        let gate = gates.input()?;
        bits.push(gate)?;
    }
    Ok(bits)
}

fn is_true(values: &[bool], gate: Gate) -> bool {
    let node = values.get((gate.number() / 2) as usize) == Some(&true);
    node != (gate.number() % 2 == 1)
}

/// The values of the nodes in order, where those of the inputs are the bits of a number, lowest first.
fn values(alloc: Global, gates: &Gates, inputs: u32) -> Result<Vec<bool>, NoMemory> {
    let mut values = Vec::new(alloc);
    let mut bits = inputs;
    for place in 0..gates.nodes() {
        let value = match gates.node(place) {
            Node::Zero => false,
            Node::Input => {
                let bit = bits % 2 == 1;
                bits /= 2;
                bit
            }
            Node::And(a, b) => is_true(&values, a) && is_true(&values, b),
        };
        values.push(value)?;
    }
    Ok(values)
}

fn bit(values: &[bool], number: &[Gate], place: usize) -> i64
    ensures low { pos 0 ≤ℤ result }
    ensures high { result ≤ℤ pos 1 }
{
    match number.get(place) {
        Some(gate) if is_true(values, *gate) => 1,
        _ => 0,
    }
}

/// The number in two's complement that four gates show.
fn shown(values: &[bool], number: &[Gate]) -> i64 {
    bit(values, number, 0) + 2 * bit(values, number, 1) + 4 * bit(values, number, 2)
        - 8 * bit(values, number, 3)
}

/// The number in two's complement that four bits stand for.
fn signed(bits: u32) -> i32
    requires { bits < 16 }
    ensures low { negsuc 7 ≤ℤ result }
    ensures high { result ≤ℤ pos 7 }
{
    if bits < 8 {
        bits as i32
    } else {
        bits as i32 - 16
    }
}

// The first four inputs are the bits of x, and the other four those of y.
#[test]
#[tactic(auto, using(gate_core::proofs::Values::growing))]
fn numbers_of_four_bits(rt: HostRuntime) -> Result<(), Fail> {
    let mut gates = Gates::new(rt.alloc())?;
    let all = inputs(rt.alloc(), &mut gates, 8)?;
    let (a, b) = all.as_slice().split_at(4);
    let (total, total_fits) = sum(rt.alloc(), &mut gates, a, b)?;
    let (rest, rest_fits) = difference(rt.alloc(), &mut gates, a, b)?;
    let (times, times_fit) = product(rt.alloc(), &mut gates, a, b)?;
    for number in 0..256 {
        let (x, y) = (signed(number % 16), signed(number / 16));
        let values = values(rt.alloc(), &gates, number)?;
        for (bits, fits, exact) in [
            (&total, total_fits, i64::from(x + y)),
            (&rest, rest_fits, i64::from(x - y)),
            (&times, times_fit, i64::from(x) * i64::from(y)),
        ] {
            assert_eq!(rt; is_true(&values, fits), -8 <= exact && exact < 8);
            if is_true(&values, fits) {
                assert_eq!(rt; shown(&values, bits), exact);
            }
        }
    }
    Ok(())
}

// Four bits show no count from 8 on.
#[test]
fn counts_of_eight_bits(rt: HostRuntime) -> Result<(), Fail> {
    let mut gates = Gates::new(rt.alloc())?;
    let all = inputs(rt.alloc(), &mut gates, 8)?;
    let (number, fits) = count(rt.alloc(), &mut gates, &all, 4)?;
    for bits in 0..256u32 {
        let ones = i64::from(bits.count_ones());
        let values = values(rt.alloc(), &gates, bits)?;
        assert_eq!(rt; is_true(&values, fits), ones < 8);
        if ones < 8 {
            assert_eq!(rt; shown(&values, &number), ones);
        }
    }
    Ok(())
}

#[test]
#[tactic(auto, using(gate_core::proofs::Values::growing))]
fn comparisons_of_four_bits(rt: HostRuntime) -> Result<(), Fail> {
    let mut gates = Gates::new(rt.alloc())?;
    let all = inputs(rt.alloc(), &mut gates, 8)?;
    let (a, b) = all.as_slice().split_at(4);
    let less = below(&mut gates, a, b)?;
    let alike = same(&mut gates, a, b)?;
    let lower = select(rt.alloc(), &mut gates, less, a, b)?;
    for number in 0..256 {
        let (x, y) = (signed(number % 16), signed(number / 16));
        let values = values(rt.alloc(), &gates, number)?;
        assert_eq!(rt; is_true(&values, less), x < y);
        assert_eq!(rt; is_true(&values, alike), x == y);
        assert_eq!(rt; shown(&values, &lower), i64::from(x.min(y)));
    }
    Ok(())
}

#[test]
fn logic_of_five_inputs(rt: HostRuntime) -> Result<(), Fail> {
    let mut gates = Gates::new(rt.alloc())?;
    let all = inputs(rt.alloc(), &mut gates, 5)?;
    let (a, b, c) = (all[0], all[1], all[2]);
    let every = all_of(&mut gates, &all)?;
    let some = any_of(&mut gates, &all)?;
    let one = exclusive_or(&mut gates, a, b)?;
    let first = choice(&mut gates, a, b, c)?;
    for number in 0..32 {
        let values = values(rt.alloc(), &gates, number)?;
        for (gate, truth) in [
            (every, number == 31),
            (some, number != 0),
            (one, number % 4 == 1 || number % 4 == 2),
            (first, number % 4 == 3 || number % 8 == 4 || number % 8 == 6),
        ] {
            assert_eq!(rt; is_true(&values, gate), truth);
        }
    }
    Ok(())
}

/// How many conjunctions a gate is above the inputs, where this is known of the nodes before it.
fn depth(depths: &[u32], gate: Gate) -> u32 {
    depths
        .get((gate.number() / 2) as usize)
        .copied()
        .unwrap_or(0)
}

#[test]
fn a_tree_over_sixteen_inputs_is_four_high(rt: HostRuntime) -> Result<(), Fail> {
    let mut gates = Gates::new(rt.alloc())?;
    let all = inputs(rt.alloc(), &mut gates, 16)?;
    let every = all_of(&mut gates, &all)?;
    let mut depths = Vec::new(rt.alloc());
    for place in 0..gates.nodes() {
        let here = match gates.node(place) {
            Node::And(a, b) => depth(&depths, a).max(depth(&depths, b)).saturating_add(1),
            _ => 0,
        };
        depths.push(here)?;
    }
    assert_eq!(rt; depth(&depths, every), 4);
    Ok(())
}

// Over inputs of w bits below has 4 w - 2 nodes, a sum 7 w - 1 and a product 8 w w - 4.
#[test]
fn nodes_of_sixteen_bits(rt: HostRuntime) -> Result<(), Fail> {
    let mut gates = Gates::new(rt.alloc())?;
    let all = inputs(rt.alloc(), &mut gates, 32)?;
    let (a, b) = all.as_slice().split_at(16);
    let _less = below(&mut gates, a, b)?;
    assert_eq!(rt; gates.nodes(), 33 + 62);
    let (_, _) = sum(rt.alloc(), &mut gates, a, b)?;
    assert_eq!(rt; gates.nodes(), 33 + 62 + 111);
    Ok(())
}

#[test]
fn nodes_of_a_product_of_sixteen_bits(rt: HostRuntime) -> Result<(), Fail> {
    let mut gates = Gates::new(rt.alloc())?;
    let all = inputs(rt.alloc(), &mut gates, 32)?;
    let (a, b) = all.as_slice().split_at(16);
    let (_, _) = product(rt.alloc(), &mut gates, a, b)?;
    assert_eq!(rt; gates.nodes(), 33 + 2044);
    Ok(())
}
