ghost use Rattle.std.specs.Prelude.{◌≡◌, All, vec_len, IfOk};
ghost use Rattle.gate_core.specs.Circuit.{IsOf, Keeps};

use crate::{
    all_pass, at_only, chosen, closed, join, led, no_edges, only, reached, same_places, within,
};
use gate_core::{Gate, Gates, Node};
use no_memory::NoMemory;
use std::alloc::Global;
use std::test::Fail;

/// As many new inputs.
#[tactic(auto, using(gate_core::proofs::Values::growing))]
fn inputs(alloc: Global, gates: &mut Gates, count: usize) -> Result<Vec<Gate>, NoMemory>
    ensures of { IfOk result (λ r. All (IsOf gates.new) r.items) }
    ensures wide { IfOk result (λ r. vec_len r ≡ count) }
    ensures keeps { Keeps gates.old gates.new }
{
    let mut list = Vec::new(alloc);
    for _place in 0..count {
        let gate = gates.input()?;
        list.push(gate)?;
    }
    Ok(list)
}

fn is_true(values: &[bool], gate: Gate) -> bool {
    let node = values.get((gate.number() / 2) as usize) == Some(&true);
    node != (gate.number() % 2 == 1)
}

/// The truth of the gates in order, as bits, lowest first, where the inputs are the bits of a number.
fn shown(alloc: Global, gates: &Gates, inputs: u32, list: &[Gate]) -> Result<u32, NoMemory> {
    let mut values = Vec::new(alloc);
    let mut rest = inputs;
    for node in 0..gates.nodes() {
        let value = match gates.node(node) {
            Node::Zero => false,
            Node::Input => {
                let bit = rest % 2 == 1;
                rest /= 2;
                bit
            }
            Node::And(a, b) => is_true(&values, a) && is_true(&values, b),
        };
        values.push(value)?;
    }
    let mut bits = 0u32;
    for gate in list.iter().rev() {
        bits = bits
            .wrapping_mul(2)
            .wrapping_add(u32::from(is_true(&values, *gate)));
    }
    Ok(bits)
}

// A set of null and two objects, with a relation of two rows: what is joined, and what is the only object.
#[test]
#[tactic(auto, using(gate_core::proofs::Values::growing))]
fn joins_of_two_objects(rt: HostRuntime) -> Result<(), Fail> {
    let mut gates = Gates::new(rt.alloc())?;
    let set = inputs(rt.alloc(), &mut gates, 3)?;
    let relation = inputs(rt.alloc(), &mut gates, 6)?;
    let places = join(rt.alloc(), &mut gates, 2, &set, &relation)?;
    let one = only(rt.alloc(), &mut gates, 2, &set)?;
    let number = at_only(rt.alloc(), &mut gates, 2, &set, &relation, 3)?;
    for bits in 0..512u32 {
        let (first, second) = (bits / 2 % 2, bits / 4 % 2);
        let (row, other) = (bits / 8 % 8, bits / 64 % 8);
        let joined = (row * first) | (other * second);
        assert_eq!(rt; shown(rt.alloc(), &gates, bits, &places)?, joined);
        let found = shown(rt.alloc(), &gates, bits, &one)?;
        assert_eq!(rt; found, first * (1 - second) + 2 * (1 - first) * second);
        let there = row * first * (1 - second) + other * (1 - first) * second;
        assert_eq!(rt; shown(rt.alloc(), &gates, bits, &number)?, there);
    }
    Ok(())
}

/// The gates that are always true or false, as bits, lowest first.
fn constants(alloc: Global, gates: &Gates, bits: u32, count: usize) -> Result<Vec<Gate>, NoMemory>
    ensures of { IfOk result (λ r. All (IsOf gates.now) r.items) }
    ensures wide { IfOk result (λ r. vec_len r ≡ count) }
{
    let mut list = Vec::new(alloc);
    let mut rest = bits;
    for _place in 0..count {
        let gate = gates.constant(rest % 2 == 1);
        rest /= 2;
        list.push(gate)?;
    }
    Ok(list)
}

// From object 0 edges lead to 1, from there to 2, and from there to 3: known without a node.
#[test]
#[tactic(auto, using(gate_core::proofs::Values::growing))]
fn a_chain_of_four_objects(rt: HostRuntime) -> Result<(), Fail> {
    let mut gates = Gates::new(rt.alloc())?;
    let set = constants(rt.alloc(), &gates, 0b00010, 5)?;
    let relation = constants(rt.alloc(), &gates, 0b00001_10000_01000_00100, 20)?;
    let none = no_edges(rt.alloc(), &gates, 4)?;
    let graph = led(rt.alloc(), &mut gates, 4, &none, &relation)?;
    let all = reached(rt.alloc(), &mut gates, 4, &set, &graph)?;
    assert_eq!(rt; shown(rt.alloc(), &gates, 0, &all)?, 0b11110);
    assert_eq!(rt; gates.nodes(), 1);
    Ok(())
}

// Four nodes for each object, and 2 K K K for each squaring besides the graph's own.
#[test]
#[tactic(auto, using(gate_core::proofs::Values::growing))]
fn nodes_of_five_objects(rt: HostRuntime) -> Result<(), Fail> {
    let mut gates = Gates::new(rt.alloc())?;
    let set = inputs(rt.alloc(), &mut gates, 6)?;
    let graph = inputs(rt.alloc(), &mut gates, 25)?;
    let before = gates.nodes();
    let _one = only(rt.alloc(), &mut gates, 5, &set)?;
    let then = gates.nodes();
    let _all = closed(rt.alloc(), &mut gates, 5, &graph)?;
    assert!(rt; then <= before + 20);
    assert!(rt; gates.nodes() <= then + 750);
    Ok(())
}

// Inclusion and agreement see null's place, and a choice takes the first list where the condition holds.
#[test]
#[tactic(auto, using(gate_core::proofs::Values::growing))]
fn two_sets_of_one_object(rt: HostRuntime) -> Result<(), Fail> {
    let mut gates = Gates::new(rt.alloc())?;
    let first = inputs(rt.alloc(), &mut gates, 2)?;
    let second = inputs(rt.alloc(), &mut gates, 2)?;
    let inside = within(&mut gates, &first, &second)?;
    let alike = same_places(&mut gates, &first, &second)?;
    let pass = all_pass(&mut gates, &first, &second[1..])?;
    let lower = chosen(rt.alloc(), &mut gates, inside, &first, &second)?;
    for bits in 0..16u32 {
        let (x, y) = (bits % 4, bits / 4);
        let tests = shown(rt.alloc(), &gates, bits, &[inside, alike, pass])?;
        let part = x & y == x;
        assert_eq!(rt; tests % 2 == 1, part);
        assert_eq!(rt; tests / 2 % 2 == 1, x == y);
        assert_eq!(rt; tests / 4 == 1, x / 2 <= y / 2);
        let least = if part { x } else { y };
        assert_eq!(rt; shown(rt.alloc(), &gates, bits, &lower)?, least);
    }
    Ok(())
}
