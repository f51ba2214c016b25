ghost use Rattle.std.specs.Prelude.{◌≡◌, ℕ, ◌+◌, ◌*◌, ◌≤◌, Bool, not, ◌&&◌, ◌||◌, All, length, IfOk};
ghost use Rattle.gate_core.specs.Circuit.{IsOf, Keeps};
ghost use Rattle.gate_arith.specs.Operations.{IsTruth};
ghost use Rattle.gate_sets.specs.Lists.{at, in_row, AreTruths};
ghost use Rattle.gate_sets.specs.Shapes.{has_object, are_many, is_only, is_within, joined_set, joined_only};

use crate::rows::{joined, within};
use gate_arith::{both, either};
use gate_core::{Gate, Gates};
use no_memory::NoMemory;
use std::alloc::Global;

/// A set joined with a relation: the references that the relation has at the objects of the set. A
/// relation has a row for each object, with null's place first. Two nodes for each gate of the
/// relation.
#[tactic(auto, using(gate_core::proofs::Values::growing))]
pub fn join(
    alloc: Global,
    gates: &mut Gates,
    objects: u8,
    set: &[Gate],
    relation: &[Gate],
) -> Result<Vec<Gate>, NoMemory>
    requires set { All (IsOf gates.old) set.now }
    requires relation { All (IsOf gates.old) relation.now }
    requires wide { length set.now ≡ objects + 1 }
    requires long { length relation.now ≡ objects * (objects + 1) }
    ensures joined { IfOk result (λ r. AreTruths gates.new (objects + 1) (λ inputs i. joined_set objects gates.old set.now relation.now inputs i) r.items) }
    ensures keeps { Keeps gates.old gates.new }
{
    let (_, chosen) = set.split_at(1);
    let places = joined(alloc, gates, chosen, relation, usize::from(objects) + 1)?;
    Ok(places)
}

/// Whether more than one gate of a list is true.
#[tactic(auto, using(gate_core::proofs::Values::growing, crate::proofs::Standing::reading, crate::proofs::Places::truths_none))]
fn many(gates: &mut Gates, list: &[Gate]) -> Result<Gate, NoMemory>
    requires { All (IsOf gates.old) list.now }
    ensures many { IfOk result (IsTruth gates.new (λ inputs. are_many (length list.now) (at gates.old list.now inputs))) }
    ensures keeps { Keeps gates.old gates.new }
{
    let mut some = gates.constant(false);
    let mut many = some;
    for place in 0..list.len() {
        let x = list[place];
        let again = both(gates, x, some)?;
        many = either(gates, many, again)?;
        some = either(gates, some, x)?;
    }
    Ok(many)
}

/// Of each object whether it is the only one of a set. At most four nodes for each object.
#[tactic(auto, using(gate_core::proofs::Values::growing, crate::proofs::Standing::reading, crate::proofs::Places::truths_none))]
pub fn only(
    alloc: Global,
    gates: &mut Gates,
    objects: u8,
    set: &[Gate],
) -> Result<Vec<Gate>, NoMemory>
    requires set { All (IsOf gates.old) set.now }
    requires wide { length set.now ≡ objects + 1 }
    ensures only { IfOk result (λ r. AreTruths gates.new objects (λ inputs o. is_only objects (has_object (at gates.old set.now inputs)) o) r.items) }
    ensures keeps { Keeps gates.old gates.new }
{
    let (_, list) = set.split_at(1);
    let several = many(gates, list)?;
    let mut only = Vec::with_capacity(alloc, list.len())?;
    for place in 0..list.len() {
        let x = list[place];
        let gate = both(gates, x, several.not())?;
        only.push(gate)?;
    }
    Ok(only)
}

/// What rows of one width, one for each object, have at the only object of a set: a number's bits, or
/// a flag at width 1. All false where the set has no only object. Two nodes for each gate of the rows,
/// besides those of `only`.
#[tactic(auto, using(gate_core::proofs::Values::growing))]
pub fn at_only(
    alloc: Global,
    gates: &mut Gates,
    objects: u8,
    set: &[Gate],
    rows: &[Gate],
    width: usize,
) -> Result<Vec<Gate>, NoMemory>
    requires set { All (IsOf gates.old) set.now }
    requires rows { All (IsOf gates.old) rows.now }
    requires wide { length set.now ≡ objects + 1 }
    requires long { length rows.now ≡ objects * width }
    ensures found { IfOk result (λ r. AreTruths gates.new width (λ inputs i. joined_only objects width gates.old set.now rows.now inputs i) r.items) }
    ensures keeps { Keeps gates.old gates.new }
{
    let chosen = only(alloc, gates, objects, set)?;
    let places = joined(alloc, gates, &chosen, rows, width)?;
    Ok(places)
}

/// Whether each object of a set passes the gate that is given for it. Two nodes for each object.
pub fn all_pass(gates: &mut Gates, set: &[Gate], passing: &[Gate]) -> Result<Gate, NoMemory>
    requires set { All (IsOf gates.old) set.now }
    requires passing { All (IsOf gates.old) passing.now }
    requires wide { length set.now ≡ length passing.now + 1 }
    ensures within { IfOk result (IsTruth gates.new (λ inputs. is_within (length passing.now) (has_object (at gates.old set.now inputs)) (at gates.old passing.now inputs))) }
    ensures keeps { Keeps gates.old gates.new }
{
    let (_, list) = set.split_at(1);
    let gate = within(gates, list, passing)?;
    Ok(gate)
}
