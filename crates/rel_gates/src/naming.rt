ghost use Rattle.std.specs.Prelude.{◌≡◌, ◌<◌, length, slice_get, Some, OnOk};
ghost use Rattle.gate_core.specs.Circuit.{Keeps};
ghost use Rattle.rel_gates.specs.Naming.{Names, NamesFirst};

use crate::inputs::inputs;
use crate::named::Relations;
use gate_core::Gates;
use no_memory::NoMemory;
use rel_core::RelVar;
use std::alloc::Global;

/// Names a relation by so many new inputs, unless it is named.
pub(crate) fn name(
    alloc: Global,
    gates: &mut Gates,
    relations: &mut Relations,
    relation: RelVar,
    count: usize,
) -> Result<(), NoMemory>
    ensures named { OnOk result (Names gates.old gates.new relations.old relations.new relation count) }
    ensures keeps { Keeps gates.old gates.new }
{
    if relations.find(relation).is_some() {
        return Ok(());
    }
    let list = inputs(alloc, gates, count)?;
    relations.push(relation, list)?;
    Ok(())
}

/// The use at a place.
pub(crate) fn use_at(uses: &[(RelVar, usize)], place: usize) -> (RelVar, usize)
    requires { place < length uses.now }
    ensures { slice_get uses.now place ≡ Some result }
{
    uses[place]
}

/// Names each relation of a list by as many new inputs as its use wants, unless it is named.
#[tactic(auto, using(gate_core::proofs::Values::growing))]
pub(crate) fn name_all(
    alloc: Global,
    gates: &mut Gates,
    relations: &mut Relations,
    uses: &[(RelVar, usize)],
) -> Result<(), NoMemory>
    ensures named { OnOk result (NamesFirst gates.old gates.new relations.old relations.new uses.now (length uses.now)) }
    ensures keeps { Keeps gates.old gates.new }
{
    for place in 0..uses.len() {
        let item = use_at(uses, place);
        name(alloc, gates, relations, item.0, item.1)?;
    }
    Ok(())
}
