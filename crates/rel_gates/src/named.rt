ghost use Rattle.std.specs.Prelude.{◌≡◌, ◌&&◌, ◌∷◌, ◌++◌, ◌<◌, [], None, Some, length, map, slice_get, option_map, OnOk, OnErr};
ghost use Rattle.rel_core.specs.Reading.{same_what as same_what_lem, same_relation as same_relation_lem};
ghost use Rattle.rel_gates.specs.Shown.{gates_of};
ghost use Rattle.rel_gates.specs.Naming.{IsOnce};

use gate_core::Gate;
use no_memory::NoMemory;
use rel_core::{RelVar, What};
use std::alloc::Global;
use std::marker::Model;

/// A relation with its gates.
#[derive(Drop)]
struct Entry {
    relation: RelVar,
    gates: Vec<Gate>,
}

/// Relations, each with its gates, in the order in which they were named.
#[derive(Drop)]
pub(crate) struct Relations {
    entries: Vec<Entry>,
}

impl Model for Relations {
    ghost use Rattle.std.specs.Prelude.{List, ℕ, map};
    ghost use Rattle.rel_core.specs.declared.relation.RelVar.{RelVar};

    ghost Value = { List (RelVar × List ℕ) };

    ghost use Rattle.rel_gates.specs.Naming.{IsOnce};

    ghost view = { λ n. map (λ e. (e.relation, e.gates.items)) n.entries.items };

    ghost invariant = { λ n. IsOnce (map (λ e. (e.relation, e.gates.items)) n.entries.items) };
}

fn same_what(a: What, b: What) -> bool
    ensures { result ≡ same_what_lem a b }
{
    match (a, b) {
        (What::Live, What::Live) | (What::ClassOf, What::ClassOf) => true,
        (What::Field(f), What::Field(g)) => f == g,
        (What::Slot(x), What::Slot(y)) => x == y,
        _ => false,
    }
}

fn same_relation(a: RelVar, b: RelVar) -> bool
    ensures { result ≡ same_relation_lem a b }
{
    same_what(a.what, b.what) && a.index == b.index
}

/// The gates that stand first for a relation.
fn find_in(entries: &[Entry], relation: RelVar) -> Option<&[Gate]>
    ensures { option_map (λ gates. gates.now) result ≡ gates_of (map (λ e. (e.relation, e.gates.items)) entries.now) relation }
{
    for entry in entries {
        if same_relation(entry.relation, relation) {
            return Some(entry.gates.as_slice());
        }
    }
    None
}

impl Relations {
    /// No relation.
    pub(crate) fn new(alloc: Global) -> Relations
        ensures { result ≡ [] }
    {
        Relations {
            entries: Vec::new(alloc),
        }
    }

    /// The gates of a relation, where it is named.
    pub(crate) fn find(&self, relation: RelVar) -> Option<&[Gate]>
        ensures { option_map (λ gates. gates.now) result ≡ gates_of self.now relation }
    {
        find_in(self.entries.as_slice(), relation)
    }

    /// How many relations are named.
    pub(crate) fn len(&self) -> usize
        ensures count { result ≡ length self.now }
        ensures once { IsOnce self.now }
    {
        self.entries.len()
    }

    /// The relation at a place, and its gates.
    pub(crate) fn at(&self, place: usize) -> (RelVar, &[Gate])
        requires { place < length self.now }
        ensures { slice_get self.now place ≡ Some (result.0, result.1.now) }
    {
        let entry = &self.entries[place];
        (entry.relation, entry.gates.as_slice())
    }

    /// One relation more, which is not named.
    pub(crate) fn push(&mut self, relation: RelVar, gates: Vec<Gate>) -> Result<(), NoMemory>
        requires new { gates_of self.old relation ≡ None }
        ensures added { OnOk result (self.new ≡ self.old ++ (relation, gates.items) ∷ []) }
        ensures refused { OnErr result (self.new ≡ self.old) }
    {
        self.entries.push(Entry { relation, gates })?;
        Ok(())
    }
}
