ghost use Rattle.std.specs.Prelude.{◌≡◌, ◌∷◌, ◌++◌, [], length, OnOk, OnErr};
ghost use Rattle.indexmap.specs.IndexMap.{get, IsUnchanged};
ghost use Rattle.declared_names.specs.Firsts.{same_key, NotesFirst};
ghost use Rattle.declared_names.specs.Lookups.{place_in};

use indexmap::IndexMap;
use no_memory::NoMemory;
use std::alloc::Global;
use std::marker::Model;

/// A name, and the number of the class that it is declared in; 0 for a class or a parameter.
#[derive(Clone, Copy, PartialEq, Eq, Hash)]
struct Key<'t> {
    owner: usize,
    name: &'t [u8],
}

/// Notes where a key stands, unless an earlier place is noted.
#[tactic(auto, using(crate::proofs::Firsts::firsts))]
fn note_first<'t>(
    firsts: &mut IndexMap<Key<'t>, usize>,
    key: Key<'t>,
    place: usize,
) -> Result<(), NoMemory>
    ensures noted { OnOk result (NotesFirst (get same_key firsts.old) (get same_key firsts.new) key.entry place) }
    ensures refused { OnErr result (IsUnchanged firsts.old firsts.new) }
{
    if !firsts.contains_key(&key) {
        firsts.insert(key, place)?;
    }
    Ok(())
}

/// Names that are declared, in text order, with the numbers of their owners. One name may stand there more than once.
#[derive(Drop)]
pub struct Names<'t> {
    keys: Vec<Key<'t>>,
    /// Where each key stands first.
    firsts: IndexMap<Key<'t>, usize>,
}

impl<'t> Model for Names<'t> {
    ghost use Rattle.std.specs.Prelude.{List, ℕ, map};

    ghost Value = { List (ℕ × List ℕ) };

    ghost use Rattle.indexmap.specs.IndexMap.{get};
    ghost use Rattle.declared_names.specs.Firsts.{same_key, TellsFirsts};

    ghost view = { λ n. map (λ k. (k.owner, k.name.now)) n.keys.items };

    ghost invariant = { λ n. TellsFirsts (get same_key n.firsts) n.keys.items };
}

impl<'t> Names<'t> {
    /// No names.
    pub fn new(alloc: Global) -> Names<'t>
        ensures { result ≡ [] }
    {
        Names {
            keys: Vec::new(alloc),
            firsts: IndexMap::new(alloc),
        }
    }

    /// How many there are.
    pub fn len(&self) -> usize
        ensures { result ≡ length self.now }
    {
        self.keys.len()
    }

    /// The place of the first declaration of the name, counted from 0.
    pub fn place(&self, owner: usize, name: &[u8]) -> Option<usize>
        ensures { result ≡ place_in self.now owner name.now }
    {
        self.firsts.get(&Key { owner, name }).copied()
    }

    /// One more name.
    pub fn push(&mut self, owner: usize, name: &'t [u8]) -> Result<(), NoMemory>
        ensures added { OnOk result (self.new ≡ self.old ++ (owner, name.now) ∷ []) }
        ensures refused { OnErr result (self.new ≡ self.old) }
    {
        let key = Key { owner, name };
        self.keys.reserve(1)?;
        note_first(&mut self.firsts, key, self.keys.len())?;
        self.keys.push(key)?;
        Ok(())
    }
}
