ghost use Rattle.std.specs.Prelude.{◌≡◌, ℕ, ◌+◌, ◌*◌, ◌^◌, ◌<◌, false, [], ◌∷◌, ◌++◌, length, IfOk, OnOk};
ghost use Rattle.cnf_core.specs.Literal.{IsOver};
ghost use Rattle.cnf_core.specs.Trues.{AreMarks};
ghost use Rattle.sat_watch.specs.Literals.{has, EachOnce};

use cnf_core::Lit;
use no_memory::NoMemory;
use std::alloc::Global;
use std::marker::Model;

/// Literals that are marked, in the order in which they were. A table by their numbers answers at
/// once whether one is among them, and the list undoes the marks in as many steps as there are.
#[derive(Drop)]
pub struct Marks {
    table: Vec<bool>,
    list: Vec<Lit>,
}

impl Model for Marks {
    ghost use Rattle.std.specs.Prelude.{ℕ, ◌+◌, ◌*◌, ◌≡◌, List, length};
    ghost use Rattle.cnf_core.specs.Trues.{AreMarks};
    ghost use Rattle.sat_watch.specs.Literals.{EachOnce};
    ghost use Rattle.sat_analysis.specs.Marked.{Marked};

    ghost Value = { Marked };

    ghost view = { λ m. record { places = length m.table.items; lits = m.list.items } };

    ghost invariant = { λ m. AreMarks m.table.items m.list.items × EachOnce m.list.items };
}

impl Marks {
    /// No marks, with room for the variables 1 to `vars`.
    pub fn new(alloc: Global, vars: u32) -> Result<Marks, NoMemory>
        requires { vars < 2 ^ 31 }
        ensures { IfOk result (λ m. m ≡ record { places = 2 * (vars + 1); lits = [] }) }
    {
        Ok(Marks {
            table: vec![in alloc; false; 2 * (vars as usize + 1)]?,
            list: Vec::new(alloc),
        })
    }

    /// The marked literals, each once.
    pub fn lits(&self) -> &[Lit]
        ensures value { result.now ≡ self.now.lits }
        ensures once { EachOnce result.now }
    {
        self.list.as_slice()
    }

    /// Whether a literal is marked.
    pub fn holds(&self, lit: Lit) -> bool
        requires { lit < self.now.places }
        ensures value { result ≡ has self.now.lits lit }
        ensures once { EachOnce self.now.lits }
    {
        self.table[lit.number() as usize]
    }

    /// Marks a literal that is not marked.
    pub fn add(&mut self, lit: Lit) -> Result<(), NoMemory>
        requires place { lit < self.old.places }
        requires absent { has self.old.lits lit ≡ false }
        ensures adds { OnOk result (self.new ≡ record self.old { lits = self.old.lits ++ lit ∷ [] }) }
        ensures once { OnOk result (EachOnce self.new.lits) }
    {
        self.list.push(lit)?;
        self.table[lit.number() as usize] = true;
        Ok(())
    }

    /// Takes all marks away.
    pub fn clear(&mut self)
        ensures { self.new ≡ record self.old { lits = [] } }
    {
        unmark(&mut self.table, self.list.as_slice());
        self.list.clear();
    }
}

/// Takes the marks of these literals away.
fn unmark(table: &mut Vec<bool>, lits: &[Lit])
    requires { AreMarks table.old.items lits.now }
    ensures marked { AreMarks table.new.items [] }
    ensures length { length table.new.items ≡ length table.old.items }
{
    for lit in lits {
        let number = lit.number() as usize;
        if number < table.len() {
            table[number] = false;
        }
    }
}
