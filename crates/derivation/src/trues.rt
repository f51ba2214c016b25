ghost use Rattle.std.specs.Prelude.{◌≡◌, ℕ, ◌<◌, false, [], ◌∷◌, ◌++◌, length, slice_index_or, OnOk, OnErr};
ghost use Rattle.cnf_core.specs.Trues.{is_true, AreMarks};

use cnf_core::Lit;
use no_memory::NoMemory;
use std::alloc::Global;
use std::marker::Model;

/// The literals made true so far, in the order in which they were. A table by their numbers answers
/// at once whether one is among them; it grows with the greatest number.
#[derive(Drop)]
pub(crate) struct Trues {
    marks: Vec<bool>,
    trail: Vec<Lit>,
}

impl Model for Trues {
    ghost use Rattle.std.specs.Prelude.{ℕ, List};
    ghost use Rattle.cnf_core.specs.Trues.{AreMarks};

    ghost Value = { List ℕ };

    ghost view = { λ trues. trues.trail.items };

    ghost invariant = { λ trues. AreMarks trues.marks.items trues.trail.items };
}

impl Trues {
    pub(crate) fn new(alloc: Global) -> Trues
        ensures { result ≡ [] }
    {
        Trues {
            marks: Vec::new(alloc),
            trail: Vec::new(alloc),
        }
    }

    /// Whether the literal is among them.
    pub(crate) fn holds(&self, lit: Lit) -> bool
        ensures { result ≡ is_true self.now lit }
    {
        let number = lit.number() as usize;
        number < self.marks.len() && self.marks[number]
    }

    /// Makes the literal true. Without memory nothing changes.
    pub(crate) fn set(&mut self, lit: Lit) -> Result<(), NoMemory>
        ensures ok { OnOk result (self.new ≡ self.old ++ lit ∷ []) }
        ensures err { OnErr result (self.new ≡ self.old) }
    {
        let number = lit.number() as usize;
        reach(&mut self.marks, number)?;
        self.trail.push(lit)?;
        self.marks[number] = true;
        Ok(())
    }

    /// Takes all of them back, in as many steps as there are.
    pub(crate) fn clear(&mut self)
        ensures { self.new ≡ [] }
    {
        unmark(&mut self.marks, self.trail.as_slice());
        self.trail.clear();
    }
}

/// Makes the table long enough for this number. What is added marks nothing.
fn reach(marks: &mut Vec<bool>, number: usize) -> Result<(), NoMemory>
    ensures reached { OnOk result (number < length marks.new.items) }
    ensures same { (k : ℕ) → slice_index_or marks.new.items k false ≡ slice_index_or marks.old.items k false }
{
    while marks.len() <= number {
        marks.push(false)?;
    }
    Ok(())
}

/// Takes the marks of these literals away.
fn unmark(marks: &mut Vec<bool>, lits: &[Lit])
    requires { AreMarks marks.old.items lits.now }
    ensures { AreMarks marks.new.items [] }
{
    for lit in lits {
        let number = lit.number() as usize;
        if number < marks.len() {
            marks[number] = false;
        }
    }
}
