ghost use Rattle.std.specs.Prelude.{◌≡◌, ℕ, ◌+◌, ◌*◌, ◌<◌, ◌≤◌, ◌^◌, Bool, Some, None, [], ◌∷◌, ◌++◌, List, length, take, min, All, IfOk};
ghost use Rattle.cnf_core.specs.Literal.{IsOver};
ghost use Rattle.sat_watch.specs.Trail.{literals, levels, up_to, IsFront, Rises};
ghost use Rattle.cnf_core.specs.Trues.{is_true, AreMarks};
ghost use Rattle.sat_watch.specs.Literals.{value_of, IsOpen, AreApart};

use cnf_core::Lit;
use no_memory::NoMemory;
use std::alloc::Global;
use std::marker::Model;

/// A literal that was made true, at which level, and by the clause of which number where it was
/// forced: all other literals of that clause were false. A decision has no reason.
#[derive(Clone, Copy, Debug, PartialEq, Eq)]
pub struct Entry {
    pub lit: Lit,
    pub level: u32,
    pub reason: Option<u32>,
}

/// The literals that were made true, in order. A decision opens a level; what it forces is of the
/// same level. Entries are gone through one after the other by propagation.
#[derive(Drop)]
pub struct Trail {
    vars: u32,
    entries: Vec<Entry>,
    /// By the number of a literal, whether it is true.
    truths: Vec<bool>,
    level: u32,
    /// How many entries propagation has gone through.
    passed: usize,
}

impl Model for Trail {
    ghost use Rattle.std.specs.Prelude.{◌≤◌, vec_capacity};
    ghost use Rattle.sat_watch.specs.Trail.{TrailState, IsMarked};

    ghost Value = { TrailState };

    ghost view = { λ t. record { vars = t.vars; entries = t.entries.items; level = t.level; passed = t.passed } };

    ghost invariant = { λ t. (IsMarked (record { vars = t.vars; entries = t.entries.items; level = t.level; passed = t.passed }) t.truths.items) × (t.vars ≤ vec_capacity t.entries) };
}

impl Trail {
    ghost use Rattle.sat_watch.specs.Trail.{TrailState, IsSound};
    ghost use Rattle.sat_watch.specs.Watching.{WatchState, Right};

    /// The empty trail over the variables 1 to `vars`, at level 0, with room for each of them: no
    /// other call takes memory. The cost is the number of variables.
    pub fn new(alloc: Global, vars: u32) -> Result<Trail, NoMemory>
        requires { vars < 2 ^ 31 }
        ensures { IfOk result (λ t. t ≡ record { vars = vars; entries = []; level = 0; passed = 0 }) }
    {
        Ok(Trail {
            vars,
            entries: Vec::with_capacity(alloc, vars as usize)?,
            truths: vec![in alloc; false; 2 * (vars as usize + 1)]?,
            level: 0,
            passed: 0,
        })
    }

    /// How many variables there are.
    pub fn vars(&self) -> u32
        ensures { result ≡ self.now.vars }
    {
        self.vars
    }

    /// The entries in order.
    pub fn entries(&self) -> &[Entry]
        ensures value { result.now ≡ self.now.entries }
        ensures sound { IsSound self.now }
    {
        &self.entries
    }

    /// The present level.
    pub fn level(&self) -> u32
        ensures { result ≡ self.now.level }
    {
        self.level
    }

    /// How many entries propagation has gone through.
    pub fn passed(&self) -> usize
        ensures { result ≡ self.now.passed }
    {
        self.passed
    }

    /// The value of a variable: a look-up. None exactly where it has none.
    pub fn value(&self, var: u32) -> Option<bool>
        requires from_one { 0 < var }
        requires within { var ≤ self.now.vars }
        ensures { result ≡ value_of (literals self.now.entries) var }
    {
        if self.truths[2 * var as usize] {
            Some(true)
        } else if self.truths[2 * var as usize + 1] {
            Some(false)
        } else {
            None
        }
    }

    /// Whether a literal is true: a look-up.
    pub fn is_true(&self, lit: Lit) -> bool
        requires { IsOver self.now.vars lit }
        ensures value { result ≡ is_true (literals self.now.entries) lit }
        ensures sound { IsSound self.now }
    {
        self.truths[lit.number() as usize]
    }

    /// Opens the next level with a literal that has no value, where all entries have been gone
    /// through. It takes constant time.
    pub fn decide(&mut self, lit: Lit)
        requires over { IsOver self.old.vars lit }
        requires unset { IsOpen (literals self.old.entries) lit }
        requires passed { self.old.passed ≡ length self.old.entries }
        ensures adds { self.new ≡ record self.old { entries = self.old.entries ++ record { lit = lit; level = self.old.level + 1; reason = None } ∷ []; level = self.old.level + 1 } }
        ensures right { (w : WatchState) → Right w self.old → Right w self.new }
    {
        self.entries.push_reserved(Entry {
            lit,
            level: self.level + 1,
            reason: None,
        });
        self.truths[lit.number() as usize] = true;
        self.level += 1;
    }

    /// Makes a literal that has no value true at the present level, for this reason: the number of
    /// a clause, if any. It takes constant time.
    pub fn set(&mut self, lit: Lit, reason: Option<u32>)
        requires over { IsOver self.old.vars lit }
        requires unset { IsOpen (literals self.old.entries) lit }
        ensures adds { self.new ≡ record self.old { entries = self.old.entries ++ record { lit = lit; level = self.old.level; reason = reason } ∷ [] } }
        ensures sound { IsSound self.new }
        ensures right { (w : WatchState) → Right w self.old → Right w self.new }
    {
        self.entries.push_reserved(Entry {
            lit,
            level: self.level,
            reason,
        });
        self.truths[lit.number() as usize] = true;
    }

    /// Takes away the entries of greater levels, of which each loses its value. What is left and had
    /// not been gone through still is to be. The cost is the number of entries taken away.
    pub fn back_to(&mut self, level: u32)
        requires { level ≤ self.old.level }
        ensures entries { self.new.entries ≡ up_to level self.old.entries }
        ensures front { IsFront level self.new.entries self.old.entries }
        ensures level { self.new.level ≡ level }
        ensures passed { self.new.passed ≡ min self.old.passed (length self.new.entries) }
        ensures vars { self.new.vars ≡ self.old.vars }
        ensures right { (w : WatchState) → Right w self.old → Right w self.new }
    {
        let kept = unset_above(&self.entries, &mut self.truths, level, self.level);
        self.entries.truncate(kept);
        self.level = level;
        self.passed = self.passed.min(kept);
    }

    /// Takes note that one entry more has been gone through.
    pub(crate) fn pass(&mut self)
        requires { self.old.passed < length self.old.entries }
        ensures { self.new ≡ record self.old { passed = self.old.passed + 1 } }
    {
        self.passed += 1;
    }
}

/// Takes the mark of each entry above a level. Answers how many entries are not above it.
fn unset_above(entries: &[Entry], truths: &mut Vec<bool>, level: u32, top: u32) -> usize
    requires apart { AreApart (literals entries.now) }
    requires rises { Rises 0 (levels entries.now) top }
    requires marked { AreMarks truths.old.items (literals entries.now) }
    requires places { All (λ lit. lit < length truths.old.items) (literals entries.now) }
    ensures kept { take result entries.now ≡ up_to level entries.now }
    ensures within { result ≤ length entries.now }
    ensures marked { AreMarks truths.new.items (literals (take result entries.now)) }
    ensures length { length truths.new.items ≡ length truths.old.items }
{
    let mut kept = entries.len();
    while kept > 0 && entries[kept - 1].level > level {
        kept -= 1;
        truths[entries[kept].lit.number() as usize] = false;
    }
    kept
}
