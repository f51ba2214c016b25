ghost use Rattle.std.specs.Prelude.{◌≡◌, ℕ, ◌+◌, ◌-◌, ◌*◌, ◌^◌, ◌<◌, ◌≤◌, ◌==◌, true, false, if◌then◌else◌, List, [], ◌∷◌, ◌++◌, All, length, take, slice_index_or, IfOk, OnOk, IfSome, IfNone};
ghost use Rattle.cnf_core.specs.Literal.{IsOver};
ghost use Rattle.sat_solver.specs.Search.{known_by};
ghost use Rattle.cnf_core.specs.Trues.{is_true};
ghost use Rattle.sat_watch.specs.Propagation.{IsFalse, IsQuiet, Grows};
ghost use Rattle.sat_watch.specs.Trail.{literals, levels, up_to, IsSound};

use crate::pace::Pace;
use crate::tables::{bump_all, next_number, note_entries, release, values_of};
use cnf_core::{Cnf, Lit};
use derivation::{Line, Log};
use no_memory::NoMemory;
use sat_analysis::{Learnt, Marks, Minimiser, Notes};
use sat_order::Queue;
use sat_watch::{Trail, Watches};
use std::alloc::Global;

/// The state of a search.
#[derive(Drop)]
pub(crate) struct Search {
    pub(crate) cnf: Cnf,
    pub(crate) log: Log,
    pub(crate) watches: Watches,
    pub(crate) trail: Trail,
    pub(crate) notes: Notes,
    pub(crate) marks: Marks,
    pub(crate) minimiser: Minimiser,
    pub(crate) queue: Queue,
    /// By variable from 1 on, whether it has a value.
    pub(crate) set: Vec<bool>,
    /// By variable from 1 on, the value that it had last.
    pub(crate) phases: Vec<bool>,
    pub(crate) pace: Pace,
}

impl Search {
    ghost use Rattle.sat_solver.specs.Steps.{IsAsserting, IsSearch, Stays};

    /// Makes true what follows, and notes it. Answers a clause that is false, if there is one.
    pub(crate) fn propagate(&mut self) -> Option<u32>
        requires { IsSearch self.old }
        ensures search { IsSearch self.new }
        ensures stays { Stays self.old self.new }
        ensures sound { IsSound self.new.trail }
        ensures known { IfSome result (λ clause. clause < length self.new.watches.clauses) }
        ensures conflict { IfSome result (λ clause. IsFalse (literals self.new.trail.entries) (slice_index_or self.new.watches.clauses clause [])) }
        ensures passed { IfNone result (self.new.trail.passed ≡ length self.new.trail.entries) }
        ensures quiet { IfNone result (All (IsQuiet (literals self.new.trail.entries)) self.new.watches.clauses) }
    {
        let from = self.trail.entries().len();
        let conflict = self.watches.propagate(&mut self.trail);
        note_entries(
            &self.trail,
            &mut self.notes.levels,
            &mut self.set,
            &mut self.minimiser,
            from,
        );
        conflict
    }

    /// Opens a level with a variable that has no value, and gives it the value that it had last.
    pub(crate) fn decide(&mut self, var: u32)
        requires search { IsSearch self.old }
        requires passed { self.old.trail.passed ≡ length self.old.trail.entries }
        requires quiet { All (IsQuiet (literals self.old.trail.entries)) self.old.watches.clauses }
        requires from_one { 0 < var }
        requires within { var ≤ self.old.trail.vars }
        requires free { slice_index_or self.old.set.items (var - 1) false ≡ false }
        ensures search { IsSearch self.new }
        ensures level { self.new.trail.level ≡ self.old.trail.level + 1 }
        ensures room { self.old.trail.level < self.old.trail.vars }
        ensures cnf { self.new.cnf ≡ self.old.cnf }
        ensures log { self.new.log ≡ self.old.log }
    {
        let lit = with_phase(var, self.phases[var as usize - 1]);
        let from = self.trail.entries().len();
        self.trail.decide(lit);
        note_entries(
            &self.trail,
            &mut self.notes.levels,
            &mut self.set,
            &mut self.minimiser,
            from,
        );
    }

    /// Goes back to a level.
    pub(crate) fn back_to(&mut self, level: u32)
        requires search { IsSearch self.old }
        requires below { level ≤ self.old.trail.level }
        ensures search { IsSearch self.new }
        ensures entries { self.new.trail.entries ≡ up_to level self.old.trail.entries }
        ensures level { self.new.trail.level ≡ level }
        ensures vars { self.new.trail.vars ≡ self.old.trail.vars }
        ensures notes { self.new.notes ≡ self.old.notes }
        ensures cnf { self.new.cnf ≡ self.old.cnf }
        ensures log { self.new.log ≡ self.old.log }
    {
        let top = self.trail.level();
        let vars = self.trail.vars();
        release(
            self.trail.entries(),
            &mut self.queue,
            &mut self.set,
            &mut self.phases,
            vars,
            level,
            top,
        );
        self.trail.back_to(level);
    }

    /// Takes up a line with two literals at least, and makes the first one true by it.
    fn hold_many(&mut self, line: Line, lits: &[Lit], number: u32) -> Result<(), NoMemory>
        requires search { IsSearch self.old }
        requires asserting { IsAsserting (known_by self.old.cnf self.old.log) self.old.trail self.old.notes.levels.items line lits.now }
        requires many { 1 < length lits.now }
        requires number { number ≡ length (known_by self.old.cnf self.old.log) + 1 }
        ensures search { OnOk result (IsSearch self.new) }
        ensures cnf { OnOk result (self.new.cnf ≡ self.old.cnf) }
        ensures log { OnOk result (self.new.log ≡ self.old.log ++ line ∷ []) }
    {
        let from = self.trail.entries().len();
        let clause = self.watches.add(lits)?;
        self.notes.numbers.push(number)?;
        self.log.push(line)?;
        self.trail.set(lits[0], Some(clause));
        self.watches.watch(clause);
        note_entries(
            &self.trail,
            &mut self.notes.levels,
            &mut self.set,
            &mut self.minimiser,
            from,
        );
        Ok(())
    }

    /// Takes up a line with one literal, and makes it true at level 0.
    fn hold_one(&mut self, line: Line, lits: &[Lit], number: u32) -> Result<(), NoMemory>
        requires search { IsSearch self.old }
        requires asserting { IsAsserting (known_by self.old.cnf self.old.log) self.old.trail self.old.notes.levels.items line lits.now }
        requires one { length lits.now ≡ 1 }
        requires number { number ≡ length (known_by self.old.cnf self.old.log) + 1 }
        ensures search { OnOk result (IsSearch self.new) }
        ensures cnf { OnOk result (self.new.cnf ≡ self.old.cnf) }
        ensures log { OnOk result (self.new.log ≡ self.old.log ++ line ∷ []) }
    {
        let from = self.trail.entries().len();
        self.log.push(line)?;
        self.notes.units[lits[0].var() as usize] = number;
        self.trail.set(lits[0], None);
        note_entries(
            &self.trail,
            &mut self.notes.levels,
            &mut self.set,
            &mut self.minimiser,
            from,
        );
        Ok(())
    }

    /// Learns a line from a clause that is false at a level above 0, goes back, and makes true what the
    /// line forces there.
    pub(crate) fn learn(&mut self, alloc: Global, clause: u32) -> Result<(), NoMemory>
        ghost clauses: { List (List ℕ) }
        requires are_known { clauses ≡ known_by self.old.cnf self.old.log }
        requires search { IsSearch self.old }
        requires above { 0 < self.old.trail.level }
        requires known { clause < length self.old.watches.clauses }
        requires conflict { IsFalse (literals self.old.trail.entries) (slice_index_or self.old.watches.clauses clause []) }
        ensures search { OnOk result (IsSearch self.new) }
        ensures cnf { OnOk result (self.new.cnf ≡ self.old.cnf) }
        ensures longer { OnOk result (length self.new.log ≡ length self.old.log + 1) }
    {
        let Learnt { line, lits, level } = Learnt::of(
            alloc,
            &mut self.minimiser,
            &mut self.marks,
            &self.watches,
            &self.trail,
            &self.notes,
            clause,
        )?;
        bump_all(alloc, &mut self.queue, self.marks.lits(), &self.set)?;
        self.marks.clear();
        let number = next_number(&self.cnf, &self.log)?;
        self.back_to(level);
        if lits.len() == 1 {
            self.hold_one(line, &lits, number)
        } else {
            self.hold_many(line, &lits, number)
        }
    }
}

/// The literal of a variable that is true where the variable has the value.
fn with_phase(var: u32, value: bool) -> Lit
    requires from_one { 0 < var }
    requires small { var < 2 ^ 31 }
    ensures { result ≡ (if value then 2 * var else 2 * var + 1) }
{
    if value {
        Lit::positive(var)
    } else {
        Lit::negative(var)
    }
}
