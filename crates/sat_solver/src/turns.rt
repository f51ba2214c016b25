ghost use Rattle.std.specs.Prelude.{◌≡◌, ℕ, ◌+◌, ◌*◌, ◌<◌, List, [], All, length, slice_index_or, IfOk, OnOk, IfSome, IfNone};
ghost use Rattle.sat_watch.specs.Propagation.{IsFalse, IsQuiet};
ghost use Rattle.sat_watch.specs.Trail.{literals, IsSound};
ghost use Rattle.derivation.specs.Propagation.{Follows};
ghost use Rattle.sat_analysis.specs.Noted.{IsNoted};
ghost use Rattle.sat_solver.specs.Search.{known_by};

use crate::answer::SatAnswer;
use crate::search::Search;
use crate::tables::values_of;
use derivation::Line;
use no_memory::NoMemory;
use sat_analysis::{Marks, Notes, refute};
use sat_watch::{Trail, Watches};
use std::alloc::Global;

impl Search {
    ghost use Rattle.sat_solver.specs.Answers.{IsAnswer, IsWithin, GoesOn};
    ghost use Rattle.sat_solver.specs.Steps.{IsSearch};
    ghost use Rattle.sat_solver.specs.declared.answer.SatAnswer.TheVariants.{Refuted as refuted};

    /// Turns until there is an answer.
    pub(crate) fn run(&mut self, alloc: Global, budget: u64) -> Result<SatAnswer, NoMemory>
        requires search { IsSearch self.old }
        requires within { IsWithin budget self.old.log }
        ensures answer { IfOk result (IsAnswer self.new.cnf self.new.log budget) }
        ensures cnf { OnOk result (self.new.cnf ≡ self.old.cnf) }
    {
        'turns: loop {
            if let Some(answer) = self.turn(alloc, budget)? {
                return Ok(answer);
            }
        }
    }

    /// Propagates, and then learns from a conflict or decides, unless it has the answer.
    pub(crate) fn turn(&mut self, alloc: Global, budget: u64) -> Result<Option<SatAnswer>, NoMemory>
        requires search { IsSearch self.old }
        requires within { IsWithin budget self.old.log }
        ensures goes_on { IfOk result (λ answer. IfNone answer (GoesOn budget self.old self.new)) }
        ensures answers { IfOk result (λ answer. IfSome answer (IsAnswer self.new.cnf self.new.log budget)) }
        ensures cnf { OnOk result (self.new.cnf ≡ self.old.cnf) }
    {
        match self.propagate() {
            Some(clause) => self.turn_back(alloc, clause, budget),
            None => self.go_on(alloc, budget),
        }
    }

    /// Learns from a clause that is false, unless it refutes the formula or the budget is spent.
    fn turn_back(
        &mut self,
        alloc: Global,
        clause: u32,
        budget: u64,
    ) -> Result<Option<SatAnswer>, NoMemory>
        requires search { IsSearch self.old }
        requires sound { IsSound self.old.trail }
        requires within { IsWithin budget self.old.log }
        requires known { clause < length self.old.watches.clauses }
        requires conflict { IsFalse (literals self.old.trail.entries) (slice_index_or self.old.watches.clauses clause []) }
        ensures goes_on { IfOk result (λ answer. IfNone answer (GoesOn budget self.old self.new)) }
        ensures answers { IfOk result (λ answer. IfSome answer (IsAnswer self.new.cnf self.new.log budget)) }
        ensures cnf { OnOk result (self.new.cnf ≡ self.old.cnf) }
    {
        if self.trail.level() == 0 {
            self.refute_by(alloc, clause, budget)?;
            return Ok(Some(SatAnswer::Refuted));
        }
        if budget > 0 && self.log.lines().len() as u64 >= budget {
            return Ok(Some(SatAnswer::Spent));
        }
        self.learn_in_time(alloc, clause)?;
        Ok(None)
    }

    /// Learns from a clause that is false at a level above 0, and now and then begins again from
    /// level 0.
    fn learn_in_time(&mut self, alloc: Global, clause: u32) -> Result<(), NoMemory>
        ghost clauses: { List (List ℕ) }
        requires are_known { clauses ≡ known_by self.old.cnf self.old.log }
        requires search { IsSearch self.old }
        requires above { 0 < self.old.trail.level }
        requires known { clause < length self.old.watches.clauses }
        requires conflict { IsFalse (literals self.old.trail.entries) (slice_index_or self.old.watches.clauses clause []) }
        ensures search { OnOk result (IsSearch self.new) }
        ensures cnf { OnOk result (self.new.cnf ≡ self.old.cnf) }
        ensures longer { OnOk result (length self.new.log ≡ length self.old.log + 1) }
    {
        self.learn(alloc, clause)?;
        if self.pace.is_over() {
            self.back_to(0);
        }
        Ok(())
    }

    /// Adds the empty line, by a clause that is false at level 0.
    fn refute_by(&mut self, alloc: Global, clause: u32, budget: u64) -> Result<(), NoMemory>
        ghost clauses: { List (List ℕ) }
        requires are_known { clauses ≡ known_by self.old.cnf self.old.log }
        requires search { IsSearch self.old }
        requires root { self.old.trail.level ≡ 0 }
        requires within { IsWithin budget self.old.log }
        requires known { clause < length self.old.watches.clauses }
        requires conflict { IsFalse (literals self.old.trail.entries) (slice_index_or self.old.watches.clauses clause []) }
        ensures answer { OnOk result (IsAnswer self.new.cnf self.new.log budget refuted) }
        ensures cnf { OnOk result (self.new.cnf ≡ self.old.cnf) }
    {
        let line = empty_line(
            alloc,
            &mut self.marks,
            &self.watches,
            &self.trail,
            &self.notes,
            clause,
        )?;
        self.log.push(line)?;
        Ok(())
    }

    /// Decides, unless all variables have values.
    fn go_on(&mut self, alloc: Global, budget: u64) -> Result<Option<SatAnswer>, NoMemory>
        requires search { IsSearch self.old }
        requires sound { IsSound self.old.trail }
        requires within { IsWithin budget self.old.log }
        requires passed { self.old.trail.passed ≡ length self.old.trail.entries }
        requires quiet { All (IsQuiet (literals self.old.trail.entries)) self.old.watches.clauses }
        ensures goes_on { IfOk result (λ answer. IfNone answer (GoesOn budget self.old self.new)) }
        ensures answers { IfOk result (λ answer. IfSome answer (IsAnswer self.new.cnf self.new.log budget)) }
        ensures cnf { OnOk result (self.new.cnf ≡ self.old.cnf) }
    {
        match self.queue.next_from_cursor(&self.set) {
            Some(var) => {
                self.decide(var);
                Ok(None)
            }
            None => {
                let values = values_of(alloc, &self.trail)?;
                Ok(Some(SatAnswer::Satisfied(values)))
            }
        }
    }
}

/// The empty line, by a clause of the watches that is false at level 0.
fn empty_line(
    alloc: Global,
    marks: &mut Marks,
    watches: &Watches,
    trail: &Trail,
    notes: &Notes,
    clause: u32,
) -> Result<Line, NoMemory>
    ghost known: { List (List ℕ) }
    requires noted { IsNoted known watches.now trail.now notes.now }
    requires unmarked { marks.old ≡ record { places = 2 * (trail.now.vars + 1); lits = [] } }
    requires root { trail.now.level ≡ 0 }
    requires within { clause < length watches.now.clauses }
    requires conflict { IsFalse (literals trail.now.entries) (slice_index_or watches.now.clauses clause []) }
    ensures follows { IfOk result (Follows known) }
    ensures empty { IfOk result (λ line. line.clause ≡ []) }
{
    let lits = watches.lits(clause);
    let number = notes.numbers[clause as usize];
    refute(alloc, marks, watches, trail, notes, lits, number)
}
