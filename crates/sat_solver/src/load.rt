ghost use Rattle.std.specs.Prelude.{◌≡◌, ℕ, ◌+◌, ◌*◌, ◌^◌, ◌<◌, ◌≤◌, ◌||◌, ◌==◌, true, false, List, [], ◌∷◌, ◌++◌, All, length, take, slice_index, slice_index_or, IfOk, OnOk, IsTrue};
ghost use Rattle.cnf_core.specs.Literal.{IsOver};
ghost use Rattle.sat_watch.specs.Literals.{has, EachOnce, IsOpen};
ghost use Rattle.sat_watch.specs.Propagation.{IsFalse};
ghost use Rattle.sat_watch.specs.Trail.{literals};
ghost use Rattle.sat_analysis.specs.Noted.{IsNoted};
ghost use Rattle.sat_analysis.specs.Reasons.{IsNumberOf};
ghost use Rattle.sat_solver.specs.Loading.{AreOnce};
ghost use Rattle.sat_solver.specs.Search.{known_by};

use crate::pace::Pace;
use crate::search::Search;
use crate::tables::note_entries;
use cnf_core::{Cnf, Lit};
use derivation::Log;
use no_memory::NoMemory;
use sat_analysis::{Marks, Minimiser, Notes, refute};
use sat_order::Queue;
use sat_watch::{Trail, Watches};
use std::alloc::Global;

impl Search {
    ghost use Rattle.sat_solver.specs.Answers.{IsAnswer};
    ghost use Rattle.sat_solver.specs.Loading.{IsLoading};
    ghost use Rattle.sat_solver.specs.Steps.{IsSearch};
    ghost use Rattle.sat_solver.specs.declared.answer.SatAnswer.TheVariants.{Refuted as refuted};

    /// A search that has taken up no clause yet.
    pub(crate) fn new(alloc: Global, cnf: Cnf) -> Result<Search, NoMemory>
        ensures loading { IfOk result (IsLoading 0) }
        ensures cnf { IfOk result (λ search. search.cnf ≡ cnf) }
    {
        let vars = cnf.vars();
        let watches = Watches::new(alloc, vars)?;
        let trail = Trail::new(alloc, vars)?;
        let notes = Notes {
            numbers: Vec::new(alloc),
            units: vec![in alloc; 0; vars as usize + 1]?,
            levels: vec![in alloc; 0; vars as usize + 1]?,
        };
        let marks = Marks::new(alloc, vars)?;
        let minimiser = Minimiser::new(alloc, vars)?;
        let queue = Queue::new(alloc, vars)?;
        let set = vec![in alloc; false; vars as usize]?;
        let phases = vec![in alloc; false; vars as usize]?;
        Ok(Search {
            cnf,
            log: Log::new(alloc),
            watches,
            trail,
            notes,
            marks,
            minimiser,
            queue,
            set,
            phases,
            pace: Pace::new(),
        })
    }

    /// Takes up all clauses. Answers whether none is false at once; else the log refutes the formula.
    pub(crate) fn load(&mut self, alloc: Global) -> Result<bool, NoMemory>
        requires { IsLoading 0 self.old }
        ensures search { IfOk result (λ all. IsTrue all → IsSearch self.new) }
        ensures none { IfOk result (λ all. IsTrue all → self.new.log ≡ []) }
        ensures answer { IfOk result (λ all. all ≡ false → (budget : ℕ) → IsAnswer self.new.cnf self.new.log budget refuted) }
        ensures cnf { OnOk result (self.new.cnf ≡ self.old.cnf) }
    {
        for place in 0..self.cnf.clauses() {
            if !self.load_clause(alloc, place)? {
                return Ok(false);
            }
        }
        Ok(true)
    }

    /// Takes up the clause at a place, unless it is false at once.
    fn load_clause(&mut self, alloc: Global, place: u32) -> Result<bool, NoMemory>
        requires loading { IsLoading place self.old }
        requires within { place < length self.old.cnf.clauses }
        requires fits { place + 1 < 2 ^ 32 }
        ensures loading { IfOk result (λ held. IsTrue held → IsLoading (place + 1) self.new) }
        ensures answer { IfOk result (λ held. held ≡ false → (budget : ℕ) → IsAnswer self.new.cnf self.new.log budget refuted) }
        ensures cnf { OnOk result (self.new.cnf ≡ self.old.cnf) }
    {
        let lits = distinct(alloc, &mut self.marks, self.cnf.clause(place))?;
        if lits.len() >= 2 {
            self.load_many(&lits, place)?;
            return Ok(true);
        }
        self.load_short(alloc, &lits, place)
    }

    /// Takes up a clause of two literals at least.
    fn load_many(&mut self, lits: &[Lit], place: u32) -> Result<(), NoMemory>
        requires loading { IsLoading place self.old }
        requires within { place < length self.old.cnf.clauses }
        requires fits { place + 1 < 2 ^ 32 }
        requires over { All (IsOver self.old.cnf.vars) lits.now }
        requires clause_over { All (λ clause. All (IsOver self.old.cnf.vars) clause) (take (place + 1) self.old.cnf.clauses) }
        requires are_once { AreOnce (slice_index_or self.old.cnf.clauses place []) lits.now }
        requires many { 2 ≤ length lits.now }
        ensures loading { OnOk result (IsLoading (place + 1) self.new) }
        ensures cnf { OnOk result (self.new.cnf ≡ self.old.cnf) }
    {
        let clause = self.watches.add(lits)?;
        self.notes.numbers.push(place + 1)?;
        self.watches.watch(clause);
        Ok(())
    }

    /// Takes up a clause of one literal or none, unless it is false.
    fn load_short(&mut self, alloc: Global, lits: &[Lit], place: u32) -> Result<bool, NoMemory>
        requires loading { IsLoading place self.old }
        requires within { place < length self.old.cnf.clauses }
        requires fits { place + 1 < 2 ^ 32 }
        requires over { All (IsOver self.old.cnf.vars) lits.now }
        requires clause_over { All (λ clause. All (IsOver self.old.cnf.vars) clause) (take (place + 1) self.old.cnf.clauses) }
        requires are_once { AreOnce (slice_index_or self.old.cnf.clauses place []) lits.now }
        requires few { length lits.now < 2 }
        ensures loading { IfOk result (λ held. IsTrue held → IsLoading (place + 1) self.new) }
        ensures answer { IfOk result (λ held. held ≡ false → (budget : ℕ) → IsAnswer self.new.cnf self.new.log budget refuted) }
        ensures cnf { OnOk result (self.new.cnf ≡ self.old.cnf) }
    {
        if lits.is_empty() {
            self.refute_clause(alloc, lits, place + 1)?;
            return Ok(false);
        }
        if self.trail.is_true(lits[0].negated()) {
            self.refute_clause(alloc, lits, place + 1)?;
            return Ok(false);
        }
        if self.trail.is_true(lits[0]) {
            return Ok(true);
        }
        self.make_root(lits, place);
        Ok(true)
    }

    /// Makes the literal of a clause with one literal true.
    fn make_root(&mut self, lits: &[Lit], place: u32)
        requires loading { IsLoading place self.old }
        requires within { place < length self.old.cnf.clauses }
        requires fits { place + 1 < 2 ^ 32 }
        requires over { All (IsOver self.old.cnf.vars) lits.now }
        requires clause_over { All (λ clause. All (IsOver self.old.cnf.vars) clause) (take (place + 1) self.old.cnf.clauses) }
        requires are_once { AreOnce (slice_index_or self.old.cnf.clauses place []) lits.now }
        requires one { length lits.now ≡ 1 }
        requires unset { IsOpen (literals self.old.trail.entries) (slice_index lits.now 0) }
        ensures loading { IsLoading (place + 1) self.new }
        ensures cnf { self.new.cnf ≡ self.old.cnf }
    {
        let from = self.trail.entries().len();
        self.notes.units[lits[0].var() as usize] = place + 1;
        self.trail.set(lits[0], None);
        note_entries(
            &self.trail,
            &mut self.notes.levels,
            &mut self.set,
            &mut self.minimiser,
            from,
        );
    }

    /// Adds the empty line, by a clause of the formula that is false.
    fn refute_clause(&mut self, alloc: Global, lits: &[Lit], number: u32) -> Result<(), NoMemory>
        ghost clauses: { List (List ℕ) }
        requires are_known { clauses ≡ known_by self.old.cnf self.old.log }
        requires noted { IsNoted clauses self.old.watches self.old.trail self.old.notes }
        requires unmarked { self.old.marks ≡ record { places = 2 * (self.old.trail.vars + 1); lits = [] } }
        requires root { self.old.trail.level ≡ 0 }
        requires over { All (IsOver self.old.trail.vars) lits.now }
        requires number { IsNumberOf clauses lits.now number }
        requires conflict { IsFalse (literals self.old.trail.entries) lits.now }
        requires none { self.old.log ≡ [] }
        ensures answer { OnOk result ((budget : ℕ) → IsAnswer self.new.cnf self.new.log budget refuted) }
        ensures cnf { OnOk result (self.new.cnf ≡ self.old.cnf) }
    {
        let line = refute(
            alloc,
            &mut self.marks,
            &self.watches,
            &self.trail,
            &self.notes,
            lits,
            number,
        )?;
        self.log.push(line)?;
        Ok(())
    }
}

/// The literals of a clause, each once.
fn distinct(alloc: Global, marks: &mut Marks, clause: &[Lit]) -> Result<Vec<Lit>, NoMemory>
    requires unmarked { marks.old.lits ≡ [] }
    requires places { All (λ lit. lit < marks.old.places) clause.now }
    ensures are_once { IfOk result (λ lits. AreOnce clause.now lits.items) }
    ensures unmarked { OnOk result (marks.new ≡ marks.old) }
{
    for lit in clause {
        mark(marks, *lit)?;
    }
    let lits = Vec::from_slice(alloc, marks.lits())?;
    marks.clear();
    Ok(lits)
}

/// Marks a literal, if it is not marked already.
fn mark(marks: &mut Marks, lit: Lit) -> Result<(), NoMemory>
    requires { lit < marks.old.places }
    ensures places { OnOk result (marks.new.places ≡ marks.old.places) }
    ensures more { OnOk result ((other : ℕ) → has marks.new.lits other ≡ (has marks.old.lits other || (lit == other))) }
{
    if marks.holds(lit) {
        return Ok(());
    }
    marks.add(lit)?;
    Ok(())
}
