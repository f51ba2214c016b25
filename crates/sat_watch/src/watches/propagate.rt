ghost use Rattle.std.specs.Prelude.{◌≡◌, ◌≢◌, ℕ, ◌+◌, ◌*◌, ◌/◌, ◌-◌, ◌<◌, ◌≤◌, Bool, true, false, Some, None, [], ◌∷◌, ◌++◌, List, length, All, IfSome, IfNone, slice_index, slice_index_or};
ghost use Rattle.cnf_core.specs.Literal.{negated, IsOver};
ghost use Rattle.cnf_core.specs.Trues.{is_true};
ghost use Rattle.sat_watch.specs.Literals.{has};
ghost use Rattle.sat_watch.specs.Propagation.{IsFalse, IsQuiet, Grows};
ghost use Rattle.sat_watch.specs.Threads.{CanWatch};
ghost use Rattle.sat_watch.specs.Trail.{TrailState, literals, IsSound};
ghost use Rattle.sat_watch.specs.Watching.{WatchState, twin, clause_of, IsWatch, IsSet, Right};
ghost use Rattle.sat_watch.specs.Visit.{state, Finds};

use super::{Watches, rethread};
use crate::trail::Trail;
use cnf_core::{Cnf, Lit};

/// What becomes of a watch whose literal is false.
enum Finding {
    /// Its twin is true.
    Stays,
    /// It moves to a literal that is not false.
    Moves(Lit),
    /// All literals of the clause are false.
    Conflict(u32),
}

/// The other watch of the same clause.
fn twin_of(watch: u32) -> u32
    ensures { result ≡ twin watch }
{
    if watch % 2 == 0 { watch + 1 } else { watch - 1 }
}

/// A literal of the clause beside this one that is not false, if there is one.
fn replacement(lits: &[Lit], other: Lit, trail: &Trail) -> Option<Lit>
    requires { All (IsOver trail.now.vars) lits.now }
    ensures some { IfSome result (λ lit. (has lits.now lit ≡ true) × (lit ≢ other) × (is_true (literals trail.now.entries) (negated lit) ≡ false)) }
    ensures none { IfNone result ((lit : ℕ) → has lits.now lit ≡ true → lit ≢ other → is_true (literals trail.now.entries) (negated lit) ≡ true) }
{
    for lit in lits {
        if *lit != other && !trail.is_true(lit.negated()) {
            return Some(*lit);
        }
    }
    None
}

/// Looks at a clause by a watch whose literal is false, and makes the twin's literal true where all
/// others are false.
fn look(clauses: &Cnf, watched: &[u32], at: u32, trail: &mut Trail) -> Finding
    requires watch { IsWatch (state clauses.now watched.now) at }
    requires set { IsSet (state clauses.now watched.now) (twin at) }
    requires clause { CanWatch clauses.now.vars (clause_of (state clauses.now watched.now) at) }
    requires places { length watched.now ≡ 2 * (clauses.now.vars + 1 + length clauses.now.clauses) }
    requires vars { trail.old.vars ≡ clauses.now.vars }
    ensures finds { Finds clauses.now watched.now at trail.old trail.new result }
    ensures vars { trail.new.vars ≡ trail.old.vars }
    ensures passed { trail.new.passed ≡ trail.old.passed }
    ensures sound { IsSound trail.new }
    ensures right { (w : WatchState) → Right w trail.old → Right w trail.new }
{
    let other = Lit::from_number(watched[twin_of(at) as usize]);
    if trail.is_true(other) {
        return Finding::Stays;
    }
    let clause = at / 2 - (clauses.vars() + 1);
    if let Some(lit) = replacement(clauses.clause(clause), other, trail) {
        return Finding::Moves(lit);
    }
    if trail.is_true(other.negated()) {
        return Finding::Conflict(clause);
    }
    trail.set(other, Some(clause));
    Finding::Stays
}

impl Watches {
    /// Makes true what follows from the entries that have not been gone through, each with the
    /// clause that forces it, at the present level. Answers a clause all of whose literals are
    /// false, and None where no clause is unit or false. It visits only the lists of literals that
    /// became false, and leaves a clause whose other watch is true.
    pub fn propagate(&mut self, trail: &mut Trail) -> Option<u32>
        requires vars { trail.old.vars ≡ self.old.vars }
        requires right { Right self.old trail.old }
        ensures none { IfNone result (trail.new.passed ≡ length trail.new.entries) }
        ensures quiet { IfNone result (All (IsQuiet (literals trail.new.entries)) self.new.clauses) }
        ensures known { IfSome result (λ clause. clause < length self.new.clauses) }
        ensures conflict { IfSome result (λ clause. IsFalse (literals trail.new.entries) (slice_index_or self.new.clauses clause [])) }
        ensures grows { Grows self.new.clauses trail.old trail.new }
        ensures vars { self.new.vars ≡ self.old.vars }
        ensures clauses { self.new.clauses ≡ self.old.clauses }
        ensures right { Right self.new trail.new }
    {
        'entries: while trail.passed() < trail.entries().len() {
            let lit = trail.entries()[trail.passed()].lit;
            if let Some(clause) = self.visit(lit.negated(), trail) {
                return Some(clause);
            }
            trail.pass();
        }
        None
    }

    /// Goes through the list of a literal that became false by the next entry.
    fn visit(&mut self, falsified: Lit, trail: &mut Trail) -> Option<u32>
        requires vars { trail.old.vars ≡ self.old.vars }
        requires right { Right self.old trail.old }
        requires within { trail.old.passed < length trail.old.entries }
        requires sound { IsSound trail.old }
        requires next { slice_index (literals trail.old.entries) trail.old.passed ≡ negated falsified }
        ensures vars { self.new.vars ≡ self.old.vars }
        ensures clauses { self.new.clauses ≡ self.old.clauses }
        ensures grows { Grows self.new.clauses trail.old trail.new }
        ensures passed { trail.new.passed ≡ trail.old.passed }
        ensures right { Right self.new trail.new }
        ensures none { IfNone result (Right self.new (record trail.new { passed = trail.new.passed + 1 })) }
        ensures known { IfSome result (λ clause. clause < length self.new.clauses) }
        ensures conflict { IfSome result (λ clause. IsFalse (literals trail.new.entries) (slice_index_or self.new.clauses clause [])) }
    {
        let mut previous = falsified.number();
        'list: while self.links[previous as usize] != 0 {
            let at = self.links[previous as usize];
            match look(&self.clauses, &self.watched, at, trail) {
                Finding::Stays => previous = at,
                Finding::Moves(lit) => {
                    rethread(
                        &mut self.links,
                        &mut self.watched,
                        previous,
                        at,
                        lit.number(),
                    );
                }
                Finding::Conflict(clause) => return Some(clause),
            }
        }
        None
    }
}
