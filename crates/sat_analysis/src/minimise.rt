ghost use Rattle.std.specs.Prelude.{◌≡◌, ◌≢◌, ℕ, ◌+◌, ◌*◌, ◌/◌, ◌^◌, ◌<◌, ◌||◌, not, true, List, [], ◌∷◌, ◌++◌, length, IfOk, OnOk, IfSome, IsTrue, if◌then◌else◌};
ghost use Rattle.cnf_core.specs.Literal.{negated};
ghost use Rattle.cnf_core.specs.Trues.{is_true};
ghost use Rattle.sat_watch.specs.Literals.{has};
ghost use Rattle.sat_watch.specs.Propagation.{IsFalse};
ghost use Rattle.sat_watch.specs.Trail.{literals, IsSound};
ghost use Rattle.sat_analysis.specs.Learnt.{level_of};
ghost use Rattle.sat_analysis.specs.Noted.{IsNoted};
ghost use Rattle.sat_analysis.specs.Settled.{covers, HasRoom, IsSettled, Implies, IsSupported, IsCoveredReason, IsEntryOf, Covers, AllStay, KeepsWhatItImplies};

use crate::marks::Marks;
use crate::notes::Notes;
use cnf_core::Lit;
use no_memory::NoMemory;
use sat_watch::{Entry, Trail, Watches};
use std::alloc::Global;

/// How many reasons deep an explanation may be.
const DEPTH: u32 = 500;

/// Finds the literals of a line that the others imply, so that the line can do without them. (Sörensson and Biere,
/// "Minimizing Learned Clauses", SAT 2009.)
#[derive(Drop)]
pub struct Minimiser {
    /// The literals that the line needs.
    pub(crate) kept: Marks,
    /// False literals that are false where those that are kept are.
    pub(crate) implied: Marks,
    /// Literals that were tried in vain.
    failed: Marks,
    /// The hints that make the implied literals false, in order.
    pub(crate) hints: Vec<u32>,
    /// By variable, where its entry stood on the trail when it was noted last: a guess, which is
    /// checked when it is read.
    places: Vec<u32>,
}

impl Minimiser {
    /// A minimiser of lines over the variables 1 to `vars`. It takes memory, and time, for each.
    pub fn new(alloc: Global, vars: u32) -> Result<Minimiser, NoMemory>
        requires { vars < 2 ^ 31 }
        ensures { IfOk result (HasRoom vars) }
    {
        Ok(Minimiser {
            kept: Marks::new(alloc, vars)?,
            implied: Marks::new(alloc, vars)?,
            failed: Marks::new(alloc, vars)?,
            hints: Vec::new(alloc),
            places: vec![in alloc; 0; vars as usize + 1]?,
        })
    }

    /// Notes where the entries of a trail stand, from a place on.
    pub fn note(&mut self, trail: &Trail, from: usize)
        ensures kept { self.new.kept ≡ self.old.kept }
        ensures implied { self.new.implied ≡ self.old.implied }
        ensures failed { self.new.failed ≡ self.old.failed }
        ensures hints { self.new.hints ≡ self.old.hints }
    {
        note_places(&mut self.places, trail, from);
    }

    /// Settles the literals of lower levels that a line has, all of them false: keeps those that
    /// the others do not imply. The cost is what of the reasons it visits, each at most once.
    pub(crate) fn minimise(
        &mut self,
        line: &Marks,
        watches: &Watches,
        trail: &Trail,
        notes: &Notes,
    ) -> Result<(), NoMemory>
        requires room { HasRoom trail.now.vars self.old }
        requires supported { IsSupported watches.now trail.now notes.now }
        requires sound { IsSound trail.now }
        requires line { line.now.places ≡ 2 * (trail.now.vars + 1) }
        requires are_false { IsFalse (literals trail.now.entries) line.now.lits }
        ensures settled { OnOk result (IsSettled trail.now notes.now.levels.items self.new) }
        ensures implies { OnOk result ((known : List (List ℕ)) → IsNoted known watches.now trail.now notes.now → Implies known (literals trail.now.entries) self.new) }
        ensures covers { OnOk result ((lit : ℕ) → has line.now.lits lit ≡ true → level_of notes.now.levels.items lit < trail.now.level → Covers self.new lit) }
    {
        self.clear();
        for lit in line.lits() {
            self.settle(line, watches, trail, notes, *lit, DEPTH)?;
        }
        Ok(())
    }

    /// Forgets what was settled.
    fn clear(&mut self)
        ensures kept { self.new.kept ≡ record self.old.kept { lits = [] } }
        ensures implied { self.new.implied ≡ record self.old.implied { lits = [] } }
        ensures failed { self.new.failed ≡ record self.old.failed { lits = [] } }
        ensures hints { self.new.hints.items ≡ [] }
    {
        self.kept.clear();
        self.implied.clear();
        self.failed.clear();
        self.hints.clear();
    }

    /// Settles a false literal where it can: it is implied by kept ones, or it is of the line and
    /// kept. A literal of the present level is not. Answers whether it is settled.
    #[cycle(settling)]
    fn settle(
        &mut self,
        line: &Marks,
        watches: &Watches,
        trail: &Trail,
        notes: &Notes,
        lit: Lit,
        depth: u32,
    ) -> Result<bool, NoMemory>
        requires supported { IsSupported watches.now trail.now notes.now }
        requires sound { IsSound trail.now }
        requires line { line.now.places ≡ 2 * (trail.now.vars + 1) }
        requires settled { IsSettled trail.now notes.now.levels.items self.old }
        requires is_false { is_true (literals trail.now.entries) (negated lit) ≡ true }
        ensures settled { OnOk result (IsSettled trail.now notes.now.levels.items self.new) }
        ensures implies { OnOk result (KeepsWhatItImplies watches.now trail.now notes.now self.old self.new) }
        ensures stay { OnOk result (AllStay self.old self.new) }
        ensures covers { IfOk result (λ done. IsTrue done → Covers self.new lit) }
        ensures of_line { IfOk result (λ done. has line.now.lits lit ≡ true → level_of notes.now.levels.items lit < trail.now.level → IsTrue done) }
    {
        if notes.levels[lit.var() as usize] >= trail.level() {
            return Ok(false);
        }
        if self.covers(lit) {
            return Ok(true);
        }
        if self.derive(line, watches, trail, notes, lit, depth)? {
            return Ok(true);
        }
        let settled = self.keep_or_give_up(line, lit)?;
        Ok(settled)
    }

    /// Tries whether a false literal of a lower level is implied. Answers whether it is.
    #[cycle(settling)]
    fn derive(
        &mut self,
        line: &Marks,
        watches: &Watches,
        trail: &Trail,
        notes: &Notes,
        lit: Lit,
        depth: u32,
    ) -> Result<bool, NoMemory>
        requires supported { IsSupported watches.now trail.now notes.now }
        requires sound { IsSound trail.now }
        requires line { line.now.places ≡ 2 * (trail.now.vars + 1) }
        requires settled { IsSettled trail.now notes.now.levels.items self.old }
        requires is_false { is_true (literals trail.now.entries) (negated lit) ≡ true }
        requires low { level_of notes.now.levels.items lit < trail.now.level }
        ensures settled { OnOk result (IsSettled trail.now notes.now.levels.items self.new) }
        ensures implies { OnOk result (KeepsWhatItImplies watches.now trail.now notes.now self.old self.new) }
        ensures stay { OnOk result (AllStay self.old self.new) }
        ensures covers { IfOk result (λ done. IsTrue done → Covers self.new lit) }
    {
        if depth == 0 || self.failed.holds(lit) {
            return Ok(false);
        }
        match self.settle_reason(line, watches, trail, notes, lit, depth - 1)? {
            Some(number) => {
                self.imply(lit, number)?;
                Ok(true)
            }
            None => Ok(false),
        }
    }

    /// Settles the other literals of the clause that made a literal false. Answers the number of the
    /// clause where all are settled.
    #[cycle(settling)]
    #[tactic(auto, using(crate::proofs::Settling::others_false))]
    fn settle_reason(
        &mut self,
        line: &Marks,
        watches: &Watches,
        trail: &Trail,
        notes: &Notes,
        lit: Lit,
        depth: u32,
    ) -> Result<Option<u32>, NoMemory>
        requires supported { IsSupported watches.now trail.now notes.now }
        requires sound { IsSound trail.now }
        requires line { line.now.places ≡ 2 * (trail.now.vars + 1) }
        requires settled { IsSettled trail.now notes.now.levels.items self.old }
        ensures settled { OnOk result (IsSettled trail.now notes.now.levels.items self.new) }
        ensures implies { OnOk result (KeepsWhatItImplies watches.now trail.now notes.now self.old self.new) }
        ensures stay { OnOk result (AllStay self.old self.new) }
        ensures reason { IfOk result (λ reason. IfSome reason (λ number. (known : List (List ℕ)) → IsNoted known watches.now trail.now notes.now → IsCoveredReason known self.new lit number)) }
    {
        let Some(entry) = self.entry_of(trail, lit.negated()) else {
            return Ok(None);
        };
        match entry.reason {
            Some(clause) => {
                let lits = watches.lits(clause);
                if !self.settle_others(line, watches, trail, notes, lits, entry.lit, depth)? {
                    return Ok(None);
                }
                Ok(Some(notes.numbers[clause as usize]))
            }
            None if entry.level == 0 => Ok(Some(notes.units[lit.var() as usize])),
            None => Ok(None),
        }
    }

    /// Settles the literals of a clause but one, until one of them cannot be. Answers whether all are.
    #[cycle(settling)]
    fn settle_others(
        &mut self,
        line: &Marks,
        watches: &Watches,
        trail: &Trail,
        notes: &Notes,
        clause: &[Lit],
        forced: Lit,
        depth: u32,
    ) -> Result<bool, NoMemory>
        requires supported { IsSupported watches.now trail.now notes.now }
        requires sound { IsSound trail.now }
        requires line { line.now.places ≡ 2 * (trail.now.vars + 1) }
        requires settled { IsSettled trail.now notes.now.levels.items self.old }
        requires are_false { (other : ℕ) → has clause.now other ≡ true → other ≢ forced → is_true (literals trail.now.entries) (negated other) ≡ true }
        ensures settled { OnOk result (IsSettled trail.now notes.now.levels.items self.new) }
        ensures implies { OnOk result (KeepsWhatItImplies watches.now trail.now notes.now self.old self.new) }
        ensures stay { OnOk result (AllStay self.old self.new) }
        ensures covers { IfOk result (λ all. IsTrue all → (other : ℕ) → has clause.now other ≡ true → other ≢ forced → Covers self.new other) }
    {
        for other in clause {
            if *other != forced && !self.settle(line, watches, trail, notes, *other, depth)? {
                return Ok(false);
            }
        }
        Ok(true)
    }

    /// The entry of a literal that is true, if it stands where it was noted.
    fn entry_of<'a>(&self, trail: &'a Trail, lit: Lit) -> Option<&'a Entry>
        ensures entry { IfSome result (λ e. IsEntryOf trail.now e.now lit) }
        ensures sound { IsSound trail.now }
    {
        let entries = trail.entries();
        let place = *self.places.get(lit.var() as usize)?;
        let entry = entries.get(place as usize)?;
        if entry.lit == lit { Some(entry) } else { None }
    }

    /// Whether a literal is kept or implied.
    fn covers(&self, lit: Lit) -> bool
        requires kept { lit < self.now.kept.places }
        requires implied { lit < self.now.implied.places }
        ensures { result ≡ covers self.now.kept.lits self.now.implied.lits lit }
    {
        self.kept.holds(lit) || self.implied.holds(lit)
    }

    /// Takes a literal as implied by the clause of a number, unless it is settled.
    fn imply(&mut self, lit: Lit, number: u32) -> Result<(), NoMemory>
        requires kept { lit < self.old.kept.places }
        requires implied { lit < self.old.implied.places }
        ensures kept { self.new.kept ≡ self.old.kept }
        ensures failed { self.new.failed ≡ self.old.failed }
        ensures places { OnOk result (self.new.implied.places ≡ self.old.implied.places) }
        ensures implied { let settled = covers self.old.kept.lits self.old.implied.lits lit in
            OnOk result (self.new.implied.lits ≡ (if settled then self.old.implied.lits else self.old.implied.lits ++ lit ∷ [])) }
        ensures hints { let settled = covers self.old.kept.lits self.old.implied.lits lit in
            OnOk result (self.new.hints.items ≡ (if settled then self.old.hints.items else self.old.hints.items ++ number ∷ [])) }
    {
        if self.covers(lit) {
            return Ok(());
        }
        self.hints.push(number)?;
        self.implied.add(lit)?;
        Ok(())
    }

    /// Keeps a literal of the line, and gives up one that is not of the line, unless it is settled.
    /// Answers whether it is settled.
    fn keep_or_give_up(&mut self, line: &Marks, lit: Lit) -> Result<bool, NoMemory>
        requires kept { lit < self.old.kept.places }
        requires implied { lit < self.old.implied.places }
        requires failed { lit < self.old.failed.places }
        requires line { lit < line.now.places }
        ensures implied { self.new.implied ≡ self.old.implied }
        ensures hints { self.new.hints ≡ self.old.hints }
        ensures places { OnOk result (self.new.kept.places ≡ self.old.kept.places) }
        ensures failed { OnOk result (self.new.failed.places ≡ self.old.failed.places) }
        ensures kept { let stays = covers self.old.kept.lits self.old.implied.lits lit || not (has line.now.lits lit) in
            OnOk result (self.new.kept.lits ≡ (if stays then self.old.kept.lits else self.old.kept.lits ++ lit ∷ [])) }
        ensures settled { IfOk result (λ done. done ≡ (covers self.old.kept.lits self.old.implied.lits lit || has line.now.lits lit)) }
    {
        if self.covers(lit) {
            return Ok(true);
        }
        if line.holds(lit) {
            self.kept.add(lit)?;
            return Ok(true);
        }
        if !self.failed.holds(lit) {
            self.failed.add(lit)?;
        }
        Ok(false)
    }
}

/// Notes the place of each entry from a place on, by its variable.
fn note_places(places: &mut Vec<u32>, trail: &Trail, from: usize) {
    let entries = trail.entries();
    for place in from..entries.len() {
        if let Some(noted) = places.get_mut(entries[place].lit.var() as usize) {
            *noted = place as u32;
        }
    }
}
