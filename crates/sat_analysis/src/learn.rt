ghost use Rattle.std.specs.Prelude.{◌≡◌, ℕ, ◌+◌, ◌-◌, ◌*◌, ◌/◌, ◌<◌, ◌≤◌, true, List, [], All, length, slice_index, slice_index_or, slice_set, IfOk, OnOk};
ghost use Rattle.cnf_core.specs.Literal.{negated, IsOver};
ghost use Rattle.derivation.specs.Propagation.{Follows};
ghost use Rattle.sat_watch.specs.Literals.{has, EachOnce};
ghost use Rattle.sat_watch.specs.Propagation.{IsFalse};
ghost use Rattle.sat_watch.specs.Trail.{literals, up_to, IsSound};
ghost use Rattle.sat_watch.specs.declared.trail.Entry.{Entry};
ghost use Rattle.sat_analysis.specs.Learnt.{IsLearnt, level_of};
ghost use Rattle.sat_analysis.specs.Settled.{HasRoom, IsSettled, Implies, Covers};
ghost use Rattle.sat_analysis.specs.Walk.{AreLeveled, IsAt};
ghost use Rattle.sat_analysis.specs.Noted.{IsNoted};
ghost use Rattle.sat_analysis.specs.Reasons.{IsNumberOf};

use crate::gather::{line_of, raise_highest};
use crate::marks::Marks;
use crate::minimise::Minimiser;
use crate::notes::Notes;
use crate::walk::{go_back, last_marked, start};
use cnf_core::Lit;
use derivation::Line;
use no_memory::NoMemory;
use sat_watch::{Trail, Watches};
use std::alloc::Global;

/// What is learnt from a conflict above level 0.
#[derive(Drop)]
pub struct Learnt {
    /// The clause with its hints, its variables rising.
    pub line: Line,
    /// Its literals, the one that it will force first, and behind it one of the highest level.
    pub lits: Vec<Lit>,
    /// The level of the second one, or 0 where there is none.
    pub level: u32,
}

impl Learnt {
    /// Learns from a clause of the watches that is false at a level above 0: goes back over the trail
    /// to the first literal of the present level by which alone the conflict follows, and takes its
    /// negation and those of lower levels that the others do not imply. What it visited on the trail
    /// stays marked. The cost is what of the trail and of the reasons it visits.
    pub fn of(
        alloc: Global,
        minimiser: &mut Minimiser,
        marks: &mut Marks,
        watches: &Watches,
        trail: &Trail,
        notes: &Notes,
        clause: u32,
    ) -> Result<Learnt, NoMemory>
        ghost known: { List (List ℕ) }
        requires noted { IsNoted known watches.now trail.now notes.now }
        requires room { HasRoom trail.now.vars minimiser.old }
        requires unmarked { marks.old ≡ record { places = 2 * (trail.now.vars + 1); lits = [] } }
        requires above { 0 < trail.now.level }
        requires clause { clause < length watches.now.clauses }
        requires conflict { IsFalse (literals trail.now.entries) (slice_index_or watches.now.clauses clause []) }
        requires late { ¬ IsFalse (literals (up_to (trail.now.level - 1) trail.now.entries)) (slice_index_or watches.now.clauses clause []) }
        ensures learnt { IfOk result (λ learnt. IsLearnt known trail.now notes.now.levels.items learnt.line learnt.lits.items learnt.level) }
        ensures room { OnOk result (HasRoom trail.now.vars minimiser.new) }
        ensures places { OnOk result (marks.new.places ≡ marks.old.places) }
        ensures marked { OnOk result (IsFalse (literals trail.now.entries) marks.new.lits) }
        ensures sound { OnOk result (IsSound trail.now) }
    {
        let mut hints = Vec::new(alloc);
        let place = first_point(marks, watches, trail, notes, clause, &mut hints)?;
        minimiser.minimise(marks, watches, trail, notes)?;
        let learnt = conclude(alloc, minimiser, marks, trail, notes, place, &hints)?;
        Ok(learnt)
    }
}

/// Goes back to the first unique implication point. Answers its place.
fn first_point(
    marks: &mut Marks,
    watches: &Watches,
    trail: &Trail,
    notes: &Notes,
    clause: u32,
    hints: &mut Vec<u32>,
) -> Result<usize, NoMemory>
    ghost known: { List (List ℕ) }
    requires noted { IsNoted known watches.now trail.now notes.now }
    requires unmarked { marks.old ≡ record { places = 2 * (trail.now.vars + 1); lits = [] } }
    requires none { hints.old.items ≡ [] }
    requires above { 0 < trail.now.level }
    requires clause { clause < length watches.now.clauses }
    requires conflict { IsFalse (literals trail.now.entries) (slice_index_or watches.now.clauses clause []) }
    requires late { ¬ IsFalse (literals (up_to (trail.now.level - 1) trail.now.entries)) (slice_index_or watches.now.clauses clause []) }
    ensures within { IfOk result (λ place. place < length trail.now.entries) }
    ensures marked { IfOk result (λ place. (d : Entry) → has marks.new.lits (negated (slice_index_or trail.now.entries place d).lit) ≡ true) }
    ensures at { IfOk result (λ place. IsAt known trail.now.entries marks.new.lits hints.new.items trail.now.level 1 (place + 1)) }
    ensures places { OnOk result (marks.new.places ≡ marks.old.places) }
    ensures visited { OnOk result (IsFalse (literals trail.now.entries) marks.new.lits) }
    ensures sound { OnOk result (IsSound trail.now) }
{
    let left = trail.entries().len();
    let lits = watches.lits(clause);
    let number = notes.numbers[clause as usize];
    let pending = start(marks, trail, notes, lits, number, hints)?;
    let left = go_back(marks, watches, trail, notes, hints, left, pending, 1)?;
    Ok(last_marked(marks, trail, left))
}

/// What is learnt where only the negation of the entry at this place is marked of the present level,
/// and all that is marked of lower levels is settled.
fn conclude(
    alloc: Global,
    minimiser: &Minimiser,
    marks: &Marks,
    trail: &Trail,
    notes: &Notes,
    place: usize,
    hints: &[u32],
) -> Result<Learnt, NoMemory>
    ghost known: { List (List ℕ) }
    requires table { length notes.now.levels.items ≡ trail.now.vars + 1 }
    requires leveled { AreLeveled notes.now.levels.items trail.now.entries }
    requires above { 0 < trail.now.level }
    requires within { place < length trail.now.entries }
    requires marked { (d : Entry) → has marks.now.lits (negated (slice_index_or trail.now.entries place d).lit) ≡ true }
    requires at { IsAt known trail.now.entries marks.now.lits hints.now trail.now.level 1 (place + 1) }
    requires settled { IsSettled trail.now notes.now.levels.items minimiser.now }
    requires implies { Implies known (literals trail.now.entries) minimiser.now }
    requires covers { (lit : ℕ) → has marks.now.lits lit ≡ true → level_of notes.now.levels.items lit < trail.now.level → Covers minimiser.now lit }
    ensures { IfOk result (λ learnt. IsLearnt known trail.now notes.now.levels.items learnt.line learnt.lits.items learnt.level) }
{
    let mut lits = Vec::new(alloc);
    lits.push(trail.entries()[place].lit.negated())?;
    lits.extend_from_slice(minimiser.kept.lits())?;
    let level = raise_highest(&mut lits, &notes.levels);
    let line = line_of(alloc, &lits, &minimiser.hints, hints)?;
    Ok(Learnt { line, lits, level })
}

/// The empty line, from a known clause that is false at level 0. The cost is what of the trail and of
/// the reasons it visits.
pub fn refute(
    alloc: Global,
    marks: &mut Marks,
    watches: &Watches,
    trail: &Trail,
    notes: &Notes,
    clause: &[Lit],
    number: u32,
) -> Result<Line, NoMemory>
    ghost known: { List (List ℕ) }
    requires noted { IsNoted known watches.now trail.now notes.now }
    requires unmarked { marks.old ≡ record { places = 2 * (trail.now.vars + 1); lits = [] } }
    requires root { trail.now.level ≡ 0 }
    requires over { All (IsOver trail.now.vars) clause.now }
    requires number { IsNumberOf known clause.now number }
    requires conflict { IsFalse (literals trail.now.entries) clause.now }
    ensures follows { IfOk result (Follows known) }
    ensures empty { IfOk result (λ line. line.clause ≡ []) }
{
    let left = trail.entries().len();
    let mut hints = Vec::new(alloc);
    let pending = start(marks, trail, notes, clause, number, &mut hints)?;
    let _left = go_back(marks, watches, trail, notes, &mut hints, left, pending, 0)?;
    let line = line_of(alloc, &[], &[], &hints)?;
    Ok(line)
}
