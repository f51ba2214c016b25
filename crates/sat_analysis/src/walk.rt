ghost use Rattle.std.specs.Prelude.{◌≡◌, ℕ, ◌+◌, ◌*◌, ◌/◌, ◌<◌, ◌≤◌, ◌⊎◌, Some, None, true, false, Bool, not, ◌&&◌, ◌||◌, ◌==◌, if◌then◌else◌, List, [], ◌∷◌, ◌++◌, All, length, take, slice_index, slice_index_or, IfOk, OnOk};
ghost use Rattle.cnf_core.specs.Literal.{negated, IsOver};
ghost use Rattle.sat_watch.specs.Literals.{has, EachOnce};
ghost use Rattle.sat_watch.specs.Propagation.{IsFalse};
ghost use Rattle.sat_watch.specs.Trail.{TrailState, literals, IsSound};
ghost use Rattle.sat_watch.specs.declared.trail.Entry.{Entry};
ghost use Rattle.sat_watch.specs.Watching.{WatchState};
ghost use Rattle.sat_analysis.specs.Noted.{IsNoted};
ghost use Rattle.sat_analysis.specs.Reasons.{IsNumberOf};
ghost use Rattle.sat_analysis.specs.Walk.{names, Adds, AreLeveled, IsAt, marked_at};

use crate::marks::Marks;
use crate::notes::Notes;
use cnf_core::Lit;
use no_memory::NoMemory;
use sat_watch::{Trail, Watches};

/// Whether this is the literal.
pub(crate) fn is_named(named: &Option<Lit>, lit: Lit) -> bool
    ensures { result ≡ names named.now lit }
{
    match named {
        Some(other) => *other == lit,
        None => false,
    }
}

/// Marks a literal of a clause, unless the clause implies it or it is marked already. Answers whether
/// it is marked now and of the level.
fn mark_literal(
    marks: &mut Marks,
    levels: &[u32],
    lit: Lit,
    implied: &Option<Lit>,
    level: u32,
) -> Result<bool, NoMemory>
    requires place { lit < marks.old.places }
    requires table { lit / 2 < length levels.now }
    requires once { EachOnce marks.old.lits }
    ensures places { OnOk result (marks.new.places ≡ marks.old.places) }
    ensures once { OnOk result (EachOnce marks.new.lits) }
    ensures lits { let skipped = names implied.now lit || has marks.old.lits lit in
        OnOk result (marks.new.lits ≡ (if skipped then marks.old.lits else marks.old.lits ++ lit ∷ [])) }
    ensures counts { let skipped = names implied.now lit || has marks.old.lits lit in
        IfOk result (λ counts. counts ≡ (not skipped && (slice_index levels.now (lit / 2) == level))) }
{
    if is_named(implied, lit) || marks.holds(lit) {
        return Ok(false);
    }
    marks.add(lit)?;
    Ok(levels[lit.var() as usize] == level)
}

/// Marks the literals of a clause but the one that it implies. Answers how many of those that were
/// not marked before are of the level.
pub(crate) fn mark_clause(
    marks: &mut Marks,
    levels: &[u32],
    clause: &[Lit],
    implied: &Option<Lit>,
    level: u32,
) -> Result<usize, NoMemory>
    requires places { All (λ lit. lit < marks.old.places) clause.now }
    requires table { All (λ lit. lit / 2 < length levels.now) clause.now }
    requires once { EachOnce marks.old.lits }
    ensures places { OnOk result (marks.new.places ≡ marks.old.places) }
    ensures once { OnOk result (EachOnce marks.new.lits) }
    ensures adds { IfOk result (Adds levels.now clause.now implied.now level marks.old.lits marks.new.lits) }
{
    let mut count = 0;
    for lit in clause {
        if mark_literal(marks, levels, *lit, implied, level)? {
            count += 1;
        }
    }
    Ok(count)
}

/// Goes one entry back. Where its negation is marked, marks the others of its reason in its place and
/// takes the number of the reason as a hint. Answers how many of the present level are marked then.
fn step_back(
    marks: &mut Marks,
    watches: &Watches,
    trail: &Trail,
    notes: &Notes,
    hints: &mut Vec<u32>,
    place: usize,
    pending: usize,
) -> Result<usize, NoMemory>
    ghost known: { List (List ℕ) }
    requires noted { IsNoted known watches.now trail.now notes.now }
    requires places { marks.old.places ≡ 2 * (trail.now.vars + 1) }
    requires within { place < length trail.now.entries }
    requires some { 0 < pending }
    requires not_last { (trail.now.level ≡ 0) ⊎ (1 < pending) }
    requires at { IsAt known trail.now.entries marks.old.lits hints.old.items trail.now.level pending (place + 1) }
    ensures at { IfOk result (λ left. IsAt known trail.now.entries marks.new.lits hints.new.items trail.now.level left place) }
    ensures places { OnOk result (marks.new.places ≡ marks.old.places) }
    ensures falls { IfOk result (λ left. pending ≤ left + 1) }
{
    let entry = &trail.entries()[place];
    if !marks.holds(entry.lit.negated()) {
        return Ok(pending);
    }
    match entry.reason {
        Some(clause) => {
            hints.push(notes.numbers[clause as usize])?;
            let implied = Some(entry.lit);
            let lits = watches.lits(clause);
            let more = mark_clause(marks, &notes.levels, lits, &implied, trail.level())?;
            Ok(pending - 1 + more)
        }
        None => {
            hints.push(notes.units[entry.lit.var() as usize])?;
            Ok(pending - 1)
        }
    }
}

/// Starts at a clause that is false. Answers how many of its literals are of the present level.
pub(crate) fn start(
    marks: &mut Marks,
    trail: &Trail,
    notes: &Notes,
    clause: &[Lit],
    number: u32,
    hints: &mut Vec<u32>,
) -> Result<usize, NoMemory>
    ghost known: { List (List ℕ) }
    requires sound { IsSound trail.now }
    requires table { length notes.now.levels.items ≡ trail.now.vars + 1 }
    requires leveled { AreLeveled notes.now.levels.items trail.now.entries }
    requires unmarked { marks.old ≡ record { places = 2 * (trail.now.vars + 1); lits = [] } }
    requires none { hints.old.items ≡ [] }
    requires over { All (IsOver trail.now.vars) clause.now }
    requires number { IsNumberOf known clause.now number }
    requires conflict { IsFalse (literals trail.now.entries) clause.now }
    ensures at { IfOk result (λ pending. IsAt known trail.now.entries marks.new.lits hints.new.items trail.now.level pending (length trail.now.entries)) }
    ensures marked { OnOk result ((lit : ℕ) → has clause.now lit ≡ true → has marks.new.lits lit ≡ true) }
    ensures places { OnOk result (marks.new.places ≡ 2 * (trail.now.vars + 1)) }
{
    hints.push(number)?;
    let pending = mark_clause(marks, &notes.levels, clause, &None, trail.level())?;
    Ok(pending)
}

/// Goes back from a place until only `stop` literals of the present level are marked among the entries that are
/// left. Answers how many entries are.
pub(crate) fn go_back(
    marks: &mut Marks,
    watches: &Watches,
    trail: &Trail,
    notes: &Notes,
    hints: &mut Vec<u32>,
    left: usize,
    pending: usize,
    stop: usize,
) -> Result<usize, NoMemory>
    ghost known: { List (List ℕ) }
    requires noted { IsNoted known watches.now trail.now notes.now }
    requires places { marks.old.places ≡ 2 * (trail.now.vars + 1) }
    requires enough { stop ≤ pending }
    requires not_last { (trail.now.level ≡ 0) ⊎ (0 < stop) }
    requires at { IsAt known trail.now.entries marks.old.lits hints.old.items trail.now.level pending left }
    ensures at { IfOk result (IsAt known trail.now.entries marks.new.lits hints.new.items trail.now.level stop) }
    ensures places { OnOk result (marks.new.places ≡ marks.old.places) }
{
    let mut pending = pending;
    let mut left = left;
    while pending > stop {
        left -= 1;
        pending = step_back(marks, watches, trail, notes, hints, left, pending)?;
    }
    Ok(left)
}

/// The place of the last entry before this one whose negation is marked, where there is one.
pub(crate) fn last_marked(marks: &Marks, trail: &Trail, left: usize) -> usize
    requires places { marks.now.places ≡ 2 * (trail.now.vars + 1) }
    requires within { left ≤ length trail.now.entries }
    requires one { 1 ≡ marked_at marks.now.lits trail.now.level (take left trail.now.entries) }
    ensures within { result < left }
    ensures marked { (d : Entry) → has marks.now.lits (negated (slice_index_or trail.now.entries result d).lit) ≡ true }
    ensures at { (known : List (List ℕ)) (hints : List ℕ) → IsAt known trail.now.entries marks.now.lits hints trail.now.level 1 left
        → IsAt known trail.now.entries marks.now.lits hints trail.now.level 1 (result + 1) }
{
    let entries = trail.entries();
    let mut place = left - 1;
    'places: while !marks.holds(entries[place].lit.negated()) {
        place -= 1;
    }
    place
}
