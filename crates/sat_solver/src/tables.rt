ghost use Rattle.std.specs.Prelude.{◌≡◌, ℕ, ◌+◌, ◌-◌, ◌*◌, ◌/◌, ◌^◌, ◌<◌, ◌≤◌, ◌==◌, true, false, List, [], ◌∷◌, ◌++◌, All, length, take, slice_index_or, IfOk, OnOk, IsTrue};
ghost use Rattle.cnf_core.specs.Literal.{IsOver};
ghost use Rattle.sat_order.specs.Lists.{holds};
ghost use Rattle.sat_order.specs.Order.{passed, is_free, IsOrder};
ghost use Rattle.cnf_core.specs.Trues.{is_true};
ghost use Rattle.sat_watch.specs.Literals.{AreApart};
ghost use Rattle.sat_watch.specs.Trail.{literals, levels, up_to, Rises, IsSound};
ghost use Rattle.derivation.specs.Propagation.{once};
ghost use Rattle.sat_analysis.specs.Settled.{HasRoom};
ghost use Rattle.sat_analysis.specs.Walk.{AreLeveled};
ghost use Rattle.sat_solver.specs.Search.{known_by, AreSet};
ghost use Rattle.sat_solver.specs.Queued.{IsQueued};

use cnf_core::{Cnf, Lit};
use derivation::Log;
use no_memory::NoMemory;
use sat_analysis::Minimiser;
use sat_order::Queue;
use sat_watch::{Entry, Trail};
use std::alloc::Global;

/// Notes the level of each entry from a place on, where it stands, and that its variable has a value.
pub(crate) fn note_entries(
    trail: &Trail,
    levels: &mut Vec<u32>,
    set: &mut Vec<bool>,
    minimiser: &mut Minimiser,
    from: usize,
)
    requires within { from ≤ length trail.now.entries }
    requires levels_all { length levels.old.items ≡ trail.now.vars + 1 }
    requires set_all { length set.old.items ≡ trail.now.vars }
    requires leveled { AreLeveled levels.old.items (take from trail.now.entries) }
    requires marked { AreSet set.old.items (literals (take from trail.now.entries)) }
    ensures sound { IsSound trail.now }
    ensures leveled { AreLeveled levels.new.items trail.now.entries }
    ensures marked { AreSet set.new.items (literals trail.now.entries) }
    ensures levels_all { length levels.new.items ≡ length levels.old.items }
    ensures set_all { length set.new.items ≡ length set.old.items }
    ensures room { (vars : ℕ) → HasRoom vars minimiser.old → HasRoom vars minimiser.new }
{
    minimiser.note(trail, from);
    let entries = trail.entries();
    for place in from..entries.len() {
        let entry = &entries[place];
        levels[entry.lit.var() as usize] = entry.level;
        set[entry.lit.var() as usize - 1] = true;
    }
}

/// Takes the values of the entries above a level, notes them as phases, and frees their variables.
pub(crate) fn release(
    entries: &[Entry],
    queue: &mut Queue,
    set: &mut Vec<bool>,
    phases: &mut Vec<bool>,
    vars: u32,
    level: u32,
    top: u32,
)
    requires apart { AreApart (literals entries.now) }
    requires over { All (IsOver vars) (literals entries.now) }
    requires rises { Rises 0 (levels entries.now) top }
    requires below { level ≤ top }
    requires marked { AreSet set.old.items (literals entries.now) }
    requires set_all { length set.old.items ≡ vars }
    requires phases_all { length phases.old.items ≡ vars }
    requires queue_all { length queue.old.vars ≡ vars }
    requires order { IsOrder queue.old.vars }
    requires passed { (v : ℕ) → holds (passed queue.old) v ≡ true → is_free set.old.items v ≡ false }
    ensures marked { AreSet set.new.items (literals (up_to level entries.now)) }
    ensures set_all { length set.new.items ≡ vars }
    ensures phases_all { length phases.new.items ≡ vars }
    ensures vars { queue.new.vars ≡ queue.old.vars }
    ensures passed { (v : ℕ) → holds (passed queue.new) v ≡ true → is_free set.new.items v ≡ false }
{
    let mut kept = entries.len();
    'entries: while kept > 0 && entries[kept - 1].level > level {
        kept -= 1;
        let lit = entries[kept].lit;
        set[lit.var() as usize - 1] = false;
        phases[lit.var() as usize - 1] = !lit.is_negative();
        queue.freed(lit.var());
    }
}

/// Moves the variables of literals to the front of the queue, in the order in which they stand. All
/// of them have values. The cost is that of sorting them.
pub(crate) fn bump_all(
    alloc: Global,
    queue: &mut Queue,
    lits: &[Lit],
    set: &[bool],
) -> Result<(), NoMemory>
    requires over { All (IsOver (length set.now)) lits.now }
    requires apart { IsTrue (once lits.now) }
    requires have_values { All (λ lit. is_free set.now (lit / 2) ≡ false) lits.now }
    requires queued { IsQueued (length set.now) queue.old set.now }
    ensures { OnOk result (IsQueued (length set.now) queue.new set.now) }
{
    let mut vars = Vec::new(alloc);
    for lit in lits {
        vars.push(lit.var())?;
    }
    queue.bump_all(alloc, &vars)?;
    Ok(())
}

/// The value of each variable, false where it has none.
pub(crate) fn values_of(alloc: Global, trail: &Trail) -> Result<Vec<bool>, NoMemory>
    requires { trail.now.vars < 2 ^ 31 }
    ensures all { IfOk result (λ values. length values.items ≡ trail.now.vars) }
    ensures values { IfOk result (λ values. (var : ℕ) → 0 < var → var ≤ trail.now.vars → slice_index_or values.items (var - 1) false ≡ is_true (literals trail.now.entries) (2 * var)) }
{
    let mut values = Vec::new(alloc);
    for place in 0..trail.vars() {
        values.push(trail.is_true(Lit::positive(place + 1)))?;
    }
    Ok(values)
}

/// The number of the next line by which hints name it.
pub(crate) fn next_number(cnf: &Cnf, log: &Log) -> Result<u32, NoMemory>
    ensures { IfOk result (λ number. number ≡ length (known_by cnf.now log.now) + 1) }
{
    let number = cnf.clauses() as u64 + log.lines().len() as u64 + 1;
    if number > u32::MAX as u64 {
        return Err(NoMemory);
    }
    Ok(number as u32)
}
