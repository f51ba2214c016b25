ghost use Rattle.std.specs.Prelude.{◌≡◌, ℕ, ◌+◌, ◌/◌, ◌<◌, ◌≤◌, ◌++◌, List, [], ◌∷◌, All, length, reverse, slice_index, IfOk};
ghost use Rattle.std.specs.List.Sorted.{IsPermutation, IsSorted};
ghost use Rattle.std.specs.Ordering.{nat_cmp};

use cnf_core::Lit;
use derivation::Line;
use no_memory::NoMemory;
use smallvec::SmallVec;
use std::alloc::Global;

/// Where behind the first literal one of the highest level stands.
fn highest(lits: &[Lit], levels: &[u32]) -> usize
    requires two { 1 < length lits.now }
    requires table { All (λ lit. lit / 2 < length levels.now) lits.now }
    ensures from_one { 0 < result }
    ensures within { result < length lits.now }
    ensures highest { (k : ℕ) → 0 < k → k < length lits.now
        → slice_index levels.now (slice_index lits.now k / 2) ≤ slice_index levels.now (slice_index lits.now result / 2) }
{
    let mut best = 1;
    for place in 1..lits.len() {
        if levels[lits[place].var() as usize] > levels[lits[best].var() as usize] {
            best = place;
        }
    }
    best
}

/// Puts a literal of the highest level of those behind the first one second. Answers this level, or 0
/// where there is none.
pub(crate) fn raise_highest(lits: &mut Vec<Lit>, levels: &[u32]) -> u32
    requires table { All (λ lit. lit / 2 < length levels.now) lits.old.items }
    ensures moved { IsPermutation lits.old.items lits.new.items }
    ensures first { slice_index lits.new.items 0 ≡ slice_index lits.old.items 0 }
    ensures second { 1 < length lits.new.items → slice_index levels.now (slice_index lits.new.items 1 / 2) ≡ result }
    ensures alone { length lits.new.items ≤ 1 → result ≡ 0 }
    ensures highest { (k : ℕ) → 0 < k → k < length lits.new.items → slice_index levels.now (slice_index lits.new.items k / 2) ≤ result }
{
    if lits.len() < 2 {
        return 0;
    }
    let place = highest(lits, levels);
    let second = lits[1];
    let raised = lits[place];
    lits[1] = raised;
    lits[place] = second;
    levels[raised.var() as usize]
}

/// A line of a log: the literals in their order, and the hints, first those of what is implied and
/// then the others from the last one to the first.
pub(crate) fn line_of(
    alloc: Global,
    lits: &[Lit],
    implied: &[u32],
    hints: &[u32],
) -> Result<Line, NoMemory>
    ensures clause { IfOk result (λ line. IsPermutation lits.now line.clause) }
    ensures sorted { IfOk result (λ line. IsSorted nat_cmp line.clause) }
    ensures hints { IfOk result (λ line. line.hints ≡ implied.now ++ reverse hints.now) }
{
    let mut sorted = Vec::from_slice(alloc, lits)?;
    sorted.sort()?;
    let backwards: Vec<u32> = hints.iter().rev().copied().collect(alloc)?;
    let mut order = Vec::from_slice(alloc, implied)?;
    order.extend_from_slice(backwards.as_slice())?;
    let clause = SmallVec::from_slice(alloc, sorted.as_slice())?;
    let hints = SmallVec::from_slice(alloc, order.as_slice())?;
    Ok(Line { clause, hints })
}
