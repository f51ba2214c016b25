ghost use Rattle.std.specs.Prelude.{◌≡◌, ◌+◌, ◌*◌, ◌/◌, ◌^◌, ◌<◌, length, slice_set, unwrap_or, IsSome, IfOk, if◌then◌else◌, Some};
ghost use Rattle.tuple_sets.specs.Words.{with_bits, all_below as all_below_lem, none_of as none_of_lem};
ghost use Rattle.bounds_table.specs.State.{blank, HasSameWords};
ghost use Rattle.bounds_table.specs.Core.{joined, without_claims};

use no_memory::NoMemory;
use sqlite_items::Items;
use std::alloc::Global;
use tuple_sets::{all_below, meet, none_of, union};

/// What a worker knows of the table, and what it claimed: sets of tuples, and of pairs of a round and
/// a tuple, as words of 64 bits.
#[derive(Drop)]
pub struct Known {
    /// The tuples that it last saw in the table.
    pub seen: Items<u64>,
    /// The tuples that it saw kept.
    pub kept: Items<u64>,
    /// The pairs that it saw claimed.
    pub claimed: Items<u64>,
    /// The pairs whose claim it was told.
    pub claims: Items<u64>,
}

/// What worker 0 knows at first: of so many tuples, in so many words, it saw all, and claimed nothing.
pub(crate) fn first(alloc: Global, tuples: u32, words: usize) -> Result<Known, NoMemory>
    requires { words < 2 ^ 32 }
    ensures { IfOk result (λ k. k ≡ record { seen = all_below_lem tuples; kept = none_of_lem words; claimed = none_of_lem (8 * words); claims = none_of_lem (8 * words) }) }
{
    Ok(Known {
        seen: all_below(alloc, tuples)?,
        kept: none_of(alloc, words)?,
        claimed: none_of(alloc, 8 * words)?,
        claims: none_of(alloc, 8 * words)?,
    })
}

/// What a worker knows that is made by this one.
pub(crate) fn newcomer(alloc: Global, known: &Known) -> Result<Known, NoMemory>
    ensures { IfOk result (λ k. k ≡ without_claims known.now) }
{
    Ok(Known {
        seen: Items::from_slice(alloc, known.seen.as_slice())?,
        kept: Items::from_slice(alloc, known.kept.as_slice())?,
        claimed: Items::from_slice(alloc, known.claimed.as_slice())?,
        claims: none_of(alloc, known.claims.len())?,
    })
}

/// The live worker has now seen this word of the table.
pub(crate) fn saw(worker: &mut Option<Known>, at: usize, word: u64)
    requires live { IsSome worker.old }
    requires within { at < length (unwrap_or worker.old blank).seen }
    ensures { let k = unwrap_or worker.old blank in worker.new ≡ Some (record k { seen = slice_set k.seen at word }) }
{
    if let Some(known) = worker {
        known.seen.set(at, word);
    }
}

/// The live worker has now seen this word of the kept tuples.
pub(crate) fn saw_kept(worker: &mut Option<Known>, at: usize, word: u64)
    requires live { IsSome worker.old }
    requires within { at < length (unwrap_or worker.old blank).kept }
    ensures { let k = unwrap_or worker.old blank in worker.new ≡ Some (record k { kept = slice_set k.kept at word }) }
{
    if let Some(known) = worker {
        known.kept.set(at, word);
    }
}

/// The word of a pair of round and tuple, where each round has so many words.
pub(crate) fn word_of(round: u8, tuple: u32, words: usize) -> usize
    requires { words < 2 ^ 32 }
    ensures { result ≡ (64 * (round * words) + tuple) / 64 }
{
    usize::from(round) * words + tuple as usize / 64
}

/// Adds bits to a word of a set.
pub(crate) fn add_bits(set: &mut Items<u64>, at: usize, mask: u64)
    requires { at < length set.old }
    ensures { set.new ≡ with_bits set.old at mask }
{
    let word = set.as_slice()[at] | mask;
    set.set(at, word);
}

/// The live worker has now seen the pair claimed, and has its claim where it was free.
pub(crate) fn asked(worker: &mut Option<Known>, at: usize, mask: u64, free: bool)
    requires live { IsSome worker.old }
    requires claimed { at < length (unwrap_or worker.old blank).claimed }
    requires claims { at < length (unwrap_or worker.old blank).claims }
    ensures { let k = unwrap_or worker.old blank in worker.new ≡ Some (record k { claimed = with_bits k.claimed at mask; claims = if free then with_bits k.claims at mask else k.claims }) }
{
    let Some(known) = worker else { unreachable!() };
    add_bits(&mut known.claimed, at, mask);
    if free {
        add_bits(&mut known.claims, at, mask);
    }
}

/// The live worker takes in what another knows.
pub(crate) fn took_in(worker: &mut Option<Known>, other: &Known)
    requires live { IsSome worker.old }
    requires words { HasSameWords (unwrap_or worker.old blank) other.now }
    ensures { worker.new ≡ Some (joined (unwrap_or worker.old blank) other.now) }
{
    let Some(known) = worker else { unreachable!() };
    meet(&mut known.seen, &other.seen);
    union(&mut known.kept, &other.kept);
    union(&mut known.claimed, &other.claimed);
    union(&mut known.claims, &other.claims);
}
