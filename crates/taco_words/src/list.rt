//! Lists of numbers in a word.
ghost use Rattle.std.specs.Prelude.{◌≡◌, ◌-◌, ◌<◌, ◌≤◌, ◌^◌, length, map, IfOk};
ghost use Rattle.std.specs.List.{All};
ghost use Rattle.taco_words.specs.Limits.{IsSchedule};
ghost use Rattle.taco_words.specs.Numbers.{list_below as list_below_lem, numbers_up_to as numbers_up_to_lem, pieces as pieces_lem};
ghost use Rattle.taco_words.specs.Parsing.{Gives};

use crate::number::number_up_to;
use crate::request::{RequestFault, Schedule};
use std::alloc::{AllocError, Global};

/// The most entries of a schedule.
const MOST_ENTRIES: usize = 4096;

/// The pieces of a word between its commas.
fn pieces<'a>(alloc: Global, word: &'a str) -> Result<Vec<&'a str>, AllocError>
    ensures { IfOk result (λ v. map (λ w. w.now) v.items ≡ pieces_lem word.entry.now) }
{
    word.split(',').collect(alloc)
}

/// The numbers of at most `most` that these words write.
fn numbers_up_to(alloc: Global, words: &[&str], most: u32) -> Result<Schedule, RequestFault>
    ensures numbers { Gives (numbers_up_to_lem most (map (λ w. w.now) words.now)) result }
    ensures each { IfOk result (All (λ n. n ≤ most)) }
    ensures all { IfOk result (λ s. length s ≡ length words.now) }
{
    let mut entries = Vec::new(alloc);
    for word in words {
        match number_up_to(word, u64::from(most)) {
            Some(number) => entries.push(number as u32)?,
            None => return Err(RequestFault::Usage),
        }
    }
    Ok(Schedule::new(entries))
}

/// The numbers of workers, of which there are `workers`, that a word writes, joined by commas.
pub(crate) fn list_below(alloc: Global, word: &str, workers: u32) -> Result<Schedule, RequestFault>
    requires { 1 ≤ workers }
    ensures list { Gives (list_below_lem workers word.now) result }
    ensures within { IfOk result (IsSchedule workers) }
{
    let pieces = pieces(alloc, word)?;
    if pieces.len() > MOST_ENTRIES {
        return Err(RequestFault::Usage);
    }
    numbers_up_to(alloc, pieces.as_slice(), workers - 1)
}
