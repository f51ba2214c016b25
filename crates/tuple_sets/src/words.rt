ghost use Rattle.std.specs.Prelude.{◌≡◌, ℕ, ◌+◌, ◌*◌, ◌/◌, ◌%◌, ◌<◌, ◌↔◌, length, IfOk, IsTrue};
ghost use Rattle.tuple_sets.specs.Words.{one_bit, first_bits, has as has_lem, words_for as words_for_lem, all_below as all_below_lem, none_of as none_of_lem, meet as meet_lem, union as union_lem};

use no_memory::NoMemory;
use sqlite_items::Items;
use std::alloc::Global;

/// The word with the bit of this number alone, in the word of the number.
pub fn mask_of(number: u32) -> u64
    ensures { result ≡ one_bit (number % 64) }
{
    1u64 << (number % 64)
}

/// Whether the number is in the set.
pub fn has(set: &[u64], number: u32) -> bool
    requires { number / 64 < length set.now }
    ensures { IsTrue result ↔ (has_lem set.now number ≡ 1) }
{
    (set[number as usize / 64] >> (number % 64)) & 1 == 1
}

/// How many words the numbers below `count` have.
pub fn words_for(count: u32) -> usize
    ensures { result ≡ words_for_lem count }
{
    (count as usize + 63) / 64
}

/// Word `at` of the set of all numbers below `count`.
fn front_of(count: usize, at: usize) -> u64
    requires { 64 * at < count }
    ensures { result ≡ first_bits count at }
{
    let left = count - 64 * at;
    if left >= 64 {
        u64::MAX
    } else {
        (1u64 << left) - 1
    }
}

/// All numbers below `count`.
pub fn all_below(alloc: Global, count: u32) -> Result<Items<u64>, NoMemory>
    ensures { IfOk result (λ set. set ≡ all_below_lem count) }
{
    let mut set = Items::new(alloc);
    for at in 0..words_for(count) {
        set.push(front_of(count as usize, at))?;
    }
    Ok(set)
}

/// The empty set, in so many words.
pub fn none_of(alloc: Global, words: usize) -> Result<Items<u64>, NoMemory>
    ensures { IfOk result (λ set. set ≡ none_of_lem words) }
{
    let mut set = Items::new(alloc);
    for _ in 0..words {
        set.push(0)?;
    }
    Ok(set)
}

/// What is in both sets comes to be in the first. Linear in the words. Takes no memory.
pub fn meet(set: &mut Items<u64>, other: &Items<u64>)
    requires { length set.old ≡ length other.now }
    ensures { set.new ≡ meet_lem set.old other.now }
{
    let other = other.as_slice();
    for at in 0..other.len() {
        let word = set.as_slice()[at] & other[at];
        set.set(at, word);
    }
}

/// What is in either set comes to be in the first. Linear in the words. Takes no memory.
pub fn union(set: &mut Items<u64>, other: &Items<u64>)
    requires { length set.old ≡ length other.now }
    ensures { set.new ≡ union_lem set.old other.now }
{
    let other = other.as_slice();
    for at in 0..other.len() {
        let word = set.as_slice()[at] | other[at];
        set.set(at, word);
    }
}
