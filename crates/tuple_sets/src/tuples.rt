ghost use Rattle.std.specs.Prelude.{◌≡◌, ◌≤◌};
ghost use Rattle.tuple_sets.specs.Numbered.{word_count as word_count_lem};

use crate::words::words_for;
use canonical_order::tuple_count;
use heap_core::Problem;

/// How many words the tuples of the problem have, at most 80. Linear in the parameters of the method
/// and the fields of the unit. Takes no memory.
pub fn word_count(problem: &Problem) -> usize
    ensures value { result ≡ word_count_lem problem.now }
    ensures few { result ≤ 80 }
{
    words_for(tuple_count(problem))
}
