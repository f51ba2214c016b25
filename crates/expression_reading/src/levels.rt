ghost use Rattle.std.specs.Prelude.{◌≡◌, suc, false, true, MatchOption, Some, None};
ghost use Rattle.expression_reading.specs.Levels.{level_of, within_left};

/// The levels that are left one level deeper; `None` where none is left. Takes no memory.
pub fn deeper(left: u8) -> Option<u8>
    ensures code { MatchOption result (within_left false left ≡ None) (λ less. within_left false left ≡ Some (level_of false less)) }
    ensures clause { MatchOption result (within_left true left ≡ None) (λ less. within_left true left ≡ Some (level_of true less)) }
    ensures less { MatchOption result (left ≡ 0) (λ less. left ≡ suc less) }
{
    reading_core::lower(left)
}
