ghost use Rattle.std.specs.Prelude.{◌≡◌, ◌+◌, MatchOption};

/// How many levels of nesting may be open at once.
pub const LEVELS: u8 = 64;

/// The levels that are left one level deeper, where so many are left; `None` where none is.
pub fn lower(left: u8) -> Option<u8>
    ensures { MatchOption result (left ≡ 0) (λ less. left ≡ less + 1) }
{
    left.checked_sub(1)
}
