ghost use Rattle.std.specs.Prelude.{◌≡◌, ◌∷◌, ◌==◌, [], MatchOption};
ghost use Rattle.std.specs.List.{slice_split};

use crate::cut::cut_at;
use std::marker::Model;

/// The words of a line, parted by single spaces. Contracts see it as the list of those that are left.
#[derive(Drop)]
pub(crate) struct Fields<'a> {
    rest: &'a [u8],
    is_over: bool,
}

impl<'a> Model for Fields<'a> {
    ghost use Rattle.std.specs.Prelude.{ℕ, List, [], ◌==◌, if◌then◌else◌};
    ghost use Rattle.std.specs.List.{slice_split};

    ghost Value = { List (List ℕ) };

    ghost view = { λ fields. if fields.is_over then [] else slice_split (λ b. b == 32) fields.rest.now };
}

impl<'a> Fields<'a> {
    pub(crate) fn new(line: &'a [u8]) -> Fields<'a>
        ensures { result ≡ slice_split (λ b. b == 32) line.now }
    {
        Fields {
            rest: line,
            is_over: false,
        }
    }

    /// Takes the next word off.
    pub(crate) fn next(&mut self) -> Option<&'a [u8]>
        ensures { MatchOption result (self.old ≡ []) (λ word. self.old ≡ word.now ∷ self.new) }
    {
        if self.is_over {
            return None;
        }
        match cut_at(self.rest, b' ') {
            Some((word, behind)) => {
                self.rest = behind;
                Some(word)
            }
            None => {
                self.is_over = true;
                Some(self.rest)
            }
        }
    }
}
