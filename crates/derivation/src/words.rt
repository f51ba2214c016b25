ghost use Rattle.std.specs.Prelude.{◌≡◌, ◌+◌, ◌<◌, ◌≤◌, [], ◌∷◌, not, length, take, drop, IfSome, MatchOption};
ghost use Rattle.std.specs.List.{prefix_len, list_any, list_all};
ghost use Rattle.derivation.specs.Runs.{is_blank, is_line_end, is_white, runs};

use crate::comment::{ends_line, is_space_or_tab, is_white_space};
use std::marker::Model;

/// A word of a text: its place, the white space before it, and its bytes.
#[derive(Drop)]
pub(crate) struct Word<'a> {
    pub(crate) at: usize,
    pub(crate) gap: &'a [u8],
    pub(crate) bytes: &'a [u8],
}

impl<'a> Model for Word<'a> {
    ghost use Rattle.derivation.specs.Runs.{Run};

    ghost Value = { Run };

    ghost view = { λ word. record { at = word.at; gap = word.gap.now; bytes = word.bytes.now } };
}

/// The words of a text that are left.
#[derive(Drop)]
pub(crate) struct Words<'a> {
    at: usize,
    rest: &'a [u8],
}

impl<'a> Model for Words<'a> {
    ghost use Rattle.std.specs.Prelude.{List, ◌+◌, ◌≤◌, length};
    ghost use Rattle.derivation.specs.Runs.{Run, runs};

    ghost Value = { List Run };

    ghost view = { λ words. runs words.at words.rest.now };

    ghost invariant = { λ words. words.at + length words.rest.now ≤ 67108864 };
}

impl<'a> Words<'a> {
    pub(crate) fn new(text: &'a [u8]) -> Words<'a>
        requires { length text.now ≤ 67108864 }
        ensures { result ≡ runs 0 text.now }
    {
        Words { at: 0, rest: text }
    }

    /// Takes the next word off.
    pub(crate) fn next(&mut self) -> Option<Word<'a>>
        ensures word { MatchOption result (self.old ≡ []) (λ word. self.old ≡ word ∷ self.new) }
        ensures place { IfSome result (λ word. word.at ≤ 67108864) }
    {
        let (gap, behind) = self.rest.split_at(white_len(self.rest));
        if behind.is_empty() {
            return None;
        }
        let (bytes, rest) = behind.split_at(word_len(behind));
        let at = self.at + gap.len();
        self.at = at + bytes.len();
        self.rest = rest;
        Some(Word { at, gap, bytes })
    }
}

/// How many bytes of white space stand first.
fn white_len(bytes: &[u8]) -> usize
    ensures value { result ≡ prefix_len is_white bytes.now }
    ensures within { result ≤ length bytes.now }
{
    for (place, byte) in bytes.iter().enumerate() {
        if !is_white_space(*byte) {
            return place;
        }
    }
    bytes.len()
}

/// How many other bytes stand first.
fn word_len(bytes: &[u8]) -> usize
    ensures value { result ≡ prefix_len (λ b. not (is_white b)) bytes.now }
    ensures within { result ≤ length bytes.now }
{
    for (place, byte) in bytes.iter().enumerate() {
        if is_white_space(*byte) {
            return place;
        }
    }
    bytes.len()
}
