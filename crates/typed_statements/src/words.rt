ghost use Rattle.std.specs.Prelude.{◌≡◌};
ghost use Rattle.std.specs.List.{list_all};
ghost use Rattle.taco_unit.specs.Words.{begins_word as begins_word_lem, continues_word as continues_word_lem, is_word as is_word_lem};
ghost use Rattle.declared_names.specs.Faults.{soonest};
ghost use Rattle.typed_statements.specs.Heads.{word_faults};

use declared_names::{Cause, Fault, unless};
use java_tree::Ident;

/// Whether a byte may stand first in a word.
fn begins_word(byte: u8) -> bool
    ensures { result ≡ begins_word_lem byte }
{
    byte.is_ascii_alphabetic() || byte == b'_' || byte == b'$'
}

/// Whether a byte may stand in a word behind its first byte.
fn continues_word(byte: u8) -> bool
    ensures { result ≡ continues_word_lem byte }
{
    byte.is_ascii_alphanumeric() || byte == b'_' || byte == b'$'
}

fn all_continue(bytes: &[u8]) -> bool
    ensures { result ≡ list_all continues_word_lem bytes.now }
{
    bytes.iter().all(|byte| continues_word(*byte))
}

fn is_word(bytes: &[u8]) -> bool
    ensures { result ≡ is_word_lem bytes.now }
{
    match bytes.split_first() {
        Some((first, rest)) => begins_word(*first) && all_continue(rest),
        None => false,
    }
}

/// The fault of a name that is declared and is no word. No text has one.
#[tactic(auto, using(crate::proofs::Lists::leaves))]
pub fn word_fault(name: &Ident) -> Option<Fault>
    ensures { result ≡ soonest (word_faults name.now) }
{
    unless(is_word(name.text.bytes()), name.at, Cause::Unknown)
}
