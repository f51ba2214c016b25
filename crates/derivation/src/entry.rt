ghost use Rattle.std.specs.Prelude.{◌≡◌, ◌*◌, ◌/◌, ◌^◌, ◌<◌, ◌≤◌, ◌∷◌, ℕ, IfSome, IfNone, decimal};
ghost use Rattle.derivation.specs.Entry.{entry_number, IsEntry, IsWithin};
ghost use Rattle.derivation.specs.Texts.{literal_text};

use crate::number::number_up_to;
use cnf_core::Lit;

/// A word of a clause in a text.
#[derive(Clone, Copy)]
pub(crate) enum Entry {
    /// The 0 that ends the clause.
    End,
    Literal(Lit),
}

/// The entry over the variables 1 to `vars` that the bytes spell.
pub(crate) fn entry_of(bytes: &[u8], vars: u32) -> Option<Entry>
    requires { vars < 2 ^ 31 }
    ensures spelled { IfSome result (λ entry. bytes.now ≡ literal_text (entry_number entry)) }
    ensures over { IfSome result (IsWithin vars) }
    ensures none { IfNone result ((lit : ℕ) → IsEntry vars lit → bytes.now ≡ literal_text lit → ⊥) }
{
    let Some((first, rest)) = bytes.split_first() else {
        return None;
    };
    if *first == b'-' {
        negative_of(rest, vars)
    } else {
        positive_of(bytes, vars)
    }
}

/// The negative literal whose variable the bytes spell.
fn negative_of(bytes: &[u8], vars: u32) -> Option<Entry>
    requires { vars < 2 ^ 31 }
    ensures spelled { IfSome result (λ entry. 45 ∷ bytes.now ≡ literal_text (entry_number entry)) }
    ensures over { IfSome result (IsWithin vars) }
    ensures none { IfNone result ((var : ℕ) → 0 < var → var ≤ vars → bytes.now ≡ decimal var → ⊥) }
{
    match number_up_to(bytes, vars)? {
        0 => None,
        var => Some(Entry::Literal(Lit::negative(var))),
    }
}

/// The positive literal whose variable the bytes spell, or the end for 0.
fn positive_of(bytes: &[u8], vars: u32) -> Option<Entry>
    requires { vars < 2 ^ 31 }
    ensures spelled { IfSome result (λ entry. bytes.now ≡ literal_text (entry_number entry)) }
    ensures over { IfSome result (IsWithin vars) }
    ensures none { IfNone result ((var : ℕ) → var ≤ vars → bytes.now ≡ decimal var → ⊥) }
{
    match number_up_to(bytes, vars)? {
        0 => Some(Entry::End),
        var => Some(Entry::Literal(Lit::positive(var))),
    }
}
