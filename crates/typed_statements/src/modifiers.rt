ghost use Rattle.std.specs.Prelude.{◌≡◌};
ghost use Rattle.declared_names.specs.Faults.{soonest};
ghost use Rattle.typed_statements.specs.Modifiers.{is_nullable as is_nullable_lem, kinds_at as kinds_at_lem, marked as marked_lem, marks_of, modifier_faults, no_marks as no_marks_lem, nullness_faults, opposed as opposed_lem, or_first as or_first_lem, place_of as place_of_lem, repeated_at, repeated_from};

use declared_names::{Cause, Fault, earlier, unless};
use java_tree::{ModWord, Modifier};

/// The first place of each modifier.
#[derive(Clone, Copy, Debug, PartialEq, Eq)]
pub struct Marks {
    pub fixed: Option<u32>,
    pub nullable: Option<u32>,
    pub non_null: Option<u32>,
    pub nullable_by_default: Option<u32>,
    pub non_null_by_default: Option<u32>,
}

fn no_marks() -> Marks
    ensures { result ≡ no_marks_lem }
{
    Marks {
        fixed: None,
        nullable: None,
        non_null: None,
        nullable_by_default: None,
        non_null_by_default: None,
    }
}

fn place_of(marks: Marks, word: ModWord) -> Option<u32>
    ensures { result ≡ place_of_lem marks word }
{
    match word {
        ModWord::Static => marks.fixed,
        ModWord::Nullable => marks.nullable,
        ModWord::NonNull => marks.non_null,
        ModWord::NullableByDefault => marks.nullable_by_default,
        ModWord::NonNullByDefault => marks.non_null_by_default,
    }
}

fn or_first(place: Option<u32>, at: u32) -> Option<u32>
    ensures { result ≡ or_first_lem place at }
{
    match place {
        Some(place) => Some(place),
        None => Some(at),
    }
}

fn marked(mut marks: Marks, word: ModWord, at: u32) -> Marks
    ensures { result ≡ marked_lem marks word at }
{
    match word {
        ModWord::Static => marks.fixed = or_first(marks.fixed, at),
        ModWord::Nullable => marks.nullable = or_first(marks.nullable, at),
        ModWord::NonNull => marks.non_null = or_first(marks.non_null, at),
        ModWord::NullableByDefault => {
            marks.nullable_by_default = or_first(marks.nullable_by_default, at);
        }
        ModWord::NonNullByDefault => {
            marks.non_null_by_default = or_first(marks.non_null_by_default, at);
        }
    }
    marks
}

/// The first place of each of these modifiers.
pub fn first_places(mods: &[Modifier]) -> Marks
    ensures { result ≡ marks_of mods.now }
{
    let mut marks = no_marks();
    for modifier in mods {
        marks = marked(marks, modifier.word, modifier.at);
    }
    marks
}

/// The fault of a modifier that is among these.
#[tactic(auto, using(crate::proofs::Lists::leaves))]
fn repeats(marks: Marks, modifier: &Modifier) -> Option<Fault>
    ensures { result ≡ soonest (repeated_at marks modifier.now) }
{
    unless(
        place_of(marks, modifier.word).is_none(),
        modifier.at,
        Cause::Twice,
    )
}

/// The fault of a modifier that is there already.
fn repeated(mods: &[Modifier]) -> Option<Fault>
    ensures { result ≡ soonest (repeated_from no_marks_lem mods.now) }
{
    let mut found = None;
    let mut marks = no_marks();
    for modifier in mods {
        found = earlier(found, repeats(marks, modifier));
        marks = marked(marks, modifier.word, modifier.at);
    }
    found
}

/// The fault of two modifiers that say the contrary.
#[tactic(auto, using(crate::proofs::Lists::leaves))]
fn opposed(one: Option<u32>, other: Option<u32>) -> Option<Fault>
    ensures { result ≡ soonest (opposed_lem one other) }
{
    match one {
        None => None,
        Some(p) => match other {
            None => None,
            Some(q) => Some(Fault {
                at: p.max(q),
                cause: Cause::Twice,
            }),
        },
    }
}

/// The fault of modifiers among themselves.
#[tactic(auto, using(crate::proofs::Lists::leaves))]
pub fn modifier_fault(mods: &[Modifier]) -> Option<Fault>
    ensures { result ≡ soonest (modifier_faults mods.now) }
{
    let places = first_places(mods);
    let one = opposed(places.nullable, places.non_null);
    let other = opposed(places.nullable_by_default, places.non_null_by_default);
    earlier(repeated(mods), earlier(one, other))
}

#[tactic(auto, using(crate::proofs::Lists::leaves))]
fn kinds_at(place: Option<u32>) -> Option<Fault>
    ensures { result ≡ soonest (kinds_at_lem place) }
{
    match place {
        None => None,
        Some(at) => Some(Fault {
            at,
            cause: Cause::Kinds,
        }),
    }
}

/// The fault of nullness that is given to what is no object.
#[tactic(auto, using(crate::proofs::Lists::leaves))]
pub fn nullness_fault(object: bool, places: Marks) -> Option<Fault>
    ensures { result ≡ soonest (nullness_faults object places) }
{
    if object {
        None
    } else {
        earlier(kinds_at(places.nullable), kinds_at(places.non_null))
    }
}

/// Whether it may be null.
pub fn is_nullable(default: bool, object: bool, places: Marks) -> bool
    ensures { result ≡ is_nullable_lem default object places }
{
    object && (places.nullable.is_some() || (default && places.non_null.is_none()))
}
