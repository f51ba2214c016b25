ghost use Rattle.std.specs.Prelude.{◌≡◌, Ok};
ghost use Rattle.declared_names.specs.Faults.{earlier as earlier_lem, key as key_lem, rank as rank_lem, sooner as sooner_lem, fault_of};
ghost use Rattle.declared_names.specs.Seen.{on_two, with_fault};

use refusals::Many;

/// Why a tree stands for no unit, in the order that decides between two faults at one place.
#[derive(Clone, Copy, Debug, PartialEq, Eq)]
pub enum Cause {
    /// A name has no meaning where it stands.
    Unknown,
    /// A name, or a modifier, is there already.
    Twice,
    /// A value, a call or a modifier is of the wrong kind.
    Kinds,
    /// The first of its sort beyond a limit.
    TooMany(Many),
}

/// A fault with its place in the text, in bytes, counted from 0.
#[derive(Clone, Copy, Debug, PartialEq, Eq)]
pub struct Fault {
    pub at: u32,
    pub cause: Cause,
}

fn rank(cause: Cause) -> u64
    ensures { result ≡ rank_lem cause }
{
    match cause {
        Cause::Unknown => 0,
        Cause::Twice => 1,
        Cause::Kinds => 2,
        Cause::TooMany(_) => 3,
    }
}

fn key(fault: Fault) -> u64
    ensures { result ≡ key_lem fault }
{
    4 * u64::from(fault.at) + rank(fault.cause)
}

/// The one of two faults that is reported: that of the lesser place, then of the lesser number, then the first.
pub fn sooner(first: Fault, second: Fault) -> Fault
    ensures { result ≡ sooner_lem first second }
{
    if key(second) < key(first) {
        second
    } else {
        first
    }
}

/// The same, where there may be none.
#[tactic(auto, unfolding(crate::specs::Faults::earlier))]
pub fn earlier(first: Option<Fault>, second: Option<Fault>) -> Option<Fault>
    ensures { result ≡ earlier_lem first second }
{
    match first {
        None => second,
        Some(f) => match second {
            None => Some(f),
            Some(g) => Some(sooner(f, g)),
        },
    }
}

/// The fault, unless the condition holds.
pub fn unless(holds: bool, at: u32, cause: Cause) -> Option<Fault>
    ensures { result ≡ fault_of holds at cause }
{
    if holds {
        None
    } else {
        Some(Fault { at, cause })
    }
}

/// Both values, or the fault that is reported.
pub fn pair<A: Drop, B: Drop>(a: Result<A, Fault>, b: Result<B, Fault>) -> Result<(A, B), Fault>
    ensures { result ≡ on_two a b (λ x y. Ok (x, y)) }
{
    match a {
        Ok(x) => match b {
            Ok(y) => Ok((x, y)),
            Err(g) => Err(g),
        },
        Err(f) => match b {
            Ok(_) => Err(f),
            Err(g) => Err(sooner(f, g)),
        },
    }
}

/// The value, or what is reported of its faults and of this one beside them.
pub fn beside<A: Drop>(fault: Option<Fault>, value: Result<A, Fault>) -> Result<A, Fault>
    ensures { result ≡ with_fault fault value }
{
    match fault {
        None => value,
        Some(f) => match value {
            Ok(_) => Err(f),
            Err(g) => Err(sooner(f, g)),
        },
    }
}
