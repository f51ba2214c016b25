use java_lex::Absent;

/// What a text may have too many of.
#[derive(Clone, Copy, Debug, PartialEq, Eq)]
pub enum Many {
    Classes,
    Fields,
    RefFields,
    Methods,
    Params,
    Locals,
    Clauses,
    Loops,
    Quantifiers,
}

/// Why the bytes of a text stand for no unit. Places are in bytes, counted from 0.
#[derive(Clone, Copy, Debug, PartialEq, Eq)]
pub enum Refusal {
    /// No token begins there, or a number, a text literal or a `/*` that is not as it must be.
    BadToken { at: u32 },
    /// With the token that stands there no text of the grammar begins.
    Syntax { at: u32 },
    /// The same, where the token is one that the profile has not.
    Unsupported { part: Absent, at: u32 },
    /// The token that stands there opens level 65.
    Deep { at: u32 },
    /// A name has no meaning where it stands.
    Unknown { at: u32 },
    /// A name, or a modifier, is there already.
    Twice { at: u32 },
    /// A value, a call or a modifier is of the wrong kind.
    Kinds { at: u32 },
    /// The first of its sort beyond a limit.
    TooMany { many: Many, at: u32 },
}
