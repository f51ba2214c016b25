ghost use Rattle.std.specs.Prelude.{◌≡◌};
ghost use Rattle.java_tree.specs.Phrases.{letter};
ghost use Rattle.java_reading.specs.PartForms.{part_form_of};

use java_lex::{Terminal, Token};

/// What a member of a class is by its first token.
#[derive(Clone, Copy, Debug, PartialEq, Eq)]
pub enum PartForm {
    /// `;` alone.
    Empty,
    /// An invariant or the specification of a method: the next token tells.
    Visible,
    Invariant,
    /// A method whose specification begins with `normal_behavior`.
    Normal,
    /// A method whose specification begins with a clause.
    Clause,
    /// Fields, or a method without a specification.
    Plain,
    /// No member.
    None,
}

/// What a member is that begins with the token. Takes no memory.
pub fn part_form_at(token: &Token) -> PartForm
    ensures { result ≡ part_form_of (letter token.now) }
{
    match (token.jml, token.terminal()) {
        (false, Terminal::Semicolon) => PartForm::Empty,
        (true, Terminal::Public | Terminal::Protected | Terminal::Private) => PartForm::Visible,
        (true, Terminal::Invariant) => PartForm::Invariant,
        (true, Terminal::NormalBehavior) => PartForm::Normal,
        (true, Terminal::Requires | Terminal::Ensures) => PartForm::Clause,
        (
            false,
            Terminal::Public
            | Terminal::Protected
            | Terminal::Private
            | Terminal::Final
            | Terminal::Static
            | Terminal::Void
            | Terminal::Int
            | Terminal::Boolean
            | Terminal::Name,
        ) => PartForm::Plain,
        (
            true,
            Terminal::Nullable | Terminal::NonNull | Terminal::SpecPublic | Terminal::SpecProtected,
        ) => PartForm::Plain,
        _ => PartForm::None,
    }
}
