ghost use Rattle.std.specs.Prelude.{◌≡◌};
ghost use Rattle.java_tree.specs.Phrases.{letter};
ghost use Rattle.java_reading.specs.Forms.{form_of};
ghost use Rattle.java_reading.specs.StatementReading.{turn_of};

use java_lex::{Terminal, Token};

/// What a statement is by its first token.
#[derive(Clone, Copy, Debug, PartialEq, Eq)]
pub enum Form {
    Block,
    Blank,
    If,
    While,
    Return,
    /// A declaration that begins with a modifier or with a word for its type.
    Local,
    /// A declaration, an assignment or a call: the next token tells.
    Name,
    /// An assignment or a call.
    This,
    /// No statement.
    None,
}

/// What was read of an assignment or a call: `this` alone, something that may be assigned, or a call.
#[derive(Clone, Copy, Debug, PartialEq, Eq)]
pub enum Reached {
    Bare,
    Place,
    Call,
}

/// What a token makes of what was read of an assignment or a call.
#[derive(Clone, Copy, Debug, PartialEq, Eq)]
pub enum Turn {
    /// `=`, and a value behind it.
    Assigns,
    /// `++`.
    Up,
    /// `--`.
    Down,
    /// The `;` behind a call.
    Ends,
    /// A `.`.
    Goes,
    /// None of these.
    Fails,
}

/// What the token makes of what was read. Takes no memory.
pub fn turn_at(reached: Reached, terminal: Terminal) -> Turn
    ensures { result ≡ turn_of reached terminal }
{
    match (reached, terminal) {
        (_, Terminal::Dot) => Turn::Goes,
        (Reached::Place, Terminal::Assign) => Turn::Assigns,
        (Reached::Place, Terminal::Increment) => Turn::Up,
        (Reached::Place, Terminal::Decrement) => Turn::Down,
        (Reached::Call, Terminal::Semicolon) => Turn::Ends,
        _ => Turn::Fails,
    }
}

/// What a statement is that begins with the token. Takes no memory.
pub fn form_at(token: &Token) -> Form
    ensures { result ≡ form_of (letter token.now) }
{
    match (token.jml, token.terminal()) {
        (false, Terminal::OpenBrace) => Form::Block,
        (false, Terminal::Semicolon) => Form::Blank,
        (false, Terminal::If) => Form::If,
        (false, Terminal::While) => Form::While,
        (false, Terminal::Return) => Form::Return,
        (false, Terminal::Int | Terminal::Boolean | Terminal::Final) => Form::Local,
        (true, Terminal::Nullable | Terminal::NonNull) => Form::Local,
        (false, Terminal::Name) => Form::Name,
        (false, Terminal::This) => Form::This,
        _ => Form::None,
    }
}
