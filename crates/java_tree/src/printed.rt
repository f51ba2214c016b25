ghost use Rattle.std.specs.Prelude.{◌≡◌, ◌++◌, OnOk};
ghost use Rattle.java_tree.specs.Print.{bytes_of, number, slashed, symbol, word};

use itoa::Buffer;
use no_memory::NoMemory;
use std::marker::Model;

/// A token's kind, and its bytes or its number.
#[derive(Drop)]
pub(crate) enum Text<'a> {
    Word(&'a [u8]),
    Symbol(&'a [u8]),
    Slashed(&'a [u8]),
    Number(u32),
}

/// A token that is to be printed: contracts see whether it stands in an annotation, and its kind.
#[derive(Drop)]
pub(crate) struct Printed<'a> {
    jml: bool,
    text: Text<'a>,
}

impl<'a> Model for Printed<'a> {
    ghost use Rattle.std.specs.Prelude.{Bool};
    ghost use Rattle.java_lex.specs.declared.token.TokenKind.{TokenKind};
    ghost use Rattle.java_tree.specs.Texts.{kind_of_text};

    ghost Value = { Bool × TokenKind };

    ghost view = { λ p. (p.jml, kind_of_text p.text) };
}

impl<'a> Printed<'a> {
    pub(crate) fn jml(&self) -> bool
        ensures { result ≡ self.now.0 }
    {
        self.jml
    }

    /// Adds the token's bytes.
    pub(crate) fn push_to(&self, text: &mut Vec<u8>) -> Result<(), NoMemory>
        ensures { OnOk result (text.new.items ≡ text.old.items ++ bytes_of self.now.1) }
    {
        match &self.text {
            Text::Word(bytes) => text.extend_from_slice(bytes)?,
            Text::Symbol(bytes) => text.extend_from_slice(bytes)?,
            Text::Slashed(bytes) => text.extend_from_slice(bytes)?,
            Text::Number(n) => {
                let mut buffer = Buffer::new();
                text.extend_from_slice(buffer.format(*n).as_bytes())?;
            }
        }
        Ok(())
    }
}

/// Adds a word.
pub(crate) fn push_word<'a>(
    words: &mut Vec<Printed<'a>>,
    jml: bool,
    bytes: &'a [u8],
) -> Result<(), NoMemory>
    ensures { OnOk result (words.new.items ≡ words.old.items ++ word jml bytes.now) }
{
    words.push(Printed {
        jml,
        text: Text::Word(bytes),
    })?;
    Ok(())
}

/// Adds a symbol.
pub(crate) fn push_symbol<'a>(
    words: &mut Vec<Printed<'a>>,
    jml: bool,
    bytes: &'a [u8],
) -> Result<(), NoMemory>
    ensures { OnOk result (words.new.items ≡ words.old.items ++ symbol jml bytes.now) }
{
    words.push(Printed {
        jml,
        text: Text::Symbol(bytes),
    })?;
    Ok(())
}

/// Adds a backslash word.
pub(crate) fn push_slashed<'a>(
    words: &mut Vec<Printed<'a>>,
    jml: bool,
    bytes: &'a [u8],
) -> Result<(), NoMemory>
    ensures { OnOk result (words.new.items ≡ words.old.items ++ slashed jml bytes.now) }
{
    words.push(Printed {
        jml,
        text: Text::Slashed(bytes),
    })?;
    Ok(())
}

/// Adds a number.
pub(crate) fn push_number(words: &mut Vec<Printed<'_>>, jml: bool, n: u32) -> Result<(), NoMemory>
    ensures { OnOk result (words.new.items ≡ words.old.items ++ number jml n) }
{
    words.push(Printed {
        jml,
        text: Text::Number(n),
    })?;
    Ok(())
}
