use java_lex::Lexeme;

/// A name, and the place where it stands.
#[derive(Debug, Drop)]
pub struct Ident {
    pub text: Lexeme,
    pub at: u32,
}

/// The modifiers that have an effect, in the order in which a tree keeps them.
#[derive(Clone, Copy, Debug, PartialEq, Eq)]
pub enum ModWord {
    Static,
    Nullable,
    NonNull,
    NullableByDefault,
    NonNullByDefault,
}

/// A modifier, and the place where it stands.
#[derive(Clone, Copy, Debug, PartialEq, Eq)]
pub struct Modifier {
    pub word: ModWord,
    pub at: u32,
}

/// A type as it is written.
#[derive(Debug, Drop)]
pub enum TypeTree {
    Int,
    Flag,
    Class(Ident),
}
