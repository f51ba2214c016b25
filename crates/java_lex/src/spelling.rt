/// What Java or JML has and the profile has not.
#[derive(Clone, Copy, Debug, PartialEq, Eq)]
pub enum Absent {
    /// Arrays.
    Array,
    /// Text literals.
    Text,
    /// The types of numbers other than `int`.
    TypeWord,
    /// Kinds of classes, and what stands between them.
    Class,
    /// Statements.
    Statement,
    /// Modifiers and annotations of Java.
    Modifier,
    /// Operators.
    Operator,
    /// `super`.
    Super,
    /// JML's clauses, modifiers and backslash words.
    Jml,
}

/// What a token is to the grammar.
#[derive(Clone, Copy, Debug, PartialEq, Eq)]
pub enum Terminal {
    // words of Java
    Boolean,
    Class,
    Else,
    False,
    Final,
    If,
    Import,
    Int,
    New,
    Null,
    Package,
    Private,
    Protected,
    Public,
    Return,
    Static,
    This,
    True,
    Void,
    While,
    // words of JML
    Ensures,
    Invariant,
    NonNull,
    NonNullByDefault,
    NormalBehavior,
    Nullable,
    NullableByDefault,
    Requires,
    SpecProtected,
    SpecPublic,
    // backslash words
    Exists,
    Forall,
    Old,
    Reach,
    ResultValue,
    // separators
    OpenBrace,
    CloseBrace,
    OpenParen,
    CloseParen,
    Semicolon,
    Comma,
    Dot,
    // operators
    Assign,
    Equal,
    NotEqual,
    Less,
    AtMost,
    Greater,
    AtLeast,
    Plus,
    Minus,
    Times,
    Not,
    And,
    Or,
    Increment,
    Decrement,
    Implies,
    Iff,
    // what has no spelling of its own
    Name,
    Number,
    End,
    /// What the profile has not.
    Absent(Absent),
    /// A reserved word that stands in no text.
    Reserved,
}

/// A word, a backslash word or a symbol that means something by itself: its bytes, whether it means so in
/// annotations alone, and what it is to the grammar.
pub(crate) type Spelling = (&'static [u8], bool, Terminal);
