ghost use Rattle.std.specs.Prelude.{ℕ, List};
ghost use Rattle.java_lex.specs.declared.token.Token.{Token};
ghost use Rattle.java_lex.specs.Cut.{Cut};
ghost use Rattle.java_tree.specs.Trees.{Classes};
ghost use Rattle.java_tree.specs.Reading.{Parse};
ghost use Rattle.round_trip.specs.Again.{IsReadAgain};

/// What is printed of the tree of a text is cut into tokens that parse to the same tree, but for its places. It does
/// nothing when it runs: its contract is the law.
pub fn a_printed_text_is_read_again()
    ensures { (text : List ℕ) (tokens : List Token) (classes : Classes) → Cut text tokens → Parse tokens classes → IsReadAgain classes }
{}
