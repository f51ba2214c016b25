ghost use Rattle.std.specs.Prelude.{◌≡◌, List};
ghost use Rattle.java_lex.specs.declared.token.Token.{Token};
ghost use Rattle.java_tree.specs.Trees.{Expr};
ghost use Rattle.java_tree.specs.Expressions.{predicate};
ghost use Rattle.java_tree.specs.Reading.{Parses, any_level};

/// A list of tokens is the expression of a clause in one way at most, whatever levels are opened: its tree is one.
/// It does nothing when it runs: its contract is the law.
pub fn a_clause_has_one_tree_at_most()
    ensures { (ts : List Token) (a b : Expr) → Parses (predicate any_level a) ts → Parses (predicate any_level b) ts → a ≡ b }
{}
