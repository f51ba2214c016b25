ghost use Rattle.std.specs.Prelude.{◌≡◌, List};
ghost use Rattle.java_lex.specs.declared.token.Token.{Token};
ghost use Rattle.java_tree.specs.Trees.{Classes, Expr};
ghost use Rattle.java_tree.specs.Expressions.{predicate};
ghost use Rattle.java_tree.specs.Reading.{some_predicate, some_text, FirstDeep, FirstFault, FirstWrong, Parse, Parses, within};

/// The tokens of a text have no token at fault; other tokens have one first one at most; and that is at fault
/// for its level alone or whatever levels are opened, and not both. It does nothing when it runs: its contract
/// is the law.
pub fn a_text_has_one_fault_at_most()
    ensures none { (ts rest : List Token) (cs : Classes) → Parse ts cs → FirstFault some_text ts rest → ⊥ }
    ensures once { (ts rest other : List Token) → FirstFault some_text ts rest → FirstFault some_text ts other → rest ≡ other }
    ensures kind { (ts rest other : List Token) → FirstDeep some_text ts rest → FirstWrong some_text ts other → ⊥ }
{}

/// The same of the expression of a clause. It does nothing when it runs: its contract is the law.
pub fn a_clause_has_one_fault_at_most()
    ensures none { (ts rest : List Token) (e : Expr) → Parses (predicate within e) ts → FirstFault some_predicate ts rest → ⊥ }
    ensures once { (ts rest other : List Token) → FirstFault some_predicate ts rest → FirstFault some_predicate ts other → rest ≡ other }
    ensures kind { (ts rest other : List Token) → FirstDeep some_predicate ts rest → FirstWrong some_predicate ts other → ⊥ }
{}
