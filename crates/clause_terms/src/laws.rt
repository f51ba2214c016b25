ghost use Rattle.clause_terms.specs.Chains.{ChainsGoRight, FlagsSettle};
ghost use Rattle.clause_terms.specs.Fields.{OtherFieldsAreLacking};

/// A law of the operators of clauses: `(x && y) && z` gives what `x && (y && z)` gives, for all outcomes, and so
/// does `||`.
pub fn chains_go_right()
    ensures { ChainsGoRight }
{}

/// A law of the operators of clauses: what `&&`, `||`, `==>`, `!` and a quantifier's instance give is a truth value,
/// Bad or Out, so that it is what it is as a truth value.
pub fn flags_settle()
    ensures { FlagsSettle }
{}

/// A law of the definitions: a field that the unit lacks gives Bad exactly where its object is not there in a heap that is
/// shown, and never a value.
pub fn other_fields_are_lacking()
    ensures { OtherFieldsAreLacking }
{}
