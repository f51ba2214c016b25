ghost use Rattle.jml_rel.specs.Clauses.{EntriesAreShown, EntriesAreSorted, ExitsAreShown, ExitsAreSorted, InvariantsAreShown};

/// A law of the definitions: a heap that is shown at given indices, with one of its objects as receiver, shows what
/// the invariants of that object are evaluated in, at the indices of the heap alone.
pub fn invariants_are_shown()
    ensures { InvariantsAreShown }
{}

/// A law of the definitions: a start that is shown, at indices that list its parameters, shows what its `requires`
/// clauses are evaluated in; the receiver is its variable, or null.
pub fn entries_are_shown()
    ensures { EntriesAreShown }
{}

/// A law of the definitions: a start that is shown at the indices of the pre-state, a heap and a result that are shown
/// at those of the end show what the `ensures` clauses are evaluated in.
pub fn exits_are_shown()
    ensures { ExitsAreShown }
{}

/// A law of the definitions: a choice of kinds that gives the variables of a start theirs gives those at the point
/// where a `requires` clause is translated theirs.
pub fn entries_are_sorted()
    ensures { EntriesAreSorted }
{}

/// A law of the definitions: so it does at the point of an `ensures` clause, where the result has its kind too.
pub fn exits_are_sorted()
    ensures { ExitsAreSorted }
{}
