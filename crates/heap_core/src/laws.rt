ghost use Rattle.heap_core.specs.Closure.{ClosureIsLeastClosed, RoundsEnd, RoundsOfUnion, RoundsOfSum};
ghost use Rattle.heap_core.specs.Kinded.{KindsHold, StartsAreAnswered};
ghost use Rattle.heap_core.specs.Laws.{ReachIsLeastClosed, NoTurnLeft, TheRunDecides};

/// A law of the definitions: `\reach` is the least set that holds its start, where that is an
/// object, and with each object the objects in the named fields.
pub fn reach_is_least_closed()
    ensures { ReachIsLeastClosed }
{}

/// A law of the definitions: where no turn is left and the test is true, a loop leaves the scope.
pub fn no_turn_left()
    ensures { NoTurnLeft }
{}

/// A law of the definitions: where neither a clause leaves the scope before the run nor the
/// precondition is missed, the judgement of a start is that of its run.
pub fn the_run_decides()
    ensures { TheRunDecides }
{}

/// Laws of closure over a graph: it is the least closed set, as many rounds as there are numbers below
/// the bound reach it, the rounds of a union are the union of the rounds, and the rounds of a sum are
/// the rounds of one part after those of the other.
pub fn laws_of_closure()
    ensures least { ClosureIsLeastClosed }
    ensures end { RoundsEnd }
    ensures union { RoundsOfUnion }
    ensures sum { RoundsOfSum }
{}

/// A law of the definitions: a clause whose kinds fit, in an environment of these kinds, gives a value
/// of its kind, Bad or Out. It is Out only where its numbers have too few bits: with enough of them it
/// has one value, or is Bad, whatever more they have.
pub fn kinds_hold()
    ensures { KindsHold }
{}

/// A law of the definitions: of each start that fits a problem, the invariants and the `requires`
/// clauses give truth values, Bad or Out, and with enough bits none of them is Out.
pub fn starts_are_answered()
    ensures { StartsAreAnswered }
{}
