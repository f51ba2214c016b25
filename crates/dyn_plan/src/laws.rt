ghost use Rattle.dyn_plan.specs.Laws.{PlansRunAsPrograms, PlansDoAsCode, ExecutionsEndWhole};

/// A law of the definitions: the last states of the program of some steps are exactly the state to
/// which the steps lead, where they lead to one.
pub fn plans_run_as_programs()
    ensures { PlansRunAsPrograms }
{}

/// A law of the definitions: from the states of a start, the runs of the program of a method, under a
/// bound on the turns of each entry of a loop, are its executions that end within the scope with so
/// many turns: each run ends as the execution does, and there is a run where the execution does not
/// leave the scope. Where loop bodies are left out, this is so without a turn.
pub fn plans_do_as_code()
    ensures { PlansDoAsCode }
{}

/// A law of the definitions: over a well unit, an execution from a start that fits ends in a heap whose
/// objects are whole, of which there are no more than the scope has, and in which the objects of the
/// start keep their numbers and classes; and it gives a value exactly where the method has a result,
/// and one of its kind. It throws in such a heap too, or leaves the scope.
pub fn executions_end_whole()
    ensures { ExecutionsEndWhole }
{}
