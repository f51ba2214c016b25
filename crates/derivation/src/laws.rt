ghost use Rattle.std.specs.Prelude.{◌≡◌, ◌≢◌, ℕ, ◌<◌, Bool, false, List, [], ◌∷◌, ◌++◌, All, IsTrue};
ghost use Rattle.cnf_core.specs.Truth.{clause_holds, IsUnsatisfiable, Satisfies};
ghost use Rattle.derivation.specs.Step.{Step};
ghost use Rattle.derivation.specs.LogText.{IsClause, IsInOrder};
ghost use Rattle.derivation.specs.Propagation.{Follows};
ghost use Rattle.derivation.specs.Logs.{clauses_of, contains_clause, Fresh, Refutes, Valid};

/// What follows is true wherever the known clauses are, so a refuted formula has no solution. It does
/// nothing when it runs: its contract is the law.
pub fn what_follows_is_true()
    ensures line { (values : ℕ → Bool) (known : List (List ℕ)) (step : Step) → Satisfies values known → Follows known step → IsTrue (clause_holds values step.clause) }
    ensures log { (clauses : List (List ℕ)) (steps : List Step) → Refutes clauses steps → IsUnsatisfiable clauses }
{}

/// The hints of a valid log count from 1. So where the variables of its lines rise, from 1 to a number, it
/// is in order, and what `log_text` writes is read again as this log. It does nothing when it runs: its
/// contract is the law.
pub fn hints_count_from_one()
    ensures line { (known : List (List ℕ)) (step : Step) → Follows known step → All (λ hint. 0 < hint) step.hints }
    ensures log { (vars : ℕ) (clauses : List (List ℕ)) (steps : List Step) → Valid clauses steps → All (λ step. IsClause vars step.clause) steps → All (IsInOrder vars) steps }
{}

/// A line of a fresh log that is not empty has not all literals of a clause of the formula or of an
/// earlier line, so no two such lines have the same literals. It does nothing when it runs: its contract
/// is the law.
pub fn fresh_lines_are_distinct()
    ensures { (clauses : List (List ℕ)) (front : List Step) (later : Step) (rest : List Step) → Fresh clauses (front ++ later ∷ rest) → later.clause ≢ []
        → All (λ known. contains_clause later.clause known ≡ false) (clauses ++ clauses_of front) }
{}
