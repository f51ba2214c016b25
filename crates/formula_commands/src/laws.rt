ghost use Rattle.std.specs.Prelude.{ℕ, List, length, Option};
ghost use Rattle.evidence.specs.declared.Evidence.{Evidence};
ghost use Rattle.taco_report.specs.declared.status.Status.{Status};
ghost use Rattle.formula_commands.specs.PrintedLogs.{Hold, PrintsLog, ProofTells, TellsRefuted};

/// `proof` accepts each log that `sat` prints, over a file with the same formula: it prints `refuted` and
/// the number of its lines, unless a file cannot be read or memory is wanting. It does nothing when it runs:
/// its contract is the law.
pub fn printed_logs_are_accepted()
    ensures { (bytes text : List ℕ) (evidence : Evidence) → PrintsLog bytes text evidence
        → (told : List ℕ → Option (List ℕ)) (cnf log : List ℕ) → Hold told cnf log bytes text
        → (ends : Status) (output : List ℕ) → ProofTells told cnf log ends output
        → TellsRefuted (length evidence.log) ends output }
{}
