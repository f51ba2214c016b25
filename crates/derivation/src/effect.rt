ghost use Rattle.std.specs.Prelude.{◌≡◌, ◌==◌, ◌∷◌};
ghost use Rattle.std.specs.List.{list_all};
ghost use Rattle.derivation.specs.Propagation.{effect_by, effect_of, not_false};

use crate::trues::Trues;
use cnf_core::Lit;

/// What a clause does under the literals that are true.
#[derive(Clone, Copy, Debug, PartialEq, Eq)]
pub enum Effect {
    /// All of its literals are false.
    Conflicts,
    /// All but this one are false, and this one has no value yet.
    Forces(Lit),
    /// Neither.
    Fails,
}

/// What the clause does under what is true. It looks at each literal once.
pub(crate) fn what_does(trues: &Trues, clause: &[Lit]) -> Effect
    ensures { result ≡ effect_of trues.now clause.now }
{
    for (place, lit) in clause.iter().enumerate() {
        if !trues.holds(lit.negated()) {
            let (_, behind) = clause.split_at(place + 1);
            return with_first(trues, *lit, behind);
        }
    }
    Effect::Conflicts
}

/// What a clause does whose first literal that is not false is this one, with these behind it.
fn with_first(trues: &Trues, lit: Lit, behind: &[Lit]) -> Effect
    ensures { result ≡ effect_by trues.now (lit ∷ not_false trues.now behind.now) }
{
    if is_only(trues, behind, lit) && !trues.holds(lit) {
        Effect::Forces(lit)
    } else {
        Effect::Fails
    }
}

/// Whether each of the literals is false or this one.
fn is_only(trues: &Trues, lits: &[Lit], lit: Lit) -> bool
    ensures { result ≡ list_all (λ other. other == lit) (not_false trues.now lits.now) }
{
    for other in lits {
        if *other != lit && !trues.holds(other.negated()) {
            return false;
        }
    }
    true
}
