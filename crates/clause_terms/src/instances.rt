ghost use Rattle.std.specs.Prelude.{◌≡◌, ◌+◌, ◌&&◌, ◌||◌, ℕ, Bool, not, if◌then◌else◌, IfOk, IsTrue, OnOk};
ghost use Rattle.std.specs.List.{list_all};
ghost use Rattle.heap_core.specs.declared.value.Seen.{Seen};
ghost use Rattle.heap_core.specs.Outcomes.{as_flag};
ghost use Rattle.heap_core.specs.Eval.{over as over_lem};
ghost use Rattle.heap_core.specs.Posed.{Posed};
ghost use Rattle.rel_core.specs.Reading.{Reading};
ghost use Rattle.rel_core.specs.Meaning.{holds};
ghost use Rattle.rel_core.specs.Uses.{Kinds, is_sorted};
ghost use Rattle.clause_terms.specs.Terms.{IsSortedTerm, IsSortedTruth, Judges, Tells};
ghost use Rattle.clause_terms.specs.Gathering.{AreSorted, Gathered, all_hold, some_hold};

use crate::after::where_holds;
use crate::term::{Shape, Term, Truth};
use no_memory::NoMemory;
use rel_core::Formula;
use sqlite_items::{Boxed, Items};
use std::alloc::Global;

/// The instances of a quantifier so far: of each where it gives a truth value, where it stays within the scopes,
/// and whether it is true.
#[derive(Drop)]
pub struct Instances {
    fine: Items<Formula>,
    inside: Items<Formula>,
    values: Items<Formula>,
}

/// What an instance adds to the value: where the guard holds the value does, or both hold.
fn guarded(
    alloc: Global,
    all: bool,
    guard: Boxed<Formula>,
    value: Boxed<Formula>,
) -> Result<Boxed<Formula>, NoMemory>
    ensures meaning { IfOk result (λ r. (m : Reading) → holds r m ≡ (if all then (not (holds guard m) || holds value m) else (holds guard m && holds value m))) }
    ensures sorted { IfOk result (λ r. (p : Posed) (kinds : Kinds) → IsTrue (is_sorted p kinds guard) → IsTrue (is_sorted p kinds value) → IsTrue (is_sorted p kinds r)) }
{
    if all {
        let implied = Formula::implies(alloc, guard, value)?;
        Ok(implied)
    } else {
        let both = Formula::both(alloc, guard, value)?;
        Ok(both)
    }
}

/// Whether all hold, or some.
fn joined(alloc: Global, all: bool, values: Items<Formula>) -> Result<Boxed<Formula>, NoMemory>
    ensures meaning { IfOk result (λ r. (m : Reading) → holds r m ≡ (if all then all_hold values m else some_hold values m)) }
    ensures sorted { IfOk result (λ r. (p : Posed) (kinds : Kinds) → IsTrue (list_all (is_sorted p kinds) values) → IsTrue (is_sorted p kinds r)) }
{
    if all {
        let every = Formula::all(alloc, values)?;
        Ok(every)
    } else {
        let some = Formula::any(alloc, values)?;
        Ok(some)
    }
}

impl Instances {
    /// None yet.
    pub fn new(alloc: Global) -> Instances
        ensures told { (m : Reading) (all : Bool) (domain : ℕ → Bool) (instance : ℕ → Seen) → Gathered m all domain instance 0 result }
        ensures sorted { (p : Posed) (kinds : Kinds) → AreSorted p kinds result }
    {
        Instances {
            fine: Items::new(alloc),
            inside: Items::new(alloc),
            values: Items::new(alloc),
        }
    }

    /// Adds the next instance, which counts where the guard holds. The guard is copied twice.
    pub fn add(
        &mut self,
        alloc: Global,
        all: bool,
        guard: Boxed<Formula>,
        truth: Truth,
    ) -> Result<(), NoMemory>
        ensures told { OnOk result ((m : Reading) (domain : ℕ → Bool) (instance : ℕ → Seen) (n : ℕ) → holds guard m ≡ domain n → Judges (instance n) truth m
            → Gathered m all domain instance n self.old → Gathered m all domain instance (n + 1) self.new) }
        ensures sorted { OnOk result ((p : Posed) (kinds : Kinds) → IsTrue (is_sorted p kinds guard) → IsSortedTruth p kinds truth → AreSorted p kinds self.old → AreSorted p kinds self.new) }
    {
        let Truth {
            value,
            fine,
            inside,
        } = truth;
        let fine = where_holds(alloc, &guard, fine)?;
        let inside = where_holds(alloc, &guard, inside)?;
        let value = guarded(alloc, all, guard, value)?;
        self.fine.push(fine.into_inner())?;
        self.inside.push(inside.into_inner())?;
        self.values.push(value.into_inner())?;
        Ok(())
    }

    /// The conjunction, or the disjunction, of the instances: Out where one of them is, else Bad where one is.
    pub fn over(alloc: Global, all: bool, instances: Instances) -> Result<Term, NoMemory>
        ensures told { IfOk result (λ r. (m : Reading) (domain : ℕ → Bool) (instance : ℕ → Seen) (n : ℕ) → ((o : ℕ) → as_flag (instance o) ≡ instance o)
            → Gathered m all domain instance n instances → Tells (over_lem all domain instance n) r m) }
        ensures sorted { IfOk result (λ r. (p : Posed) (kinds : Kinds) → AreSorted p kinds instances → IsSortedTerm p kinds r) }
    {
        let Instances {
            fine,
            inside,
            values,
        } = instances;
        let fine = Formula::all(alloc, fine)?;
        let inside = Formula::all(alloc, inside)?;
        let value = joined(alloc, all, values)?;
        Ok(Term {
            value: Shape::Truth(value),
            fine,
            inside,
        })
    }
}
