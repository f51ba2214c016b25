ghost use Rattle.std.specs.Prelude.{◌≡◌, IfOk, IsTrue, nat_lt, option_map};
ghost use Rattle.heap_core.specs.declared.value.Value.{Value};
ghost use Rattle.heap_core.specs.declared.value.Value.TheVariants.{Null as no_object, Obj as object_of, Num as number_value};
ghost use Rattle.heap_core.specs.declared.value.Seen.TheVariants.{Is, Out};
ghost use Rattle.heap_core.specs.Outcomes.{flag, number as number_lem, value_in};
ghost use Rattle.heap_core.specs.Posed.{Posed};
ghost use Rattle.rel_core.specs.Reading.{Reading};
ghost use Rattle.rel_core.specs.Meaning.{number_of, set_of};
ghost use Rattle.rel_core.specs.Uses.{Kinds, is_sorted_number, is_sorted_set, is_variable, use_of_kind};
ghost use Rattle.rel_core.specs.Shown.{ShowsValue};
ghost use Rattle.clause_terms.specs.Terms.{HasValue, IsOnly, IsSortedTerm, Tells, is_sorted_shape};

use crate::copies::{number_copy, set_copy};
use crate::term::{Shape, Term};
use no_memory::NoMemory;
use rel_core::{Formula, NumExpr, RelExpr, RelVar};
use sqlite_items::Boxed;
use std::alloc::Global;
use taco_unit::Kind;

/// What a relation has at place 0, by its kind.
fn slot(alloc: Global, kind: Kind, relation: RelVar) -> Result<Shape, NoMemory>
    ensures value { IfOk result (λ r. (m : Reading) (v : Value) → ShowsValue m kind relation 0 v → HasValue m r v) }
    ensures sorted { IfOk result (λ r. (p : Posed) (kinds : Kinds) → IsTrue (is_variable p kinds (use_of_kind kind) relation) → IsTrue (is_sorted_shape p kinds r)) }
{
    match kind {
        Kind::Int => {
            let number = NumExpr::variable(alloc, relation)?;
            Ok(Shape::Number(number))
        }
        Kind::Flag => {
            let truth = Formula::flag(alloc, relation)?;
            Ok(Shape::Truth(truth))
        }
        Kind::Ref(_) => {
            let set = RelExpr::variable(alloc, relation)?;
            Ok(Shape::Set(set))
        }
    }
}

/// The parts of clauses that evaluate nothing else. Each call is constant in time, but for the copies of what
/// it is given, and its result is sorted where the relations are used by their kinds.
impl Term {
    /// A value, where there always is one.

    pub(crate) fn sure(alloc: Global, value: Shape) -> Result<Term, NoMemory>
        ensures told { IfOk result (λ r. (m : Reading) (v : Value) → HasValue m value v → Tells (Is v) r m) }
        ensures sorted { IfOk result (λ r. (p : Posed) (kinds : Kinds) → IsTrue (is_sorted_shape p kinds value) → IsSortedTerm p kinds r) }
    {
        let fine = Formula::constant(alloc, true)?;
        let inside = Formula::constant(alloc, true)?;
        Ok(Term {
            value,
            fine,
            inside,
        })
    }

    /// What is not there, or is of no kind that is asked for: it leaves the scopes.
    pub fn missing(alloc: Global) -> Result<Term, NoMemory>
        ensures told { IfOk result (λ r. (m : Reading) → Tells Out r m) }
        ensures sorted { IfOk result (λ r. (p : Posed) (kinds : Kinds) → IsSortedTerm p kinds r) }
    {
        let fine = Formula::constant(alloc, false)?;
        let inside = Formula::constant(alloc, false)?;
        let value = Formula::constant(alloc, false)?;
        Ok(Term {
            value: Shape::Truth(value),
            fine,
            inside,
        })
    }

    /// A number, where there is one, and else Out.
    #[tactic(auto, using(crate::proofs::Fitting::told_number))]
    pub(crate) fn number(alloc: Global, number: Boxed<NumExpr>) -> Result<Term, NoMemory>
        ensures told { IfOk result (λ r. (m : Reading) → Tells (value_in (option_map number_value (number_of number m))) r m) }
        ensures sorted { IfOk result (λ r. (p : Posed) (kinds : Kinds) → IsTrue (is_sorted_number p kinds number) → IsSortedTerm p kinds r) }
    {
        let first = number_copy(alloc, &number)?;
        let second = number_copy(alloc, &number)?;
        let fine = Formula::fits(alloc, first)?;
        let inside = Formula::fits(alloc, second)?;
        Ok(Term {
            value: Shape::Number(number),
            fine,
            inside,
        })
    }

    /// A number as it is written.
    #[tactic(auto, using(crate::proofs::Fitting::told_fitting))]
    pub fn literal(alloc: Global, number: i32) -> Result<Term, NoMemory>
        ensures told { IfOk result (λ r. (m : Reading) → Tells (number_lem m.ints number) r m) }
        ensures sorted { IfOk result (λ r. (p : Posed) (kinds : Kinds) → IsSortedTerm p kinds r) }
    {
        let written = NumExpr::constant(alloc, number)?;
        let term = Term::number(alloc, written)?;
        Ok(term)
    }

    /// A truth value.
    pub fn constant(alloc: Global, truth: bool) -> Result<Term, NoMemory>
        ensures told { IfOk result (λ r. (m : Reading) → Tells (flag truth) r m) }
        ensures sorted { IfOk result (λ r. (p : Posed) (kinds : Kinds) → IsSortedTerm p kinds r) }
    {
        let value = Formula::constant(alloc, truth)?;
        let term = Term::sure(alloc, Shape::Truth(value))?;
        Ok(term)
    }

    /// Null.
    pub fn null(alloc: Global) -> Result<Term, NoMemory>
        ensures told { IfOk result (λ r. (m : Reading) → Tells (Is no_object) r m) }
        ensures sorted { IfOk result (λ r. (p : Posed) (kinds : Kinds) → IsSortedTerm p kinds r) }
    {
        let set = RelExpr::nil(alloc)?;
        let term = Term::sure(alloc, Shape::Set(set))?;
        Ok(term)
    }

    /// The object of this number.
    pub fn object(alloc: Global, object: u8) -> Result<Term, NoMemory>
        ensures told { IfOk result (λ r. (m : Reading) → IsTrue (nat_lt object m.objects) → Tells (Is (object_of object)) r m) }
        ensures sorted { IfOk result (λ r. (p : Posed) (kinds : Kinds) → IsTrue (nat_lt object p.scope.objects) → IsSortedTerm p kinds r) }
    {
        let set = RelExpr::object(alloc, object)?;
        let term = Term::sure(alloc, Shape::Set(set))?;
        Ok(term)
    }

    /// The reference that is the only one of a set, which is copied.
    pub fn reference(alloc: Global, set: &Boxed<RelExpr>) -> Result<Term, NoMemory>
        ensures told { IfOk result (λ r. (m : Reading) (v : Value) → IsOnly m (set_of set.now m) v → Tells (Is v) r m) }
        ensures sorted { IfOk result (λ r. (p : Posed) (kinds : Kinds) → IsTrue (is_sorted_set p kinds set.now) → IsSortedTerm p kinds r) }
    {
        let copied = set_copy(alloc, set)?;
        let term = Term::sure(alloc, Shape::Set(copied))?;
        Ok(term)
    }

    /// The value of a program variable.
    pub fn variable(alloc: Global, kind: Kind, relation: RelVar) -> Result<Term, NoMemory>
        ensures told { IfOk result (λ r. (m : Reading) (v : Value) → ShowsValue m kind relation 0 v → Tells (Is v) r m) }
        ensures sorted { IfOk result (λ r. (p : Posed) (kinds : Kinds) → IsTrue (is_variable p kinds (use_of_kind kind) relation) → IsSortedTerm p kinds r) }
    {
        let value = slot(alloc, kind, relation)?;
        let term = Term::sure(alloc, value)?;
        Ok(term)
    }
}
