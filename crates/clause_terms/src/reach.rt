ghost use Rattle.std.specs.Prelude.{◌≡◌, ℕ, List, IfOk, IsTrue};
ghost use Rattle.std.specs.List.{list_all};
ghost use Rattle.heap_core.specs.declared.value.Value.{Value};
ghost use Rattle.heap_core.specs.declared.value.Seen.{Seen};
ghost use Rattle.heap_core.specs.Outcomes.{with_value};
ghost use Rattle.heap_core.specs.Eval.{Env, has as has_lem, size as size_lem};
ghost use Rattle.heap_core.specs.Posed.{Posed};
ghost use Rattle.rel_core.specs.Reading.{Reading};
ghost use Rattle.rel_core.specs.Meaning.{objects_only, reached_from, set_of};
ghost use Rattle.rel_core.specs.Uses.{Kinds, AsSet, is_sorted_set, is_spread};
ghost use Rattle.clause_terms.specs.declared.term.Shape.TheVariants.{Set as set_shape};
ghost use Rattle.clause_terms.specs.Terms.{HasValue, IsSortedTerm, Tells, is_sorted_shape};
ghost use Rattle.clause_terms.specs.Reaching.{LeadAlike};

use crate::after::after;
use crate::term::{Shape, Term};
use no_memory::NoMemory;
use rel_core::{Formula, NumExpr, RelExpr, RelVar};
use sqlite_items::{Boxed, Items};
use std::alloc::Global;

/// The objects that are reached from those of a set.
fn reached(
    alloc: Global,
    root: Boxed<RelExpr>,
    relations: &[RelVar],
) -> Result<Boxed<RelExpr>, NoMemory>
    ensures meaning { IfOk result (λ e. (m : Reading) → set_of e m ≡ objects_only (reached_from m relations.now (set_of root m))) }
    ensures sorted { IfOk result (λ e. (p : Posed) (kinds : Kinds) → IsTrue (is_sorted_set p kinds root) → IsTrue (list_all (is_spread p kinds AsSet) relations.now)
        → IsTrue (is_sorted_set p kinds e)) }
{
    let copied = Items::from_slice(alloc, relations)?;
    let all = RelExpr::reach(alloc, root, copied)?;
    Ok(all)
}

/// Whether a reference is among the objects that are reached from another.
fn has_reference(
    alloc: Global,
    root: Boxed<RelExpr>,
    relations: &[RelVar],
    member: Boxed<RelExpr>,
) -> Result<Term, NoMemory>
    ensures told { IfOk result (λ r. (m : Reading) (env : Env) (fields : List ℕ) (v u : Value) → LeadAlike m relations.now env fields → HasValue m (set_shape root) v
        → HasValue m (set_shape member) u → Tells (has_lem env fields v u) r m) }
    ensures sorted { IfOk result (λ r. (p : Posed) (kinds : Kinds) → IsTrue (is_sorted_set p kinds root) → IsTrue (list_all (is_spread p kinds AsSet) relations.now)
        → IsTrue (is_sorted_set p kinds member) → IsSortedTerm p kinds r) }
{
    let all = reached(alloc, root, relations)?;
    let within = Formula::subset(alloc, member, all)?;
    let term = Term::sure(alloc, Shape::Truth(within))?;
    Ok(term)
}

/// Whether a value is among the objects that are reached from a reference.
fn has_member(
    alloc: Global,
    root: Boxed<RelExpr>,
    relations: &[RelVar],
    member: Shape,
) -> Result<Term, NoMemory>
    ensures told { IfOk result (λ r. (m : Reading) (env : Env) (fields : List ℕ) (v u : Value) → LeadAlike m relations.now env fields → HasValue m (set_shape root) v → HasValue m member u
        → Tells (has_lem env fields v u) r m) }
    ensures sorted { IfOk result (λ r. (p : Posed) (kinds : Kinds) → IsTrue (is_sorted_set p kinds root) → IsTrue (list_all (is_spread p kinds AsSet) relations.now)
        → IsTrue (is_sorted_shape p kinds member) → IsSortedTerm p kinds r) }
{
    match member {
        Shape::Set(member) => {
            let term = has_reference(alloc, root, relations, member)?;
            Ok(term)
        }
        Shape::Number(_) => {
            let term = Term::missing(alloc)?;
            Ok(term)
        }
        Shape::Truth(_) => {
            let term = Term::missing(alloc)?;
            Ok(term)
        }
    }
}

/// Whether a value is among the objects that are reached from a value.
fn has_value(
    alloc: Global,
    root: Shape,
    relations: &[RelVar],
    member: Shape,
) -> Result<Term, NoMemory>
    ensures told { IfOk result (λ r. (m : Reading) (env : Env) (fields : List ℕ) (v u : Value) → LeadAlike m relations.now env fields → HasValue m root v → HasValue m member u
        → Tells (has_lem env fields v u) r m) }
    ensures sorted { IfOk result (λ r. (p : Posed) (kinds : Kinds) → IsTrue (is_sorted_shape p kinds root) → IsTrue (list_all (is_spread p kinds AsSet) relations.now)
        → IsTrue (is_sorted_shape p kinds member) → IsSortedTerm p kinds r) }
{
    match root {
        Shape::Set(root) => {
            let term = has_member(alloc, root, relations, member)?;
            Ok(term)
        }
        Shape::Number(_) => {
            let term = Term::missing(alloc)?;
            Ok(term)
        }
        Shape::Truth(_) => {
            let term = Term::missing(alloc)?;
            Ok(term)
        }
    }
}

/// How many objects are reached from a reference.
fn size_of_reference(
    alloc: Global,
    root: Boxed<RelExpr>,
    relations: &[RelVar],
) -> Result<Term, NoMemory>
    ensures told { IfOk result (λ r. (m : Reading) (env : Env) (fields : List ℕ) (v : Value) → LeadAlike m relations.now env fields → HasValue m (set_shape root) v
        → Tells (size_lem env fields v) r m) }
    ensures sorted { IfOk result (λ r. (p : Posed) (kinds : Kinds) → IsTrue (is_sorted_set p kinds root) → IsTrue (list_all (is_spread p kinds AsSet) relations.now) → IsSortedTerm p kinds r) }
{
    let all = reached(alloc, root, relations)?;
    let count = NumExpr::count(alloc, all)?;
    let term = Term::number(alloc, count)?;
    Ok(term)
}

/// How many objects are reached from a value.
fn size_of_value(alloc: Global, root: Shape, relations: &[RelVar]) -> Result<Term, NoMemory>
    ensures told { IfOk result (λ r. (m : Reading) (env : Env) (fields : List ℕ) (v : Value) → LeadAlike m relations.now env fields → HasValue m root v → Tells (size_lem env fields v) r m) }
    ensures sorted { IfOk result (λ r. (p : Posed) (kinds : Kinds) → IsTrue (is_sorted_shape p kinds root) → IsTrue (list_all (is_spread p kinds AsSet) relations.now) → IsSortedTerm p kinds r) }
{
    match root {
        Shape::Set(root) => {
            let term = size_of_reference(alloc, root, relations)?;
            Ok(term)
        }
        Shape::Number(_) => {
            let term = Term::missing(alloc)?;
            Ok(term)
        }
        Shape::Truth(_) => {
            let term = Term::missing(alloc)?;
            Ok(term)
        }
    }
}

impl Term {
    /// `\reach(root, ..).has(member)`, along relations that lead where the fields do.
    pub fn has(
        alloc: Global,
        root: Term,
        relations: &[RelVar],
        member: Term,
    ) -> Result<Term, NoMemory>
        ensures told { IfOk result (λ r. (m : Reading) (env : Env) (fields : List ℕ) (x y : Seen) → LeadAlike m relations.now env fields → Tells x root m → Tells y member m
            → Tells (with_value x (λ v. with_value y (has_lem env fields v))) r m) }
        ensures sorted { IfOk result (λ r. (p : Posed) (kinds : Kinds) → IsSortedTerm p kinds root → IsTrue (list_all (is_spread p kinds AsSet) relations.now) → IsSortedTerm p kinds member
            → IsSortedTerm p kinds r) }
    {
        let Term {
            value,
            fine,
            inside,
        } = root;
        let Term {
            value: member_value,
            fine: member_fine,
            inside: member_inside,
        } = member;
        let made = has_value(alloc, value, relations, member_value)?;
        let then = after(alloc, member_fine, member_inside, made)?;
        let term = after(alloc, fine, inside, then)?;
        Ok(term)
    }

    /// `\reach(root, ..).int_size()`, likewise. Out where it leaves the bits.
    pub fn size(alloc: Global, root: Term, relations: &[RelVar]) -> Result<Term, NoMemory>
        ensures told { IfOk result (λ r. (m : Reading) (env : Env) (fields : List ℕ) (x : Seen) → LeadAlike m relations.now env fields → Tells x root m
            → Tells (with_value x (size_lem env fields)) r m) }
        ensures sorted { IfOk result (λ r. (p : Posed) (kinds : Kinds) → IsSortedTerm p kinds root → IsTrue (list_all (is_spread p kinds AsSet) relations.now) → IsSortedTerm p kinds r) }
    {
        let Term {
            value,
            fine,
            inside,
        } = root;
        let then = size_of_value(alloc, value, relations)?;
        let term = after(alloc, fine, inside, then)?;
        Ok(term)
    }
}
