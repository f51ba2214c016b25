ghost use Rattle.std.specs.Prelude.{◌≡◌, ◌&&◌, ◌||◌, not, ℕ, List, IfOk, IsTrue, false};
ghost use Rattle.std.specs.Option.{option_map_or};
ghost use Rattle.taco_unit.specs.declared.unit.ClassDef.{ClassDef};
ghost use Rattle.taco_unit.specs.Parts.{Parts};
ghost use Rattle.heap_core.specs.declared.value.Value.{Value};
ghost use Rattle.heap_core.specs.declared.value.Value.TheVariants.{Obj as object_of};
ghost use Rattle.heap_core.specs.declared.value.Seen.{Seen};
ghost use Rattle.heap_core.specs.Outcomes.{with_value};
ghost use Rattle.heap_core.specs.Heap.{Heap, field as field_lem};
ghost use Rattle.heap_core.specs.Posed.{Posed};
ghost use Rattle.rel_core.specs.Reading.{Reading};
ghost use Rattle.rel_core.specs.Meaning.{are_of, holds, only_object, set_of};
ghost use Rattle.rel_core.specs.Uses.{Kinds, is_sorted, is_sorted_set, is_spread, use_of_kind};
ghost use Rattle.rel_core.specs.Shown.{ShowsValue, class_relation, field_relation, live_relation};
ghost use Rattle.rel_core.specs.Laws.{FieldIsShown};
ghost use Rattle.clause_terms.specs.Terms.{HasValue, IsOnly, IsSortedTerm, Tells, is_sorted_shape};
ghost use Rattle.clause_terms.specs.Fields.{FieldIsLacking};

use crate::after::after;
use crate::copies::{formula_copy, set_copy};
use crate::term::{Shape, Term};
use no_memory::NoMemory;
use rel_core::{Formula, Indices, NumExpr, RelExpr, RelVar};
use sqlite_items::Boxed;
use std::alloc::Global;
use taco_unit::{FieldDef, Kind};

/// What a relation has at the object of a set, by its kind.
#[tactic(auto, using(crate::proofs::FieldTerms::at_object))]
fn cell(alloc: Global, set: Boxed<RelExpr>, kind: Kind, relation: RelVar) -> Result<Shape, NoMemory>
    ensures value { IfOk result (λ r. (m : Reading) (o : ℕ) (v : Value) → IsOnly m (set_of set m) (object_of o) → ShowsValue m kind relation o v → HasValue m r v) }
    ensures sorted { IfOk result (λ r. (p : Posed) (kinds : Kinds) → IsTrue (is_sorted_set p kinds set) → IsTrue (is_spread p kinds (use_of_kind kind) relation) → IsTrue (is_sorted_shape p kinds r)) }
{
    match kind {
        Kind::Int => {
            let number = NumExpr::at(alloc, set, relation)?;
            Ok(Shape::Number(number))
        }
        Kind::Flag => {
            let truth = Formula::flag_at(alloc, set, relation)?;
            Ok(Shape::Truth(truth))
        }
        Kind::Ref(_) => {
            let joined = RelExpr::join(alloc, set, relation)?;
            Ok(Shape::Set(joined))
        }
    }
}

/// The object of a set is there. The set is copied.
fn is_there(alloc: Global, set: &Boxed<RelExpr>, at: &Indices) -> Result<Boxed<Formula>, NoMemory>
    ensures meaning { IfOk result (λ r. (m : Reading) → holds r m ≡ option_map_or (m.flag (live_relation at.now)) (only_object m (set_of set.now m)) false) }
    ensures sorted { IfOk result (λ r. (p : Posed) (kinds : Kinds) → IsTrue (is_sorted_set p kinds set.now) → IsTrue (is_sorted p kinds r)) }
{
    let copied = set_copy(alloc, set)?;
    let live = Formula::flag_at(alloc, copied, at.live())?;
    Ok(live)
}

/// The object of a set is of the class. The set is copied.
fn is_of_class(
    alloc: Global,
    set: &Boxed<RelExpr>,
    at: &Indices,
    class: u8,
) -> Result<Boxed<Formula>, NoMemory>
    ensures meaning { IfOk result (λ r. (m : Reading) → holds r m ≡ are_of m (set_of set.now m) class (class_relation at.now)) }
    ensures sorted { IfOk result (λ r. (p : Posed) (kinds : Kinds) → IsTrue (is_sorted_set p kinds set.now) → IsTrue (is_sorted p kinds r)) }
{
    let copied = set_copy(alloc, set)?;
    let of = Formula::is_class(alloc, copied, class, at.class())?;
    Ok(of)
}

/// Both hold, and where the first holds the second does.
fn both_and_implied(
    alloc: Global,
    first: Boxed<Formula>,
    second: Boxed<Formula>,
) -> Result<(Boxed<Formula>, Boxed<Formula>), NoMemory>
    ensures meaning { IfOk result (λ r. (m : Reading) → (holds r.0 m ≡ (holds first m && holds second m)) × (holds r.1 m ≡ (not (holds first m) || holds second m))) }
    ensures sorted { IfOk result (λ r. (p : Posed) (kinds : Kinds) → IsTrue (is_sorted p kinds first) → IsTrue (is_sorted p kinds second)
        → IsTrue (is_sorted p kinds r.0) × IsTrue (is_sorted p kinds r.1)) }
{
    let premise = formula_copy(alloc, &first)?;
    let conclusion = formula_copy(alloc, &second)?;
    let implied = Formula::implies(alloc, premise, conclusion)?;
    let both = Formula::both(alloc, first, second)?;
    Ok((both, implied))
}

/// The field of the reference that a set has.

fn read_set(
    alloc: Global,
    set: Boxed<RelExpr>,
    at: &Indices,
    field: u8,
    declared: &FieldDef,
) -> Result<Term, NoMemory>
    ensures told { IfOk result (λ r. (u : Parts) (m : Reading) (heap : Heap) (v : Value) → FieldIsShown u m at.now heap field declared.now → IsOnly m (set_of set m) v
        → Tells (field_lem u.classes heap field v) r m) }
    ensures sorted { IfOk result (λ r. (p : Posed) (kinds : Kinds) → IsTrue (is_sorted_set p kinds set)
        → IsTrue (is_spread p kinds (use_of_kind declared.now.kind) (field_relation at.now field)) → IsSortedTerm p kinds r) }
{
    let live = is_there(alloc, &set, at)?;
    let of = is_of_class(alloc, &set, at, declared.class)?;
    let (fine, inside) = both_and_implied(alloc, live, of)?;
    let relation = at.field(field);
    let value = cell(alloc, set, declared.kind, relation)?;
    Ok(Term {
        value,
        fine,
        inside,
    })
}

/// The field of a value.
fn read_value(
    alloc: Global,
    value: Shape,
    at: &Indices,
    field: u8,
    declared: &FieldDef,
) -> Result<Term, NoMemory>
    ensures told { IfOk result (λ r. (u : Parts) (m : Reading) (heap : Heap) (v : Value) → FieldIsShown u m at.now heap field declared.now → HasValue m value v
        → Tells (field_lem u.classes heap field v) r m) }
    ensures sorted { IfOk result (λ r. (p : Posed) (kinds : Kinds) → IsTrue (is_sorted_shape p kinds value)
        → IsTrue (is_spread p kinds (use_of_kind declared.now.kind) (field_relation at.now field)) → IsSortedTerm p kinds r) }
{
    match value {
        Shape::Set(set) => {
            let term = read_set(alloc, set, at, field, declared)?;
            Ok(term)
        }
        Shape::Number(_) => {
            let term = Term::missing(alloc)?;
            Ok(term)
        }
        Shape::Truth(_) => {
            let term = Term::missing(alloc)?;
            Ok(term)
        }
    }
}

/// A field that no class declares, of the reference that a set has.
fn lacking_set(alloc: Global, set: Boxed<RelExpr>, at: &Indices) -> Result<Term, NoMemory>
    ensures told { IfOk result (λ r. (classes : List ClassDef) (m : Reading) (heap : Heap) (f : ℕ) (v : Value) → FieldIsLacking classes m at.now heap f → IsOnly m (set_of set m) v
        → Tells (field_lem classes heap f v) r m) }
    ensures sorted { IfOk result (λ r. (p : Posed) (kinds : Kinds) → IsTrue (is_sorted_set p kinds set) → IsSortedTerm p kinds r) }
{
    let live = is_there(alloc, &set, at)?;
    let inside = Formula::not(alloc, live)?;
    let fine = Formula::constant(alloc, false)?;
    let value = Formula::constant(alloc, false)?;
    Ok(Term {
        value: Shape::Truth(value),
        fine,
        inside,
    })
}

/// A field that no class declares, of a value.
fn lacking_value(alloc: Global, value: Shape, at: &Indices) -> Result<Term, NoMemory>
    ensures told { IfOk result (λ r. (classes : List ClassDef) (m : Reading) (heap : Heap) (f : ℕ) (v : Value) → FieldIsLacking classes m at.now heap f → HasValue m value v
        → Tells (field_lem classes heap f v) r m) }
    ensures sorted { IfOk result (λ r. (p : Posed) (kinds : Kinds) → IsTrue (is_sorted_shape p kinds value) → IsSortedTerm p kinds r) }
{
    match value {
        Shape::Set(set) => {
            let term = lacking_set(alloc, set, at)?;
            Ok(term)
        }
        Shape::Number(_) => {
            let term = Term::missing(alloc)?;
            Ok(term)
        }
        Shape::Truth(_) => {
            let term = Term::missing(alloc)?;
            Ok(term)
        }
    }
}

impl Term {
    /// A field of an object: Bad at null and at an object that is not there, and Out at one of another class than
    /// the one that declares the field.
    pub fn read(
        alloc: Global,
        object: Term,
        at: &Indices,
        field: u8,
        declared: &FieldDef,
    ) -> Result<Term, NoMemory>
        ensures told { IfOk result (λ r. (u : Parts) (m : Reading) (heap : Heap) (x : Seen) → FieldIsShown u m at.now heap field declared.now → Tells x object m
            → Tells (with_value x (field_lem u.classes heap field)) r m) }
        ensures sorted { IfOk result (λ r. (p : Posed) (kinds : Kinds) → IsSortedTerm p kinds object
            → IsTrue (is_spread p kinds (use_of_kind declared.now.kind) (field_relation at.now field)) → IsSortedTerm p kinds r) }
    {
        let Term {
            value,
            fine,
            inside,
        } = object;
        let then = read_value(alloc, value, at, field, declared)?;
        let read = after(alloc, fine, inside, then)?;
        Ok(read)
    }

    /// A field that no class declares: Bad at null and at an object that is not there, and else Out.
    pub fn read_lacking(alloc: Global, object: Term, at: &Indices) -> Result<Term, NoMemory>
        ensures told { IfOk result (λ r. (classes : List ClassDef) (m : Reading) (heap : Heap) (f : ℕ) (x : Seen) → FieldIsLacking classes m at.now heap f → Tells x object m
            → Tells (with_value x (field_lem classes heap f)) r m) }
        ensures sorted { IfOk result (λ r. (p : Posed) (kinds : Kinds) → IsSortedTerm p kinds object → IsSortedTerm p kinds r) }
    {
        let Term {
            value,
            fine,
            inside,
        } = object;
        let then = lacking_value(alloc, value, at)?;
        let read = after(alloc, fine, inside, then)?;
        Ok(read)
    }
}
