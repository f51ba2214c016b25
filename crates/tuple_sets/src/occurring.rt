ghost use Rattle.std.specs.Prelude.{◌≡◌, ◌+◌, ◌*◌, ◌/◌, ◌≤◌, ◌<◌, [], ◌++◌, List, length, false, IfOk};
ghost use Rattle.std.specs.Option.{option_map_or};
ghost use Rattle.heap_core.specs.Posed.{Posed};
ghost use Rattle.heap_core.specs.Outcomes.{is_value};
ghost use Rattle.canonical_order.specs.declared.tuple.Tuple.{Tuple};
ghost use Rattle.canonical_order.specs.declared.tuple.Tuple.TheVariants.{Root};
ghost use Rattle.canonical_order.specs.Tuples.{tuples, field_tuples, occurs};
ghost use Rattle.tuple_sets.specs.Words.{gain};
ghost use Rattle.tuple_sets.specs.Occurring.{IsSetOf};
ghost use Rattle.tuple_sets.specs.Passing.{IsSetBefore, marked, tuples_of_field, target_place as target_place_lem};

use crate::tuples::word_count;
use crate::words::{mask_of, none_of};
use canonical_order::{is_link, is_root};
use heap_core::{Problem, Start, Value, method_in, read};
use no_memory::NoMemory;
use sqlite_items::Items;
use std::alloc::Global;

/// The place of a value among the values of a tuple: null, then the objects.
fn target_place(objects: u8, value: Value) -> Option<u8>
    ensures { result ≡ target_place_lem objects value }
{
    match value {
        Value::Null => Some(0),
        Value::Obj(object) => {
            if object < objects {
                Some(object + 1)
            } else {
                None
            }
        }
        _ => None,
    }
}

/// The set gains the number.
fn gain_tuple(set: &mut Items<u64>, tuple: u32)
    requires { tuple / 64 < length set.old }
    ensures { set.new ≡ gain set.old tuple }
{
    let at = tuple as usize / 64;
    let word = set.as_slice()[at] | mask_of(tuple);
    set.set(at, word);
}

/// The set gains the tuple of this value, where `first` is the number of the first tuple of the root,
/// or of the field of an object, that has it.
fn mark(set: &mut Items<u64>, objects: u8, first: u32, value: Option<Value>)
    requires within { first + objects < 64 * length set.old }
    requires few { length set.old ≤ 80 }
    ensures { set.new ≡ marked objects first value set.old }
{
    if let Some(held) = value {
        if let Some(place) = target_place(objects, held) {
            gain_tuple(set, first + u32::from(place));
        }
    }
}

/// The value of the receiver (0), or of the parameter of this number counted from 1.
fn root_value(start: &Start, root: usize) -> Option<Value>
    ensures { (p : Posed) (v : Value) → occurs p start.now (Root root v) ≡ option_map_or (λ u. is_value u v) result false }
{
    if root == 0 {
        return Some(start.this);
    }
    start.args.as_slice().get(root - 1).copied()
}

/// A walk along the tuples in their order: the set has those before the number `next` that occur.
struct Walk {
    set: Items<u64>,
    next: u32,
}

impl Walk {
    /// Passes the tuples of one root, or of one field of one object, which has this value.
    fn pass(&mut self, objects: u8, value: Option<Value>)
        requires within { self.old.next + objects < 64 * length self.old.set }
        requires few { length self.old.set ≤ 80 }
        ensures set { self.new.set ≡ marked objects self.old.next value self.old.set }
        ensures next { self.new.next ≡ self.old.next + (objects + 1) }
    {
        mark(&mut self.set, objects, self.next, value);
        self.next += u32::from(objects) + 1;
    }

    /// Passes the tuples of the method's roots.
    fn pass_roots(&mut self, start: &Start, problem: &Problem)
        requires { IsSetBefore problem.now start.now self.old.next (tuples problem.now) self.old.set }
        ensures { IsSetBefore problem.now start.now self.new.next (field_tuples problem.now) self.new.set }
    {
        let method = method_in(problem);
        let objects = problem.scope.objects;
        let count = method.params.len() + 1;
        for root in 0..count {
            if is_root(method, root) {
                self.pass(objects, root_value(start, root));
            }
        }
    }

    /// Passes the tuples of the field of this number at each object.
    fn pass_field(&mut self, start: &Start, problem: &Problem, field: u8)
        requires { (rest : List Tuple) × IsSetBefore problem.now start.now self.old.next (tuples_of_field problem.now.scope.objects field ++ rest) self.old.set }
        ensures { (rest : List Tuple) → IsSetBefore problem.now start.now self.old.next (tuples_of_field problem.now.scope.objects field ++ rest) self.old.set
            → IsSetBefore problem.now start.now self.new.next rest self.new.set }
    {
        let heap = start.objects.as_slice();
        let objects = problem.scope.objects;
        for object in 0..objects {
            self.pass(objects, read(&problem.unit, heap, field, object));
        }
    }

    /// Passes the tuples of the fields of class kind.
    fn pass_fields(&mut self, start: &Start, problem: &Problem)
        requires { IsSetBefore problem.now start.now self.old.next (field_tuples problem.now) self.old.set }
        ensures { IsSetBefore problem.now start.now self.new.next [] self.new.set }
    {
        let count = problem.unit.fields.len();
        for field in 0..count {
            if is_link(&problem.unit, field) {
                self.pass_field(start, problem, field as u8);
            }
        }
    }
}

/// The set of the tuples that occur in the start: each root, and each field of class kind at each
/// object that declares it, has one, that of its value, unless it is an object that the scope has no
/// room for. One walk along the roots and, for each field of class kind, along the objects, where a
/// read is linear in the fields of the object's class; and linear in the words.
pub fn tuples_of(alloc: Global, start: &Start, problem: &Problem) -> Result<Items<u64>, NoMemory>
    ensures { IfOk result (λ set. IsSetOf problem.now start.now set) }
{
    let set = none_of(alloc, word_count(problem))?;
    let mut walk = Walk { set, next: 0 };
    walk.pass_roots(start, problem);
    walk.pass_fields(start, problem);
    let Walk { set, next: _ } = walk;
    Ok(set)
}
