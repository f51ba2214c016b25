ghost use Rattle.std.specs.Prelude.{◌≡◌, ◌≤◌, ◌<◌, length, slice_get, count_by, IfSome};
ghost use Rattle.taco_unit.specs.Kinds.{is_class_kind};
ghost use Rattle.canonical_order.specs.Tuples.{is_root as is_root_lem, is_link as is_link_lem, roots_of, links_of};

use taco_unit::{FieldDef, Kind, MethodDef, Unit};

/// Whether the receiver (0) or the parameter of this number, counted from 1, is a root: the receiver is
/// one unless the method is static, a parameter where it is of class kind. Takes no memory.
pub fn is_root(method: &MethodDef, root: usize) -> bool
    ensures { result ≡ is_root_lem method.now root }
{
    if root == 0 {
        return !method.fixed;
    }
    match method.params.as_slice().get(root - 1) {
        Some(param) => matches!(param.kind, Kind::Ref(_)),
        None => false,
    }
}

/// Whether the field of this number is of class kind. Takes no memory.
pub fn is_link(unit: &Unit, field: usize) -> bool
    ensures { result ≡ is_link_lem unit.now field }
{
    match unit.fields.as_slice().get(field) {
        Some(d) => matches!(d.kind, Kind::Ref(_)),
        None => false,
    }
}

/// How many roots the method has, at most 9: its receiver, unless it is static, and its parameters of
/// class kind. Linear in the parameters. Takes no memory.
pub fn root_count(method: &MethodDef) -> usize
    requires { length method.now.params ≤ 8 }
    ensures value { result ≡ length (roots_of method.now) }
    ensures few { result ≤ 9 }
{
    let last = method.params.len();
    (0..last + 1).filter(|root| is_root(method, *root)).count()
}

/// The root at this place, counted from 0, among the method's roots: 0 for the receiver, else the
/// number of the parameter counted from 1. `None` behind the last. Linear in the parameters. Takes no
/// memory.
#[tactic(auto, using(crate::proofs::Ranges::range_step))]
pub fn root_at(method: &MethodDef, place: usize) -> Option<usize>
    requires { length method.now.params ≤ 8 }
    ensures value { result ≡ slice_get (roots_of method.now) place }
    ensures small { IfSome result (λ root. root ≤ 8) }
{
    let mut left = place;
    let count = method.params.len() + 1;
    for root in 0..count {
        if is_root(method, root) {
            if left == 0 {
                return Some(root);
            }
            left -= 1;
        }
    }
    None
}

/// How many of these fields are of class kind.
fn of_class_kind(fields: &[FieldDef]) -> usize
    ensures { result ≡ count_by (λ d. is_class_kind d.kind) fields.now }
{
    fields
        .iter()
        .filter(|d| matches!(d.kind, Kind::Ref(_)))
        .count()
}

/// How many fields of the unit are of class kind, at most 32. Linear in the fields. Takes no memory.
pub fn link_count(unit: &Unit) -> usize
    ensures value { result ≡ length (links_of unit.now) }
    ensures few { result ≤ 32 }
{
    of_class_kind(unit.fields.as_slice())
}

/// The field at this place, counted from 0, among the unit's fields of class kind. `None` behind the
/// last. Linear in the fields. Takes no memory.
#[tactic(auto, using(crate::proofs::Ranges::range_step))]
pub fn link_at(unit: &Unit, place: usize) -> Option<usize>
    ensures value { result ≡ slice_get (links_of unit.now) place }
    ensures small { IfSome result (λ field. field < 64) }
{
    let mut left = place;
    let count = unit.fields.len();
    for field in 0..count {
        if is_link(unit, field) {
            if left == 0 {
                return Some(field);
            }
            left -= 1;
        }
    }
    None
}
