//! What is looked up in a problem and its method.

ghost use Rattle.std.specs.Prelude.{◌≡◌, ◌≤◌, ◌<◌, length, slice_get, Some};

use heap_core::{Problem, well_posed};
use taco_unit::{FieldDef, MethodDef, ParamDef, Unit};

/// The most objects of a heap.
pub(crate) fn object_count(problem: &Problem) -> u8
    ensures { result ≡ problem.now.scope.objects }
{
    problem.scope.objects
}

/// How many fields the unit has.
pub(crate) fn field_count(problem: &Problem) -> usize
    ensures value { result ≡ length problem.now.unit.fields }
    ensures few { result ≤ 64 }
{
    well_posed(problem);
    problem.unit.fields.len()
}

/// The field of this number.
fn field_at(unit: &Unit, field: usize) -> &FieldDef
    requires { field < length unit.now.fields }
    ensures { slice_get unit.now.fields field ≡ Some result.now }
{
    &unit.fields.as_slice()[field]
}

/// The field of this number of the problem's unit.
pub(crate) fn field_of(problem: &Problem, field: usize) -> &FieldDef
    requires { field < length problem.now.unit.fields }
    ensures { slice_get problem.now.unit.fields field ≡ Some result.now }
{
    field_at(&problem.unit, field)
}

/// The parameter of this number.
pub(crate) fn param_at(method: &MethodDef, variable: usize) -> &ParamDef
    requires { variable < length method.now.params }
    ensures { slice_get method.now.params variable ≡ Some result.now }
{
    &method.params.as_slice()[variable]
}
