ghost use Rattle.std.specs.Prelude.{◌≡◌};
ghost use Rattle.jml_rel.specs.Places.{has_slot as has_slot_lem, parameter_of, result_of, variable_at as variable_at_lem};

use heap_core::{Problem, method_in};
use rel_core::{Indices, RelVar};
use taco_unit::Kind;

/// Whether an index is listed for a variable.
fn has_slot(at: &Indices, variable: u16) -> bool
    ensures { result ≡ has_slot_lem at.now variable }
{
    at.slots.as_slice().iter().any(|slot| slot.0 == variable)
}

/// A variable of this kind, where an index is listed for it.
fn variable_at(at: &Indices, variable: u16, kind: Kind) -> Option<(Kind, RelVar)>
    ensures { result ≡ variable_at_lem at.now variable kind }
{
    if has_slot(at, variable) {
        Some((kind, at.slot(variable)))
    } else {
        None
    }
}

/// A parameter of the problem's method, where an index is listed for it.
pub(crate) fn parameter(problem: &Problem, at: &Indices, number: u8) -> Option<(Kind, RelVar)>
    ensures { result ≡ parameter_of problem.now at.now number }
{
    let method = method_in(problem);
    match method.params.as_slice().get(usize::from(number)) {
        Some(parameter) => variable_at(at, u16::from(number), parameter.kind),
        None => None,
    }
}

/// The result of the problem's method, where its variable is above the receiver's and an index is listed for it.
pub(crate) fn result(problem: &Problem, at: &Indices) -> Option<(Kind, RelVar)>
    ensures { result ≡ result_of problem.now at.now }
{
    let method = method_in(problem);
    match method.result {
        Some(declared) => {
            if method.params.len() < usize::from(at.result) {
                variable_at(at, at.result, declared.0)
            } else {
                None
            }
        }
        None => None,
    }
}
