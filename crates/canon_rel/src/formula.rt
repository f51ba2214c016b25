//! The formula.

ghost use Rattle.std.specs.Prelude.{IfOk, IsTrue};
ghost use Rattle.rel_core.specs.Reading.{Reading};
ghost use Rattle.rel_core.specs.Uses.{Kinds, GivesStart, IsOf, is_sorted};
ghost use Rattle.canon_rel.specs.Canonical.{SaysCanonical};

use crate::order::is_in_order;
use crate::shape::has_shape;
use heap_core::{Problem, well_posed};
use no_memory::NoMemory;
use rel_core::{Formula, Indices};
use sqlite_items::Boxed;
use std::alloc::Global;

/// A formula that holds exactly of the valuations that show, at these indices, a start of the problem
/// that fits and is canonical. Where it holds, that start is `start_of`.
///
/// The objects that are there are a prefix; each class-kind field has one value at an object that
/// declares it and nothing elsewhere, and so have the roots; and each object is at a root or at a field
/// of an object below it, where the object before it comes first. Numbers and flags are not spoken of.
///
/// It is sorted. With K objects, R roots and F class-kind fields it has about 3 (K R + K² F / 2) parts
/// for the order and some ten for each root and each field of each object.
pub fn canon_formula(
    alloc: Global,
    problem: &Problem,
    at: &Indices,
) -> Result<Boxed<Formula>, NoMemory>
    ensures meaning { IfOk result (λ f. (kinds : Kinds) (m : Reading) → GivesStart problem.now kinds → IsOf problem.now kinds m → SaysCanonical problem.now at.now f m) }
    ensures sorted { IfOk result (λ f. (kinds : Kinds) → GivesStart problem.now kinds → IsTrue (is_sorted problem.now kinds f)) }
{
    well_posed(problem);
    let shape = has_shape(alloc, problem, at)?;
    let order = is_in_order(alloc, problem, at)?;
    let canonical = Formula::both(alloc, shape, order)?;
    Ok(canonical)
}
