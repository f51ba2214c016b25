//! A program's formula, with the indices of its first and last states.

ghost use Rattle.std.specs.Prelude.{◌≡◌, length, replicate, IfOk, IsTrue};
ghost use Rattle.dyn_core.specs.Unrolled.{starless};
ghost use Rattle.dyn_core.specs.Kinds.{is_kinded};
ghost use Rattle.dyn_steps.specs.Points.{indices_of, numbered};
ghost use Rattle.dyn_rel.specs.Formulas.{IsPathFormula, first_point as first_point_lem};

use crate::joining::{index_at, variable_number};
use crate::looking::filled;
use crate::walk::part_of;
use dyn_core::Prog;
use dyn_steps::{Basis, Front, Part, Point};
use heap_core::{Problem, well_posed};
use no_memory::NoMemory;
use rel_core::{Formula, Indices};
use sqlite_items::{Boxed, Items};
use std::alloc::Global;
use taco_unit::Kind;

/// What holds of a program's runs: a formula, and at which indices readings show a run's first and last states.
#[derive(Drop)]
pub struct Path {
    pub formula: Boxed<Formula>,
    pub first: Indices,
    pub last: Indices,
}

/// Index 0 so many times.
fn zeros(alloc: Global, count: usize) -> Result<Items<u32>, NoMemory>
    ensures { IfOk result (λ all. all ≡ replicate count 0) }
{
    let mut all = Items::from_vec(Vec::with_capacity(alloc, count)?);
    for _place in 0..count {
        all.push(0)?;
    }
    Ok(all)
}

/// How many fields the unit has.
fn field_count(problem: &Problem) -> usize
    ensures { result ≡ length problem.now.unit.fields }
{
    problem.unit.fields.len()
}

/// Index 0 for each field and each variable.
fn first_point(alloc: Global, fields: usize, vars: usize) -> Result<Point, NoMemory>
    ensures { IfOk result (λ at. at ≡ first_point_lem fields vars) }
{
    let fields = zeros(alloc, fields)?;
    let vars = zeros(alloc, vars)?;
    Ok(Point {
        fields,
        live: 0,
        vars,
    })
}

/// The indices of the variables, each behind its variable's number.
fn slots_of(alloc: Global, indices: &[u32]) -> Result<Items<(u16, u32)>, NoMemory>
    ensures { IfOk result (λ all. all ≡ numbered 0 indices.now) }
{
    let mut all = Items::from_vec(Vec::with_capacity(alloc, indices.len())?);
    for place in 0..indices.len() {
        let variable = variable_number(place)?;
        let index = index_at(indices, place);
        all.push((variable, index))?;
    }
    Ok(all)
}

/// A point of a run, as readings are asked for states.
fn as_indices(alloc: Global, at: Point) -> Result<Indices, NoMemory>
    ensures { IfOk result (λ indices. indices ≡ indices_of at) }
{
    let slots = slots_of(alloc, at.vars.as_slice())?;
    Ok(Indices {
        heap: at.fields,
        live: at.live,
        slots,
        result: 0,
    })
}

/// The formula of a program without iterations, whose variables have these kinds. Its first indices are 0, and the result
/// is for the caller to name. Linear in the program, and at each choice in the fields and variables.
pub fn path_formula(
    alloc: Global,
    prog: &Prog,
    kinds: &[Kind],
    problem: &Problem,
) -> Result<Path, NoMemory>
    ensures { IfOk result (λ r. IsTrue (starless prog.now) → IsTrue (is_kinded problem.now kinds.now prog.now) → IsPathFormula problem.now kinds.now prog.now r) }
{
    well_posed(problem);
    let fields = field_count(problem);
    let at = first_point(alloc, fields, kinds.len())?;
    let also = at.copy(alloc)?;
    let first = as_indices(alloc, also)?;
    let after = filled(alloc, kinds.len(), true)?;
    let begun = Front { at, next: 1 };
    let part = part_of(
        alloc,
        Basis { problem, kinds },
        begun,
        prog,
        after.as_slice(),
    )?;
    let Part { formula, end } = part;
    let last = as_indices(alloc, end.at)?;
    Ok(Path {
        formula,
        first,
        last,
    })
}
