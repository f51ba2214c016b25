//! That class numbers are those of classes.

ghost use Rattle.std.specs.Prelude.{◌≡◌, ℕ, ◌+◌, ◌*◌, ◌<◌, nat_lt, Bool, All, List, length, IfOk};
ghost use Rattle.std.specs.List.{list_all, range_with_len};
ghost use Rattle.gate_core.specs.Circuit.{value, IsOf, Keeps};
ghost use Rattle.gate_arith.specs.Operations.{IsTruth};
ghost use Rattle.rel_core.specs.declared.relation.RelVar.{RelVar};
ghost use Rattle.rel_core.specs.declared.relation.What.TheVariants.{ClassOf};
ghost use Rattle.rel_gates.specs.Shown.{gates_of, class_bits as class_bits_lem};
ghost use Rattle.rel_gates.specs.Meant.{Stand};
ghost use Rattle.rel_gates.specs.Limits.{row_fits, rows_fit, is_fitting, all_fit, ClassesCounted};

use crate::bits::{is_at_most, row};
use crate::named::Relations;
use crate::widths::{class_bits, class_count};
use gate_arith::both;
use gate_core::{Gate, Gates};
use heap_core::Problem;
use no_memory::NoMemory;
use rel_core::{RelVar, What};
use std::alloc::Global;

/// Whether the number of a row is that of a class.
fn row_limit(
    alloc: Global,
    gates: &mut Gates,
    problem: &Problem,
    row: &[Gate],
) -> Result<Gate, NoMemory>
    requires row { All (IsOf gates.old) row.now }
    requires wide { length row.now ≡ class_bits_lem problem.now }
    ensures truth { IfOk result (IsTruth gates.new (λ inputs. row_fits problem.now (value inputs gates.old) row.now)) }
    ensures keeps { Keeps gates.old gates.new }
{
    let last = class_count(problem) - 1;
    let gate = is_at_most(alloc, gates, row, last as u32)?;
    Ok(gate)
}

/// Whether the number of each object is that of a class.
#[tactic(auto, using(gate_core::proofs::Values::growing))]
fn rows_limit(
    alloc: Global,
    gates: &mut Gates,
    problem: &Problem,
    rows: &[Gate],
) -> Result<Gate, NoMemory>
    requires rows { All (IsOf gates.old) rows.now }
    requires long { length rows.now ≡ problem.now.scope.objects * class_bits_lem problem.now }
    ensures truth { IfOk result (IsTruth gates.new (λ inputs. rows_fit problem.now (value inputs gates.old) rows.now)) }
    ensures keeps { Keeps gates.old gates.new }
{
    let width = class_bits(problem);
    let mut every = gates.constant(true);
    for object in 0..usize::from(problem.scope.objects) {
        let here = row_limit(alloc, gates, problem, row(rows, width, object))?;
        every = both(gates, every, here)?;
    }
    Ok(every)
}

/// Whether a relation's class numbers are those of classes, where it has class numbers.
fn relation_limit(
    alloc: Global,
    gates: &mut Gates,
    problem: &Problem,
    relation: RelVar,
    rows: &[Gate],
) -> Result<Gate, NoMemory>
    requires rows { All (IsOf gates.old) rows.now }
    requires long { relation.what ≡ ClassOf → length rows.now ≡ problem.now.scope.objects * class_bits_lem problem.now }
    ensures truth { IfOk result (IsTruth gates.new (λ inputs. is_fitting problem.now (value inputs gates.old) (relation, rows.now))) }
    ensures keeps { Keeps gates.old gates.new }
{
    match relation.what {
        What::ClassOf => {
            let gate = rows_limit(alloc, gates, problem, rows)?;
            Ok(gate)
        }
        _ => Ok(gates.constant(true)),
    }
}

/// Whether no class number of a named relation is too large.
#[tactic(auto, using(gate_core::proofs::Values::growing))]
pub(crate) fn limits(
    alloc: Global,
    gates: &mut Gates,
    problem: &Problem,
    relations: &Relations,
) -> Result<Gate, NoMemory>
    requires stand { Stand gates.old relations.now }
    requires counted { ClassesCounted problem.now relations.now }
    ensures limits { IfOk result (IsTruth gates.new (λ inputs. all_fit problem.now (value inputs gates.old) relations.now)) }
    ensures keeps { Keeps gates.old gates.new }
{
    let mut every = gates.constant(true);
    for place in 0..relations.len() {
        let (relation, rows) = relations.at(place);
        let here = relation_limit(alloc, gates, problem, relation, rows)?;
        every = both(gates, every, here)?;
    }
    Ok(every)
}
