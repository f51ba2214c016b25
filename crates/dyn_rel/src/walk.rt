//! The parts of whole programs.

ghost use Rattle.std.specs.Prelude.{length, IfOk};
ghost use Rattle.dyn_core.specs.declared.prog.Prog.TheVariants as progs;
ghost use Rattle.dyn_steps.specs.Looked.{Vars};
ghost use Rattle.dyn_rel.specs.Looking.{IsBehind, IsList};
ghost use Rattle.dyn_rel.specs.Runs.{IsProgPath};

use crate::joining::join;
use crate::looking::{last_set, sets_behind};
use dyn_core::Prog;
use dyn_steps::{Basis, Front, Part, act, nothing, test};
use heap_core::well_posed;
use no_memory::NoMemory;
use rel_core::Formula;
use sqlite_items::Items;
use std::alloc::Global;

/// The part of all parts in order, behind which a set of variables is looked at.
#[cycle(walking)]
fn sequence(
    alloc: Global,
    basis: Basis<'_>,
    from: Front,
    parts: &[Prog],
    after: &[bool],
) -> Result<Part, NoMemory>
    ensures { IfOk result (λ part. (vars : Vars) → IsList (length basis.entry.kinds.now) vars after.now
        → IsProgPath basis.entry.problem.now basis.entry.kinds.now vars (progs.Seq parts.now) from part) }
{
    well_posed(basis.problem);
    let mut sets = sets_behind(alloc, after, parts)?;
    let mut all = Items::from_vec(Vec::with_capacity(alloc, parts.len())?);
    let mut front = from;
    for part in parts {
        let behind = last_set(alloc, &mut sets);
        let made = part_of(alloc, basis, front, part, behind.as_slice())?;
        let Part { formula, end } = made;
        all.push(formula.into_inner())?;
        front = end;
    }
    let formula = Formula::all(alloc, all)?;
    Ok(Part {
        formula,
        end: front,
    })
}

/// The part of one of the branches.
#[cycle(walking)]
fn choice(
    alloc: Global,
    basis: Basis<'_>,
    from: Front,
    branches: &[Prog],
    after: &[bool],
) -> Result<Part, NoMemory>
    ensures { IfOk result (λ part. (vars : Vars) → IsList (length basis.entry.kinds.now) vars after.now
        → IsProgPath basis.entry.problem.now basis.entry.kinds.now vars (progs.Choice branches.now) from part) }
{
    let first = from.at.copy(alloc)?;
    let begun = Front {
        at: first,
        next: from.next,
    };
    let mut all = nothing(alloc, begun)?;
    for branch in branches {
        let at = from.at.copy(alloc)?;
        let begun = Front {
            at,
            next: all.end.next,
        };
        let made = part_of(alloc, basis, begun, branch, after)?;
        all = join(alloc, basis.kinds, after, &from.at, all, made)?;
    }
    Ok(all)
}

/// The part of a program. An iteration takes no turn, and a program that has none loses nothing by it.
#[cycle(walking)]
pub(crate) fn part_of(
    alloc: Global,
    basis: Basis<'_>,
    from: Front,
    prog: &Prog,
    after: &[bool],
) -> Result<Part, NoMemory>
    ensures { IfOk result (λ part. (vars : Vars) → IsBehind prog.now (length basis.entry.kinds.now) vars after.now
        → IsProgPath basis.entry.problem.now basis.entry.kinds.now vars prog.now from part) }
{
    match prog {
        Prog::Act(action) => {
            let part = act(alloc, basis, from, *action)?;
            Ok(part)
        }
        Prog::Test(flag, wanted) => {
            let part = test(alloc, from, *flag, *wanted)?;
            Ok(part)
        }
        Prog::Seq(parts) => {
            let part = sequence(alloc, basis, from, parts.as_slice(), after)?;
            Ok(part)
        }
        Prog::Choice(branches) => {
            let part = choice(alloc, basis, from, branches.as_slice(), after)?;
            Ok(part)
        }
        Prog::Star(_) => {
            let formula = Formula::constant(alloc, true)?;
            Ok(Part { formula, end: from })
        }
    }
}
