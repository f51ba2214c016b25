ghost use Rattle.std.specs.Prelude.{◌≡◌, IfOk, [], ◌∷◌, true, false, map};
ghost use Rattle.dyn_core.specs.declared.prog.Prog.TheVariants as q;
ghost use Rattle.dyn_plan.specs.Programs.{program, program_of_step, either as either_lem, repetition as repetition_lem};

use crate::plan::Plan;
use dyn_core::Prog;
use no_memory::NoMemory;
use sqlite_items::{Boxed, Items};
use std::alloc::Global;

/// One of two sequences.
fn either(alloc: Global, taken: Items<Prog>, other: Items<Prog>) -> Result<Prog, NoMemory>
    ensures { IfOk result (λ r. r ≡ either_lem taken other) }
{
    let mut both = Items::from_vec(Vec::with_capacity(alloc, 2)?);
    both.push(Prog::Seq(taken))?;
    both.push(Prog::Seq(other))?;
    Ok(Prog::Choice(both))
}

/// Any number of turns, and then a last test.
fn repetition(alloc: Global, flag: u16, turn: Items<Prog>) -> Result<Prog, NoMemory>
    ensures { IfOk result (λ r. r ≡ repetition_lem flag turn) }
{
    let turns = Boxed::new(alloc, Prog::Seq(turn))?;
    let mut parts = Items::from_vec(Vec::with_capacity(alloc, 2)?);
    parts.push(Prog::Star(turns))?;
    parts.push(Prog::Test(flag, false))?;
    Ok(Prog::Seq(parts))
}

/// A test, and then the programs of all steps in order.
#[cycle(turning)]
fn tested(alloc: Global, flag: u16, wanted: bool, steps: &[Plan]) -> Result<Items<Prog>, NoMemory>
    ensures { IfOk result (λ all. all ≡ q.Test flag wanted ∷ map program_of_step steps.now) }
{
    let mut all = Items::from_vec(Vec::with_capacity(alloc, 1)?);
    all.push(Prog::Test(flag, wanted))?;
    for step in steps {
        let part = program_of_one(alloc, step)?;
        all.push(part)?;
    }
    Ok(all)
}

/// The program of one step.
#[cycle(turning)]
fn program_of_one(alloc: Global, step: &Plan) -> Result<Prog, NoMemory>
    ensures { IfOk result (λ r. r ≡ program_of_step step.now) }
{
    match step {
        Plan::Do(act) => Ok(Prog::Act(*act)),
        Plan::Fail => Ok(Prog::Choice(Items::new(alloc))),
        Plan::If(flag, taken, other) => {
            let taken = tested(alloc, *flag, true, taken.as_slice())?;
            let other = tested(alloc, *flag, false, other.as_slice())?;
            let both = either(alloc, taken, other)?;
            Ok(both)
        }
        Plan::While(flag, body) => {
            let turn = tested(alloc, *flag, true, body.as_slice())?;
            let turns = repetition(alloc, *flag, turn)?;
            Ok(turns)
        }
    }
}

/// The program of which some steps have the runs: its last states are exactly the state to which the
/// steps lead, where they lead to one.
///
/// Linear in the steps, in time and memory. The recursion goes as deep as the steps are nested; many
/// steps side by side add nothing to it.
pub fn program_of(alloc: Global, steps: &[Plan]) -> Result<Prog, NoMemory>
    ensures { IfOk result (λ r. r ≡ program steps.now) }
{
    let mut all = Items::from_vec(Vec::with_capacity(alloc, steps.len())?);
    for step in steps {
        let part = program_of_one(alloc, step)?;
        all.push(part)?;
    }
    Ok(Prog::Seq(all))
}
