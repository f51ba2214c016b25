ghost use Rattle.std.specs.Prelude.{◌≡◌, ◌<◌, IfOk, ◌∷◌, map};
ghost use Rattle.dyn_core.specs.Unrolled.{turn_or_none as turn_or_none_lem, repeated, unrolled, IsUnrolled};

use crate::prog::Prog;
use no_memory::NoMemory;
use sqlite_items::{Boxed, Items};
use std::alloc::Global;

/// A copy of all parts.
#[cycle(copying)]
fn copies(alloc: Global, parts: &[Prog]) -> Result<Items<Prog>, NoMemory>
    ensures { IfOk result (λ all. all ≡ parts.now) }
{
    let mut all = Items::from_vec(Vec::with_capacity(alloc, parts.len())?);
    for part in parts {
        let part = copy(alloc, part)?;
        all.push(part)?;
    }
    Ok(all)
}

/// A copy of a program.
#[cycle(copying)]
fn copy(alloc: Global, prog: &Prog) -> Result<Prog, NoMemory>
    ensures { IfOk result (λ r. r ≡ prog.now) }
{
    match prog {
        Prog::Act(act) => Ok(Prog::Act(*act)),
        Prog::Test(flag, value) => Ok(Prog::Test(*flag, *value)),
        Prog::Seq(parts) => {
            let parts = copies(alloc, parts.as_slice())?;
            Ok(Prog::Seq(parts))
        }
        Prog::Choice(branches) => {
            let branches = copies(alloc, branches.as_slice())?;
            Ok(Prog::Choice(branches))
        }
        Prog::Star(body) => {
            let body = copy(alloc, body.get())?;
            let body = Boxed::new(alloc, body)?;
            Ok(Prog::Star(body))
        }
    }
}

/// Nothing, or one turn and then more.
fn turn_or_none(alloc: Global, body: Boxed<Prog>, more: Boxed<Prog>) -> Result<Prog, NoMemory>
    ensures { IfOk result (λ r. r ≡ turn_or_none_lem body more) }
{
    let mut turn = Items::from_vec(Vec::with_capacity(alloc, 2)?);
    turn.push(body.into_inner())?;
    turn.push(more.into_inner())?;
    let mut branches = Items::from_vec(Vec::with_capacity(alloc, 2)?);
    branches.push(Prog::Seq(Items::new(alloc)))?;
    branches.push(Prog::Seq(turn))?;
    Ok(Prog::Choice(branches))
}

/// At most so many turns, each a copy of the body.
fn copied_turns(alloc: Global, body: &Prog, turns: u8) -> Result<Boxed<Prog>, NoMemory>
    ensures { IfOk result (λ r. r ≡ repeated turns body.now) }
{
    let mut more = Boxed::new(alloc, Prog::Seq(Items::new(alloc)))?;
    for made in 0..turns {
        let turn = copy(alloc, body)?;
        let turn = Boxed::new(alloc, turn)?;
        let longer = turn_or_none(alloc, turn, more)?;
        more = Boxed::new(alloc, longer)?;
    }
    Ok(more)
}

/// At most so many turns: the first is the body itself, and the others are copies of it.
fn repeat(alloc: Global, body: Boxed<Prog>, turns: u8) -> Result<Prog, NoMemory>
    requires { 0 < turns }
    ensures { IfOk result (λ r. r ≡ repeated turns body) }
{
    let more = copied_turns(alloc, body.get(), turns - 1)?;
    let all = turn_or_none(alloc, body, more)?;
    Ok(all)
}

/// All parts, with their iterations written out.
#[cycle(unrolling)]
fn all_written_out(alloc: Global, parts: &[Prog], turns: u8) -> Result<Items<Prog>, NoMemory>
    ensures { IfOk result (λ all. all ≡ map (unrolled turns) parts.now) }
{
    let mut all = Items::from_vec(Vec::with_capacity(alloc, parts.len())?);
    for part in parts {
        let part = written_out(alloc, part, turns)?;
        all.push(part)?;
    }
    Ok(all)
}

/// The program, with its iterations written out.
#[cycle(unrolling)]
fn written_out(alloc: Global, prog: &Prog, turns: u8) -> Result<Prog, NoMemory>
    ensures { IfOk result (λ r. r ≡ unrolled turns prog.now) }
{
    match prog {
        Prog::Act(act) => Ok(Prog::Act(*act)),
        Prog::Test(flag, wanted) => Ok(Prog::Test(*flag, *wanted)),
        Prog::Seq(parts) => {
            let parts = all_written_out(alloc, parts.as_slice(), turns)?;
            Ok(Prog::Seq(parts))
        }
        Prog::Choice(branches) => {
            let branches = all_written_out(alloc, branches.as_slice(), turns)?;
            Ok(Prog::Choice(branches))
        }
        Prog::Star(_) if turns == 0 => Ok(Prog::Seq(Items::new(alloc))),
        Prog::Star(body) => {
            let once = written_out(alloc, body.get(), turns)?;
            let once = Boxed::new(alloc, once)?;
            let repeated = repeat(alloc, once, turns)?;
            Ok(repeated)
        }
    }
}

/// The program without iterations whose runs, under any bound, are the runs of `prog` in which each
/// entry of an iteration takes at most `loops` turns. Where the kinds of `prog` fit, those of the
/// result do.
///
/// Linear in the result, in time and memory. The recursion goes as deep as the result is nested, which
/// an iteration is by two levels for each turn; a long sequence adds nothing to it. The call bounds
/// nothing by itself: an iteration that is nested four deep is written 20,736 times at 12 turns, and
/// callers are to bound that before.
pub fn unroll(alloc: Global, prog: &Prog, loops: u8) -> Result<Prog, NoMemory>
    ensures { IfOk result (IsUnrolled loops prog.now) }
{
    let written = written_out(alloc, prog, loops)?;
    Ok(written)
}
