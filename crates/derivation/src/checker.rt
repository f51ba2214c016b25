ghost use Rattle.std.specs.Prelude.{◌≡◌, ◌+◌, ◌^◌, ◌<◌, ◌≤◌, [], ◌∷◌, ◌++◌, length, map, take, IfOk, OnOk, IfErr, IsTrue, MatchOption, true, false};
ghost use Rattle.cnf_core.specs.Literal.{negated};
ghost use Rattle.cnf_core.specs.Truth.{IsUnsatisfiable};
ghost use Rattle.derivation.specs.Propagation.{ends, hinted, is_hint, once, follows};
ghost use Rattle.derivation.specs.Logs.{clauses_of, ends_empty, Blames, Valid};

use crate::effect::{Effect, what_does};
use crate::fault::CheckFault;
use crate::line::Line;
use crate::log::Log;
use crate::trues::Trues;
use cnf_core::{Cnf, Lit};
use no_memory::NoMemory;

/// What an accepted log has.
#[derive(Clone, Copy, Debug, PartialEq, Eq)]
pub struct Checked {
    /// How many lines there are.
    pub lines: u32,
    /// Whether the last line is empty, so that the formula has no solution.
    pub refuted: bool,
}

/// Checks that each line of the log follows from the formula's clauses and the lines before it. Where
/// it answers `BadLine`, that line is the first that does not; it counts from 1. The cost is the sum
/// of the lengths of the hinted clauses, each as often as it is named, and of the log; the table of
/// values grows with the greatest variable.
pub fn check(cnf: &Cnf, log: &Log) -> Result<Checked, CheckFault>
    ensures valid { OnOk result (Valid cnf.now.clauses log.now) }
    ensures told { IfOk result (λ checked. (checked.lines ≡ length log.now) × (checked.refuted ≡ ends_empty log.now)) }
    ensures fault { IfErr result (Blames cnf.now.clauses log.now) }
    ensures only { IfErr result (λ fault. Valid cnf.now.clauses log.now → fault ≡ CheckFault.NoMemory) }
    ensures unsatisfiable { IfOk result (λ checked. IsTrue checked.refuted → IsUnsatisfiable cnf.now.clauses) }
{
    let lines = log.lines();
    let mut trues = Trues::new(log.allocator());
    for (place, line) in lines.iter().enumerate() {
        let (before, _) = lines.split_at(place);
        if !does_follow(cnf, before, line, &mut trues)? {
            return Err(CheckFault::BadLine {
                n: place as u32 + 1,
            });
        }
    }
    Ok(Checked {
        lines: lines.len() as u32,
        refuted: is_last_empty(lines),
    })
}

/// Whether there is a last line, and it is empty.
fn is_last_empty(lines: &[Line]) -> bool
    ensures { result ≡ ends_empty lines.now }
{
    match lines.last() {
        Some(line) => line.clause.as_slice().is_empty(),
        None => false,
    }
}

/// Whether the line follows from the formula's clauses and the lines before it.
fn does_follow(cnf: &Cnf, before: &[Line], line: &Line, trues: &mut Trues) -> Result<bool, NoMemory>
    requires { trues.old ≡ [] }
    ensures right { IfOk result (λ answer. answer ≡ follows (cnf.now.clauses ++ clauses_of before.now) line.now) }
    ensures cleared { OnOk result (trues.new ≡ []) }
{
    let answer = deny(line.clause.as_slice(), trues)? && do_end(cnf, before, line.hints(), trues)?;
    trues.clear();
    Ok(answer)
}

/// Makes all literals of the clause false, unless one has a value already.
fn deny(clause: &[Lit], trues: &mut Trues) -> Result<bool, NoMemory>
    requires { trues.old ≡ [] }
    ensures once { IfOk result (λ all. all ≡ once clause.now) }
    ensures denied { IfOk result (λ all. IsTrue all → trues.new ≡ map negated clause.now) }
{
    for lit in clause {
        if trues.holds(*lit) || trues.holds(lit.negated()) {
            return Ok(false);
        }
        trues.set(lit.negated())?;
    }
    Ok(true)
}

/// Whether the hints in order end in a conflict.
fn do_end(cnf: &Cnf, before: &[Line], hints: &[u32], trues: &mut Trues) -> Result<bool, NoMemory>
    ensures { IfOk result (λ answer. answer ≡ ends (cnf.now.clauses ++ clauses_of before.now) hints.now trues.old) }
{
    for (place, hint) in hints.iter().enumerate() {
        let Some(clause) = clause_of(cnf, before, *hint) else {
            return Ok(false);
        };
        match what_does(trues, clause) {
            Effect::Conflicts => return Ok(place + 1 == hints.len()),
            Effect::Forces(lit) => trues.set(lit)?,
            Effect::Fails => return Ok(false),
        }
    }
    Ok(false)
}

/// The clause of this number: the formula's come first, then the ones of the lines before.
fn clause_of<'a>(cnf: &'a Cnf, before: &'a [Line], hint: u32) -> Option<&'a [Lit]>
    ensures { let known = cnf.now.clauses ++ clauses_of before.now in
        MatchOption result (is_hint known hint ≡ false) (λ clause. (is_hint known hint ≡ true) × (clause.now ≡ hinted known hint)) }
{
    let place = hint.checked_sub(1)?;
    if place < cnf.clauses() {
        return Some(cnf.clause(place));
    }
    let line = before.get((place - cnf.clauses()) as usize)?;
    Some(line.clause.as_slice())
}
