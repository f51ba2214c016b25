ghost use Rattle.std.specs.Prelude.{◌≡◌, ℕ, [], ◌∷◌, ◌++◌, All, map, IfOk, OnOk, decimal};
ghost use Rattle.std.specs.List.{flat_map};
ghost use Rattle.derivation.specs.CnfText.{clause_line, text_of_cnf};
ghost use Rattle.derivation.specs.LogText.{line_text, text_of_log, IsInOrder, IsLogText};
ghost use Rattle.derivation.specs.Texts.{literal_text, spaced};

use crate::line::Line;
use crate::log::Log;
use cnf_core::{Cnf, Lit};
use itoa::Buffer;
use no_memory::NoMemory;
use std::alloc::Global;

/// The text of a log: each line holds its literals, `0`, its hints and `0`, parted by one space, and
/// a line feed. The cost is the text's length.
pub fn log_text(alloc: Global, log: &Log) -> Result<Vec<u8>, NoMemory>
    ensures written { IfOk result (λ text. text.items ≡ text_of_log log.now) }

    // Where the variables of each line rise, from 1 to vars, and the hints count from 1, this is a text
    // that `read_log` reads, and as this log.
    ensures again { IfOk result (λ text. (vars : ℕ) → All (IsInOrder vars) log.now → IsLogText vars text.items log.now) }
{
    let mut text = Vec::new(alloc);
    for line in log.lines() {
        push_line(&mut text, line)?;
    }
    Ok(text)
}

/// The text of a formula in DIMACS CNF: the header, and each clause on a line, its literals and `0`
/// parted by one space. The cost is the text's length.
pub fn cnf_text(alloc: Global, cnf: &Cnf) -> Result<Vec<u8>, NoMemory>
    ensures { IfOk result (λ text. text.items ≡ text_of_cnf cnf.now) }
{
    let mut text = Vec::from_slice(alloc, b"p cnf ")?;
    push_number(&mut text, cnf.vars())?;
    text.push(b' ')?;
    push_number(&mut text, cnf.clauses())?;
    text.push(b'\n')?;
    push_clauses(&mut text, cnf)?;
    Ok(text)
}

fn push_clauses(text: &mut Vec<u8>, cnf: &Cnf) -> Result<(), NoMemory>
    ensures { OnOk result (text.new.items ≡ text.old.items ++ flat_map clause_line cnf.now.clauses) }
{
    for place in 0..cnf.clauses() {
        push_clause(text, cnf.clause(place))?;
    }
    Ok(())
}

fn push_clause(text: &mut Vec<u8>, clause: &[Lit]) -> Result<(), NoMemory>
    ensures { OnOk result (text.new.items ≡ text.old.items ++ clause_line clause.now) }
{
    push_literals(text, clause)?;
    text.extend_from_slice(b"0\n")?;
    Ok(())
}

fn push_line(text: &mut Vec<u8>, line: &Line) -> Result<(), NoMemory>
    ensures { OnOk result (text.new.items ≡ text.old.items ++ line_text line.now) }
{
    push_literals(text, line.clause.as_slice())?;
    text.extend_from_slice(b"0 ")?;
    push_numbers(text, line.hints())?;
    text.extend_from_slice(b"0\n")?;
    Ok(())
}

/// Writes each literal with a space behind it.
fn push_literals(text: &mut Vec<u8>, lits: &[Lit]) -> Result<(), NoMemory>
    ensures { OnOk result (text.new.items ≡ text.old.items ++ spaced (map literal_text lits.now)) }
{
    for lit in lits {
        push_literal(text, *lit)?;
        text.push(b' ')?;
    }
    Ok(())
}

/// Writes each number with a space behind it.
fn push_numbers(text: &mut Vec<u8>, numbers: &[u32]) -> Result<(), NoMemory>
    ensures { OnOk result (text.new.items ≡ text.old.items ++ spaced (map decimal numbers.now)) }
{
    for number in numbers {
        push_number(text, *number)?;
        text.push(b' ')?;
    }
    Ok(())
}

fn push_literal(text: &mut Vec<u8>, lit: Lit) -> Result<(), NoMemory>
    ensures { OnOk result (text.new.items ≡ text.old.items ++ literal_text lit) }
{
    if lit.is_negative() {
        text.push(b'-')?;
    }
    push_number(text, lit.var())
}

fn push_number(text: &mut Vec<u8>, number: u32) -> Result<(), NoMemory>
    ensures { OnOk result (text.new.items ≡ text.old.items ++ decimal number) }
{
    let mut buffer = Buffer::new();
    text.extend_from_slice(buffer.format(number).as_bytes())?;
    Ok(())
}
