ghost use Rattle.std.specs.Prelude.{◌≡◌, ◌++◌, flat_map, IfOk, OnOk};
ghost use Rattle.std.specs.List.{enumerate_from};
ghost use Rattle.taco_report.specs.FormulaTexts.{badline_line, literal_word, refuted_line, satisfiable_text as satisfiable_of, unknown_text as unknown_of, unsatisfiable_text as unsatisfiable_of, valid_line};

use crate::writing::{add, add_number};
use derivation::{Log, log_text};
use no_memory::NoMemory;
use std::alloc::Global;

/// The line about a log of so many lines that refutes its formula: `refuted N`.
pub fn refuted_text(alloc: Global, lines: u32) -> Result<Vec<u8>, NoMemory>
    ensures { IfOk result (λ text. text.items ≡ refuted_line lines) }
{
    let text = format!(in alloc; "refuted {lines}\n")?;
    Ok(text.into_bytes())
}

/// The line about a log of so many lines that is valid, and does not end in the empty clause:
/// `valid N`.
pub fn valid_text(alloc: Global, lines: u32) -> Result<Vec<u8>, NoMemory>
    ensures { IfOk result (λ text. text.items ≡ valid_line lines) }
{
    let text = format!(in alloc; "valid {lines}\n")?;
    Ok(text.into_bytes())
}

/// The line about a log whose line of this number, counted from 1, is the first that does not
/// follow: `badline N`.
pub fn badline_text(alloc: Global, n: u32) -> Result<Vec<u8>, NoMemory>
    ensures { IfOk result (λ text. text.items ≡ badline_line n) }
{
    let text = format!(in alloc; "badline {n}\n")?;
    Ok(text.into_bytes())
}

/// Adds a variable as a literal that is true under its value, behind a space.
fn add_literal(alloc: Global, out: &mut Vec<u8>, var: u64, value: bool) -> Result<(), NoMemory>
    ensures { OnOk result (out.new.items ≡ out.old.items ++ literal_word (var, value)) }
{
    if value {
        add(out, b" ")?;
    } else {
        add(out, b" -")?;
    }
    add_number(alloc, out, var)
}

/// Adds the literals of values, of which the first is that of variable 1.
fn add_literals(alloc: Global, out: &mut Vec<u8>, values: &[bool]) -> Result<(), NoMemory>
    ensures { OnOk result (out.new.items ≡ out.old.items ++ flat_map literal_word (enumerate_from 1 values.now)) }
{
    for i in 0..values.len() {
        add_literal(alloc, out, (i + 1) as u64, values[i])?;
    }
    Ok(())
}

/// The text of values that satisfy a formula, of which the first is that of variable 1: the line
/// `s SATISFIABLE`, and one with `v`, a literal for each variable that is true under the values, and
/// `0`. Its cost is the text's length.
pub fn satisfiable_text(alloc: Global, values: &[bool]) -> Result<Vec<u8>, NoMemory>
    ensures { IfOk result (λ text. text.items ≡ satisfiable_of values.now) }
{
    let mut out = Vec::from_slice(alloc, b"s SATISFIABLE\nv")?;
    add_literals(alloc, &mut out, values)?;
    add(&mut out, b" 0\n")?;
    Ok(out)
}

/// The text of a log that refutes its formula: the line `s UNSATISFIABLE`, and the log's text. Its
/// cost is the text's length.
pub fn unsatisfiable_text(alloc: Global, log: &Log) -> Result<Vec<u8>, NoMemory>
    ensures { IfOk result (λ text. text.items ≡ unsatisfiable_of log.now) }
{
    let mut out = Vec::from_slice(alloc, b"s UNSATISFIABLE\n")?;
    let lines = log_text(alloc, log)?;
    add(&mut out, lines.as_slice())?;
    Ok(out)
}

/// The line about a search whose budget is spent: `s UNKNOWN`.
pub fn unknown_text(alloc: Global) -> Result<Vec<u8>, NoMemory>
    ensures { IfOk result (λ text. text.items ≡ unknown_of) }
{
    let mut out = Vec::new(alloc);
    add(&mut out, b"s UNKNOWN\n")?;
    Ok(out)
}
