ghost use Rattle.std.specs.Prelude.{◌≡◌, ◌++◌, string_bytes, IfOk};
ghost use Rattle.taco_report.specs.Reports.{counts_line, holds_report, no_tuples, scope_line, violated_report};

use crate::parts::add_broken;
use crate::state::add_state;
use crate::writing::add;
use heap_core::{Part, Problem, Start};
use no_memory::NoMemory;
use std::alloc::Global;
use taco_unit::Scope;

/// The line of the scope.
fn scope_text(alloc: Global, scope: Scope) -> Result<String, NoMemory>
    ensures { IfOk result (λ text. string_bytes text ≡ scope_line scope) }
{
    let Scope {
        objects,
        ints,
        loops,
        calls,
    } = scope;
    let text = format!(in alloc;
        "scope objects {objects} ints {ints} loops {loops} calls {calls}\n"
    )?;
    Ok(text)
}

/// The line of the counts.
fn counts_text(
    alloc: Global,
    tuples: u32,
    cleared: u32,
    kept: u32,
    untold: u32,
) -> Result<String, NoMemory>
    ensures { IfOk result (λ text. string_bytes text ≡ counts_line (record { tuples = tuples; cleared = cleared; kept = kept; open_ = untold })) }
{
    let text = format!(in alloc; "tuples {tuples} cleared {cleared} kept {kept} open {untold}\n")?;
    Ok(text)
}

/// A verdict, the line of the scope, and that of the counts of a problem without tuples.
fn report_head(alloc: Global, verdict: &str, scope: Scope) -> Result<Vec<u8>, NoMemory>
    ensures { IfOk result (λ text. text.items ≡ verdict.now ++ scope_line scope ++ counts_line no_tuples) }
{
    let mut out = Vec::from_slice(alloc, verdict.as_bytes())?;
    let scope = scope_text(alloc, scope)?;
    add(&mut out, scope.as_bytes())?;
    let counts = counts_text(alloc, 0, 0, 0, 0)?;
    add(&mut out, counts.as_bytes())?;
    Ok(out)
}

/// The report of a problem whose method holds, where there are no tuples: `HOLDS`, the line of the
/// scope and that of the counts.
pub fn holds_text(alloc: Global, problem: &Problem) -> Result<Vec<u8>, NoMemory>
    ensures { IfOk result (λ text. text.items ≡ holds_report problem.now no_tuples) }
{
    report_head(alloc, "HOLDS\n", problem.scope)
}

/// The report of a method that breaks this part of its contract from this start, where there are no
/// tuples: `VIOLATED`, the lines of the scope and of the counts, that of the broken part, and the
/// start's text. Its cost is the text's length.
pub fn violated_text(
    alloc: Global,
    problem: &Problem,
    start: &Start,
    part: Part,
) -> Result<Vec<u8>, NoMemory>
    ensures { IfOk result (λ text. text.items ≡ violated_report problem.now no_tuples start.now part) }
{
    let mut out = report_head(alloc, "VIOLATED\n", problem.scope)?;
    add_broken(alloc, &mut out, problem, part)?;
    add_state(alloc, &mut out, problem, start)?;
    Ok(out)
}
