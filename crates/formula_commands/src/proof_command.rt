ghost use Rattle.std.specs.Prelude.{◌≡◌, [], ◌∷◌, IfOk, if◌then◌else◌};
ghost use Rattle.command_files.specs.Answers.{IsAnswered};
ghost use Rattle.formula_commands.specs.ProofCommand.{HoldsSome, ProofSays, TellsLog};
ghost use Rattle.formula_commands.specs.Texts.{formula_file};
ghost use Rattle.taco_report.specs.FormulaTexts.{refuted_line, valid_line};

use crate::text::{read_formula, read_steps, text_ended};
use cnf_core::Cnf;
use command_files::{Outcome, or_no_memory};
use derivation::{CheckFault, Checked, Log, check};
use no_memory::NoMemory;
use std::alloc::Global;
use taco_io::Files;
use taco_report::{Status, badline_text, refuted_text, valid_text};
use taco_words::Text;

/// The line about a log all of whose lines follow.
fn accepted(alloc: Global, checked: Checked) -> Result<Vec<u8>, NoMemory>
    ensures { IfOk result (λ text. text.items ≡ (if checked.refuted then refuted_line checked.lines else valid_line checked.lines)) }
{
    if checked.refuted {
        refuted_text(alloc, checked.lines)
    } else {
        valid_text(alloc, checked.lines)
    }
}

/// The verdict on a log over a formula, with its line.
fn judged(alloc: Global, formula: &Cnf, log: &Log) -> Result<Outcome, NoMemory>
    ensures { IfOk result (λ o. TellsLog formula.now log.now o.status o.output.items) }
{
    match check(formula, log) {
        Ok(checked) => Ok(Outcome {
            status: Status::Done,
            output: accepted(alloc, checked)?,
        }),
        Err(CheckFault::BadLine { n }) => Ok(Outcome {
            status: Status::Broken,
            output: badline_text(alloc, n)?,
        }),
        Err(CheckFault::NoMemory) => Err(NoMemory),
    }
}

/// Checks the log of one file, read through slot 1, over the formula of another, read through slot 0:
/// whether each of its lines follows, and whether the last one is empty, so that the formula has no
/// solution. The log is read only where the other file holds a formula. The cost is the length of the
/// texts and of the hinted clauses, each as often as it is named.
pub fn check_log<F: Files>(alloc: Global, files: &mut F, cnf: &Text, log: &Text) -> Outcome
    ensures { IsAnswered (formula_file cnf.now ∷ formula_file log.now ∷ []) (HoldsSome cnf.now) (ProofSays cnf.now log.now) (F.shelf files.old) (F.shelf files.new) result.status result.output.items }
{
    let formula = match read_formula(alloc, files, cnf.as_str()) {
        Ok(formula) => formula,
        Err(end) => return text_ended(alloc, 0, end),
    };
    match read_steps(alloc, files, log.as_str(), formula.vars()) {
        Ok(steps) => or_no_memory(alloc, judged(alloc, &formula, &steps)),
        Err(end) => text_ended(alloc, 1, end),
    }
}
