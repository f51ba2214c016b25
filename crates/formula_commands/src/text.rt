ghost use Rattle.std.specs.Prelude.{◌≤◌, ◌^◌, ◌<◌, length};
ghost use Rattle.taco_io.specs.Shelf.{Stays};
ghost use Rattle.formula_commands.specs.Texts.{text_limit, EndsText, Fetches, IsFormula, IsLog, IsNoFormula, IsNoLog, TakesFor, formula_file};

use cnf_core::Cnf;
use command_files::{FileEnd, Outcome, ended, or_no_memory, read_file, refusal};
use derivation::{Log, TextFault, read_cnf, read_log};
use std::alloc::Global;
use taco_io::Files;
use taco_report::Status;

/// The most bytes of the text of a formula, and of that of a log.
pub const TEXT_LIMIT: u32 = 4_194_304;

/// Why a file gave no formula or no log.
#[derive(Clone, Copy, Debug, PartialEq, Eq)]
pub enum TextEnd {
    /// The file gave no text.
    File(FileEnd),
    /// The text is not of its format: the place of its first fault, in bytes from 0.
    BadText { at: u32 },
}

impl From<FileEnd> for TextEnd {
    ghost use Rattle.std.specs.Prelude.{◌≡◌};
    ghost use Rattle.formula_commands.specs.declared.text.TextEnd.TheVariants as end;

    ghost from_gives = { λ file_end text_end. text_end ≡ end.File file_end };

    fn from(end: FileEnd) -> TextEnd {
        TextEnd::File(end)
    }
}

impl From<TextFault> for TextEnd {
    ghost use Rattle.std.specs.Prelude.{◌≡◌};
    ghost use Rattle.formula_commands.specs.TextEnds.{end_of};

    ghost from_gives = { λ fault end. end ≡ end_of fault };

    fn from(fault: TextFault) -> TextEnd {
        match fault {
            TextFault::BadText { at } => TextEnd::BadText { at },
            TextFault::NoMemory => TextEnd::File(FileEnd::NoMemory),
        }
    }
}

/// The formula of a text.
fn formula_of(alloc: Global, text: &[u8]) -> Result<Cnf, TextEnd>
    requires { length text.now ≤ text_limit }
    ensures { TakesFor IsFormula IsNoFormula text.now result }
{
    Ok(read_cnf(alloc, text)?)
}

/// The log of a text, over the variables 1 to `vars`.
fn log_of(alloc: Global, text: &[u8], vars: u32) -> Result<Log, TextEnd>
    requires few { vars < 2 ^ 31 }
    requires short { length text.now ≤ text_limit }
    ensures { TakesFor (IsLog vars) (IsNoLog vars) text.now result }
{
    Ok(read_log(alloc, text, vars)?)
}

/// Reads a formula through slot 0.
pub(crate) fn read_formula<F: Files>(
    alloc: Global,
    files: &mut F,
    name: &str,
) -> Result<Cnf, TextEnd>
    ensures fetches { Fetches 0 (formula_file name.now) IsFormula IsNoFormula (F.shelf files.old) (F.shelf files.new) result }
    ensures stays { Stays 0 (F.shelf files.old) (F.shelf files.new) }
{
    let text = read_file(alloc, files, 0, name, TEXT_LIMIT)?;
    formula_of(alloc, text.as_slice())
}

/// Reads a log through slot 1.
pub(crate) fn read_steps<F: Files>(
    alloc: Global,
    files: &mut F,
    name: &str,
    vars: u32,
) -> Result<Log, TextEnd>
    requires { vars < 2 ^ 31 }
    ensures fetches { Fetches 1 (formula_file name.now) (IsLog vars) (IsNoLog vars) (F.shelf files.old) (F.shelf files.new) result }
    ensures stays { Stays 1 (F.shelf files.old) (F.shelf files.new) }
{
    let text = read_file(alloc, files, 1, name, TEXT_LIMIT)?;
    log_of(alloc, text.as_slice(), vars)
}

/// How a request ends whose text in this slot gave no value.
pub(crate) fn text_ended(alloc: Global, slot: u8, end: TextEnd) -> Outcome
    ensures { EndsText slot end result }
{
    match end {
        TextEnd::File(end) => ended(alloc, slot, end),
        TextEnd::BadText { at } => {
            or_no_memory(alloc, refusal(alloc, Status::BadText { slot, at }))
        },
    }
}
