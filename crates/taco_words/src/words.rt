//! What the words of a command line ask for.
ghost use Rattle.std.specs.Prelude.{◌≡◌, Some, map, IfOk};
ghost use Rattle.taco_words.specs.Asked.{asked, asked_by as asked_by_lem};
ghost use Rattle.taco_words.specs.Limits.{IsWithin};
ghost use Rattle.taco_words.specs.Parsing.{Gives};

use crate::commands::{Task, command_for, task_named};
use crate::parse::parse;
use crate::reading::request_for;
use crate::request::{Request, RequestFault};
use std::alloc::Global;

/// What a command asks for with these words, of which the first is its own.
fn asked_by<'a>(alloc: Global, task: Task, words: &'a [&'a str]) -> Result<Request, RequestFault>
    ensures asked { Gives (asked_by_lem (Some task) (map (λ w. w.now) words.entry.now)) result }
    ensures within { IfOk result IsWithin }
{
    let command = command_for(alloc, task)?;
    let matches = parse(command, words)?;
    request_for(alloc, task, &matches)
}

/// What the words of a command line ask for, without the program's name. The first word is the command:
///
/// - `check FILE --class C --method M [scope] [plan] [--conflicts B]`
/// - `bounds FILE --class C --method M [scope] [plan] [--schedule LIST]`
/// - `replay FILE STATE --class C --method M [scope]`
/// - `sat CNF [--conflicts B]`
/// - `proof CNF LOG`
/// - `stress --number N`
///
/// The scope is `--objects` (1 to 12, usually 3), `--ints` (2 to 16, usually 4), `--loops` (0 to 12,
/// usually 3) and `--calls` (0 to 4, usually 2); the plan is `--workers` (1 to 16, usually 1),
/// `--rounds` (1 to 8, usually 1) and `--tuple-conflicts` (0 to 1,000,000,000, usually 0). B is 0 to
/// 1,000,000,000, usually 0, and N is 0 to 65,536. A number is `0`, or digits without a leading zero.
/// LIST is 1 to 4,096 numbers below that of the workers, joined by commas.
///
/// `clap` reads the words behind the command, each option with one value. Usage where the command is
/// none of these, where `clap` refuses the words, a demand for help among them, and where a value is no
/// number of its range or no such list. Linear in the length of the words.
#[tactic(auto, unfolding(crate::specs::Asked::asked))]
pub fn request_of<'a>(alloc: Global, words: &'a [&'a str]) -> Result<Request, RequestFault>
    ensures asked { Gives (asked (map (λ w. w.now) words.entry.now)) result }
    ensures within { IfOk result IsWithin }
{
    let Some(command) = words.first() else {
        return Err(RequestFault::Usage);
    };
    match task_named(command) {
        Some(task) => asked_by(alloc, task, words),
        None => Err(RequestFault::Usage),
    }
}
