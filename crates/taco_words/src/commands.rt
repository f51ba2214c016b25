//! The commands as `clap` parses them.
ghost use Rattle.std.specs.Prelude.{◌≡◌, false, IfOk};
ghost use Rattle.clap.specs.Words.{app_of, rule_of, with_rule};
ghost use Rattle.taco_words.specs.Commands.{app_for, bounds_app, check_app, needed_rule, option_rule, proof_app, replay_app, sat_app, stress_app, task_named as task_named_lem, with_method as with_method_lem, with_plan as with_plan_lem, with_scope as with_scope_lem, word_rule};

use clap::{Arg, ArgAction, Command};
use std::alloc::{AllocError, Global};

/// What a command does.
#[derive(Clone, Copy, Debug, PartialEq, Eq)]
pub enum Task {
    Check,
    Bounds,
    Replay,
    Sat,
    Proof,
    Stress,
}

/// The command of this name.
pub(crate) fn task_named(word: &str) -> Option<Task>
    ensures { result ≡ task_named_lem word.now }
{
    match word {
        "check" => Some(Task::Check),
        "bounds" => Some(Task::Bounds),
        "replay" => Some(Task::Replay),
        "sat" => Some(Task::Sat),
        "proof" => Some(Task::Proof),
        "stress" => Some(Task::Stress),
        _ => None,
    }
}

/// A word that stands by its place.
fn word_arg<'a>(alloc: Global, id: &'a str) -> Arg<'a>
    ensures rule { rule_of result ≡ word_rule id.entry.now }
    ensures here { result.global ≡ false }
{
    Arg::new(alloc, id).required(true).action(ArgAction::Set)
}

/// An option that has to be there.
fn needed_arg<'a>(alloc: Global, id: &'a str) -> Arg<'a>
    ensures rule { rule_of result ≡ needed_rule id.entry.now }
    ensures here { result.global ≡ false }
{
    Arg::new(alloc, id)
        .long(id)
        .required(true)
        .action(ArgAction::Set)
}

/// An option that may be left out.
fn option_arg<'a>(alloc: Global, id: &'a str) -> Arg<'a>
    ensures rule { rule_of result ≡ option_rule id.entry.now }
    ensures here { result.global ≡ false }
{
    Arg::new(alloc, id).long(id).action(ArgAction::Set)
}

/// A command with one argument more.
fn with<'a>(command: Command<'a>, arg: Arg<'a>) -> Result<Command<'a>, AllocError>
    requires { arg.global ≡ false }
    ensures { IfOk result (λ c. app_of c ≡ with_rule (app_of command.entry) (rule_of arg.entry)) }
{
    command.arg(arg)
}

/// `--class C --method M`.
fn with_method<'a>(alloc: Global, command: Command<'a>) -> Result<Command<'a>, AllocError>
    ensures { IfOk result (λ c. app_of c ≡ with_method_lem (app_of command.entry)) }
{
    let command = with(command, needed_arg(alloc, "class"))?;
    with(command, needed_arg(alloc, "method"))
}

/// The options of the scope.
fn with_scope<'a>(alloc: Global, command: Command<'a>) -> Result<Command<'a>, AllocError>
    ensures { IfOk result (λ c. app_of c ≡ with_scope_lem (app_of command.entry)) }
{
    let command = with(command, option_arg(alloc, "objects"))?;
    let command = with(command, option_arg(alloc, "ints"))?;
    let command = with(command, option_arg(alloc, "loops"))?;
    with(command, option_arg(alloc, "calls"))
}

/// The options of the plan.
fn with_plan<'a>(alloc: Global, command: Command<'a>) -> Result<Command<'a>, AllocError>
    ensures { IfOk result (λ c. app_of c ≡ with_plan_lem (app_of command.entry)) }
{
    let command = with(command, option_arg(alloc, "workers"))?;
    let command = with(command, option_arg(alloc, "rounds"))?;
    with(command, option_arg(alloc, "tuple-conflicts"))
}

/// `check FILE --class C --method M [scope] [plan] [--conflicts B]`.
#[tactic(auto, unfolding(crate::specs::Commands::check_app))]
fn check_command<'a>(alloc: Global) -> Result<Command<'a>, AllocError>
    ensures { IfOk result (λ c. app_of c ≡ check_app) }
{
    let command = with(Command::new(alloc, "check"), word_arg(alloc, "file"))?;
    let command = with_method(alloc, command)?;
    let command = with_scope(alloc, command)?;
    let command = with_plan(alloc, command)?;
    with(command, option_arg(alloc, "conflicts"))
}

/// `bounds FILE --class C --method M [scope] [plan] [--schedule LIST]`.
#[tactic(auto, unfolding(crate::specs::Commands::bounds_app))]
fn bounds_command<'a>(alloc: Global) -> Result<Command<'a>, AllocError>
    ensures { IfOk result (λ c. app_of c ≡ bounds_app) }
{
    let command = with(Command::new(alloc, "bounds"), word_arg(alloc, "file"))?;
    let command = with_method(alloc, command)?;
    let command = with_scope(alloc, command)?;
    let command = with_plan(alloc, command)?;
    with(command, option_arg(alloc, "schedule"))
}

/// `replay FILE STATE --class C --method M [scope]`.
#[tactic(auto, unfolding(crate::specs::Commands::replay_app))]
fn replay_command<'a>(alloc: Global) -> Result<Command<'a>, AllocError>
    ensures { IfOk result (λ c. app_of c ≡ replay_app) }
{
    let command = with(Command::new(alloc, "replay"), word_arg(alloc, "file"))?;
    let command = with(command, word_arg(alloc, "state"))?;
    let command = with_method(alloc, command)?;
    with_scope(alloc, command)
}

/// `sat CNF [--conflicts B]`.
#[tactic(auto, unfolding(crate::specs::Commands::sat_app))]
fn sat_command<'a>(alloc: Global) -> Result<Command<'a>, AllocError>
    ensures { IfOk result (λ c. app_of c ≡ sat_app) }
{
    let command = with(Command::new(alloc, "sat"), word_arg(alloc, "cnf"))?;
    with(command, option_arg(alloc, "conflicts"))
}

/// `proof CNF LOG`.
#[tactic(auto, unfolding(crate::specs::Commands::proof_app))]
fn proof_command<'a>(alloc: Global) -> Result<Command<'a>, AllocError>
    ensures { IfOk result (λ c. app_of c ≡ proof_app) }
{
    let command = with(Command::new(alloc, "proof"), word_arg(alloc, "cnf"))?;
    with(command, word_arg(alloc, "log"))
}

/// `stress --number N`.
#[tactic(auto, unfolding(crate::specs::Commands::stress_app))]
fn stress_command<'a>(alloc: Global) -> Result<Command<'a>, AllocError>
    ensures { IfOk result (λ c. app_of c ≡ stress_app) }
{
    with(Command::new(alloc, "stress"), needed_arg(alloc, "number"))
}

/// A command, as `clap` parses it.
pub(crate) fn command_for<'a>(alloc: Global, task: Task) -> Result<Command<'a>, AllocError>
    ensures { IfOk result (λ c. app_of c ≡ app_for task) }
{
    match task {
        Task::Check => check_command(alloc),
        Task::Bounds => bounds_command(alloc),
        Task::Replay => replay_command(alloc),
        Task::Sat => sat_command(alloc),
        Task::Proof => proof_command(alloc),
        Task::Stress => stress_command(alloc),
    }
}
