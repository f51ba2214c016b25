//! Requests from the values that `clap` found.
ghost use Rattle.std.specs.Prelude.{◌≡◌, ◌≤◌, codes, IfOk, IfSome};
ghost use Rattle.clap.specs.Words.{first_of, found_of, rows_of};
ghost use Rattle.taco_words.specs.Asked.{bounds_of as bounds_of_lem, budget_of as budget_of_lem, check_of as check_of_lem, job_of as job_of_lem, number_of as number_of_lem, plan_of as plan_of_lem, proof_of as proof_of_lem, replay_of as replay_of_lem, request_for as request_for_lem, sat_of as sat_of_lem, schedule_in, scope_of as scope_of_lem, stress_of as stress_of_lem};
ghost use Rattle.taco_unit.specs.Scopes.{IsPlan, IsScope, most_conflicts};
ghost use Rattle.taco_words.specs.Limits.{IsJob, IsSchedule, IsWithin};
ghost use Rattle.taco_words.specs.Parsing.{Gives};

use crate::commands::Task;
use crate::list::list_below;
use crate::number::number_up_to;
use crate::parse::value;
use crate::request::{Job, Request, RequestFault, Schedule, Text};
use clap::ArgMatches;
use std::alloc::Global;
use taco_unit::{Name, Plan, Scope};

/// The greatest budget of a search.
const MOST_CONFLICTS: u64 = 1_000_000_000;

/// The greatest number of a unit that is made.
const MOST_STRESS: u64 = 65_536;

/// The number of an option, by its range and its usual value.
fn number_of(
    matches: &ArgMatches<'_>,
    option: &str,
    least: u64,
    most: u64,
    usual: u64,
) -> Option<u64>
    requires low { least ≤ usual }
    requires high { usual ≤ most }
    ensures number { result ≡ number_of_lem option.now least most usual (rows_of (found_of matches.now)) }
    ensures low { IfSome result (λ n. least ≤ n) }
    ensures high { IfSome result (λ n. n ≤ most) }
{
    let Some(word) = value(matches, option) else {
        return Some(usual);
    };
    let number = number_up_to(word, most)?;
    if number < least { None } else { Some(number) }
}

/// The scope.
fn scope_of(matches: &ArgMatches<'_>) -> Option<Scope>
    ensures scope { result ≡ scope_of_lem (rows_of (found_of matches.now)) }
    ensures within { IfSome result IsScope }
{
    let objects = number_of(matches, "objects", 1, 12, 3)?;
    let ints = number_of(matches, "ints", 2, 16, 4)?;
    let loops = number_of(matches, "loops", 0, 12, 3)?;
    let calls = number_of(matches, "calls", 0, 4, 2)?;
    Some(Scope {
        objects: objects as u8,
        ints: ints as u8,
        loops: loops as u8,
        calls: calls as u8,
    })
}

/// The plan.
fn plan_of(matches: &ArgMatches<'_>) -> Option<Plan>
    ensures plan { result ≡ plan_of_lem (rows_of (found_of matches.now)) }
    ensures within { IfSome result IsPlan }
{
    let workers = number_of(matches, "workers", 1, 16, 1)?;
    let rounds = number_of(matches, "rounds", 1, 8, 1)?;
    let budget = number_of(matches, "tuple-conflicts", 0, MOST_CONFLICTS, 0)?;
    Some(Plan {
        workers: workers as u32,
        rounds: rounds as u8,
        budget,
    })
}

/// The budget of a search.
fn budget_of(matches: &ArgMatches<'_>) -> Result<u64, RequestFault>
    ensures budget { Gives (budget_of_lem (rows_of (found_of matches.now))) result }
    ensures within { IfOk result (λ n. n ≤ most_conflicts) }
{
    match number_of(matches, "conflicts", 0, MOST_CONFLICTS, 0) {
        Some(budget) => Ok(budget),
        None => Err(RequestFault::Usage),
    }
}

/// A word or the value of an option.
fn text_of(alloc: Global, matches: &ArgMatches<'_>, id: &str) -> Result<Text, RequestFault>
    ensures { Gives (first_of id.now (rows_of (found_of matches.now))) result }
{
    match value(matches, id) {
        Some(word) => Ok(Text::new(alloc, word)?),
        None => Err(RequestFault::Usage),
    }
}

/// The name that an option gives.
fn name_of(alloc: Global, matches: &ArgMatches<'_>, id: &str) -> Result<Name, RequestFault>
    ensures { Gives (first_of id.now (rows_of (found_of matches.now))) result }
{
    match value(matches, id) {
        Some(word) => Ok(Name::new(alloc, word.as_bytes())?),
        None => Err(RequestFault::Usage),
    }
}

/// The method, and how it is looked at.
fn job_of(alloc: Global, matches: &ArgMatches<'_>) -> Result<Job, RequestFault>
    ensures job { Gives (job_of_lem (rows_of (found_of matches.now))) result }
    ensures within { IfOk result IsJob }
{
    let file = text_of(alloc, matches, "file")?;
    let class = name_of(alloc, matches, "class")?;
    let method = name_of(alloc, matches, "method")?;
    let Some(scope) = scope_of(matches) else {
        return Err(RequestFault::Usage);
    };
    let Some(plan) = plan_of(matches) else {
        return Err(RequestFault::Usage);
    };
    Ok(Job {
        file,
        class,
        method,
        scope,
        plan,
    })
}

/// The schedule of so many workers, if there is one.
fn schedule_of(
    alloc: Global,
    matches: &ArgMatches<'_>,
    workers: u32,
) -> Result<Option<Schedule>, RequestFault>
    requires { 1 ≤ workers }
    ensures schedule { Gives (schedule_in workers (first_of (codes "schedule") (rows_of (found_of matches.now)))) result }
    ensures within { IfOk result (λ s. IfSome s (IsSchedule workers)) }
{
    match value(matches, "schedule") {
        Some(word) => Ok(Some(list_below(alloc, word, workers)?)),
        None => Ok(None),
    }
}

/// What `check` asks for.
fn check_of(alloc: Global, matches: &ArgMatches<'_>) -> Result<Request, RequestFault>
    ensures asked { Gives (check_of_lem (rows_of (found_of matches.now))) result }
    ensures within { IfOk result IsWithin }
{
    let job = job_of(alloc, matches)?;
    let budget = budget_of(matches)?;
    Ok(Request::Check(job, budget))
}

/// What `bounds` asks for.
fn bounds_of(alloc: Global, matches: &ArgMatches<'_>) -> Result<Request, RequestFault>
    ensures asked { Gives (bounds_of_lem (rows_of (found_of matches.now))) result }
    ensures within { IfOk result IsWithin }
{
    let job = job_of(alloc, matches)?;
    let schedule = schedule_of(alloc, matches, job.plan.workers)?;
    Ok(Request::Bounds(job, schedule))
}

/// What `replay` asks for.
fn replay_of(alloc: Global, matches: &ArgMatches<'_>) -> Result<Request, RequestFault>
    ensures asked { Gives (replay_of_lem (rows_of (found_of matches.now))) result }
    ensures within { IfOk result IsWithin }
{
    let job = job_of(alloc, matches)?;
    let state = text_of(alloc, matches, "state")?;
    Ok(Request::Replay(job, state))
}

/// What `sat` asks for.
fn sat_of(alloc: Global, matches: &ArgMatches<'_>) -> Result<Request, RequestFault>
    ensures asked { Gives (sat_of_lem (rows_of (found_of matches.now))) result }
    ensures within { IfOk result IsWithin }
{
    let cnf = text_of(alloc, matches, "cnf")?;
    let budget = budget_of(matches)?;
    Ok(Request::Sat(cnf, budget))
}

/// What `proof` asks for.
fn proof_of(alloc: Global, matches: &ArgMatches<'_>) -> Result<Request, RequestFault>
    ensures asked { Gives (proof_of_lem (rows_of (found_of matches.now))) result }
    ensures within { IfOk result IsWithin }
{
    let cnf = text_of(alloc, matches, "cnf")?;
    let log = text_of(alloc, matches, "log")?;
    Ok(Request::Proof(cnf, log))
}

/// What `stress` asks for.
fn stress_of(matches: &ArgMatches<'_>) -> Result<Request, RequestFault>
    ensures asked { Gives (stress_of_lem (rows_of (found_of matches.now))) result }
    ensures within { IfOk result IsWithin }
{
    let Some(word) = value(matches, "number") else {
        return Err(RequestFault::Usage);
    };
    match number_up_to(word, MOST_STRESS) {
        Some(number) => Ok(Request::Stress(number as u32)),
        None => Err(RequestFault::Usage),
    }
}

/// What a command's values ask for.
pub(crate) fn request_for(
    alloc: Global,
    task: Task,
    matches: &ArgMatches<'_>,
) -> Result<Request, RequestFault>
    ensures asked { Gives (request_for_lem task (rows_of (found_of matches.now))) result }
    ensures within { IfOk result IsWithin }
{
    match task {
        Task::Check => check_of(alloc, matches),
        Task::Bounds => bounds_of(alloc, matches),
        Task::Replay => replay_of(alloc, matches),
        Task::Sat => sat_of(alloc, matches),
        Task::Proof => proof_of(alloc, matches),
        Task::Stress => stress_of(matches),
    }
}
