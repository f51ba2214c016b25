ghost use Rattle.std.specs.Prelude.{◌≡◌, map, None, Some};
ghost use Rattle.command_files.specs.Outcomes.{IsRefusing};
ghost use Rattle.taco_report.specs.declared.status.Status.TheVariants as status;
ghost use Rattle.taco_run.specs.Headline.{IsWritten, Runs};
ghost use Rattle.taco_run.specs.Replies.{IsDone};
ghost use Rattle.taco_run.specs.Served.{served, served_plainly};
ghost use Rattle.taco_words.specs.Asked.{asked};
ghost use Rattle.taco_words.specs.Limits.{IsWithin};

use crate::answer::Answer;
use check_command::check_method;
use command_files::{Outcome, or_no_memory, refusal, silent};
use evidence::Evidence;
use formula_commands::{Searched, check_log, search_formula};
use replay_command::replay_start;
use std::alloc::Global;
use taco_io::{Files, Sink, write_all};
use taco_report::Status;
use taco_words::{Request, RequestFault, request_of};

/// What a request comes to, with the evidence of its verdict.
#[derive(Drop)]
pub struct Reply {
    pub outcome: Outcome,
    pub proof: Option<Evidence>,
}

/// A reply without evidence.
fn plain(outcome: Outcome) -> Reply
    ensures { result ≡ record { outcome = outcome; proof = None } }
{
    Reply {
        outcome,
        proof: None,
    }
}

/// The reply of a search.
fn with_evidence(searched: Searched) -> Reply
    ensures { result ≡ record { outcome = searched.outcome; proof = searched.evidence } }
{
    let Searched { outcome, evidence } = searched;
    Reply {
        outcome,
        proof: evidence,
    }
}

/// A refusal of words that are no request.
fn usage(alloc: Global) -> Outcome
    ensures { IsRefusing status.Usage result }
{
    or_no_memory(alloc, refusal(alloc, Status::Usage))
}

/// Does a request of those that `run_plain` serves.
fn plain_answer<F: Files>(alloc: Global, request: &Request, files: &mut F) -> Reply
    requires { IsWithin request.now }
    ensures { IsDone (served_plainly (Some request.now)) result (F.shelf files.old) (F.shelf files.new) }
{
    match request {
        Request::Proof(cnf, log) => plain(check_log(alloc, files, cnf, log)),
        Request::Sat(cnf, budget) => with_evidence(search_formula(alloc, files, cnf, *budget)),
        Request::Replay(job, state) => plain(replay_start(alloc, files, job, state)),
        Request::Check(_, _) | Request::Bounds(_, _) | Request::Stress(_) => plain(usage(alloc)),
    }
}

/// Does a request of those that `run` serves.
fn answer<F: Files>(alloc: Global, request: &Request, files: &mut F) -> Reply
    requires { IsWithin request.now }
    ensures { IsDone (served (Some request.now)) result (F.shelf files.old) (F.shelf files.new) }
{
    match request {
        Request::Check(job, _) => plain(check_method(alloc, files, job)),
        _ => plain_answer(alloc, request, files),
    }
}

/// Does what the words ask for.
fn answer_of<F: Files>(alloc: Global, words: &[&str], files: &mut F) -> Reply
    ensures { IsDone (served (asked (map (λ w. w.now) words.now))) result (F.shelf files.old) (F.shelf files.new) }
{
    match request_of(alloc, words) {
        Ok(request) => answer(alloc, &request, files),
        Err(RequestFault::Usage) => plain(usage(alloc)),
        Err(RequestFault::NoMemory) => plain(silent(alloc, Status::NoMemory)),
    }
}

/// Does what the words ask for, if `run_plain` serves it.
fn plain_answer_of<F: Files>(alloc: Global, words: &[&str], files: &mut F) -> Reply
    ensures { IsDone (served_plainly (asked (map (λ w. w.now) words.now))) result (F.shelf files.old) (F.shelf files.new) }
{
    match request_of(alloc, words) {
        Ok(request) => plain_answer(alloc, &request, files),
        Err(RequestFault::Usage) => plain(usage(alloc)),
        Err(RequestFault::NoMemory) => plain(silent(alloc, Status::NoMemory)),
    }
}

/// Writes an output, and answers how the call ends.
fn finish<K: Sink>(sink: &mut K, outcome: &Outcome) -> Status
    ensures { IsWritten outcome.now.status outcome.now.output.items (K.taken sink.old) (K.taken sink.new) result }
{
    match write_all(sink, outcome.output.as_slice()) {
        Ok(()) => outcome.status,
        Err(_) => Status::WriteFault,
    }
}

/// Does what the words of a command line ask for (`request_of` has the commands and their options).
/// The whole output is made before the first byte is pushed.
///
/// `check FILE --class C --method M [scope] [plan] [--conflicts B]` prints whether the method keeps
/// its contract within the scope that was asked for; plan and B change nothing so far. What
/// `run_plain` serves is done as there. `bounds` and `stress`, which are to come, are refused as
/// every other list of words is.
pub fn run<F: Files, K: Sink>(alloc: Global, words: &[&str], files: &mut F, sink: &mut K) -> Answer
    ensures { Runs (served (asked (map (λ w. w.now) words.now))) result (F.shelf files.old) (F.shelf files.new) (K.taken sink.old) (K.taken sink.new) }
{
    let Reply { outcome, proof } = answer_of(alloc, words, files);
    let status = finish(sink, &outcome);
    Answer { status, proof }
}

/// Does what the words of a command line ask for, but for checks. It waits for nobody, and the whole
/// output is made before the first byte is pushed. Every other list of words is refused with `usage`.
///
/// `replay FILE STATE --class C --method M [scope]` runs the method on the start that STATE says, and
/// prints the judgement: `judged meets`, `judged breaks PART` with Broken, `judged notasked` where the
/// start does not meet the precondition, and `judged outside` where a scope is left. After the first
/// two it prints how the run ended and the heap that it left. FILE is read through slot 0, and STATE
/// through slot 1 where FILE holds the method; each has at most 262,144 bytes. Refusals in their
/// order: a read fault or `toolong` of FILE, `source ..`, `nomethod`, a read fault or `toolong` of
/// STATE, and `badstate AT` with the place of the first line that is not right, in bytes. The cost is
/// the length of the texts, the steps of the run and the evaluation of the clauses.
///
/// `proof CNF LOG` checks the log in LOG over the formula in CNF. It prints `refuted N` where each of
/// the N lines follows from the formula's clauses and the lines before it and the last one is empty,
/// so that the formula has no solution; `valid N` where they follow and it is not; both are Done. It
/// prints `badline N` with Broken where line N, counted from 1, is the first that does not follow.
///
/// `sat CNF [--conflicts B]` searches for values that satisfy the formula in CNF. Done comes with
/// `s SATISFIABLE` and the line of the values, or with `s UNSATISFIABLE` and the text of a log that
/// refutes the formula. `s UNKNOWN` comes with Unknown where B lines were learnt without a verdict;
/// where B is 0 or not given it never comes. With these three the answer has its evidence. A search
/// always ends, but its time may grow exponentially with the number of variables.
///
/// CNF is a DIMACS CNF text, read through slot 0, and LOG is read through slot 1 where CNF holds a
/// formula; each has at most 4,194,304 bytes. Refusals in their order, for CNF and then for LOG: a
/// read fault, `toolong`, and `badtext SLOT AT` with the place of the first fault in bytes. The cost
/// of a check is the length of the texts and of the hinted clauses, each as often as it is named.
pub fn run_plain<F: Files, K: Sink>(
    alloc: Global,
    words: &[&str],
    files: &mut F,
    sink: &mut K,
) -> Answer
    ensures { Runs (served_plainly (asked (map (λ w. w.now) words.now))) result (F.shelf files.old) (F.shelf files.new) (K.taken sink.old) (K.taken sink.new) }
{
    let Reply { outcome, proof } = plain_answer_of(alloc, words, files);
    let status = finish(sink, &outcome);
    Answer { status, proof }
}
