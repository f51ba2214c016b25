//! The program: `taco check FILE --class C --method M` prints whether the method keeps its contract,
//! `taco replay FILE STATE --class C --method M` how the run from one start is judged,
//! `taco proof CNF LOG` whether a log follows from a formula, and `taco sat CNF` values that satisfy a
//! formula or a log that refutes it. It ends with the status of the answer.
#![tactic(auto)]

ghost use Rattle.std.specs.Prelude.{◌≡◌, IfOk, map, string_bytes};
ghost use Rattle.taco.specs.Ends.{Ends};
ghost use Rattle.taco_words.specs.Asked.{asked};

use no_memory::NoMemory;
use std::alloc::Global;
use std::process::ExitCode;
use std::rt::Env;
use std::{env, io};
use taco_io::{Files, RealFiles, RealSink, Sink};
use taco_run::{Status, run};

/// The status where the system gives no words for want of memory, and where it gives none for
/// another cause.
const NO_MEMORY: u8 = 8;

const NO_WORDS: u8 = 9;

/// The status that such an error means.
fn status_of(error: &io::Error) -> u8 {
    match error.kind() {
        io::ErrorKind::OutOfMemory => NO_MEMORY,
        _ => NO_WORDS,
    }
}

/// The words after the program's name, or the status that says why there are none.
fn words<R: Env + AllocGlobal>(alloc: Global, system: &R) -> Result<Vec<String>, u8> {
    let args = match env::args(system) {
        Ok(args) => args,
        Err(error) => return Err(status_of(&error)),
    };
    let mut words = Vec::new(alloc);
    for word in args.skip(1) {
        if words.push(word).is_err() {
            return Err(NO_MEMORY);
        }
    }
    Ok(words)
}

/// The same words, lent.
fn lent<'a>(alloc: Global, words: &'a [String]) -> Result<Vec<&'a str>, NoMemory>
    ensures { IfOk result (λ all. map (λ w. w.now) all.items ≡ map string_bytes words.now) }
{
    let mut all = Vec::new(alloc);
    for word in words {
        all.push(word.as_str())?;
    }
    Ok(all)
}

/// Does what the words ask for, and answers the code with which the program ends.
fn serve<F: Files, K: Sink>(alloc: Global, words: &[String], files: &mut F, sink: &mut K) -> u8
    ensures { Ends (asked (map string_bytes words.now)) (F.shelf files.old) (F.shelf files.new) (K.taken sink.old) (K.taken sink.new) result }
{
    match lent(alloc, words) {
        Ok(words) => run(alloc, words.as_slice(), files, sink).status.code(),
        Err(NoMemory) => Status::NoMemory.code(),
    }
}

/// Serves the words after the program's name, with the system's files and standard output.
fn status(rt: &HostRuntime) -> Result<u8, u8> {
    let alloc = rt.alloc();
    let words = words(alloc, rt)?;
    let mut files = RealFiles::new(alloc, rt);
    let mut sink = RealSink::new(io::writer(rt));
    Ok(serve(alloc, words.as_slice(), &mut files, &mut sink))
}

fn main(rt: HostRuntime) -> ExitCode {
    match status(&rt) {
        Ok(code) | Err(code) => ExitCode::from(code),
    }
}
