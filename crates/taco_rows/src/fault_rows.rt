use crate::calls::{answer, shelf};
use crate::proof_rows::{ALL_FOUR, PROOF, REFUTATION};
use crate::replay_rows::{GO, UP, UP_WORDS};
use crate::sat_rows::{CHAIN, CHAIN_VALUES, SAT};
use std::test::Fail;
use taco_io::MemSink;
use taco_run::Status;

/// The words, the files' contents, how many files are read, and what is printed where nothing fails.
type Read<'a> = (&'a str, &'a str, &'a str, u64, &'a str);

const HOLDS: &str =
    "HOLDS\nscope objects 3 ints 4 loops 3 calls 2\ntuples 0 cleared 0 kept 0 open 0\n";

const ROWS: [Read<'static>; 4] = [
    (
        "check F --class B --method id",
        "class B {\n  //@ ensures \\result == a;\n  static boolean id(boolean a) { return a; }\n}\n",
        "",
        1,
        HOLDS,
    ),
    (
        UP_WORDS,
        UP,
        GO,
        2,
        "judged breaks ensures 1\nresult 3\nobjects 0\n",
    ),
    (PROOF, ALL_FOUR, REFUTATION, 2, "refuted 2\n"),
    (SAT, CHAIN, "", 1, CHAIN_VALUES),
];

/// Each file is opened, gives seven bytes with each pull, and then its end. Each of these calls fails
/// in turn, and then nothing is written.
#[test]
fn every_read_that_fails_ends_the_call(rt: HostRuntime) -> Result<(), Fail> {
    let alloc = rt.alloc();
    for (line, first, second, count, _) in &ROWS {
        let pulls = (first.len().div_ceil(7) + second.len().div_ceil(7)) as u64;
        for call in 0..pulls + 2 * *count {
            let mut files = shelf(alloc, first.as_bytes(), second.as_bytes(), 7, &[call])?;
            let mut sink = MemSink::new(alloc, 1000, 9, Vec::new(alloc))?;
            let ended = answer(alloc, line, &mut files, &mut sink)?;
            assert_eq!(rt; ended.status, Status::ReadFault, "{line}: {call}");
            assert!(rt; ended.proof.is_none());
            assert_eq!(rt; sink.bytes(), b"".as_slice());
        }
    }
    Ok(())
}

/// Each push fails in turn, and then a front of the output was written. The evidence of a search is
/// there.
#[test]
fn every_write_that_fails_ends_the_call(rt: HostRuntime) -> Result<(), Fail> {
    let alloc = rt.alloc();
    for (line, first, second, _, printed) in &ROWS {
        for push in 0..printed.len() {
            let mut failing = Vec::new(alloc);
            failing.push(push as u64)?;
            let mut files = shelf(alloc, first.as_bytes(), second.as_bytes(), 99, &[])?;
            let mut sink = MemSink::new(alloc, 1000, 1, failing)?;
            let ended = answer(alloc, line, &mut files, &mut sink)?;
            assert_eq!(rt; ended.status, Status::WriteFault, "{line}: {push}");
            assert_eq!(rt; ended.proof.is_some(), line.starts_with("sat"));
            assert_eq!(rt; sink.bytes(), &printed.as_bytes()[..push]);
        }
    }
    Ok(())
}

/// A read is not begun behind the byte that shows that a text is too long.
#[test]
fn no_read_follows_the_one_that_is_too_many(rt: HostRuntime) -> Result<(), Fail> {
    let alloc = rt.alloc();
    let mut java = Vec::new(alloc);
    java.resize(262_150, b' ')?;
    // The file is opened, and 65 pulls of 4,096 bytes at most take 262,145 bytes.
    for (failing, status) in [(65, Status::ReadFault), (66, Status::TooLong { slot: 0 })] {
        let mut files = shelf(alloc, &java, b"", 4096, &[failing])?;
        let mut sink = MemSink::new(alloc, 100, 9, Vec::new(alloc))?;
        let line = "check F --class B --method id";
        assert_eq!(rt; answer(alloc, line, &mut files, &mut sink)?.status, status);
    }
    Ok(())
}
