ghost use Rattle.std.specs.Prelude.{◌≤◌, length};

use crate::{
    CheckFault, Checked, Line, Log, TextFault, check, cnf_text, log_text, read_cnf, read_log,
};
use cnf_core::{Cnf, Lit};
use smallvec::SmallVec;
use std::alloc::Global;
use std::test::Fail;
use std::thread::join;

/// All four clauses over two variables.
const ALL_FOUR: &[u8] = b"p cnf 2 4\n1 2 0\n-1 2 0\n1 -2 0\n-1 -2 0\n";

/// What a log over them is judged.
fn judged(alloc: Global, log: &[u8]) -> Result<Result<Checked, CheckFault>, TextFault>
    requires { length log.now ≤ 1000 }
{
    let cnf = read_cnf(alloc, ALL_FOUR)?;
    let log = read_log(alloc, log, 2)?;
    Ok(check(&cnf, &log))
}

fn accepted(lines: u32, refuted: bool) -> Result<Result<Checked, CheckFault>, TextFault> {
    Ok(Ok(Checked { lines, refuted }))
}

fn bad_line(n: u32) -> Result<Result<Checked, CheckFault>, TextFault> {
    Ok(Err(CheckFault::BadLine { n }))
}

fn bad_text(at: u32) -> Result<Result<Checked, CheckFault>, TextFault> {
    Err(TextFault::BadText { at })
}

#[test]
fn logs_are_judged(rt: HostRuntime) {
    assert_eq!(rt;
        judged(rt.alloc(), b"2 0 1 2 0\n0 5 3 4 0\n"),
        accepted(2, true)
    );
    assert_eq!(rt; judged(rt.alloc(), b"2 0 1 2 0\n"), accepted(1, false));
    assert_eq!(rt; judged(rt.alloc(), b"-1 2 0 2 0\n"), accepted(1, false));
    assert_eq!(rt; judged(rt.alloc(), b""), accepted(0, false));
}

#[test]
fn a_line_that_does_not_follow_is_told(rt: HostRuntime) {
    assert_eq!(rt; judged(rt.alloc(), b"2 0 2 0\n0 5 3 4 0\n"), bad_line(1));
    assert_eq!(rt; judged(rt.alloc(), b"0 5 0\n"), bad_line(1));
    assert_eq!(rt; judged(rt.alloc(), b"2 0 1 2 3 0\n"), bad_line(1));
    assert_eq!(rt; judged(rt.alloc(), b"2 0 1 2 0\n0 6 3 4 0\n"), bad_line(2));
}

#[test]
fn the_place_of_a_wrong_line_is_told(rt: HostRuntime) {
    assert_eq!(rt; judged(rt.alloc(), b"2 0 1 2 0"), bad_text(0));
    assert_eq!(rt; judged(rt.alloc(), b"2 0 1 2 0\n0 5 3 4"), bad_text(10));
    assert_eq!(rt; judged(rt.alloc(), b"3 0 1 0\n"), bad_text(0));
    assert_eq!(rt; judged(rt.alloc(), b"2 0 1 2 0\n2 1 0 1 0\n"), bad_text(10));
    assert_eq!(rt; judged(rt.alloc(), b"2 0 1 2 0\n2  0 1 0\n"), bad_text(10));
    assert_eq!(rt; judged(rt.alloc(), b"2 0 01 0\n"), bad_text(0));
}

/// Where a text of a formula is wrong: None where it is not.
fn wrong_at(alloc: Global, text: &[u8]) -> Option<TextFault>
    requires { length text.now ≤ 1000 }
{
    read_cnf(alloc, text).err()
}

fn at(at: u32) -> Option<TextFault> {
    Some(TextFault::BadText { at })
}

#[test]
fn loose_texts_are_read(rt: HostRuntime) -> Result<(), Fail> {
    let text = b"c a\r\n\r\n \tp cnf\t2  2 \r\nc b\r\n1\t-2\r\nc c\r\n 0 2\r\n0\r\n% free 7 x";
    let cnf = read_cnf(rt.alloc(), text)?;
    let plain = read_cnf(rt.alloc(), b"p cnf 2 2\n1 -2 0\n2 0\n")?;
    assert_eq!(rt; cnf_text(rt.alloc(), &cnf)?, cnf_text(rt.alloc(), &plain)?);
    Ok(())
}

#[test]
fn the_place_of_a_wrong_word_is_told(rt: HostRuntime) {
    assert_eq!(rt; wrong_at(rt.alloc(), b"p cnf 1 2\n1 0\n"), at(14));
    assert_eq!(rt; wrong_at(rt.alloc(), b"p cnf 1 1\n1 0\n1 0\n"), at(14));
    assert_eq!(rt; wrong_at(rt.alloc(), b"p cnf 1 1\n1 2 0\n"), at(12));
    assert_eq!(rt; wrong_at(rt.alloc(), b"p cnf 1 1\n01 0\n"), at(10));
    assert_eq!(rt; wrong_at(rt.alloc(), b"p cnf 1 1\n-0 0\n"), at(10));
    assert_eq!(rt; wrong_at(rt.alloc(), b"p cnf 1 1\n1 c 0\n"), at(12));
}

#[test]
fn the_place_of_a_wrong_header_is_told(rt: HostRuntime) {
    assert_eq!(rt; wrong_at(rt.alloc(), b""), at(0));
    assert_eq!(rt;
        wrong_at(rt.alloc(), b"p cnf 1 1\np cnf 1 1\n1 0\n"),
        at(10)
    );
    assert_eq!(rt; wrong_at(rt.alloc(), b"p cnf 1 1 1 0\n"), at(10));
    assert_eq!(rt; wrong_at(rt.alloc(), b"p cnf 1\n1 1 0\n"), at(8));
    assert_eq!(rt; wrong_at(rt.alloc(), b"p cnf 1000001 0\n"), at(6));
    assert_eq!(rt; wrong_at(rt.alloc(), b"p cnf 0 0\n%"), None);
}

#[test]
fn what_is_written_is_read_again(rt: HostRuntime) -> Result<(), Fail> {
    let cnf = read_cnf(rt.alloc(), ALL_FOUR)?;
    assert_eq!(rt; cnf_text(rt.alloc(), &cnf)?.as_slice(), ALL_FOUR);
    let text = b"2 0 1 2 0\n0 5 3 4 0\n-1 2 0 0\n";
    let log = read_log(rt.alloc(), text, 2)?;
    assert_eq!(rt; log_text(rt.alloc(), &log)?.as_slice(), text.as_slice());
    Ok(())
}

#[test]
fn variables_beyond_the_formula_are_lawful(rt: HostRuntime) -> Result<(), Fail> {
    let mut cnf = Cnf::new(rt.alloc(), 1);
    cnf.push_clause(&[Lit::positive(1)])?;
    let mut log = Log::new(rt.alloc());
    log.push(Line {
        clause: SmallVec::from_slice(rt.alloc(), &[Lit::positive(1), Lit::negative(900)])?,
        hints: SmallVec::from_slice(rt.alloc(), &[1])?,
    })?;
    assert_eq!(rt;
        check(&cnf, &log)?,
        Checked {
            lines: 1,
            refuted: false
        }
    );
    Ok(())
}

/// The log once more, read from its text.
fn copied(alloc: Global, cnf: &Cnf, log: &Log) -> Result<Log, TextFault> {
    let text = log_text(alloc, log)?;
    if text.len() > 1000 {
        return Err(TextFault::BadText { at: 1000 });
    }
    read_log(alloc, text.as_slice(), cnf.vars())
}

#[test]
fn threads_share_a_log_and_hand_one_back(rt: HostRuntime) -> Result<(), Fail> {
    let alloc = rt.alloc();
    let cnf = read_cnf(alloc, ALL_FOUR)?;
    let log = read_log(alloc, b"2 0 1 2 0\n0 5 3 4 0\n", 2)?;
    let (other, checked) = join(&rt, || copied(alloc, &cnf, &log), || check(&cnf, &log));
    assert_eq!(rt; Ok(checked), accepted(2, true));
    assert_eq!(rt; Ok(check(&cnf, &other?)), accepted(2, true));
    Ok(())
}
