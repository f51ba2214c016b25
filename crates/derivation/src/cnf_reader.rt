ghost use Rattle.std.specs.Prelude.{◌≡◌, ℕ, ◌<◌, ◌≤◌, ◌==◌, ◌&&◌, ◌||◌, List, [], ◌∷◌, ◌++◌, All, length, codes, IsTrue, IfOk, IfErr, OnOk, decimal};
ghost use Rattle.std.specs.List.{list_all, list_any};
ghost use Rattle.cnf_core.specs.Clauses.{Clauses};
ghost use Rattle.cnf_core.specs.Literal.{IsOver};
ghost use Rattle.derivation.specs.CnfText.{BlamesCnf, BlamesWords, closes, AreOf, IsCnfText};
ghost use Rattle.derivation.specs.Entry.{entry_number, IsWithin, Puts};
ghost use Rattle.derivation.specs.Reading.{IsReadAs};
ghost use Rattle.derivation.specs.Runs.{is_blank, is_line_end, Run};
ghost use Rattle.derivation.specs.Slots.{IsBody, IsCount, IsHeader, IsNamed, IsNextEntry, Misses};
ghost use Rattle.derivation.specs.Texts.{literal_text};

use crate::comment::{ends_line, is_space_or_tab, without_comments};
use crate::entry::{Entry, entry_of};
use crate::fault::TextFault;
use crate::number::number_up_to;
use crate::words::{Word, Words};
use cnf_core::{Cnf, Lit};
use no_memory::NoMemory;
use std::alloc::Global;

/// The greatest number of variables, and of clauses, of a text.
const MOST: u32 = 1000000;

/// Takes off the word that must stand next: these bytes, on the line of the word before unless it is
/// the first.
fn take_named(words: &mut Words<'_>, bytes: &[u8], first: bool, end: u32) -> Result<(), TextFault>
    ensures found { IfOk result (λ _. (word : Run) × (words.old ≡ word ∷ words.new) × IsNamed bytes.now first word) }
    ensures fault { IfErr result (Misses (IsNamed bytes.now first) words.old end) }
{
    let Some(word) = words.next() else {
        return Err(TextFault::BadText { at: end });
    };
    if word.bytes != bytes || !(first || is_blank_gap(word.gap)) {
        return Err(TextFault::BadText { at: word.at as u32 });
    }
    Ok(())
}

/// Takes off a number of the header.
fn take_count(words: &mut Words<'_>, end: u32) -> Result<u32, TextFault>
    ensures found { IfOk result (λ n. (word : Run) × (words.old ≡ word ∷ words.new) × (word.bytes ≡ decimal n) × IsTrue (list_all is_blank word.gap)) }
    ensures small { IfOk result (λ n. n ≤ 1000000) }
    ensures fault { IfErr result (Misses IsCount words.old end) }
{
    let Some(word) = words.next() else {
        return Err(TextFault::BadText { at: end });
    };
    let Some(number) = number_up_to(word.bytes, MOST) else {
        return Err(TextFault::BadText { at: word.at as u32 });
    };
    if !is_blank_gap(word.gap) {
        return Err(TextFault::BadText { at: word.at as u32 });
    }
    Ok(number)
}

/// Takes off an entry of a clause, the first one from a line behind the header's.
fn take_entry(words: &mut Words<'_>, vars: u32, first: bool, end: u32) -> Result<Entry, TextFault>
    requires { vars < 2147483648 }
    ensures found { IfOk result (λ entry. (word : Run) × (words.old ≡ word ∷ words.new) × (word.bytes ≡ literal_text (entry_number entry)) × (IsTrue first → IsTrue (list_any is_line_end word.gap))) }
    ensures over { IfOk result (IsWithin vars) }
    ensures fault { IfErr result (Misses (IsNextEntry vars first) words.old end) }
{
    let Some(word) = words.next() else {
        return Err(TextFault::BadText { at: end });
    };
    let Some(entry) = entry_of(word.bytes, vars) else {
        return Err(TextFault::BadText { at: word.at as u32 });
    };
    if first && !has_line_end(word.gap) {
        return Err(TextFault::BadText { at: word.at as u32 });
    }
    Ok(entry)
}

fn is_blank_gap(gap: &[u8]) -> bool
    ensures { result ≡ list_all is_blank gap.now }
{
    for byte in gap {
        if !is_space_or_tab(*byte) {
            return false;
        }
    }
    true
}

fn has_line_end(gap: &[u8]) -> bool
    ensures { result ≡ list_any is_line_end gap.now }
{
    for byte in gap {
        if ends_line(*byte) {
            return true;
        }
    }
    false
}

/// What the header says.
#[derive(Clone, Copy)]
struct Header {
    vars: u32,
    clauses: u32,
}

/// Takes off the four words of the header.
fn header_of(words: &mut Words<'_>, end: u32) -> Result<Header, TextFault>
    ensures found { IfOk result (λ header. IsHeader header.vars header.clauses words.old words.new) }
    ensures fault { IfErr result (BlamesWords words.old end) }
{
    take_named(words, b"p", true, end)?;
    take_named(words, b"cnf", false, end)?;
    let vars = take_count(words, end)?;
    let clauses = take_count(words, end)?;
    Ok(Header { vars, clauses })
}

/// Adds the clauses that the words are, as many as the header says.
fn fill(
    cnf: &mut Cnf,
    alloc: Global,
    words: &mut Words<'_>,
    count: u32,
    end: u32,
) -> Result<(), TextFault>
    requires vars { cnf.old.vars ≤ 1000000 }
    requires none { cnf.old.clauses ≡ [] }
    ensures found { OnOk result (IsBody cnf.old.vars count words.old words.new cnf.new.clauses) }
    ensures same { OnOk result (cnf.new.vars ≡ cnf.old.vars) }
    ensures fault { IfErr result (λ fault. (whole : List Run) → IsHeader cnf.old.vars count whole words.old → BlamesWords whole end fault) }
{
    let mut pending = Vec::new(alloc);
    while cnf.clauses() < count {
        let first = is_at_start(cnf, pending.as_slice());
        let entry = take_entry(words, cnf.vars(), first, end)?;
        put(cnf, &mut pending, entry)?;
    }
    Ok(())
}

/// Adds a literal to the clause that is begun, or ends this clause.
fn put(cnf: &mut Cnf, pending: &mut Vec<Lit>, entry: Entry) -> Result<(), NoMemory>
    requires { All (IsOver cnf.old.vars) pending.old.items }
    ensures put { OnOk result (Puts entry cnf.old.clauses pending.old.items cnf.new.clauses pending.new.items) }
    ensures vars { OnOk result (cnf.new.vars ≡ cnf.old.vars) }
{
    match entry {
        Entry::End => {
            cnf.push_clause(pending.as_slice())?;
            pending.clear();
        }
        Entry::Literal(lit) => pending.push(lit)?,
    }
    Ok(())
}

/// Whether no entry is read yet.
fn is_at_start(cnf: &Cnf, pending: &[Lit]) -> bool
    ensures { result ≡ ((length cnf.now.clauses == 0) && (length pending.now == 0)) }
{
    cnf.clauses() == 0 && pending.is_empty()
}

/// Reads a formula in DIMACS CNF, as the SAT competitions use it: the line `p cnf V C`, and then
/// literals and zeros parted by white space, where each 0 ends a clause. Lines that begin with `c` are
/// skipped, and one that begins with `%` behind the last clause ends the reading. There are at most
/// 1,000,000 variables and as many clauses. The cost is the text's length. `BadText` has the place of
/// the first word that cannot stand there, counted in bytes from 0, or the text's length where
/// something is missing.
pub fn read_cnf(alloc: Global, text: &[u8]) -> Result<Cnf, TextFault>
    requires { length text.now ≤ 67108864 }
    ensures read { IfOk result (IsCnfText text.now) }
    ensures fault { IfErr result (BlamesCnf text.now) }

    // A text that is that of a formula is read, and as this formula.
    ensures again { (v : Clauses) → IsCnfText text.now v → IsReadAs result v }
{
    formula_of(alloc, text)
}

/// The formula of a text, or its first fault.
fn formula_of(alloc: Global, text: &[u8]) -> Result<Cnf, TextFault>
    requires { length text.now ≤ 67108864 }
    ensures read { IfOk result (IsCnfText text.now) }
    ensures fault { IfErr result (BlamesCnf text.now) }
{
    let plain = without_comments(alloc, text)?;
    let mut words = Words::new(plain.as_slice());
    let end = text.len() as u32;
    let header = header_of(&mut words, end)?;
    let mut cnf = Cnf::new(alloc, header.vars);
    fill(&mut cnf, alloc, &mut words, header.clauses, end)?;
    let Some(word) = words.next() else {
        return Ok(cnf);
    };
    if !is_closing(&word) {
        return Err(TextFault::BadText { at: word.at as u32 });
    }
    Ok(cnf)
}

/// Whether the word begins with `%` at the start of its line.
fn is_closing(word: &Word<'_>) -> bool
    ensures { result ≡ closes word.now }
{
    match (word.bytes.first(), word.gap.last()) {
        (Some(first), Some(last)) => *first == b'%' && ends_line(*last),
        _ => false,
    }
}
