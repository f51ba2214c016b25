ghost use Rattle.std.specs.Prelude.{◌≡◌, ℕ, ◌+◌, ◌/◌, ◌^◌, ◌<◌, ◌≤◌, ◌↔◌, List, [], ◌∷◌, ◌++◌, All, length, map, IsTrue, IfOk, IfSome, IfNone, IfErr, MatchOption, decimal};
ghost use Rattle.std.specs.List.Sorted.{IsStrictlyIncreasing};
ghost use Rattle.derivation.specs.LogText.{AreHints, BlamesLine, IsClause, IsLine, IsLogText, line_text, line_words};
ghost use Rattle.derivation.specs.Reading.{IsReadAs};
ghost use Rattle.derivation.specs.Step.{Step};
ghost use Rattle.derivation.specs.Texts.{literal_text};

use crate::cut::cut_at;
use crate::entry::{Entry, entry_of};
use crate::fault::TextFault;
use crate::fields::Fields;
use crate::line::Line;
use crate::log::Log;
use crate::number::number_of;
use cnf_core::Lit;
use no_memory::NoMemory;
use smallvec::SmallVec;
use std::alloc::Global;

/// The literals up to the word `0`, which is taken off too.
fn clause_of(
    alloc: Global,
    words: &mut Fields<'_>,
    vars: u32,
) -> Result<Option<SmallVec<Lit, 8>>, NoMemory>
    requires { vars < 2 ^ 31 }
    ensures found { IfOk result (λ found. IfSome found (λ clause. IsClause vars clause.items × (words.old ≡ map literal_text (clause.items ++ 0 ∷ []) ++ words.new))) }
    ensures none { IfOk result (λ found. IfNone found ((clause : List ℕ) (tail : List (List ℕ)) → IsClause vars clause → words.old ≡ map literal_text (clause ++ 0 ∷ []) ++ tail → ⊥)) }
{
    let mut clause = SmallVec::new(alloc);
    loop {
        let Some(word) = words.next() else {
            return Ok(None);
        };
        let Some(entry) = entry_of(word, vars) else {
            return Ok(None);
        };
        match entry {
            Entry::End => return Ok(Some(clause)),
            Entry::Literal(lit) => {
                if !comes_behind(clause.as_slice(), lit) {
                    return Ok(None);
                }
                clause.push(lit)?;
            }
        }
    }
}

/// Whether the literal's variable is above that of the last one.
fn comes_behind(clause: &[Lit], lit: Lit) -> bool
    requires { IsStrictlyIncreasing (map (λ x. x / 2) clause.now) }
    ensures { IsTrue result ↔ IsStrictlyIncreasing (map (λ x. x / 2) (clause.now ++ lit ∷ [])) }
{
    match clause.last() {
        Some(before) => before.var() < lit.var(),
        None => true,
    }
}

/// The hints up to the word `0`, which must be the last.
fn hints_of(alloc: Global, words: &mut Fields<'_>) -> Result<Option<SmallVec<u32, 8>>, NoMemory>
    ensures found { IfOk result (λ found. IfSome found (λ hints. AreHints hints.items × (words.old ≡ map decimal (hints.items ++ 0 ∷ [])))) }
    ensures none { IfOk result (λ found. IfNone found ((hints : List ℕ) → AreHints hints → words.old ≡ map decimal (hints ++ 0 ∷ []) → ⊥)) }
{
    let mut hints = SmallVec::new(alloc);
    loop {
        let Some(word) = words.next() else {
            return Ok(None);
        };
        let Some(number) = number_of(word) else {
            return Ok(None);
        };
        if number == 0 {
            let Some(_more) = words.next() else {
                return Ok(Some(hints));
            };
            return Ok(None);
        }
        hints.push(number)?;
    }
}

/// The line that these words are.
fn line_of(alloc: Global, words: &mut Fields<'_>, vars: u32) -> Result<Option<Line>, NoMemory>
    requires { vars < 2 ^ 31 }
    ensures found { IfOk result (λ found. IfSome found (λ line. IsLine vars line × (words.old ≡ line_words line))) }
    ensures none { IfOk result (λ found. IfNone found ((step : Step) → IsLine vars step → words.old ≡ line_words step → ⊥)) }
{
    let Some(clause) = clause_of(alloc, words, vars)? else {
        return Ok(None);
    };
    let Some(hints) = hints_of(alloc, words)? else {
        return Ok(None);
    };
    Ok(Some(Line { clause, hints }))
}

/// The line at the front of a text, and what stands behind it.
fn first_line(alloc: Global, text: &[u8], vars: u32) -> Result<Option<(Line, &[u8])>, NoMemory>
    requires { vars < 2 ^ 31 }
    ensures found { IfOk result (λ found. IfSome found (λ x. IsLine vars x.0 × (text.now ≡ line_text x.0 ++ x.1.now))) }
    ensures none { IfOk result (λ found. IfNone found ((step : Step) (more : List ℕ) → IsLine vars step → text.now ≡ line_text step ++ more → ⊥)) }
{
    let Some((front, behind)) = cut_at(text, b'\n') else {
        return Ok(None);
    };
    let mut words = Fields::new(front);
    let Some(line) = line_of(alloc, &mut words, vars)? else {
        return Ok(None);
    };
    Ok(Some((line, behind)))
}

/// Reads a log: each line holds literals with rising variables, `0`, the numbers of its hints and
/// `0`, parted by one space, and a line feed. `vars` is the greatest variable that is allowed. The
/// cost is the text's length. `BadText` has the place of the first line that is not so, counted in
/// bytes from 0.
pub fn read_log(alloc: Global, text: &[u8], vars: u32) -> Result<Log, TextFault>
    requires few { vars < 2 ^ 31 }
    requires short { length text.now ≤ 67108864 }
    ensures read { IfOk result (λ log. IsLogText vars text.now log) }
    ensures fault { IfErr result (BlamesLine vars text.now) }

    // A text that is that of a log is read, and as this log.
    ensures again { (steps : List Step) → IsLogText vars text.now steps → IsReadAs result steps }
{
    lines_of(alloc, text, vars)
}

/// The lines of a text, up to the first that is wrong.
fn lines_of(alloc: Global, text: &[u8], vars: u32) -> Result<Log, TextFault>
    requires few { vars < 2 ^ 31 }
    requires short { length text.now ≤ 67108864 }
    ensures read { IfOk result (λ log. IsLogText vars text.now log) }
    ensures fault { IfErr result (BlamesLine vars text.now) }
{
    let mut log = Log::new(alloc);
    let mut rest = text;
    while !rest.is_empty() {
        let Some((line, behind)) = first_line(alloc, rest, vars)? else {
            return Err(TextFault::BadText {
                at: (text.len() - rest.len()) as u32,
            });
        };
        log.push(line)?;
        rest = behind;
    }
    Ok(log)
}
