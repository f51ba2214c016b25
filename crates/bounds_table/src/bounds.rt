ghost use Rattle.std.specs.Prelude.{◌≡◌, ℕ, ◌+◌, ◌*◌, ◌/◌, ◌^◌, ◌<◌, ◌≤◌, ◌↔◌, IsTrue, IfOk, length, slice_index, slice_set, take, drop};
ghost use Rattle.std.specs.Int.{bit_at};
ghost use Rattle.std.specs.Mem.Slots.{slots_items, slots_len, IsFull};
ghost use Rattle.tuple_sets.specs.Words.{has, IsWithin};
ghost use Rattle.tuple_sets.specs.Numbered.{word_count, IsImpossible, IsRefuted};
ghost use Rattle.bounds_table.specs.State.{pair, IsLater};
ghost use Rattle.bounds_table.specs.Core.{tuple_count as tuples_of, first, ArePossible, claiming, without_claims, joined};
ghost use Rattle.bounds_table.specs.Rule.{IsOf, IsGained, spare, opening_words as opening_words_lem};
ghost use Rattle.bounds_table.specs.Plays.{IsRight};
ghost use Rattle.bounds_table.specs.Marks.{AreOf, AreSound};

use crate::known::word_of;
use crate::marks::Marks;
use crate::pass::Pass;
use crate::rule::{Claims, Clears, Copies, Keeps, Meets, Parts, Sees, Sound, View};
use atomic_table::{Closed, Table};
use canonical_order::tuple_count;
use heap_core::Problem;
use no_memory::NoMemory;
use sqlite_items::Items;
use std::alloc::Global;
use std::marker::Model;
use tuple_sets::{all_below, mask_of, words_for};

/// The table on atomic words, which threads share without a lock: each of its calls makes the one
/// step that it names, or one for each word.
#[derive(Drop)]
pub struct Bounds {
    alloc: Global,
    tuples: u32,
    words: usize,
    table: Table<(), View, Problem, Sound, Global>,
}

impl Model for Bounds {
    ghost use Rattle.bounds_table.specs.Rule.{TableOf};

    ghost Value = { TableOf };

    ghost use Rattle.taco_unit.specs.contracts.expr.Expr as e;
    ghost use Rattle.taco_unit.specs.contracts.stmt.Stmt as s;
    ghost use Rattle.std.specs.Coded.{codes};

    ghost coded = { Prim.hlevel (codes, e.the_row.coded, s.the_row.coded) };

    ghost use Rattle.bounds_table.specs.Rule.{IsLaidOut};

    ghost view = { λ b. record { table = b.table.shared.table_id; problem = b.table.shared.key } };

    ghost invariant = { λ b. IsLaidOut b.table.shared.key b.tuples b.words b.table.shared.table_id };
}

/// So many words of a table that is closed, from this one on.
fn read_words(
    alloc: Global,
    closed: &Closed<(), Global>,
    from: usize,
    count: usize,
) -> Result<Items<u64>, NoMemory>
    requires full { IsFull closed.now.words }
    requires within { from + count ≤ slots_len closed.now.words }
    ensures { IfOk result (λ l. l ≡ take count (drop from (slots_items closed.now.words))) }
{
    let mut words = Items::new(alloc);
    for at in 0..count {
        words.push(closed.word(from + at))?;
    }
    Ok(words)
}

/// How many words there are behind those of the table: one that is not used, where there are no tuples.
fn spare_of(words: usize) -> usize
    requires { words < 2 ^ 32 }
    ensures { result ≡ spare words }
{
    if words == 0 { 1 } else { 9 * words }
}

/// The words at first: those of all tuples, and behind them the empty ones of the kept tuples and
/// of the claims. That the table begins with them no clause can say: what `Table::of_words` ensures
/// tells nothing of the words that it is given but that the rule holds of them.
fn opening_words(alloc: Global, problem: &Problem) -> Result<Items<u64>, NoMemory>
    ensures { IfOk result (λ l. l ≡ opening_words_lem problem.now) }
{
    let tuples = tuple_count(problem);
    let mut cells = all_below(alloc, tuples)?;
    for _ in 0..spare_of(words_for(tuples)) {
        cells.push(0)?;
    }
    Ok(cells)
}

impl Bounds {
    /// The table with all tuples, none of which is kept or claimed, and its first pass.
    pub fn new(alloc: Global, problem: &Problem) -> Result<(Bounds, Pass), NoMemory>
        ensures of { IfOk result (λ r. IsOf r.0 r.1) }
        ensures problem { IfOk result (λ r. r.0.problem ≡ problem.now) }
        ensures known { IfOk result (λ r. r.1.known ≡ first problem.now) }
    {
        let tuples = tuple_count(problem);
        let words = words_for(tuples);
        let cells = opening_words(alloc, problem)?;
        let (table, seat) = Table::of_words(alloc, cells.as_slice(), problem)?;
        Ok((
            Bounds {
                alloc,
                tuples,
                words,
                table,
            },
            Pass { seat },
        ))
    }

    /// Claims a pair of a round below 8 and a tuple: one fetch_or. True exactly where the pass gained
    /// the pair, which no other pass has then.
    pub fn claim(&self, pass: &mut Pass, round: u8, tuple: u32) -> bool
        requires of { IsOf self.now pass.old }
        requires round { round < 8 }
        requires tuple { tuple < tuples_of self.now.problem }
        ensures of { IsOf self.now pass.new }
        ensures known { pass.new.known ≡ claiming result (pair self.now.problem round tuple) pass.old.known }
        ensures gained { IsTrue result ↔ IsGained (pair self.now.problem round tuple) pass.old.known pass.new.known }
        ensures seen { has pass.new.known.claimed (pair self.now.problem round tuple) ≡ 1 }
        ensures later { IsLater pass.old.known pass.new.known }
    {
        let at = word_of(round, tuple, self.words);
        let mask = mask_of(tuple);
        let found = self
            .table
            .shared
            .fetch_or::<Claims>(&mut pass.seat, 2 * self.words + at, mask);
        found & mask == 0
    }

    /// Reads a word of the table: one load.
    fn copy_word(&self, pass: &mut Pass, at: usize) -> u64
        requires of { IsOf self.now pass.old }
        requires within { at < word_count self.now.problem }
        ensures of { IsOf self.now pass.new }
        ensures known { pass.new.known ≡ record pass.old.known { seen = slice_set pass.old.known.seen at result } }
        ensures right { IsRight self.now.problem pass.new.known }
        ensures later { IsLater pass.old.known pass.new.known }
    {
        self.table.shared.load::<Copies>(&mut pass.seat, at)
    }

    /// Copies the table word by word, in order: one load for each. The words are read at different
    /// moments, so the copy may be torn; it is what the pass has seen now, and lacks nothing that is
    /// possible.
    pub fn copy_into(&self, pass: &mut Pass, copy: &mut [u64])
        requires of { IsOf self.now pass.old }
        requires long { length copy.old ≡ word_count self.now.problem }
        ensures of { IsOf self.now pass.new }
        ensures copy { copy.new ≡ pass.new.known.seen }
        ensures known { pass.new.known ≡ record pass.old.known { seen = copy.new } }
        ensures missing { (t : ℕ) → has copy.new t ≡ 0 → IsImpossible self.now.problem t }
        ensures later { IsLater pass.old.known pass.new.known }
    {
        let _ = &pass.seat;
        for at in 0..copy.len() {
            copy[at] = self.copy_word(pass, at);
        }
    }

    /// Takes out of the table a tuple that no canonical start with a good heap holds, all of whose
    /// tuples the pass has last seen in the table: one fetch_and.
    pub fn clear(&self, pass: &mut Pass, tuple: u32)
        requires of { IsOf self.now pass.old }
        requires tuple { tuple < tuples_of self.now.problem }
        requires refuted { IsRefuted self.now.problem pass.old.known.seen tuple }
        ensures of { IsOf self.now pass.new }
        ensures known { pass.new.known ≡ record pass.old.known { seen = slice_set pass.old.known.seen (tuple / 64) (slice_index pass.new.known.seen (tuple / 64)) } }
        ensures cleared { has pass.new.known.seen tuple ≡ 0 }
        ensures later { IsLater pass.old.known pass.new.known }
    {
        let at = tuple as usize / 64;
        self.table
            .shared
            .fetch_and::<Clears>(&mut pass.seat, at, !mask_of(tuple));
    }

    /// Adds possible tuples of one word to the kept ones: one fetch_or.
    pub fn keep(&self, pass: &mut Pass, word: u32, bits: u64)
        requires of { IsOf self.now pass.old }
        requires word { word < word_count self.now.problem }
        requires possible { ArePossible self.now.problem word bits }
        ensures of { IsOf self.now pass.new }
        ensures known { pass.new.known ≡ record pass.old.known { kept = slice_set pass.old.known.kept word (slice_index pass.new.known.kept word) } }
        ensures kept { (j : ℕ) → j < 64 → bit_at bits j ≡ 1 → has pass.new.known.kept (64 * word + j) ≡ 1 }
        ensures later { IsLater pass.old.known pass.new.known }
    {
        let at = self.words + word as usize;
        self.table
            .shared
            .fetch_or::<Keeps>(&mut pass.seat, at, bits);
    }

    /// Reads a word of the kept tuples, all of which are possible: one load.
    pub fn kept(&self, pass: &mut Pass, word: u32) -> u64
        requires of { IsOf self.now pass.old }
        requires word { word < word_count self.now.problem }
        ensures of { IsOf self.now pass.new }
        ensures known { pass.new.known ≡ record pass.old.known { kept = slice_set pass.old.known.kept word result } }
        ensures word { slice_index pass.new.known.kept word ≡ result }
        ensures possible { ArePossible self.now.problem word result }
        ensures later { IsLater pass.old.known pass.new.known }
    {
        let at = self.words + word as usize;
        self.table.shared.load::<Sees>(&mut pass.seat, at)
    }

    /// Makes a pass that has seen what this one has, and has no claims. Takes no memory.
    pub fn split(&self, pass: &mut Pass) -> Pass
        requires { IsOf self.now pass.old }
        ensures of { IsOf self.now result }
        ensures same { pass.new ≡ pass.old }
        ensures known { result.known ≡ without_claims pass.old.known }
    {
        let seat = self.table.shared.split_seat::<Parts>(&mut pass.seat);
        Pass { seat }
    }

    /// Takes in what another pass has seen and claimed. Takes no memory.
    pub fn join(&self, pass: &mut Pass, other: Pass)
        requires of { IsOf self.now pass.old }
        requires other_of { IsOf self.now other }
        ensures of { IsOf self.now pass.new }
        ensures known { pass.new.known ≡ joined pass.old.known other.known }
        ensures later { IsLater pass.old.known pass.new.known }
        ensures other_later { IsLater other.known pass.new.known }
    {
        let Pass { seat } = other;
        self.table.shared.join_seat::<Meets>(&mut pass.seat, seat);
    }

    /// Ends the table. The marks clear all that the pass had seen cleared, and keep all that it had
    /// seen kept.
    pub fn close(self, pass: Pass) -> Result<Marks, NoMemory>
        requires { IsOf self pass }
        ensures of { IfOk result (AreOf self.problem) }
        ensures sound { IfOk result (AreSound self.problem) }
        ensures cleared { IfOk result (λ m. IsWithin m.table pass.known.seen) }
        ensures kept { IfOk result (λ m. IsWithin pass.known.kept m.kept) }
    {
        let Bounds {
            alloc,
            tuples,
            words,
            table,
        } = self;
        let Pass { seat } = pass;
        let closed = table.close_with(seat);
        let left = read_words(alloc, &closed, 0, words);
        let kept = read_words(alloc, &closed, words, words);
        closed.free();
        Ok(Marks {
            tuples,
            table: left?,
            kept: kept?,
        })
    }
}
