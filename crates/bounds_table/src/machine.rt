ghost use Rattle.std.specs.Prelude.{◌≡◌, IfOk, OnErr};
ghost use Rattle.bounds_table.specs.Core.{opening, IsLawful, after, reply};
ghost use Rattle.bounds_table.specs.Marks.{AreOf, AreSound, marks_of};

use crate::event::{Event, Reply};
use crate::known::{Known, add_bits, asked, first, newcomer, saw, saw_kept, took_in, word_of};
use crate::marks::Marks;
use canonical_order::tuple_count;
use heap_core::Problem;
use no_memory::NoMemory;
use sqlite_items::Items;
use std::alloc::Global;
use std::marker::Model;
use std::snapshot::Snapshot;
use tuple_sets::{all_below, mask_of, none_of, words_for};

/// The table and its workers as one value, on which their steps are made one after another.
#[derive(Drop)]
pub struct Core {
    alloc: Global,
    problem: Snapshot<Problem>,
    tuples: u32,
    table: Items<u64>,
    kept: Items<u64>,
    claimed: Items<u64>,
    workers: Vec<Option<Known>>,
}

impl Model for Core {
    ghost use Rattle.bounds_table.specs.State.{State};

    ghost Value = { State };

    ghost use Rattle.taco_unit.specs.contracts.expr.Expr as e;
    ghost use Rattle.taco_unit.specs.contracts.stmt.Stmt as s;
    ghost use Rattle.std.specs.Coded.{codes};

    ghost coded = { Prim.hlevel (codes, e.the_row.coded, s.the_row.coded) };

    ghost use Rattle.std.specs.Prelude.{◌≡◌};
    ghost use Rattle.bounds_table.specs.State.{IsSound};
    ghost use Rattle.bounds_table.specs.Core.{tuple_count};

    ghost view = { λ c. record { problem = c.problem.value; table = c.table; kept = c.kept; claimed = c.claimed; workers = c.workers.items } };

    ghost invariant = { λ c. (c.tuples ≡ tuple_count c.problem.value) × IsSound (record { problem = c.problem.value; table = c.table; kept = c.kept; claimed = c.claimed; workers = c.workers.items }) };
}

impl Core {
    ghost use Rattle.std.specs.Prelude.{slice_index, length, OnOk};
    ghost use Rattle.bounds_table.specs.declared.event.Event.TheVariants.{Claim, CopyWord, Clear, KeepWord, SeeKept, Split, Join};
    ghost use Rattle.bounds_table.specs.State.{pair};
    ghost use Rattle.bounds_table.specs.Core.{is_free, IsSplit};

    /// The table with all tuples, none of which is kept, and worker 0, which has seen them.
    pub fn new(alloc: Global, problem: &Problem) -> Result<Core, NoMemory>
        ensures { IfOk result (λ c. c ≡ opening problem.now) }
    {
        let tuples = tuple_count(problem);
        let words = words_for(tuples);
        let mut workers = Vec::new(alloc);
        workers.push(Some(first(alloc, tuples, words)?))?;
        Ok(Core {
            alloc,
            problem: Snapshot::of(problem),
            tuples,
            table: all_below(alloc, tuples)?,
            kept: none_of(alloc, words)?,
            claimed: none_of(alloc, 8 * words)?,
            workers,
        })
    }

    /// Claims a pair of round and tuple: whether it was free.
    fn claim(&mut self, worker: u32, round: u8, tuple: u32) -> bool
        requires { IsLawful self.old (Claim worker round tuple) }
        ensures effect { self.new ≡ after self.old (Claim worker round tuple) }
        ensures free { result ≡ is_free self.old.claimed (pair self.old.problem round tuple) }
    {
        let at = word_of(round, tuple, self.table.len());
        let mask = mask_of(tuple);
        let free = self.claimed.as_slice()[at] & mask == 0;
        add_bits(&mut self.claimed, at, mask);
        asked(&mut self.workers[worker as usize], at, mask, free);
        free
    }

    /// Reads a word of the table.
    fn copy_word(&mut self, worker: u32, word: u32) -> u64
        requires { IsLawful self.old (CopyWord worker word) }
        ensures effect { self.new ≡ after self.old (CopyWord worker word) }
        ensures word { result ≡ slice_index self.old.table word }
    {
        let found = self.table.as_slice()[word as usize];
        saw(&mut self.workers[worker as usize], word as usize, found);
        found
    }

    /// Takes a tuple out of the table.
    fn clear(&mut self, worker: u32, tuple: u32)
        requires { IsLawful self.old (Clear worker tuple) }
        ensures { self.new ≡ after self.old (Clear worker tuple) }
    {
        let at = tuple as usize / 64;
        let left = self.table.as_slice()[at] & !mask_of(tuple);
        self.table.set(at, left);
        saw(&mut self.workers[worker as usize], at, left);
    }

    /// Adds tuples of one word to the kept ones.
    fn keep_word(&mut self, worker: u32, word: u32, bits: u64)
        requires { IsLawful self.old (KeepWord worker word bits) }
        ensures { self.new ≡ after self.old (KeepWord worker word bits) }
    {
        let at = word as usize;
        let left = self.kept.as_slice()[at] | bits;
        self.kept.set(at, left);
        saw_kept(&mut self.workers[worker as usize], at, left);
    }

    /// Reads a word of the kept tuples.
    fn see_kept(&mut self, worker: u32, word: u32) -> u64
        requires { IsLawful self.old (SeeKept worker word) }
        ensures effect { self.new ≡ after self.old (SeeKept worker word) }
        ensures word { result ≡ slice_index self.old.kept word }
    {
        let found = self.kept.as_slice()[word as usize];
        saw_kept(&mut self.workers[worker as usize], word as usize, found);
        found
    }

    /// Makes a worker that has seen what this one has, and answers its number. There are at most
    /// 4294967296 workers; where there is no room for one more, nothing changes.
    fn split(&mut self, worker: u32) -> Result<u32, NoMemory>
        requires { IsLawful self.old (Split worker) }
        ensures effect { OnOk result (self.new ≡ after self.old (Split worker)) }
        ensures number { IfOk result (λ n. n ≡ length self.old.workers) }
        ensures err { OnErr result (self.new ≡ self.old) }
    {
        let Ok(number) = u32::try_from(self.workers.len()) else {
            return Err(NoMemory);
        };
        let Some(known) = &self.workers[worker as usize] else {
            unreachable!()
        };
        let made = newcomer(self.alloc, known)?;
        self.workers.push(Some(made))?;
        Ok(number)
    }

    /// Takes in what another worker knows, which ends.
    fn join(&mut self, worker: u32, other: u32)
        requires { IsLawful self.old (Join worker other) }
        ensures { self.new ≡ after self.old (Join worker other) }
    {
        let Some(theirs) = self.workers[other as usize].take() else {
            unreachable!()
        };
        took_in(&mut self.workers[worker as usize], &theirs);
    }

    /// Makes one step. It takes memory only to make a worker, and changes nothing where there is none.
    pub fn step(&mut self, event: Event) -> Result<Reply, NoMemory>
        requires { IsLawful self.old event }
        ensures reply { IfOk result (λ r. r ≡ reply self.old event) }
        ensures effect { OnOk result (self.new ≡ after self.old event) }
        ensures err { OnErr result (self.new ≡ self.old) }
        ensures split_alone { OnErr result (IsSplit event) }
    {
        match event {
            Event::Claim {
                worker,
                round,
                tuple,
            } => Ok(Reply::Claimed(self.claim(worker, round, tuple))),
            Event::CopyWord { worker, word } => Ok(Reply::Word(self.copy_word(worker, word))),
            Event::Clear { worker, tuple } => {
                self.clear(worker, tuple);
                Ok(Reply::Done)
            }
            Event::KeepWord { worker, word, bits } => {
                self.keep_word(worker, word, bits);
                Ok(Reply::Done)
            }
            Event::SeeKept { worker, word } => Ok(Reply::Word(self.see_kept(worker, word))),
            Event::Split { worker } => Ok(Reply::Worker(self.split(worker)?)),
            Event::Join { worker, other } => {
                self.join(worker, other);
                Ok(Reply::Done)
            }
        }
    }

    /// The marks of the table and of the kept tuples.
    pub fn marks(&self) -> Result<Marks, NoMemory>
        ensures marks { IfOk result (λ m. m ≡ marks_of self.now) }
        ensures of { IfOk result (AreOf self.now.problem) }
        ensures sound { IfOk result (AreSound self.now.problem) }
    {
        Ok(Marks {
            tuples: self.tuples,
            table: Items::from_slice(self.alloc, self.table.as_slice())?,
            kept: Items::from_slice(self.alloc, self.kept.as_slice())?,
        })
    }
}
