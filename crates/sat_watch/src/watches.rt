ghost use Rattle.std.specs.Prelude.{◌≡◌, ◌≢◌, ℕ, ◌+◌, ◌*◌, ◌/◌, ◌-◌, ◌<◌, ◌≤◌, ◌^◌, Bool, true, false, Some, None, [], ◌∷◌, ◌++◌, List, length, All, IfOk, OnOk, OnErr, slice_index, slice_index_or, slice_set};
ghost use Rattle.cnf_core.specs.Literal.{IsOver};

use cnf_core::{Cnf, Lit};
use no_memory::NoMemory;
use std::alloc::Global;
use std::marker::Model;

mod propagate;

/// How many variables and clauses there can be together, so that each watch has a place of 32 bits.
const MOST: u32 = 2_147_483_648;

/// Clauses, each of which can watch two of its literals, and for each literal the list of the
/// clauses that watch it. The lists are linked by index and change in place.
#[derive(Drop)]
pub struct Watches {
    clauses: Cnf,
    /// By place, the next watch in the same list, or 0 at its end. The first places are those of the
    /// literals, where their lists begin; behind them each clause has two, one for each watch.
    links: Vec<u32>,
    /// By place, the literal of a watch, or 0 where it is in no list.
    watched: Vec<u32>,
}

impl Model for Watches {
    ghost use Rattle.sat_watch.specs.Threads.{IsWatches};
    ghost use Rattle.sat_watch.specs.Watching.{WatchState};

    ghost Value = { WatchState };

    ghost view = { λ w. record { vars = w.clauses.vars; clauses = w.clauses.clauses; watched = w.watched.items } };

    ghost invariant = { λ w. IsWatches w.clauses w.links.items w.watched.items };
}

impl Watches {
    ghost use Rattle.sat_watch.specs.Literals.{has};
    ghost use Rattle.sat_watch.specs.Threads.{CanWatch};
    ghost use Rattle.sat_watch.specs.Trail.{TrailState};
    ghost use Rattle.sat_watch.specs.Watching.{WatchState, watch_of, side_of, IsFree, IsSet, IsPending, Right, RightBut, CanPair};

    /// No clauses, over the variables 1 to `vars`. The cost is the number of variables.
    pub fn new(alloc: Global, vars: u32) -> Result<Watches, NoMemory>
        requires { vars < 2 ^ 31 }
        ensures vars { IfOk result (λ w. w.vars ≡ vars) }
        ensures clauses { IfOk result (λ w. w.clauses ≡ []) }
        ensures right { IfOk result (λ w. (t : TrailState) → IsPending t → Right w t) }
    {
        let literals = 2 * (vars as usize + 1);
        Ok(Watches {
            clauses: Cnf::new(alloc, vars),
            links: vec![in alloc; 0; literals]?,
            watched: vec![in alloc; 0; literals]?,
        })
    }

    /// How many variables there are.
    pub fn vars(&self) -> u32
        ensures { result ≡ self.now.vars }
    {
        self.clauses.vars()
    }

    /// The literals of a clause as they were added, each once.
    pub fn lits(&self, clause: u32) -> &[Lit]
        requires { clause < length self.now.clauses }
        ensures value { result.now ≡ slice_index_or self.now.clauses clause [] }
        ensures watchable { CanWatch self.now.vars result.now }
    {
        self.clauses.clause(clause)
    }

    /// Adds a clause, which is in no list yet, and answers its number: they count from 0. Without
    /// memory, or where the variables and the clauses together are 2147483647 already, all stays as
    /// it was. The cost is the clause's length, and now and then a move of all.
    pub fn add(&mut self, lits: &[Lit]) -> Result<u32, NoMemory>
        requires { CanWatch self.old.vars lits.now }
        ensures number { IfOk result (λ clause. clause ≡ length self.old.clauses) }
        ensures ok { OnOk result (self.new ≡ record self.old { clauses = self.old.clauses ++ lits.now ∷ []; watched = self.old.watched ++ 0 ∷ 0 ∷ [] }) }
        ensures free { IfOk result (IsFree self.new) }
        ensures right { OnOk result ((t : TrailState) → Right self.old t → RightBut (length self.old.clauses) self.new t) }
        ensures err { OnErr result (self.new ≡ self.old) }
    {
        let clause = self.clauses.clauses();
        if self.clauses.vars() + clause + 1 >= MOST {
            return Err(NoMemory);
        }
        self.links.reserve(2)?;
        self.watched.reserve(2)?;
        self.clauses.push_clause(lits)?;
        self.links.push_reserved(0);
        self.links.push_reserved(0);
        self.watched.push_reserved(0);
        self.watched.push_reserved(0);
        Ok(clause)
    }

    /// Puts a clause that is in no list into the lists of its first two literals. It takes constant
    /// time.
    pub fn watch(&mut self, clause: u32)
        requires added { clause < length self.old.clauses }
        requires free { IsFree self.old clause }
        ensures watched { let lits = slice_index_or self.old.clauses clause [] in
            self.new ≡ record self.old { watched = slice_set (slice_set self.old.watched (watch_of self.old clause) (slice_index lits 0)) (watch_of self.old clause + 1) (slice_index lits 1) } }
        ensures first { IsSet self.new (watch_of self.new clause) }
        ensures second { IsSet self.new (watch_of self.new clause + 1) }
        ensures right { let lits = slice_index_or self.old.clauses clause [] in
            (t : TrailState) → RightBut clause self.old t → CanPair t (slice_index lits 0) (slice_index lits 1) → Right self.new t }
    {
        let lits = self.clauses.clause(clause);
        let first = lits[0].number();
        let second = lits[1].number();
        let at = 2 * (self.clauses.vars() + 1 + clause);
        thread(&mut self.links, &mut self.watched, at, first);
        thread(&mut self.links, &mut self.watched, at + 1, second);
    }

    /// Moves a clause from the list of one of its literals to that of another. The cost is the
    /// number of clauses before it in the old list.
    pub fn move_watch(&mut self, clause: u32, old: Lit, new: Lit)
        requires added { clause < length self.old.clauses }
        requires watches { slice_index self.old.watched (side_of self.old clause old) ≡ old }
        requires holds { has (slice_index_or self.old.clauses clause []) new ≡ true }
        requires apart_first { slice_index self.old.watched (watch_of self.old clause) ≢ new }
        requires apart_second { slice_index self.old.watched (watch_of self.old clause + 1) ≢ new }
        ensures { self.new ≡ record self.old { watched = slice_set self.old.watched (side_of self.old clause old) new } }
    {
        let at = self.side_of(clause, old);
        let mut previous = old.number();
        while self.links[previous as usize] != at {
            previous = self.links[previous as usize];
        }
        rethread(
            &mut self.links,
            &mut self.watched,
            previous,
            at,
            new.number(),
        );
    }

    /// The watch by which a clause watches a literal.
    fn side_of(&self, clause: u32, lit: Lit) -> u32
        requires { clause < length self.now.clauses }
        ensures value { result ≡ side_of self.now clause lit }
    {
        let first = 2 * (self.clauses.vars() + 1 + clause);
        if self.watched[first as usize] == lit.number() {
            first
        } else {
            first + 1
        }
    }
}

/// Puts a watch in front of the list of a literal.
fn thread(links: &mut Vec<u32>, watched: &mut Vec<u32>, at: u32, lit: u32)
    requires paired { length watched.old.items ≡ length links.old.items }
    requires at_place { at < length links.old.items }
    requires lit_place { lit < length links.old.items }
    ensures links { links.new.items ≡ slice_set (slice_set links.old.items at (slice_index links.old.items lit)) lit at }
    ensures watched { watched.new.items ≡ slice_set watched.old.items at lit }
{
    links[at as usize] = links[lit as usize];
    links[lit as usize] = at;
    watched[at as usize] = lit;
}

/// Takes a watch out of its list, in which it is the next after `previous`, and puts it in front of
/// the list of a literal.
fn rethread(links: &mut Vec<u32>, watched: &mut Vec<u32>, previous: u32, at: u32, lit: u32)
    requires paired { length watched.old.items ≡ length links.old.items }
    requires previous_place { previous < length links.old.items }
    requires at_place { at < length links.old.items }
    requires lit_place { lit < length links.old.items }
    ensures links { let out = slice_set links.old.items previous (slice_index links.old.items at) in
        links.new.items ≡ slice_set (slice_set out at (slice_index out lit)) lit at }
    ensures watched { watched.new.items ≡ slice_set watched.old.items at lit }
{
    links[previous as usize] = links[at as usize];
    thread(links, watched, at, lit);
}
