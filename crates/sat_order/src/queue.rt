ghost use Rattle.std.specs.Prelude.{◌≡◌, ℕ, ◌+◌, ◌<◌, ◌≤◌, ◌==◌, ◌||◌, ◌↔◌, List, [], ◌∷◌, true, false, length, ◌^◌, map, filter, find, unwrap_or, IfOk, OnOk, OnErr, IsNone, IsTrue, All, if◌then◌else◌};
ghost use Rattle.std.specs.List.{range_with_len};
ghost use Rattle.sat_order.specs.Lists.{holds, EachOnce, first_of, after, from, without};
ghost use Rattle.sat_order.specs.Order.{passed, moved_up, IsOrder, is_free, Falls};

use crate::ring::Ring;
use no_memory::NoMemory;
use std::alloc::Global;
use std::marker::Model;

/// The variables 1 to some number in the order in which a search is to decide them, each once. The
/// front is the one that was bumped last. A cursor stands at a variable, or past them all, and the
/// search goes on from there, so that it does not walk over the set variables at the front again.
#[derive(Drop)]
pub struct Queue {
    ring: Ring,
    /// The variable at which the cursor stands, or 0 past the last one.
    cursor: u32,
    /// By variable: a greater stamp stands further in front.
    stamps: Vec<u64>,
    /// The greatest stamp so far.
    newest: u64,
}

/// A variable, and how far its stamp is below the newest one.
#[derive(Drop)]
struct Aged {
    var: u32,
    age: u64,
}

impl Model for Queue {
    ghost use Rattle.sat_order.specs.Order.{Order, IsQueue};

    ghost Value = { Order };

    ghost view = { λ q. record { vars = q.ring.order; cursor = q.cursor } };

    ghost invariant = { λ q. IsQueue q.ring q.cursor q.stamps.items q.newest };
}

impl Queue {
    /// The queue of the variables 1 to `vars`, in the order of their numbers, with the cursor at the
    /// first. It takes memory, and time, for each variable.
    pub fn new(alloc: Global, vars: u32) -> Result<Queue, NoMemory>
        ensures vars { IfOk result (λ q. q.vars ≡ range_with_len 1 vars) }
        ensures cursor { IfOk result (λ q. q.cursor ≡ first_of q.vars) }
        ensures each { IfOk result (λ q. IsOrder q.vars) }
    {
        let ring = Ring::new(alloc, vars)?;
        let mut stamps = vec![in alloc; 0; vars as usize + 1]?;
        let newest = stamp_all(&ring, &mut stamps);
        let cursor = ring.first();
        Ok(Queue {
            ring,
            cursor,
            stamps,
            newest,
        })
    }

    /// Moves a variable to the front, before the cursor, and keeps the order of the rest. Where the
    /// variable has no value, call `freed` next. It takes constant time, but once in 2^64 calls.
    pub fn bump(&mut self, var: u32)
        requires from_one { 0 < var }
        requires within { var ≤ length self.old.vars }
        ensures vars { self.new.vars ≡ var ∷ without var self.old.vars }
        ensures passed { passed self.new ≡ var ∷ without var (passed self.old) }
        ensures count { length self.new.vars ≡ length self.old.vars }
        ensures each { IsOrder self.new.vars }
    {
        let newest = last_stamp(&self.ring, &mut self.stamps, self.newest);
        self.cursor = stepped_over(&self.ring, self.cursor, var);
        self.ring.remove(var);
        self.ring.push_front(var);
        self.newest = newest + 1;
        self.stamps[var as usize] = newest + 1;
    }

    /// Moves these variables to the front, and keeps the order in which they stand, as it keeps that of
    /// the rest. Where one has no value, call `freed` next. Without memory the queue stays as it is.
    /// The cost is that of sorting them.
    pub fn bump_all(&mut self, alloc: Global, vars: &[u32]) -> Result<(), NoMemory>
        requires from_one { All (λ var. 0 < var) vars.now }
        requires within { All (λ var. var ≤ length self.old.vars) vars.now }
        requires once { EachOnce vars.now }
        ensures vars { OnOk result (self.new.vars ≡ moved_up vars.now self.old.vars) }
        ensures passed { OnOk result ((v : ℕ) → holds (passed self.new) v ≡ true → (holds vars.now v || holds (passed self.old) v) ≡ true) }
        ensures count { OnOk result (length self.new.vars ≡ length self.old.vars) }
        ensures each { OnOk result (IsOrder self.new.vars) }
        ensures unchanged { OnErr result (self.new ≡ self.old) }
    {
        let aged = self.by_age(alloc, vars)?;
        for next in aged.iter().rev() {
            self.bump(next.var);
        }
        Ok(())
    }

    /// These variables in the order in which they stand.
    fn by_age(&self, alloc: Global, vars: &[u32]) -> Result<Vec<Aged>, NoMemory>
        requires from_one { All (λ var. 0 < var) vars.now }
        requires within { All (λ var. var ≤ length self.now.vars) vars.now }
        requires once { EachOnce vars.now }
        ensures vars { IfOk result (λ aged. map (λ a. a.var) aged.items ≡ filter (holds vars.now) self.now.vars) }
        ensures each { OnOk result (IsOrder self.now.vars) }
    {
        let mut aged = Vec::new(alloc);
        for var in vars {
            let age = self.newest - self.stamps[*var as usize];
            aged.push(Aged { var: *var, age })?;
        }
        aged.sort_by_key(|one| one.age)?;
        Ok(aged)
    }

    /// The first variable that has no value, from the front on. `set` tells which have one: the
    /// entry of variable v stands at v - 1. The cost is the number of variables before the answer.
    pub fn next_free(&self, set: &[bool]) -> Option<u32>
        requires { length set.now ≡ length self.now.vars }
        ensures first { result ≡ find (is_free set.now) self.now.vars }
        ensures none { IsNone result ↔ All (λ b. IsTrue b) set.now }
    {
        free_from(&self.ring, self.ring.first(), set)
    }

    /// The same answer as `next_free`, where every variable before the cursor is set. The cursor
    /// then stands at the answer. The cost is the number of variables that the cursor passes.
    pub fn next_from_cursor(&mut self, set: &[bool]) -> Option<u32>
        requires one_each { length set.now ≡ length self.old.vars }
        requires set_before { (v : ℕ) → holds (passed self.old) v ≡ true → is_free set.now v ≡ false }
        ensures first { result ≡ find (is_free set.now) self.old.vars }
        ensures none { IsNone result ↔ All (λ b. IsTrue b) set.now }
        ensures vars { self.new.vars ≡ self.old.vars }
        ensures cursor { self.new.cursor ≡ unwrap_or result 0 }
        ensures set_before { (v : ℕ) → holds (passed self.new) v ≡ true → is_free set.now v ≡ false }
    {
        let found = free_from(&self.ring, self.cursor, set);
        self.cursor = found.unwrap_or(0);
        found
    }

    /// Takes note that a variable has no value any more: where it stands before the cursor, the
    /// cursor moves back to it. It takes constant time.
    pub fn freed(&mut self, var: u32)
        requires from_one { 0 < var }
        requires within { var ≤ length self.old.vars }
        ensures vars { self.new.vars ≡ self.old.vars }
        ensures cursor { self.new.cursor ≡ (if holds (passed self.old) var then var else self.old.cursor) }
        ensures passed { (v : ℕ) → holds (passed self.new) v ≡ true → (holds (passed self.old) v ≡ true) × ((v == var) ≡ false) }
    {
        if self.is_passed(var) {
            self.cursor = var;
        }
    }

    /// Whether a variable stands before the cursor.
    fn is_passed(&self, var: u32) -> bool
        requires { holds self.now.vars var ≡ true }
        ensures { result ≡ holds (passed self.now) var }
    {
        self.cursor == 0 || self.stamps[var as usize] > self.stamps[self.cursor as usize]
    }
}

/// The first variable from `at` on that has no value.
fn free_from(ring: &Ring, at: u32, set: &[bool]) -> Option<u32>
    requires here { holds (0 ∷ ring.now.order) at ≡ true }
    requires each { IsOrder ring.now.order }
    requires one_each { length set.now ≡ length ring.now.order }
    ensures { result ≡ find (is_free set.now) (from at ring.now.order) }
{
    let mut at = at;
    while at != 0 {
        if !set[at as usize - 1] {
            return Some(at);
        }
        at = ring.after(at);
    }
    None
}

/// Deals the stamps anew, from the number of variables at the front down to 1. Answers the greatest.
fn stamp_all(ring: &Ring, stamps: &mut Vec<u64>) -> u64
    requires each { IsOrder ring.now.order }
    requires one_each { length stamps.old.items ≡ length ring.now.order + 1 }
    ensures falls { Falls stamps.new.items (result + 1) ring.now.order }
    ensures length { length stamps.new.items ≡ length stamps.old.items }
    ensures count { result ≡ length ring.now.order }
    ensures room { result + 1 < 2 ^ 64 }
{
    let count = ring.len() as u64;
    let mut left = count;
    let mut at = ring.first();
    while at != 0 {
        stamps[at as usize] = left;
        left -= 1;
        at = ring.after(at);
    }
    count
}

/// The greatest stamp so far, behind which another fits. Where there is none, the stamps are dealt
/// anew.
fn last_stamp(ring: &Ring, stamps: &mut Vec<u64>, newest: u64) -> u64
    requires each { IsOrder ring.now.order }
    requires one_each { length stamps.old.items ≡ length ring.now.order + 1 }
    requires falls { Falls stamps.old.items (newest + 1) ring.now.order }
    ensures falls { Falls stamps.new.items (result + 1) ring.now.order }
    ensures length { length stamps.new.items ≡ length stamps.old.items }
    ensures room { result + 1 < 2 ^ 64 }
{
    if newest == u64::MAX {
        return stamp_all(ring, stamps);
    }
    newest
}

/// Where the cursor stands once this variable leaves its place.
fn stepped_over(ring: &Ring, cursor: u32, var: u32) -> u32
    requires { holds ring.now.order var ≡ true }
    ensures { result ≡ (if cursor == var then after var ring.now.order else cursor) }
{
    if cursor == var {
        ring.after(var)
    } else {
        cursor
    }
}

#[cfg(test)]
mod tests;
