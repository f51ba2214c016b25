ghost use Rattle.std.specs.Prelude.{◌≡◌, ℕ, ◌+◌, ◌^◌, ◌<◌, ◌≤◌, [], ◌∷◌, true, false, length, IfOk};
ghost use Rattle.std.specs.List.{range_with_len};
ghost use Rattle.sat_order.specs.Lists.{holds, first_of, after, without};

use no_memory::NoMemory;
use std::alloc::Global;
use std::marker::Model;

/// Some of the variables 1 to `vars`, each at most once, in an order that changes in constant time.
/// They are linked by index in either direction, in a ring over the place 0, which no variable has:
/// `next[0]` is the first variable and `previous[0]` the last.
#[derive(Drop)]
pub(crate) struct Ring {
    next: Vec<u32>,
    previous: Vec<u32>,
    /// How many variables are in the ring.
    len: usize,
}

impl Model for Ring {
    ghost use Rattle.std.specs.Prelude.{◌≡◌, ℕ, ◌+◌, ◌-◌, ◌≤◌, ◌<◌, ◌^◌, length, slice_index};
    ghost use Rattle.sat_order.specs.Ring.{Held, IsRing, along};

    ghost Value = { Held };

    ghost view = { λ r. record { vars = length r.next.items - 1; order = along r.next.items r.len (slice_index r.next.items 0) } };

    ghost invariant = { λ r. (IsRing r.next.items r.previous.items (along r.next.items r.len (slice_index r.next.items 0))) × (0 < length r.next.items) × (length r.next.items ≤ 2 ^ 32)
        × (r.len < length r.next.items) };
}

impl Ring {
    /// All variables from 1 to `vars`, in the order of their numbers.
    pub(crate) fn new(alloc: Global, vars: u32) -> Result<Ring, NoMemory>
        ensures order { IfOk result (λ r. r.order ≡ range_with_len 1 vars) }
        ensures vars { IfOk result (λ r. r.vars ≡ vars) }
    {
        let places = vars as usize + 1;
        let mut ring = Ring {
            next: vec![in alloc; 0; places]?,
            previous: vec![in alloc; 0; places]?,
            len: 0,
        };
        let mut var = vars;
        while var > 0 {
            ring.push_front(var);
            var -= 1;
        }
        Ok(ring)
    }

    /// How many variables there are.
    pub(crate) fn len(&self) -> usize
        ensures value { result ≡ length self.now.order }
        ensures room { result + 1 < 2 ^ 64 }
    {
        self.len
    }

    /// The first variable, or 0 where there is none.
    pub(crate) fn first(&self) -> u32
        ensures { result ≡ first_of self.now.order }
    {
        self.next[0]
    }

    /// The variable behind this one, or 0 where it is the last.
    pub(crate) fn after(&self, var: u32) -> u32
        requires { holds self.now.order var ≡ true }
        ensures { result ≡ after var self.now.order }
    {
        self.next[var as usize]
    }

    /// Takes a variable out.
    pub(crate) fn remove(&mut self, var: u32)
        requires { holds self.old.order var ≡ true }
        ensures order { self.new.order ≡ without var self.old.order }
        ensures vars { self.new.vars ≡ self.old.vars }
    {
        let before = self.previous[var as usize];
        let after = self.next[var as usize];
        self.next[before as usize] = after;
        self.previous[after as usize] = before;
        self.len -= 1;
    }

    /// Puts a variable in front of all others.
    pub(crate) fn push_front(&mut self, var: u32)
        requires from_one { 0 < var }
        requires within { var ≤ self.old.vars }
        requires absent { holds self.old.order var ≡ false }
        requires room { length self.old.order < self.old.vars }
        ensures order { self.new.order ≡ var ∷ self.old.order }
        ensures vars { self.new.vars ≡ self.old.vars }
    {
        let first = self.next[0];
        self.next[var as usize] = first;
        self.next[0] = var;
        self.previous[first as usize] = var;
        self.previous[var as usize] = 0;
        self.len += 1;
    }
}
