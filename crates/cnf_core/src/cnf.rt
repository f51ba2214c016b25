ghost use Rattle.std.specs.Prelude.{◌≡◌, ℕ, ◌+◌, ◌^◌, ◌<◌, ◌≤◌, Bool, List, [], ◌∷◌, ◌++◌, length, slice_index_or, slice_range, All, IfOk, OnOk, OnErr};
ghost use Rattle.cnf_core.specs.Arena.{cut, AreEnds};
ghost use Rattle.cnf_core.specs.Literal.{IsOver};
ghost use Rattle.cnf_core.specs.Truth.{assigned, clause_holds, clauses_hold};

use crate::lit::Lit;
use no_memory::NoMemory;
use std::alloc::Global;
use std::marker::Model;

/// A formula in conjunctive normal form. Contracts see the number of its variables and the list of
/// its clauses. The clauses lie one behind the other in one list of literals.
#[derive(Drop)]
pub struct Cnf {
    vars: u32,
    lits: Vec<Lit>,
    /// The place in `lits` at which each clause ends.
    ends: Vec<usize>,
}

impl Model for Cnf {
    ghost use Rattle.cnf_core.specs.Arena.{cut, IsArena};
    ghost use Rattle.cnf_core.specs.Clauses.{Clauses};

    ghost Value = { Clauses };

    ghost view = { λ c. record { vars = c.vars; clauses = cut 0 c.ends.items c.lits.items } };

    ghost invariant = { λ c. IsArena c.vars c.ends.items c.lits.items };
}

impl Cnf {
    /// A formula over the variables 1 to `vars` with no clause. It takes no memory.
    pub fn new(alloc: Global, vars: u32) -> Cnf
        requires { vars < 2 ^ 31 }
        ensures { result ≡ record { vars = vars; clauses = [] } }
    {
        Cnf {
            vars,
            lits: Vec::new(alloc),
            ends: Vec::new(alloc),
        }
    }

    /// How many variables there are, at most 2147483647.
    pub fn vars(&self) -> u32
        ensures value { result ≡ self.now.vars }
        ensures small { result < 2 ^ 31 }
    {
        self.vars
    }

    /// How many clauses there are.
    pub fn clauses(&self) -> u32
        ensures { result ≡ length self.now.clauses }
    {
        self.ends.as_slice().len() as u32
    }

    /// Adds a clause at the end. Without memory, or where there are 4294967295 clauses already, the
    /// formula stays as it was. The cost is the clause's length, and now and then a move of all.
    pub fn push_clause(&mut self, lits: &[Lit]) -> Result<(), NoMemory>
        requires { All (IsOver self.old.vars) lits.now }
        ensures ok { OnOk result (self.new ≡ record self.old { clauses = self.old.clauses ++ lits.now ∷ [] }) }
        ensures err { OnErr result (self.new ≡ self.old) }
    {
        if self.ends.as_slice().len() >= u32::MAX as usize {
            return Err(NoMemory);
        }
        push_piece(&mut self.lits, &mut self.ends, lits)?;
        Ok(())
    }

    /// The literals of the clause at this place, counted from 0.
    pub fn clause(&self, place: u32) -> &[Lit]
        requires { place < length self.now.clauses }
        ensures value { result.now ≡ slice_index_or self.now.clauses place [] }
        ensures over { All (IsOver self.now.vars) result.now }
    {
        piece(&self.lits, &self.ends, place as usize)
    }

    /// Whether every clause is true under the values, one for each variable: the first is the one
    /// of variable 1. It takes no memory, and looks at each literal at most once.
    pub fn is_true_under(&self, values: &[bool]) -> bool
        requires { length values.now ≡ self.now.vars }
        ensures { result ≡ clauses_hold (assigned values.now) self.now.clauses }
    {
        for place in 0..self.clauses() {
            if !is_clause_true(self.clause(place), values) {
                return false;
            }
        }
        true
    }

    /// The same variables and clauses a second time.
    pub fn copy(&self) -> Result<Cnf, NoMemory>
        ensures { IfOk result (λ copied. copied ≡ self.now) }
    {
        Ok(Cnf {
            vars: self.vars,
            lits: self.lits.clone()?,
            ends: self.ends.clone()?,
        })
    }
}

/// Whether some literal of the clause is true under the values.
fn is_clause_true(clause: &[Lit], values: &[bool]) -> bool
    requires { All (IsOver (length values.now)) clause.now }
    ensures { result ≡ clause_holds (assigned values.now) clause.now }
{
    for lit in clause {
        if lit.is_true_under(values) {
            return true;
        }
    }
    false
}

/// Adds a clause behind the last one, or leaves all as it was.
fn push_piece(lits: &mut Vec<Lit>, ends: &mut Vec<usize>, clause: &[Lit]) -> Result<(), NoMemory>
    ensures ok { OnOk result ((lits.new.items ≡ lits.old.items ++ clause.now) × (ends.new.items ≡ ends.old.items ++ length lits.new.items ∷ [])) }
    ensures err { OnErr result ((lits.new.items ≡ lits.old.items) × (ends.new.items ≡ ends.old.items)) }
{
    ends.reserve(1)?;
    lits.extend_from_slice(clause)?;
    ends.push(lits.len())?;
    Ok(())
}

/// The clause at this place.
fn piece<'a>(lits: &'a [Lit], ends: &[usize], place: usize) -> &'a [Lit]
    requires rising { AreEnds 0 ends.now lits.now }
    requires within { place < length ends.now }
    ensures value { result.now ≡ slice_index_or (cut 0 ends.now lits.now) place [] }
    ensures part { (vars : ℕ) → All (IsOver vars) lits.now → All (IsOver vars) result.now }
{
    let (start, end) = span(lits, ends, place);
    &lits[start..end]
}

/// Where the clause at this place begins and ends: it begins at the end of the one before it.
fn span(lits: &[Lit], ends: &[usize], place: usize) -> (usize, usize)
    requires rising { AreEnds 0 ends.now lits.now }
    requires within { place < length ends.now }
    ensures rises { result.0 ≤ result.1 }
    ensures inside { result.1 ≤ length lits.now }
    ensures value { slice_index_or (cut 0 ends.now lits.now) place [] ≡ slice_range lits.now result.0 result.1 }
{
    let end = ends[place];
    if place == 0 {
        (0, end)
    } else {
        (ends[place - 1], end)
    }
}
