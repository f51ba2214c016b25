ghost use Rattle.std.specs.Prelude.{◌≡◌, ℕ, [], IfOk, OnOk};

use crate::answer::{SatAnswer, Solved};
use crate::search::Search;
use cnf_core::Cnf;
use no_memory::NoMemory;
use std::alloc::Global;
use std::marker::Model;

/// A search that has not begun. Contracts see the formula and the budget.
#[derive(Drop)]
pub struct Solver {
    search: Search,
    budget: u64,
    alloc: Global,
}

impl Model for Solver {
    ghost use Rattle.sat_solver.specs.Loading.{Asked, IsLoading};

    ghost Value = { Asked };

    ghost view = { λ s. record { cnf = s.search.cnf; budget = s.budget } };

    ghost invariant = { λ s. IsLoading 0 s.search };
}

impl Solver {
    ghost use Rattle.sat_solver.specs.Answers.{IsAnswer};

    /// A solver of the formula that learns at most `budget` lines, or any number where it is 0. It
    /// takes memory, and time, for each variable.
    pub fn new(alloc: Global, cnf: Cnf, budget: u64) -> Result<Solver, NoMemory>
        ensures { IfOk result (λ solver. solver ≡ record { cnf = cnf; budget = budget }) }
    {
        let search = Search::new(alloc, cnf)?;
        Ok(Solver {
            search,
            budget,
            alloc,
        })
    }

    /// Searches for values that satisfy the formula, by conflict-driven learning, until it finds them,
    /// refutes the formula, or has learnt as many lines as the budget says without either. Without
    /// memory the solver is gone.
    pub fn solve(self) -> Result<Solved, NoMemory>
        ensures answer { IfOk result (λ solved. IsAnswer solved.cnf solved.log self.budget solved.answer) }
        ensures cnf { IfOk result (λ solved. solved.cnf ≡ self.cnf) }
    {
        let Solver {
            mut search,
            budget,
            alloc,
        } = self;
        if !search.load(alloc)? {
            return Ok(solved(search, SatAnswer::Refuted));
        }
        let answer = search.run(alloc, budget)?;
        Ok(solved(search, answer))
    }
}

/// The answer with the formula and the log of the search.
fn solved(search: Search, answer: SatAnswer) -> Solved
    ensures answer { result.answer ≡ answer }
    ensures cnf { result.cnf ≡ search.cnf }
    ensures log { result.log ≡ search.log }
{
    let Search { cnf, log, .. } = search;
    Solved { answer, cnf, log }
}
