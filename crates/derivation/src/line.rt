ghost use Rattle.std.specs.Prelude.{◌≡◌, ◌^◌, ◌<◌, All};

use cnf_core::Lit;
use smallvec::SmallVec;
use std::marker::Model;

/// One line of a log: a clause, and the numbers of the clauses that lead to a conflict where all of
/// its literals are false. The clauses of the formula have the numbers from 1 on, and behind them
/// come the lines in order. Contracts see a line as two lists of numbers.
#[derive(Drop)]
pub struct Line {
    pub clause: SmallVec<Lit, 8>,
    pub hints: SmallVec<u32, 8>,
}

impl Model for Line {
    ghost use Rattle.derivation.specs.Step.{Step};

    ghost Value = { Step };

    ghost view = { λ line. record { clause = line.clause.items; hints = line.hints.items } };
}

impl Line {
    /// The hints in order.
    pub(crate) fn hints(&self) -> &[u32]
        ensures value { result.now ≡ self.now.hints }
        ensures fit { All (λ hint. hint < 2 ^ 32) result.now }
    {
        let hints = self.hints.as_slice();
        fit(hints);
        hints
    }
}

/// Tells contracts that all numbers of this type fit 32 bits. It does nothing when it runs.
fn fit(numbers: &[u32])
    ensures { All (λ number. number < 2 ^ 32) numbers.now }
{}
