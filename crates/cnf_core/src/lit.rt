ghost use Rattle.std.specs.Prelude.{◌≡◌, ℕ, ◌+◌, ◌*◌, ◌/◌, ◌^◌, ◌<◌, ◌≤◌, length};
ghost use Rattle.cnf_core.specs.Literal.{negated, is_negative, IsOver};
ghost use Rattle.cnf_core.specs.Truth.{assigned, lit_holds};

use std::marker::Model;

/// A literal: a variable or its negation. Contracts see it as a number, twice the variable, plus 1
/// for the negation, so `x1` is 2 and its negation is 3. Variables count from 1, up to 2147483647.
/// The order is the one of the numbers: by variables, and a variable before its negation.
#[derive(Clone, Copy, Debug, PartialEq, Eq, PartialOrd, Ord, Hash)]
pub struct Lit {
    number: u32,
}

impl Model for Lit {
    ghost Value = { ℕ };

    ghost view = { λ lit. lit.number };

    ghost invariant = { λ lit. 2 ≤ lit.number };

    ghost inverse = { λ n. record { number = n } };
}

/// The literal of variable 1. Vectors that keep their elements inline want one to fill them with.
impl Default for Lit {
    ghost is_default = { λ lit. lit ≡ 2 };

    fn default() -> Self {
        Lit { number: 2 }
    }
}

impl Lit {
    /// The literal that is true where the variable is.
    pub fn positive(var: u32) -> Lit
        requires from_one { 0 < var }
        requires small { var < 2 ^ 31 }
        ensures { result ≡ 2 * var }
    {
        Lit { number: 2 * var }
    }

    /// The literal that is true where the variable is false.
    pub fn negative(var: u32) -> Lit
        requires from_one { 0 < var }
        requires small { var < 2 ^ 31 }
        ensures { result ≡ 2 * var + 1 }
    {
        Lit {
            number: 2 * var + 1,
        }
    }

    /// The literal of this number.
    pub fn from_number(number: u32) -> Lit
        requires { 2 ≤ number }
        ensures { result ≡ number }
    {
        Lit { number }
    }

    /// The number of the literal: twice the variable, plus 1 for a negative literal. It serves as
    /// an index, and fits 32 bits.
    pub fn number(self) -> u32
        ensures value { result ≡ self }
        ensures from_two { 2 ≤ result }
    {
        self.number
    }

    /// The literal's variable, from 1 to 2147483647.
    pub fn var(self) -> u32
        ensures value { result ≡ self / 2 }
        ensures from_one { 0 < result }
        ensures small { result < 2 ^ 31 }
    {
        self.number / 2
    }

    /// Whether the literal is the negation of its variable.
    pub fn is_negative(self) -> bool
        ensures { result ≡ is_negative self }
    {
        self.number % 2 == 1
    }

    /// The literal of the same variable that is true where this one is false.
    pub fn negated(self) -> Lit
        ensures { result ≡ negated self }
    {
        Lit {
            number: if self.number % 2 == 0 {
                self.number + 1
            } else {
                self.number - 1
            },
        }
    }

    /// Whether the literal is true under the values, one for each variable from 1 on.
    pub fn is_true_under(self, values: &[bool]) -> bool
        requires { IsOver (length values.now) self }
        ensures { result ≡ lit_holds (assigned values.now) self }
    {
        values[(self.var() - 1) as usize] != self.is_negative()
    }
}
