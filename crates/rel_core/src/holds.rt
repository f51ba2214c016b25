//! Whether a formula holds under a valuation.

ghost use Rattle.std.specs.Prelude.{◌≡◌};
ghost use Rattle.taco_unit.specs.Scopes.{IsScope};
ghost use Rattle.rel_core.specs.Reading.{reading_of};
ghost use Rattle.rel_core.specs.Meaning.{holds as holds_lem};

mod members;
mod numbers;
mod objects;
mod sets;
mod triples;
mod truth;
mod view;

use crate::formula::Formula;
use crate::holds::truth::is_true;
use crate::holds::view::View;
use crate::valuation::Valuation;
use taco_unit::Scope;

impl Formula {
    /// Whether the formula holds under the triples of a valuation, within a scope: places and objects that are
    /// not below the scope's objects play no part, and a number has the scope's bits. It calls itself for the parts
    /// of the formula, and looks at each part of a set or a number once; of each relation that a part names it goes
    /// through the triples for each object, or each pair of objects. Takes no memory.
    pub fn holds(&self, val: &Valuation, scope: Scope) -> bool
        requires { IsScope scope }
        ensures { result ≡ holds_lem self.now (reading_of scope.objects scope.ints val.now.pairs) }
    {
        let view = View {
            objects: scope.objects,
            ints: scope.ints,
            pairs: val.pairs.as_slice(),
        };
        is_true(self, view)
    }
}
