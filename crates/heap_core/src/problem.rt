ghost use Rattle.std.specs.Prelude.{◌≡◌, ◌≤◌, ◌<◌, length, slice_get, Some};
ghost use Rattle.heap_core.specs.Posed.{InRange};
ghost use Rattle.heap_core.specs.Start.{method_of};
ghost use Rattle.taco_unit.specs.Well.{IsWell};

use std::marker::Model;
use taco_unit::{MethodDef, Scope, Unit};

/// A method of a unit that is to be judged within a scope. The scope's numbers lie in the ranges that
/// `Scope` names, and the method is one of the unit's.
#[derive(Drop)]
pub struct Problem {
    pub unit: Unit,
    pub method: u8,
    pub scope: Scope,
}

impl Model for Problem {
    ghost use Rattle.heap_core.specs.Posed.{Posed};

    ghost Value = { Posed };

    ghost use Rattle.taco_unit.specs.contracts.expr.Expr as e;
    ghost use Rattle.taco_unit.specs.contracts.stmt.Stmt as s;
    ghost use Rattle.std.specs.Coded.{codes};

    ghost coded = { Prim.hlevel (codes, e.the_row.coded, s.the_row.coded) };

    ghost use Rattle.heap_core.specs.Posed.{InRange};

    ghost view = { λ p. record { unit = p.unit; method = p.method; scope = p.scope } };

    ghost invariant = { λ p. InRange (record { unit = p.unit; method = p.method; scope = p.scope }) };
}

/// The method of this number.
fn method_at(unit: &Unit, method: u8) -> &MethodDef
    requires { method < length unit.now.methods }
    ensures there { slice_get unit.now.methods method ≡ Some result.now }
    ensures few { length result.now.params ≤ 8 }
{
    &unit.methods.as_slice()[usize::from(method)]
}

/// The method that is judged: it has at most 8 parameters. Takes no memory.
pub fn method_in(problem: &Problem) -> &MethodDef
    ensures there { method_of problem.now ≡ Some result.now }
    ensures few { length result.now.params ≤ 8 }
{
    method_at(&problem.unit, problem.method)
}

/// What is so of every problem: its unit is well (names, kinds and numbers of clauses), and its
/// scope lies in the ranges of scopes.
pub fn well_posed(problem: &Problem)
    ensures unit { IsWell problem.now.unit }
    ensures scope { InRange problem.now }
{
    let _classes = &problem.unit.classes;
    let _scope = problem.scope;
}
