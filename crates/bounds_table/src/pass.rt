use crate::rule::View;
use atomic_table::Seat;
use std::marker::Model;

/// What one thread knows of a shared table. It has no bytes, and no two are one worker.
#[derive(Drop)]
pub struct Pass {
    pub(crate) seat: Seat<(), View>,
}

impl Model for Pass {
    ghost use Rattle.bounds_table.specs.Rule.{PassOf};

    ghost Value = { PassOf };

    ghost use Rattle.taco_unit.specs.contracts.expr.Expr as e;
    ghost use Rattle.taco_unit.specs.contracts.stmt.Stmt as s;
    ghost use Rattle.std.specs.Coded.{codes};

    ghost coded = { Prim.hlevel (codes, e.the_row.coded, s.the_row.coded) };

    ghost use Rattle.std.specs.Prelude.{◌≡◌, [], IfSome};
    ghost use Rattle.bounds_table.specs.Plays.{IsRight};

    ghost view = { λ p. record { table = p.seat.table_id; problem = p.seat.me.0.problem; known = p.seat.me.0.known } };

    ghost invariant = { λ p. (p.seat.me.1 ≡ []) × IfSome p.seat.me.0.problem (λ q. IsRight q p.seat.me.0.known) };
}
