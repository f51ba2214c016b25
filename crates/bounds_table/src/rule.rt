//! The rule of the shared words, and what each step on them tells.

use crate::known::Known;
use atomic_table::{Join, Play, Split, TableRule};
use heap_core::Problem;

/// What a pass knows, and of which problem. No value of it is made.
pub struct View {
    /// None where a join has taken the pass in.
    pub problem: Option<Problem>,
    pub known: Known,
}

/// The words and the views show a state of the table that is sound.
pub struct Sound;

impl TableRule<(), View, Problem> for Sound {
    ghost use Rattle.bounds_table.specs.Rule.{Stands, first_view};

    ghost holds = { Stands };

    ghost first = { first_view };
}

/// A load of a table word.
pub struct Copies;

impl Play<(), View> for Copies {
    ghost use Rattle.bounds_table.specs.Plays.{copies};

    ghost then = { copies };
}

/// A fetch_and on a table word.
pub struct Clears;

impl Play<(), View> for Clears {
    ghost use Rattle.bounds_table.specs.Plays.{clears};

    ghost then = { clears };
}

/// A fetch_or on a kept word.
pub struct Keeps;

impl Play<(), View> for Keeps {
    ghost use Rattle.bounds_table.specs.Plays.{keeps};

    ghost then = { keeps };
}

/// A load of a kept word.
pub struct Sees;

impl Play<(), View> for Sees {
    ghost use Rattle.bounds_table.specs.Plays.{sees};

    ghost then = { sees };
}

/// A fetch_or on a claim word.
pub struct Claims;

impl Play<(), View> for Claims {
    ghost use Rattle.bounds_table.specs.Plays.{claims};

    ghost then = { claims };
}

/// A new pass has seen what the old one has, and has no claims.
pub struct Parts;

impl Split<View> for Parts {
    ghost use Rattle.bounds_table.specs.Rule.{newcomer};

    ghost left = { λ v. v };

    ghost right = { newcomer };
}

/// A pass takes in what the other knows.
pub struct Meets;

impl Join<View> for Meets {
    ghost use Rattle.bounds_table.specs.Rule.{both_views, spent};

    ghost both = { both_views };

    ghost spent = { spent };
}
