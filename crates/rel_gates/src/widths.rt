ghost use Rattle.std.specs.Prelude.{◌≡◌, ◌≤◌, ℕ, Some, None, length, option_map};
ghost use Rattle.rel_core.specs.Uses.{use_of, use_of_kind};
ghost use Rattle.rel_gates.specs.Shown.{class_bits as class_bits_lem, width_of, rows_of};

use heap_core::{Problem, well_posed};
use rel_core::What;
use taco_unit::Kind;

/// How many classes the unit has.
pub(crate) fn class_count(problem: &Problem) -> usize
    ensures count { result ≡ length problem.now.unit.classes }
    ensures some { 1 ≤ length problem.now.unit.classes }
    ensures few { result ≤ 16 }
{
    well_posed(problem);
    problem.unit.classes.len()
}

/// As many bits as the class numbers of a unit need: at most four.
#[tactic(auto, using(crate::proofs::ClassBits::class_widths))]
pub(crate) fn class_bits(problem: &Problem) -> usize
    ensures bits { result ≡ class_bits_lem problem.now }
    ensures few { result ≤ 4 }
{
    let classes = problem.unit.classes.len();
    if classes > 8 {
        return 4;
    }
    if classes > 4 {
        return 3;
    }
    if classes > 2 {
        return 2;
    }
    if classes > 1 {
        return 1;
    }
    0
}

/// How many gates a value of a kind has: a reference, a number or a truth value.
pub(crate) fn kind_width(problem: &Problem, kind: Kind) -> usize
    ensures width { result ≡ width_of problem.now (use_of_kind kind) }
    ensures few { result ≤ 256 }
{
    match kind {
        Kind::Int => usize::from(problem.scope.ints),
        Kind::Flag => 1,
        Kind::Ref(_) => usize::from(problem.scope.objects) + 1,
    }
}

/// How many gates a row of a relation has that is no variable, where it is one of the unit.
pub(crate) fn spread_width(problem: &Problem, what: What) -> Option<usize>
    ensures width { result ≡ option_map (width_of problem.now) (use_of problem.now (λ x. None) what) }
    ensures few { (width : ℕ) → result ≡ Some width → width ≤ 256 }
{
    match what {
        What::Live => Some(1),
        What::ClassOf => Some(class_bits(problem)),
        What::Field(field) => match problem.unit.fields.get(usize::from(field)) {
            Some(def) => Some(kind_width(problem, def.kind)),
            None => None,
        },
        What::Slot(_) => None,
    }
}

/// How many rows a relation has: a variable one, and every other relation one for each object.
pub(crate) fn row_count(problem: &Problem, what: What) -> usize
    ensures rows { result ≡ rows_of problem.now what }
    ensures few { result ≤ 255 }
{
    match what {
        What::Slot(_) => 1,
        _ => usize::from(problem.scope.objects),
    }
}
