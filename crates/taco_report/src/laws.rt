ghost use Rattle.taco_report.specs.States.{OneStart};

use heap_core::{Problem, well_posed};

/// A law: a start has one text, which is `state_text` of it, and a text says one start at most. So
/// what `read_state` answers is the only start of the text. The call does nothing.
pub fn a_state_has_one_text_and_a_text_one_start(problem: &Problem)
    ensures { OneStart problem.now }
{
    well_posed(problem);
}
