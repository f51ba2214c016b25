ghost use Rattle.tuple_sets.specs.Occurring.{GoodStartsArePossible};

/// A law of the definitions: the tuples of a canonical start that fits and whose heap is good are all
/// possible.
pub fn good_starts_are_possible()
    ensures { GoodStartsArePossible }
{}
