ghost use Rattle.rel_core.specs.Laws.{HeapsAreRead, StartsAreOne, StartsAreShown, StatesAreShown};

/// A law of the definitions: each state within the scope of a problem is shown, at index 0, by its
/// reading, which is one of the problem.
pub fn states_are_shown()
    ensures { StatesAreShown }
{}

/// A law of the definitions: so is each start that fits.
pub fn starts_are_shown()
    ensures { StartsAreShown }
{}

/// A law of the definitions: a heap that is shown is read from its relations: which objects of which
/// classes are there, and what each field gives at null, at an object that is not there, at one of the
/// field's class, and at one of another class.
pub fn heaps_are_read()
    ensures { HeapsAreRead }
{}

/// A law of the definitions: of the starts that fit a problem a reading shows one at most, at given
/// indices, and that one is computed from its relations.
pub fn starts_are_one()
    ensures { StartsAreOne }
{}
