ghost use Rattle.canonical_order.specs.Laws.{EachHasOneVisit};
ghost use Rattle.canonical_order.specs.Links.{VisitsByLinks};

/// A law of the definitions: each start that fits has exactly one visit.
pub fn each_start_has_one_visit()
    ensures { EachHasOneVisit }
{}

/// A law of the definitions: the visit of a start that fits may be read off what the class-kind
/// fields of its objects give, in the order of the unit, instead of the cells of its objects.
pub fn visits_by_links()
    ensures { VisitsByLinks }
{}
