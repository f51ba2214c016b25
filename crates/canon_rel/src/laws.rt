ghost use Rattle.canon_rel.specs.Canonical.{CanonicalByLinks};

/// A law of the definitions: a start whose values have their kinds fits and is canonical exactly where
/// each object is given by a root or by a class-kind field of an object below it, and the object before
/// it is given first there.
pub fn canonical_by_links()
    ensures { CanonicalByLinks }
{}
