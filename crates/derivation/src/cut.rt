ghost use Rattle.std.specs.Prelude.{IsTrue, MatchOption};
ghost use Rattle.derivation.specs.Cuts.{lacks, IsCut};

/// What stands before the first such byte, and what behind it.
pub(crate) fn cut_at(bytes: &[u8], byte: u8) -> Option<(&[u8], &[u8])>
    ensures { MatchOption result (IsTrue (lacks byte bytes.now)) (λ parts. IsCut byte bytes.now parts.0.now parts.1.now) }
{
    for (place, read) in bytes.iter().enumerate() {
        if *read == byte {
            let (front, _) = bytes.split_at(place);
            let (_, behind) = bytes.split_at(place + 1);
            return Some((front, behind));
        }
    }
    None
}
