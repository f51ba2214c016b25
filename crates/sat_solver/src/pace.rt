/// How many conflicts there are before the search begins again for the first time.
const FIRST: u64 = 500;

/// When the search begins again from level 0: after a number of conflicts that grows by half each time.
#[derive(Drop)]
pub(crate) struct Pace {
    /// How many conflicts this time has in all.
    span: u64,
    /// How many of them are left.
    left: u64,
}

impl Pace {
    /// The first time, at its start.
    pub(crate) fn new() -> Pace {
        Pace {
            span: FIRST,
            left: FIRST,
        }
    }

    /// Counts a conflict. Answers whether it was the last one of this time, and then starts the next.
    pub(crate) fn is_over(&mut self) -> bool {
        if self.left > 1 {
            self.left -= 1;
            return false;
        }
        self.span = self.span.saturating_add(self.span / 2);
        self.left = self.span;
        true
    }
}
