ghost use Rattle.std.specs.Prelude.{◌≡◌, ◌≤◌};
ghost use Rattle.taco_io.specs.Counts.{one_more};
ghost use Rattle.taco_io.specs.Planned.{IsFreshPlan, is_due};

/// Which calls of an object in memory are to fail, and its counts.
#[derive(Debug, Drop)]
pub struct FaultPlan {
    /// The numbers of the calls that fail, counted from 0.
    failing: Vec<u64>,
    /// How many calls there were.
    calls: u64,
    /// How many of them failed.
    faults: u64,
}

impl FaultPlan {
    pub(crate) fn new(failing: Vec<u64>) -> FaultPlan
        ensures { IsFreshPlan failing.items result }
    {
        FaultPlan {
            failing,
            calls: 0,
            faults: 0,
        }
    }

    /// Counts a call, and says whether it is one that is to fail.
    pub(crate) fn is_next_due(&mut self) -> bool
        ensures due { result ≡ is_due self.old }
        ensures counted { self.new ≡ record self.old { calls = one_more self.old.calls } }
    {
        let due = self.failing.contains(&self.calls);
        self.calls = self.calls.saturating_add(1);
        due
    }

    /// Counts a call that failed.
    pub(crate) fn fail(&mut self)
        ensures counted { self.new ≡ record self.old { faults = one_more self.old.faults } }

        // The count is a u64, and so it stays below the bound that a clause alone does not show.
        ensures later { self.old.faults ≤ self.new.faults }
    {
        self.faults = self.faults.saturating_add(1);
    }
}
