ghost use Rattle.bounds_table.specs.Core.{StaysSafe, NeverGoesBack, OthersKeepAll, IsClaimedOnce, ClaimsAreApart};
ghost use Rattle.bounds_table.specs.Marks.{ExactMarksAgree};

/// A law: after every list of lawful events from the opening state the state is safe.
pub fn stays_safe()
    ensures { StaysSafe }
{}

/// A law: no worker regains a tuple, or loses a kept one, or forgets a claim.
pub fn never_goes_back()
    ensures { NeverGoesBack }
{}

/// A law: what a worker knows, and that it is live, is changed by no event of others.
pub fn others_keep_all()
    ensures { OthersKeepAll }
{}

/// A law: of all claims of one pair of round and tuple one at most is answered true.
pub fn claimed_once()
    ensures { IsClaimedOnce }
{}

/// A law: of a sound state, a claimed pair is in the claims of exactly one live worker, and a pair that
/// is not claimed in those of none.
pub fn claims_are_apart()
    ensures { ClaimsAreApart }
{}

/// A law: two exact marks of one problem are the same at each tuple.
pub fn exact_marks_agree()
    ensures { ExactMarksAgree }
{}
