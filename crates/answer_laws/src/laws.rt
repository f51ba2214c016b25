ghost use Rattle.std.specs.Prelude.{ℕ, List, Option};
ghost use Rattle.answer_laws.specs.OneStatus.{OneRun, OneStatus};
ghost use Rattle.answer_laws.specs.Places.{OneBadLine, OneBadState, OneFault};
ghost use Rattle.taco_words.specs.declared.request.Request.{Request};

/// Two answers to one request, over contents that tell every file of it, have one status, and where it is a refusal one
/// output; of a search with a budget above 0 one may be Done and the other Unknown. So for two calls over the same contents
/// whose memory sufficed, with no read and no push that failed. It does nothing when it runs: its contract is the law.
pub fn one_request_has_one_status()
    ensures answers { (asked : Option Request) (told : List ℕ → Option (List ℕ)) → OneStatus asked told }
    ensures calls { (asked : Option Request) → OneRun asked }
{}

/// A text that is refused is refused at one place: the text of a state at its first line that is not right, that of a
/// formula at its first fault, and that of a log at its first wrong line. It does nothing when it runs: its contract is the
/// law.
pub fn a_refused_text_has_one_place()
    ensures state { OneBadState }
    ensures formula { OneFault }
    ensures log { OneBadLine }
{}
