ghost use Rattle.std.specs.Prelude.{ℕ, List};
ghost use Rattle.java_lex.specs.declared.token.Token.{Token};
ghost use Rattle.java_lex.specs.Cut.{Cut};
ghost use Rattle.text_reading.specs.Readers.{text_at};
ghost use Rattle.text_reading.specs.Verdicts.{Ended, Judged, Tells, Verdict};

/// Tokens that end with the end of the text, and have it nowhere else, are a text with one tree alone, all of its
/// levels being within the limit, or they have one first token at fault: for what it is, whatever levels are opened, or
/// for the level that it opens. One of the three holds, in one way. It does nothing when it runs: its contract is the law.
pub fn tokens_are_one_text_or_have_one_fault()
    ensures { (tokens : List Token) → Ended tokens → Judged tokens }
{}

/// The same of the bytes that are cut into tokens. It does nothing when it runs: its contract is the law.
pub fn a_text_of_bytes_is_judged()
    ensures { (bytes : List ℕ) (tokens : List Token) → Cut bytes tokens → Judged tokens }
{}

/// What reading gives is the verdict that holds of the tokens: it gives a tree with no tokens left exactly where they
/// are a text with that tree, and it stops at a token exactly where this is the first at fault, of the same kind. It
/// does nothing when it runs: its contract is the law.
pub fn reading_tells_the_verdict()
    ensures { (bytes : List ℕ) (tokens : List Token) → Cut bytes tokens → (verdict : Verdict) → Tells tokens (text_at tokens) verdict }
{}
