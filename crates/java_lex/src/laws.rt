ghost use Rattle.std.specs.Prelude.{◌≡◌, ◌≤◌, ℕ, Bool, List, All, IsTrue, length};
ghost use Rattle.java_lex.specs.declared.token.Token.{Token};
ghost use Rattle.java_lex.specs.Cut.{BadAt, Cut};
ghost use Rattle.java_lex.specs.Spellings.{stands, symbol_len, symbols};

/// A text has one list of tokens or one first bad place, and not both. It does nothing when it runs: its
/// contract is the law.
pub fn a_text_is_cut_in_one_way()
    ensures tokens { (text : List ℕ) (ts us : List Token) → Cut text ts → Cut text us → ts ≡ us }
    ensures either { (text : List ℕ) (ts : List Token) (at : ℕ) → Cut text ts → BadAt text at → ⊥ }
    ensures place { (text : List ℕ) (at other : ℕ) → BadAt text at → BadAt text other → at ≡ other }
{}

/// No symbol that means something there and stands first is longer than the one that is read. It does
/// nothing when it runs: its contract is the law.
pub fn symbols_are_as_long_as_they_can_be()
    ensures { (jml : Bool) (text : List ℕ) (n : ℕ) → symbol_len jml text ≡ Some n → All (λ s. IsTrue (stands jml text s) → length s.0 ≤ n) symbols }
{}
