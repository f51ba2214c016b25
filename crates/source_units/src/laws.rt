ghost use Rattle.std.specs.Prelude.{◌≡◌, IsTrue, ℕ, List};
ghost use Rattle.java_tree.specs.Trees.{Classes};
ghost use Rattle.java_reader.specs.Source.{IsText};
ghost use Rattle.source_units.specs.Names.{are_named};
ghost use Rattle.source_units.specs.Told.{Holds, Verdict};

/// Bytes are the text of one unit at most, or have one first fault, and not both. It does nothing when it runs: its
/// contract is the law.
pub fn bytes_have_one_unit_or_one_first_fault()
    ensures { (bytes : List ℕ) (a b : Verdict) → Holds bytes a → Holds bytes b → a ≡ b }
{}

/// The classes of a text, their fields, methods and parameters have words for names, so that no text has the fault that
/// a tree has where a declared name is none. It does nothing when it runs: its contract is the law.
pub fn a_text_declares_words()
    ensures { (bytes : List ℕ) (classes : Classes) → IsText bytes classes → IsTrue (are_named classes) }
{}
