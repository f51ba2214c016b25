ghost use Rattle.std.specs.Prelude.{◌≡◌, [], ◌∷◌, ◌++◌, false, IfOk, OnOk};
ghost use Rattle.java_tree.specs.Seen.{classes_tree};
ghost use Rattle.java_tree.specs.Print.{bytes_of, laid_out, pieces, sign_between, tree_written};
ghost use Rattle.java_tree.specs.Spaced.{spaced};

use crate::members::Tree;
use crate::print_members::push_classes;
use crate::printed::Printed;
use no_memory::NoMemory;
use std::alloc::Global;

/// Adds what stands between tokens on the two sides, with a space behind it.
fn push_sign(text: &mut Vec<u8>, before: bool, behind: bool) -> Result<(), NoMemory>
    ensures { OnOk result (text.new.items ≡ text.old.items ++ spaced (sign_between before behind)) }
{
    match (before, behind) {
        (false, true) => text.extend_from_slice(b"/*@ ")?,
        (true, false) => text.extend_from_slice(b"@*/ ")?,
        (false, false) => {}
        (true, true) => {}
    }
    Ok(())
}

/// Adds a token with a space behind it.
fn push_word(text: &mut Vec<u8>, word: &Printed<'_>) -> Result<(), NoMemory>
    ensures { OnOk result (text.new.items ≡ text.old.items ++ spaced (bytes_of word.now.1 ∷ [])) }
{
    word.push_to(text)?;
    text.push(b' ')?;
    Ok(())
}

/// The text of tokens, with a space behind each piece.
fn spaced_text(alloc: Global, words: &[Printed<'_>]) -> Result<Vec<u8>, NoMemory>
    ensures { IfOk result (λ text. text.items ≡ spaced (pieces false words.now)) }
{
    let mut text = Vec::new(alloc);
    let mut inside = false;
    for word in words {
        push_sign(&mut text, inside, word.jml())?;
        push_word(&mut text, word)?;
        inside = word.jml();
    }
    push_sign(&mut text, inside, false)?;
    Ok(text)
}

/// The text of tokens: their pieces parted by one space, and a line feed.
#[tactic(auto, using(crate::proofs::SpacedLemmas::joined))]
fn lay_out(alloc: Global, words: &[Printed<'_>]) -> Result<Vec<u8>, NoMemory>
    ensures { IfOk result (λ text. text.items ≡ laid_out words.now) }
{
    let mut text = spaced_text(alloc, words)?;
    let _space = text.pop();
    text.push(b'\n')?;
    Ok(text)
}

/// The text of a tree: its tokens in the order of the grammar, parted by one space, and a line feed behind
/// them. Each longest run of tokens of annotations stands between `/*@` and `@*/`. Modifiers stand as the tree
/// has them, and each field has a declaration of its own. The cost is the text's length.
pub fn print(alloc: Global, tree: &Tree) -> Result<Vec<u8>, NoMemory>
    ensures { IfOk result (λ text. text.items ≡ laid_out (tree_written (classes_tree tree.now))) }
{
    let mut words = Vec::new(alloc);
    push_classes(&mut words, tree.classes.as_slice())?;
    lay_out(alloc, words.as_slice())
}
