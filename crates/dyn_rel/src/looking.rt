//! Which variables are looked at from before a program on: a pass from its end.

ghost use Rattle.std.specs.Prelude.{◌≡◌, ◌++◌, [], ◌∷◌, ◌||◌, ℕ, false, true, List, Bool, IfOk, get_or, length, map, replicate, slice_set};
ghost use Rattle.dyn_steps.specs.Looked.{Vars, looked_at};
ghost use Rattle.dyn_rel.specs.Looking.{looked_in_turn, looked_by_any, looked_from, IsList, all_united, is_single as is_single_lem, IsBehind, AreBehind};

use dyn_core::{Act, Prog};
use no_memory::NoMemory;
use sqlite_items::Items;
use std::alloc::Global;

/// Whether a variable is in a set.
pub(crate) fn is_in(set: &[bool], variable: usize) -> bool
    ensures { result ≡ get_or set.now variable false }
{
    set.get(variable).copied().unwrap_or(false)
}

/// So many variables, which are all in the set, or none is.
pub(crate) fn filled(alloc: Global, count: usize, inside: bool) -> Result<Items<bool>, NoMemory>
    ensures { IfOk result (λ set. set ≡ replicate count inside) }
{
    let mut set = Items::from_vec(Vec::with_capacity(alloc, count)?);
    for _place in 0..count {
        set.push(inside)?;
    }
    Ok(set)
}

/// The set, with a variable in it or not. One that has no place has none afterwards.
fn with(set: Items<bool>, variable: u16, inside: bool) -> Items<bool>
    ensures { result ≡ slice_set set variable inside }
{
    let mut set = set;
    if usize::from(variable) < set.len() {
        set.set(usize::from(variable), inside);
    }
    set
}

/// Whether a variable is in either of two sets.
fn is_in_either(first: &[bool], second: &[bool], variable: usize) -> bool
    ensures { result ≡ (get_or first.now variable false || get_or second.now variable false) }
{
    is_in(first, variable) || is_in(second, variable)
}

/// The variables of either set.
fn united(alloc: Global, first: &[bool], second: &[bool]) -> Result<Items<bool>, NoMemory>
    ensures { IfOk result (λ both. both ≡ all_united first.now second.now) }
{
    let mut both = Items::from_vec(Vec::with_capacity(alloc, first.len())?);
    for place in 0..first.len() {
        let inside = is_in_either(first, second, place);
        both.push(inside)?;
    }
    Ok(both)
}

/// One variable is set to what is found from two others.
fn before_operator(set: Items<bool>, target: u16, left: u16, right: u16) -> Items<bool>
    ensures { result ≡ slice_set (slice_set (slice_set set target false) right true) left true }
{
    let set = with(set, target, false);
    let set = with(set, right, true);
    with(set, left, true)
}

/// One variable is set to what is found from another.
fn before_copy(set: Items<bool>, target: u16, source: u16) -> Items<bool>
    ensures { result ≡ slice_set (slice_set set target false) source true }
{
    let set = with(set, target, false);
    with(set, source, true)
}

/// Two variables are looked at.
fn before_write(set: Items<bool>, object: u16, value: u16) -> Items<bool>
    ensures { result ≡ slice_set (slice_set set value true) object true }
{
    let set = with(set, value, true);
    with(set, object, true)
}

/// Those that are looked at from before an action on.
fn before_act(set: Items<bool>, act: Act) -> Items<bool>
    ensures { (n : ℕ) (vars : Vars) → IsList n vars set → IsList n (looked_at act vars) result }
{
    match act {
        Act::Copy(target, source) => before_copy(set, target, source),
        Act::Const(target, _) => with(set, target, false),
        Act::Sum(target, left, right) => before_operator(set, target, left, right),
        Act::Diff(target, left, right) => before_operator(set, target, left, right),
        Act::Product(target, left, right) => before_operator(set, target, left, right),
        Act::Same(target, left, right) => before_operator(set, target, left, right),
        Act::Below(target, left, right) => before_operator(set, target, left, right),
        Act::Read(target, object, _) => before_copy(set, target, object),
        Act::Write(object, _, value) => before_write(set, object, value),
        Act::Make(target, _) => with(set, target, false),
    }
}

/// Those that are looked at from before all parts on, by those that are looked at behind the last.
#[cycle(looking)]
fn before_all(alloc: Global, set: Items<bool>, parts: &[Prog]) -> Result<Items<bool>, NoMemory>
    ensures { IfOk result (λ r. (n : ℕ) (vars : Vars) → IsList n vars set → IsList n (looked_in_turn (map looked_from parts.now) vars) r) }
{
    let mut looked = set;
    for done in 0..parts.len() {
        looked = before(alloc, looked, &parts[parts.len() - 1 - done])?;
    }
    Ok(looked)
}

/// Those that are looked at from before any of the branches on.
#[cycle(looking)]
fn before_any(alloc: Global, set: &[bool], branches: &[Prog]) -> Result<Items<bool>, NoMemory>
    ensures { IfOk result (λ r. (n : ℕ) (vars : Vars) → IsList n vars set.now → IsList n (looked_by_any (map looked_from branches.now) vars) r) }
{
    let mut all = filled(alloc, set.len(), false)?;
    for branch in branches {
        let behind = Items::from_slice(alloc, set)?;
        let looked = before(alloc, behind, branch)?;
        all = united(alloc, all.as_slice(), looked.as_slice())?;
    }
    Ok(all)
}

/// Those that are looked at from before a program on. Linear in the program, and at each choice in the variables for each
/// branch.
#[cycle(looking)]
fn before(alloc: Global, set: Items<bool>, prog: &Prog) -> Result<Items<bool>, NoMemory>
    ensures { IfOk result (λ r. (n : ℕ) (vars : Vars) → IsList n vars set → IsList n (looked_from prog.now vars) r) }
{
    match prog {
        Prog::Act(act) => Ok(before_act(set, *act)),
        Prog::Test(flag, _) => Ok(with(set, *flag, true)),
        Prog::Seq(parts) => {
            let looked = before_all(alloc, set, parts.as_slice())?;
            Ok(looked)
        }
        Prog::Choice(branches) => {
            let looked = before_any(alloc, set.as_slice(), branches.as_slice())?;
            Ok(looked)
        }
        Prog::Star(_) => Ok(set),
    }
}

/// Whether a program is an action or a test, which joins nothing.
#[tactic(auto, using(crate::proofs::LookedSets::single_forms))]
fn is_single(prog: &Prog) -> bool
    ensures { result ≡ is_single_lem prog.now }
{
    match prog {
        Prog::Act(_) => true,
        Prog::Test(_, _) => true,
        Prog::Seq(_) => false,
        Prog::Choice(_) => false,
        Prog::Star(_) => false,
    }
}

/// The set, kept for a program in which something is joined.
fn kept(alloc: Global, set: &[bool], prog: &Prog) -> Result<Items<bool>, NoMemory>
    ensures { IfOk result (λ r. (n : ℕ) (vars : Vars) → IsList n vars set.now → IsBehind prog.now n vars r) }
{
    if is_single(prog) {
        Ok(Items::new(alloc))
    } else {
        let same = Items::from_slice(alloc, set)?;
        Ok(same)
    }
}

/// What is looked at behind each of the parts, that of the last part first; nothing is kept for an action or a test.
pub(crate) fn sets_behind(
    alloc: Global,
    set: &[bool],
    parts: &[Prog],
) -> Result<Items<Items<bool>>, NoMemory>
    ensures { IfOk result (λ sets. (n : ℕ) (vars : Vars) → IsList n vars set.now → AreBehind n vars parts.now sets) }
{
    let mut looked = Items::from_slice(alloc, set)?;
    let mut sets = Items::from_vec(Vec::with_capacity(alloc, parts.len())?);
    for done in 0..parts.len() {
        let part = &parts[parts.len() - 1 - done];
        let behind = kept(alloc, looked.as_slice(), part)?;
        sets.push(behind)?;
        looked = before(alloc, looked, part)?;
    }
    Ok(sets)
}

/// The last set, which goes out of the list.
pub(crate) fn last_set(alloc: Global, sets: &mut Items<Items<bool>>) -> Items<bool>
    ensures { (rest : List (List Bool)) (set : List Bool) → sets.old ≡ rest ++ set ∷ [] → (result ≡ set) × (sets.new ≡ rest) }
{
    match sets.pop() {
        Some(set) => set,
        None => Items::new(alloc),
    }
}
