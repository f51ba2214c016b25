ghost use Rattle.std.specs.Prelude.{◌≡◌, ◌∷◌, ◌++◌, [], ℕ, map, length, IfOk};
ghost use Rattle.java_tree.specs.Seen.{class_tree, classes_tree};
ghost use Rattle.declared_names.specs.Faults.{soonest};
ghost use Rattle.declared_names.specs.Seen.{told, on, on_two, Stands};
ghost use Rattle.typed_core.specs.Members.{class_faults, no_counts, nothing_built, seen_class, seen_classes, seen_text, with_class as with_class_lem, counted_parts, fresh_class};

use crate::members::{Built, ClassPart, Counts, Members, all_members, is_first};
use declared_names::{Cause, Fault, World, beside, earlier, pair, unless};
use java_tree::{ClassTree, Tree};
use no_memory::NoMemory;
use refusals::Many;
use sqlite_items::Items;
use std::alloc::Global;
use taco_unit::Name;
use typed_statements::{is_default, modifier_fault, next, word_fault, world};

/// The fault of the head of a class.
#[tactic(auto, using(crate::proofs::Lists::leaves))]
fn class_fault(world: &World<'_>, number: usize, class: &ClassTree) -> Option<Fault>
    ensures { result ≡ soonest (class_faults world.now number (class_tree «class».now)) }
{
    let place = world.classes.place(0, class.name.text.bytes());
    let twice = unless(is_first(place, number), class.name.at, Cause::Twice);
    let many = unless(number != 16, class.name.at, Cause::TooMany(Many::Classes));
    earlier(
        modifier_fault(class.mods.as_slice()),
        earlier(word_fault(&class.name), earlier(twice, many)),
    )
}

/// The members of a class, and what there is behind it.
#[tactic(auto, using(crate::proofs::Lists::parts))]
fn class_members(
    alloc: Global,
    world: &World<'_>,
    number: usize,
    counts: Counts,
    class: &ClassTree,
) -> Result<(Result<Members, Fault>, Counts), NoMemory>
    ensures { let tree = class_tree «class».now in IfOk result (λ r. (r.0 ≡ told (seen_class world.now number counts tree)) × (r.1 ≡ counted_parts (fresh_class counts) tree.members)) }
{
    let fault = class_fault(world, number, class);
    let fresh = Counts {
        invariants: 0,
        ..counts
    };
    let default = is_default(class.mods.as_slice());
    let (made, behind) = all_members(
        alloc,
        world,
        number,
        default,
        fresh,
        class.members.as_slice(),
    )?;
    Ok((beside(fault, made), behind))
}

fn add_class(
    alloc: Global,
    mut built: Built,
    class: &ClassTree,
    members: Members,
) -> Result<Built, NoMemory>
    ensures { IfOk result (λ b. b ≡ with_class_lem built (class_tree «class».now) members) }
{
    let name = Name::new(alloc, class.name.text.bytes())?;
    let Members {
        invariants,
        fields,
        methods,
    } = members;
    built.classes.push(ClassPart { name, invariants })?;
    built.fields.append(fields)?;
    built.methods.append(methods)?;
    Ok(built)
}

/// One class more, where there may be faults.
#[tactic(auto, using(crate::proofs::Lists::leaves))]
fn with_class(
    alloc: Global,
    built: Result<Built, Fault>,
    class: &ClassTree,
    members: Result<Members, Fault>,
) -> Result<Result<Built, Fault>, NoMemory>
    ensures { let tree = class_tree «class».now in IfOk result (λ r. r ≡ on_two built members (λ b ms. told (Stands (with_class_lem b tree ms)))) }
{
    match pair(built, members) {
        Ok((built, members)) => {
            let built = add_class(alloc, built, class, members)?;
            Ok(Ok(built))
        }
        Err(fault) => Ok(Err(fault)),
    }
}

/// All classes.
fn classes(
    alloc: Global,
    world: &World<'_>,
    trees: &[ClassTree],
) -> Result<Result<Built, Fault>, NoMemory>
    ensures { IfOk result (λ r. r ≡ told (seen_classes world.now 0 no_counts (Stands nothing_built) (map class_tree trees.now))) }
{
    let mut done = Ok(Built {
        classes: Items::new(alloc),
        fields: Items::new(alloc),
        methods: Items::new(alloc),
    });
    let mut number = 0;
    let mut counts = Counts {
        fields: 0,
        references: 0,
        methods: 0,
        invariants: 0,
    };
    for tree in trees {
        let (made, behind) = class_members(alloc, world, number, counts, tree)?;
        done = with_class(alloc, done, tree, made)?;
        counts = behind;
        number = next(number);
    }
    Ok(done)
}

/// What a text stands for, but for the lists of its classes, or its fault.
pub(crate) fn built(alloc: Global, tree: &Tree) -> Result<Result<Built, Fault>, NoMemory>
    ensures { IfOk result (λ r. r ≡ told (seen_text (classes_tree tree.now))) }
{
    let world = world(alloc, tree)?;
    classes(alloc, &world, tree.classes.as_slice())
}
