ghost use Rattle.std.specs.Prelude.{◌≡◌, ◌++◌, ◌∷◌, [], length, None, Some, option_map, IfOk};
ghost use Rattle.java_tree.specs.Seen.{reach_class, reach_fields};
ghost use Rattle.declared_names.specs.Faults.{soonest};
ghost use Rattle.declared_names.specs.Seen.{told, on, on_two};
ghost use Rattle.declared_names.specs.Lookups.{in_clause, place_in};
ghost use Rattle.typed_forms.specs.Clauses.{class_sort as class_sort_lem, has_of, is_clause as is_clause_lem, is_exit as is_exit_lem, link_faults, link_number as link_number_lem, links_faults, old_of, quantified as quantified_lem, quantifier as quantifier_lem, quantifier_faults, range_faults, reach_faults, reached as reached_lem, result_of, size_of, variable as variable_lem};

use crate::operators::{wanted, wants};
use crate::typed::{Typed, byte, make_typed};
use declared_names::{
    Cause, Declared, Fault, Form, Here, Slot, Sort, World, class_place, declared_slot, earlier,
    field_slot, is_object, local_slot, pair, unless,
};
use java_tree::{Ident, ReachTree};
use no_memory::NoMemory;
use refusals::Many;
use sqlite_items::{Boxed, Items};
use std::alloc::Global;
use taco_unit::{Expr, Name, Quant, Reach};

pub fn is_clause(form: Form) -> bool
    ensures { result ≡ is_clause_lem form }
{
    match form {
        Form::Code => false,
        Form::Entry => true,
        Form::Exit => true,
        Form::Past => true,
    }
}

/// Whether `\result` and `\old` may stand.
pub fn is_exit(form: Form) -> bool
    ensures { result ≡ is_exit_lem form }
{
    match form {
        Form::Code => false,
        Form::Entry => false,
        Form::Exit => true,
        Form::Past => false,
    }
}

/// `\result`, where it has a kind.
#[tactic(auto, unfolding(declared_names::specs::Seen::told, declared_names::specs::Faults::least))]
pub fn result_value(
    alloc: Global,
    at: u32,
    exit: bool,
    sort: Option<Sort>,
) -> Result<Result<Typed, Fault>, NoMemory>
    ensures { IfOk result (λ r. r ≡ told (result_of at exit sort)) }
{
    if exit {
        match sort {
            Some(sort) => make_typed(alloc, at, sort, Expr::Result),
            None => Ok(Err(Fault {
                at,
                cause: Cause::Kinds,
            })),
        }
    } else {
        Ok(Err(Fault {
            at,
            cause: Cause::Kinds,
        }))
    }
}

/// `\old` of a value.
#[tactic(auto, using(declared_names::proofs::Told::told_leaves))]
fn old(alloc: Global, at: u32, exit: bool, value: Typed) -> Result<Result<Typed, Fault>, NoMemory>
    ensures { IfOk result (λ r. r ≡ told (old_of at exit value)) }
{
    match unless(exit, at, Cause::Kinds) {
        Some(fault) => Ok(Err(fault)),
        None => make_typed(alloc, at, value.sort, Expr::Old(value.expr)),
    }
}

/// The same, where the value may have faults.
pub fn old_value(
    alloc: Global,
    at: u32,
    exit: bool,
    value: Result<Typed, Fault>,
) -> Result<Result<Typed, Fault>, NoMemory>
    ensures { IfOk result (λ r. r ≡ on value (λ x. told (old_of at exit x))) }
{
    match value {
        Ok(value) => old(alloc, at, exit, value),
        Err(fault) => Ok(Err(fault)),
    }
}

/// The kind of objects of a class, if it is one.
fn class_sort(owner: Option<usize>) -> Sort
    ensures { result ≡ class_sort_lem owner }
{
    match owner {
        Some(owner) => Sort::Object(owner),
        None => Sort::Loose,
    }
}

/// The variable of a quantifier inside those with these variables.
fn variable(
    alloc: Global,
    world: &World<'_>,
    bound: &[Declared],
    kind: &Ident,
    name: &Ident,
) -> Result<Declared, NoMemory>
    ensures { IfOk result (λ d. d ≡ variable_lem world.now bound.now kind.now name.now) }
{
    Ok(Declared {
        name: Name::new(alloc, name.text.bytes())?,
        sort: class_sort(class_place(world, kind)),
        number: bound.len(),
    })
}

/// The same variables, copied.
fn copied(alloc: Global, bound: &[Declared]) -> Result<Items<Declared>, NoMemory>
    ensures { IfOk result (λ ds. ds ≡ bound.now) }
{
    let mut copies = Items::new(alloc);
    for declared in bound {
        copies.push(Declared {
            name: Name::new(alloc, declared.name.bytes())?,
            sort: declared.sort,
            number: declared.number,
        })?;
    }
    Ok(copies)
}

/// The variables inside a quantifier. As no text nests more than 64 levels, they are few.
pub fn with_variable(
    alloc: Global,
    world: &World<'_>,
    bound: &[Declared],
    kind: &Ident,
    name: &Ident,
) -> Result<Items<Declared>, NoMemory>
    ensures { IfOk result (λ ds. ds ≡ bound.now ++ variable_lem world.now bound.now kind.now name.now ∷ []) }
{
    let mut inner = copied(alloc, bound)?;
    inner.push(variable(alloc, world, bound, kind, name)?)?;
    Ok(inner)
}

/// The fault of a quantifier itself.
#[tactic(auto, using(declared_names::proofs::Told::told_leaves), unfolding(crate::specs::Clauses::quantifier_faults))]
fn quantifier_fault(
    world: &World<'_>,
    here: &Here<'_>,
    form: Form,
    bound: &[Declared],
    at: u32,
    kind: &Ident,
    name: &Ident,
) -> Option<Fault>
    ensures { result ≡ soonest (quantifier_faults (in_clause world.now here.now form bound.now) at kind.now name.now) }
{
    let side = unless(is_clause(form), at, Cause::Kinds);
    let known = unless(class_place(world, kind).is_some(), kind.at, Cause::Unknown);
    let fresh = declared_slot(bound, name.text.bytes()).is_none()
        && local_slot(here, &[], name.text.bytes()).is_none();
    let twice = unless(fresh, name.at, Cause::Twice);
    let deep = unless(bound.len() != 4, at, Cause::TooMany(Many::Quantifiers));
    earlier(earlier(earlier(side, known), twice), deep)
}

/// The fault of a range.
#[tactic(auto, using(declared_names::proofs::Told::told_leaves))]
fn range_fault(range: &Option<Typed>) -> Option<Fault>
    ensures { result ≡ soonest (range_faults range.now) }
{
    match range {
        None => None,
        Some(range) => wants(Sort::Flag, range),
    }
}

fn expr_of(range: Option<Typed>) -> Option<Boxed<Expr>>
    ensures { result ≡ option_map (λ r. r.expr) range }
{
    match range {
        None => None,
        Some(range) => Some(range.expr),
    }
}

fn quantifier(
    world: &World<'_>,
    bound: &[Declared],
    all: bool,
    kind: &Ident,
    range: Option<Typed>,
    body: Typed,
) -> Quant
    ensures { result ≡ quantifier_lem world.now bound.now all kind.now range body }
{
    Quant {
        all,
        class: byte(class_place(world, kind).unwrap_or(0)),
        bound: byte(bound.len()),
        range: expr_of(range),
        body: body.expr,
    }
}

/// A quantifier over a range, if there is one, and a body.
#[tactic(auto, using(declared_names::proofs::Told::told_leaves))]
fn quantified(
    alloc: Global,
    world: &World<'_>,
    here: &Here<'_>,
    form: Form,
    bound: &[Declared],
    at: u32,
    all: bool,
    kind: &Ident,
    name: &Ident,
    range: Option<Typed>,
    body: Typed,
) -> Result<Result<Typed, Fault>, NoMemory>
    ensures { IfOk result (λ r. r ≡ told (quantified_lem (in_clause world.now here.now form bound.now) at all kind.now name.now range body)) }
{
    let own = quantifier_fault(world, here, form, bound, at, kind, name);
    let outer = earlier(own, range_fault(&range));
    match earlier(outer, wants(Sort::Flag, &body)) {
        Some(fault) => Ok(Err(fault)),
        None => {
            let expr = quantifier(world, bound, all, kind, range, body);
            make_typed(alloc, at, Sort::Flag, Expr::Quant(expr))
        }
    }
}

/// The fault of a field of a reach.
#[tactic(auto, using(declared_names::proofs::Told::told_leaves))]
fn link_fault(owner: usize, field: &Ident, slot: Option<Slot>) -> Option<Fault>
    ensures { result ≡ soonest (link_faults owner field.now slot) }
{
    match slot {
        None => Some(Fault {
            at: field.at,
            cause: Cause::Unknown,
        }),
        Some(slot) => unless(is_object(owner, slot.sort), field.at, Cause::Kinds),
    }
}

/// The fault of the fields of a reach.
fn links_fault(world: &World<'_>, owner: usize, fields: &[Ident]) -> Option<Fault>
    ensures { result ≡ soonest (links_faults world.now owner fields.now) }
{
    let mut found = None;
    for field in fields {
        let slot = field_slot(world, owner, field.text.bytes());
        found = earlier(found, link_fault(owner, field, slot));
    }
    found
}

/// The fault of a reach.
#[tactic(auto, using(declared_names::proofs::Told::told_leaves))]
fn reach_fault(
    world: &World<'_>,
    kind: &Ident,
    fields: &[Ident],
    root: &Typed,
    found: Option<usize>,
) -> Option<Fault>
    ensures { result ≡ soonest (reach_faults world.now kind.now fields.now root.now found) }
{
    match found {
        None => Some(Fault {
            at: kind.at,
            cause: Cause::Unknown,
        }),
        Some(owner) => earlier(
            unless(is_object(owner, root.sort), root.at, Cause::Kinds),
            links_fault(world, owner, fields),
        ),
    }
}

fn link_number(slot: Option<Slot>) -> u8
    ensures { result ≡ link_number_lem slot }
{
    match slot {
        None => 0,
        Some(slot) => byte(slot.number),
    }
}

fn reach(
    alloc: Global,
    world: &World<'_>,
    kind: &Ident,
    fields: &[Ident],
    root: Typed,
    owner: usize,
) -> Result<Reach, NoMemory>
    ensures { IfOk result (λ r. r ≡ reached_lem world.now kind.now fields.now root owner) }
{
    let mut numbers = Items::new(alloc);
    for field in fields {
        let slot = field_slot(world, owner, field.text.bytes());
        numbers.push(link_number(slot))?;
    }
    Ok(Reach {
        from: root.expr,
        class: byte(owner),
        fields: numbers,
    })
}

/// `.has` of a reach.
#[tactic(auto, using(declared_names::proofs::Told::told_leaves))]
fn has(
    alloc: Global,
    world: &World<'_>,
    at: u32,
    clause: bool,
    kind: &Ident,
    fields: &[Ident],
    root: Typed,
    asked: Typed,
) -> Result<Result<Typed, Fault>, NoMemory>
    ensures { IfOk result (λ r. r ≡ told (has_of world.now at clause kind.now fields.now root asked (place_in world.now.classes 0 kind.now.text))) }
{
    let found = class_place(world, kind);
    let side = unless(clause, at, Cause::Kinds);
    let parts = reach_fault(world, kind, fields, &root, found);
    let other = wants(class_sort(found), &asked);
    match earlier(earlier(side, parts), other) {
        Some(fault) => Ok(Err(fault)),
        None => {
            let set = reach(alloc, world, kind, fields, root, found.unwrap_or(0))?;
            make_typed(alloc, at, Sort::Flag, Expr::Has(set, asked.expr))
        }
    }
}

/// The same, where the parts may have faults.
fn has_value(
    alloc: Global,
    world: &World<'_>,
    at: u32,
    clause: bool,
    kind: &Ident,
    fields: &[Ident],
    root: Result<Typed, Fault>,
    asked: Result<Typed, Fault>,
) -> Result<Result<Typed, Fault>, NoMemory>
    ensures { IfOk result (λ r. r ≡ on_two root asked (λ x y. told (has_of world.now at clause kind.now fields.now x y (place_in world.now.classes 0 kind.now.text)))) }
{
    match pair(root, asked) {
        Ok((root, asked)) => has(alloc, world, at, clause, kind, fields, root, asked),
        Err(fault) => Ok(Err(fault)),
    }
}

/// `.int_size` of a reach.
#[tactic(auto, using(declared_names::proofs::Told::told_leaves))]
fn size(
    alloc: Global,
    world: &World<'_>,
    at: u32,
    clause: bool,
    kind: &Ident,
    fields: &[Ident],
    root: Typed,
) -> Result<Result<Typed, Fault>, NoMemory>
    ensures { IfOk result (λ r. r ≡ told (size_of world.now at clause kind.now fields.now root (place_in world.now.classes 0 kind.now.text))) }
{
    let found = class_place(world, kind);
    let side = unless(clause, at, Cause::Kinds);
    let parts = reach_fault(world, kind, fields, &root, found);
    match earlier(side, parts) {
        Some(fault) => Ok(Err(fault)),
        None => {
            let set = reach(alloc, world, kind, fields, root, found.unwrap_or(0))?;
            make_typed(alloc, at, Sort::Int, Expr::Size(set))
        }
    }
}

/// The same, where the start may have faults.
fn size_value(
    alloc: Global,
    world: &World<'_>,
    at: u32,
    clause: bool,
    kind: &Ident,
    fields: &[Ident],
    root: Result<Typed, Fault>,
) -> Result<Result<Typed, Fault>, NoMemory>
    ensures { IfOk result (λ r. r ≡ on root (λ x. told (size_of world.now at clause kind.now fields.now x (place_in world.now.classes 0 kind.now.text)))) }
{
    match root {
        Ok(root) => size(alloc, world, at, clause, kind, fields, root),
        Err(fault) => Ok(Err(fault)),
    }
}

/// A quantifier without a range over a body that may have faults.
pub fn quantified_body(
    alloc: Global,
    world: &World<'_>,
    here: &Here<'_>,
    form: Form,
    bound: &[Declared],
    at: u32,
    all: bool,
    kind: &Ident,
    name: &Ident,
    body: Result<Typed, Fault>,
) -> Result<Result<Typed, Fault>, NoMemory>
    ensures { IfOk result (λ r. r ≡ on body (λ b. told (quantified_lem (in_clause world.now here.now form bound.now) at all kind.now name.now None b))) }
{
    match body {
        Ok(body) => quantified(
            alloc, world, here, form, bound, at, all, kind, name, None, body,
        ),
        Err(fault) => Ok(Err(fault)),
    }
}

/// A quantifier over a range and a body that may have faults.
pub fn quantified_both(
    alloc: Global,
    world: &World<'_>,
    here: &Here<'_>,
    form: Form,
    bound: &[Declared],
    at: u32,
    all: bool,
    kind: &Ident,
    name: &Ident,
    range: Result<Typed, Fault>,
    body: Result<Typed, Fault>,
) -> Result<Result<Typed, Fault>, NoMemory>
    ensures { IfOk result (λ r. r ≡ on_two range body (λ x b. told (quantified_lem (in_clause world.now here.now form bound.now) at all kind.now name.now (Some x) b))) }
{
    match pair(range, body) {
        Ok((range, body)) => quantified(
            alloc,
            world,
            here,
            form,
            bound,
            at,
            all,
            kind,
            name,
            Some(range),
            body,
        ),
        Err(fault) => Ok(Err(fault)),
    }
}

/// `.has` of this reach.
pub fn has_reach(
    alloc: Global,
    world: &World<'_>,
    at: u32,
    clause: bool,
    reach: &ReachTree,
    root: Result<Typed, Fault>,
    asked: Result<Typed, Fault>,
) -> Result<Result<Typed, Fault>, NoMemory>
    ensures { let kind = reach_class reach.now in IfOk result (λ r. r ≡ on_two root asked (λ x y. told (has_of world.now at clause kind (reach_fields reach.now) x y (place_in world.now.classes 0 kind.text)))) }
{
    has_value(
        alloc,
        world,
        at,
        clause,
        &reach.class,
        reach.fields.as_slice(),
        root,
        asked,
    )
}

/// `.int_size` of this reach.
pub fn size_reach(
    alloc: Global,
    world: &World<'_>,
    at: u32,
    clause: bool,
    reach: &ReachTree,
    root: Result<Typed, Fault>,
) -> Result<Result<Typed, Fault>, NoMemory>
    ensures { let kind = reach_class reach.now in IfOk result (λ r. r ≡ on root (λ x. told (size_of world.now at clause kind (reach_fields reach.now) x (place_in world.now.classes 0 kind.text)))) }
{
    size_value(
        alloc,
        world,
        at,
        clause,
        &reach.class,
        reach.fields.as_slice(),
        root,
    )
}
