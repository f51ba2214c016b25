ghost use Rattle.std.specs.Prelude.{◌≡◌, ◌∷◌, ◌++◌, [], map, option_map, OnOk, IfOk};
ghost use Rattle.java_tree.specs.Seen.{class_tree, classes_tree, method_tree, param_tree, part_tree};
ghost use Rattle.declared_names.specs.Faults.{soonest};
ghost use Rattle.typed_statements.specs.Heads.{bare_world as bare_world_lem, class_names as class_names_lem, field_known as field_known_lem, here_in as here_in_lem, here_of as here_of_lem, is_default as is_default_lem, is_object_type as is_object_type_lem, method_known as method_known_lem, next as next_lem, param_faults, param_known as param_known_lem, params_faults, result_known as result_known_lem, type_faults, type_sort as type_sort_lem, typed_faults, with_classes, with_field, with_method, with_part, with_parts, world_of};

use crate::modifiers::{first_places, is_nullable, modifier_fault, nullness_fault};
use crate::words::word_fault;
use declared_names::{
    Cause, Fault, FieldKnown, Here, MethodKnown, Names, ParamKnown, ResultKnown, Sort, World,
    earlier, unless,
};
use java_tree::{ClassTree, Ident, Member, MethodTree, Modifier, ParamTree, Tree, TypeTree};
use no_memory::NoMemory;
use refusals::Many;
use sqlite_items::Items;
use std::alloc::Global;
use taco_unit::Name;

pub fn is_object_type(kind: &TypeTree) -> bool
    ensures { result ≡ is_object_type_lem kind.now }
{
    match kind {
        TypeTree::Int => false,
        TypeTree::Flag => false,
        TypeTree::Class(_) => true,
    }
}

/// The kind of a type, by the names of the classes.
pub fn type_sort(classes: &Names<'_>, kind: &TypeTree) -> Sort
    ensures { result ≡ type_sort_lem classes.now kind.now }
{
    match kind {
        TypeTree::Int => Sort::Int,
        TypeTree::Flag => Sort::Flag,
        TypeTree::Class(name) => match classes.place(0, name.text.bytes()) {
            Some(number) => Sort::Object(number),
            None => Sort::Loose,
        },
    }
}

/// The fault of a type.
#[tactic(auto, using(crate::proofs::Lists::leaves))]
pub fn type_fault(classes: &Names<'_>, kind: &TypeTree) -> Option<Fault>
    ensures { result ≡ soonest (type_faults classes.now kind.now) }
{
    match kind {
        TypeTree::Int => None,
        TypeTree::Flag => None,
        TypeTree::Class(name) => unless(
            classes.place(0, name.text.bytes()).is_some(),
            name.at,
            Cause::Unknown,
        ),
    }
}

/// The fault of modifiers and a type.
#[tactic(auto, using(crate::proofs::Lists::leaves))]
pub fn typed_fault(classes: &Names<'_>, mods: &[Modifier], kind: &TypeTree) -> Option<Fault>
    ensures { result ≡ soonest (typed_faults classes.now mods.now kind.now) }
{
    let nullness = nullness_fault(is_object_type(kind), first_places(mods));
    earlier(
        modifier_fault(mods),
        earlier(type_fault(classes, kind), nullness),
    )
}

/// What a declaration says of a field. The class is nullable by default where the flag says so.
pub fn field_known(
    alloc: Global,
    classes: &Names<'_>,
    owner: usize,
    default: bool,
    mods: &[Modifier],
    kind: &TypeTree,
    name: &Ident,
) -> Result<FieldKnown, NoMemory>
    ensures { IfOk result (λ d. d ≡ field_known_lem classes.now owner default mods.now kind.now name.now) }
{
    let nullable = is_nullable(default, is_object_type(kind), first_places(mods));
    Ok(FieldKnown {
        name: Name::new(alloc, name.text.bytes())?,
        class: owner,
        sort: type_sort(classes, kind),
        nullable,
    })
}

fn param_known(
    alloc: Global,
    classes: &Names<'_>,
    default: bool,
    param: &ParamTree,
) -> Result<ParamKnown, NoMemory>
    ensures { IfOk result (λ d. d ≡ param_known_lem classes.now default (param_tree param.now)) }
{
    let object = is_object_type(&param.kind);
    let nullable = is_nullable(default, object, first_places(param.mods.as_slice()));
    Ok(ParamKnown {
        name: Name::new(alloc, param.name.text.bytes())?,
        sort: type_sort(classes, &param.kind),
        nullable,
    })
}

fn params_known(
    alloc: Global,
    classes: &Names<'_>,
    default: bool,
    params: &[ParamTree],
) -> Result<Items<ParamKnown>, NoMemory>
    ensures { IfOk result (λ ds. ds ≡ map (param_known_lem classes.now default) (map param_tree params.now)) }
{
    let mut known = Items::new(alloc);
    for param in params {
        known.push(param_known(alloc, classes, default, param)?)?;
    }
    Ok(known)
}

fn result_known(classes: &Names<'_>, default: bool, method: &MethodTree) -> Option<ResultKnown>
    ensures { result ≡ result_known_lem classes.now default (method_tree method.now) }
{
    match &method.result {
        None => None,
        Some(kind) => {
            let object = is_object_type(kind);
            let nullable = is_nullable(default, object, first_places(method.mods.as_slice()));
            Some(ResultKnown {
                sort: type_sort(classes, kind),
                nullable,
            })
        }
    }
}

/// What a declaration says of a method.
pub fn method_known(
    alloc: Global,
    classes: &Names<'_>,
    owner: usize,
    default: bool,
    method: &MethodTree,
) -> Result<MethodKnown, NoMemory>
    ensures { IfOk result (λ d. d ≡ method_known_lem classes.now owner default (method_tree method.now)) }
{
    let name = Name::new(alloc, method.name.text.bytes())?;
    let params = params_known(alloc, classes, default, method.params.as_slice())?;
    Ok(MethodKnown {
        name,
        class: owner,
        fixed: first_places(method.mods.as_slice()).fixed.is_some(),
        params,
        result: result_known(classes, default, method),
    })
}

/// Whether the class is nullable by default.
pub fn is_default(mods: &[Modifier]) -> bool
    ensures { result ≡ is_default_lem mods.now }
{
    first_places(mods).nullable_by_default.is_some()
}

fn add_field<'t>(world: &mut World<'t>, field: FieldKnown, name: &'t Ident) -> Result<(), NoMemory>
    requires { name.now.text ≡ field.name }
    ensures { OnOk result (world.new ≡ with_field world.old field) }
{
    world.field_names.push(field.class, name.text.bytes())?;
    world.fields.push(field)?;
    Ok(())
}

fn add_method<'t>(
    world: &mut World<'t>,
    method: MethodKnown,
    name: &'t Ident,
) -> Result<(), NoMemory>
    requires { name.now.text ≡ method.name }
    ensures { OnOk result (world.new ≡ with_method world.old method) }
{
    world.method_names.push(method.class, name.text.bytes())?;
    world.methods.push(method)?;
    Ok(())
}

fn add_member<'t>(
    alloc: Global,
    world: &mut World<'t>,
    owner: usize,
    default: bool,
    member: &'t Member,
) -> Result<(), NoMemory>
    ensures { OnOk result (world.new ≡ with_part owner default world.old (part_tree member.now)) }
{
    match member {
        Member::Invariant(_, _) => Ok(()),
        Member::Field(mods, kind, name) => {
            let mods = mods.as_slice();
            let field = field_known(alloc, &world.classes, owner, default, mods, kind, name)?;
            add_field(world, field, name)
        }
        Member::Method(method) => {
            let known = method_known(alloc, &world.classes, owner, default, method)?;
            add_method(world, known, &method.name)
        }
    }
}

fn add_members<'t>(
    alloc: Global,
    world: &mut World<'t>,
    owner: usize,
    default: bool,
    members: &'t [Member],
) -> Result<(), NoMemory>
    ensures { OnOk result (world.new ≡ with_parts owner default world.old (map part_tree members.now)) }
{
    for member in members {
        add_member(alloc, world, owner, default, member)?;
    }
    Ok(())
}

/// One more.
pub fn next(count: usize) -> usize
    ensures { result ≡ next_lem count }
{
    count.saturating_add(1)
}

fn add_classes<'t>(
    alloc: Global,
    world: &mut World<'t>,
    classes: &'t [ClassTree],
) -> Result<(), NoMemory>
    ensures { OnOk result (world.new ≡ with_classes 0 world.old (map class_tree classes.now)) }
{
    let mut owner = 0;
    for class in classes {
        let default = is_default(class.mods.as_slice());
        add_members(alloc, world, owner, default, class.members.as_slice())?;
        owner = next(owner);
    }
    Ok(())
}

fn class_names<'t>(alloc: Global, classes: &'t [ClassTree]) -> Result<Names<'t>, NoMemory>
    ensures { IfOk result (λ names. names ≡ class_names_lem (map class_tree classes.now)) }
{
    let mut names = Names::new(alloc);
    for class in classes {
        names.push(0, class.name.text.bytes())?;
    }
    Ok(names)
}

/// All that is declared in the classes of a text.
pub fn world<'t>(alloc: Global, tree: &'t Tree) -> Result<World<'t>, NoMemory>
    ensures { IfOk result (λ w. w ≡ world_of (classes_tree tree.now)) }
{
    let mut world = World {
        classes: class_names(alloc, tree.classes.as_slice())?,
        field_names: Names::new(alloc),
        fields: Items::new(alloc),
        method_names: Names::new(alloc),
        methods: Items::new(alloc),
    };
    add_classes(alloc, &mut world, tree.classes.as_slice())?;
    Ok(world)
}

fn param_names<'k>(alloc: Global, params: &'k [ParamKnown]) -> Result<Names<'k>, NoMemory>
    ensures { IfOk result (λ names. names ≡ map (λ p. (0, p.name)) params.now) }
{
    let mut names = Names::new(alloc);
    for param in params {
        names.push(0, param.name.bytes())?;
    }
    Ok(names)
}

fn param_sorts(alloc: Global, params: &[ParamKnown]) -> Result<Items<Sort>, NoMemory>
    ensures { IfOk result (λ sorts. sorts ≡ map (λ p. p.sort) params.now) }
{
    let mut sorts = Items::new(alloc);
    for param in params {
        sorts.push(param.sort)?;
    }
    Ok(sorts)
}

fn result_sort(result_known: &Option<ResultKnown>) -> Option<Sort>
    ensures { result ≡ option_map (λ r. r.sort) result_known.now }
{
    match result_known {
        None => None,
        Some(given) => Some(given.sort),
    }
}

/// What code and clauses of a method stand in.
pub fn here_of<'k>(alloc: Global, method: &'k MethodKnown) -> Result<Here<'k>, NoMemory>
    ensures { IfOk result (λ h. h ≡ here_of_lem method.now) }
{
    Ok(Here {
        class: method.class,
        fixed: method.fixed,
        params: param_names(alloc, method.params.as_slice())?,
        sorts: param_sorts(alloc, method.params.as_slice())?,
        result: result_sort(&method.result),
    })
}

/// What an invariant of the class stands in.
pub fn here_in<'k>(alloc: Global, owner: usize) -> Here<'k>
    ensures { result ≡ here_in_lem owner }
{
    Here {
        class: owner,
        fixed: false,
        params: Names::new(alloc),
        sorts: Items::new(alloc),
        result: None,
    }
}

/// The fault of a parameter behind those of these names.
#[tactic(auto, using(crate::proofs::Lists::leaves))]
fn param_fault(classes: &Names<'_>, before: &Names<'_>, param: &ParamTree) -> Option<Fault>
    ensures { result ≡ soonest (param_faults classes.now before.now (param_tree param.now)) }
{
    let fresh = before.place(0, param.name.text.bytes()).is_none();
    let twice = unless(fresh, param.name.at, Cause::Twice);
    let many = unless(
        before.len() != 8,
        param.name.at,
        Cause::TooMany(Many::Params),
    );
    earlier(
        typed_fault(classes, param.mods.as_slice(), &param.kind),
        earlier(word_fault(&param.name), earlier(twice, many)),
    )
}

/// The fault of parameters.
pub fn params_fault(
    alloc: Global,
    classes: &Names<'_>,
    params: &[ParamTree],
) -> Result<Option<Fault>, NoMemory>
    ensures { IfOk result (λ f. f ≡ soonest (params_faults classes.now [] (map param_tree params.now))) }
{
    let mut found = None;
    let mut before = Names::new(alloc);
    for param in params {
        found = earlier(found, param_fault(classes, &before, param));
        before.push(0, param.name.text.bytes())?;
    }
    Ok(found)
}
