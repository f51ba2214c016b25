ghost use Rattle.std.specs.Prelude.{◌≡◌, ◌∷◌, ◌++◌, [], map, option_map, None, Some, IfOk};
ghost use Rattle.java_tree.specs.Seen.{class_tree, clause_tree, classes_tree, jml_tree, method_tree, part_tree};
ghost use Rattle.taco_unit.specs.Well.{fields_of, methods_of};
ghost use Rattle.declared_names.specs.Faults.{soonest};
ghost use Rattle.declared_names.specs.Seen.{told, on, on_two, Stands, with_fault};
ghost use Rattle.declared_names.specs.declared.world.Form.TheVariants as form;
ghost use Rattle.declared_names.specs.Lookups.{in_clause};
ghost use Rattle.typed_expressions.specs.Expressions.{seen};
ghost use Rattle.typed_core.specs.Members.{class_faults, clause_of, counted as counted_lem, counted_parts, field_def as field_def_lem, field_faults, fresh_class, is_first as is_first_lem, many_clauses, method_def as method_def_lem, method_faults, no_clauses, no_members, one_more as one_more_lem, result_faults, seen_class, seen_clauses, seen_method, seen_part, seen_parts, with_give, with_made as with_made_lem, with_need};
ghost use Rattle.typed_statements.specs.Kinds.{kind_of as kind_of_lem, param_def as param_def_lem, result_def as result_def_lem};
ghost use Rattle.typed_statements.specs.Heads.{method_known as method_known_lem, here_of as here_of_lem};
ghost use Rattle.typed_statements.specs.Statements.{seen_body};
ghost use Rattle.java_tree.specs.Trees.{field as part_field};

use declared_names::{
    Cause, Fault, FieldKnown, Form, Here, MethodKnown, ParamKnown, ResultKnown, Sort, World,
    beside, earlier, pair, unless,
};
use java_tree::{ClassTree, Ident, JmlTree, Member, MethodTree, Modifier, SpecTree, TypeTree};
use no_memory::NoMemory;
use refusals::Many;
use sqlite_items::Items;
use std::alloc::Global;
use taco_unit::{Clause, FieldDef, Kind, MethodDef, Name, ParamDef, Stmt};
use typed_expressions::jml;
use typed_forms::{Typed, byte, wants};
use typed_statements::{
    body, field_known, first_places, here_in, here_of, is_object_type, method_known,
    modifier_fault, next, nullness_fault, params_fault, typed_fault, word_fault,
};

/// What a member becomes.
#[derive(Drop)]
pub(crate) enum Made {
    Invariant(Clause),
    Field(FieldDef),
    Method(MethodDef),
}

/// How many there are so far: fields, fields of class kind and methods of the text, invariants of the class.
#[derive(Clone, Copy, Debug, PartialEq, Eq)]
pub(crate) struct Counts {
    pub(crate) fields: usize,
    pub(crate) references: usize,
    pub(crate) methods: usize,
    pub(crate) invariants: usize,
}

/// The clauses of a method.
#[derive(Drop)]
pub(crate) struct Spec {
    pub(crate) needs: Items<Clause>,
    pub(crate) gives: Items<Clause>,
}

/// The members of a class.
#[derive(Drop)]
pub(crate) struct Members {
    pub(crate) invariants: Items<Clause>,
    pub(crate) fields: Items<FieldDef>,
    pub(crate) methods: Items<MethodDef>,
}

/// A class, but for its fields and methods.
#[derive(Drop)]
pub(crate) struct ClassPart {
    pub(crate) name: Name,
    pub(crate) invariants: Items<Clause>,
}

/// The classes of a text with all fields and methods.
#[derive(Drop)]
pub(crate) struct Built {
    pub(crate) classes: Items<ClassPart>,
    pub(crate) fields: Items<FieldDef>,
    pub(crate) methods: Items<MethodDef>,
}

pub(crate) fn is_first(place: Option<usize>, number: usize) -> bool
    ensures { result ≡ is_first_lem place number }
{
    match place {
        None => true,
        Some(first) => first == number,
    }
}

// DEFINITIONS OF THE UNIT

fn kind_of(sort: Sort) -> Kind
    ensures { result ≡ kind_of_lem sort }
{
    match sort {
        Sort::Loose => Kind::Int,
        Sort::Null => Kind::Int,
        Sort::Int => Kind::Int,
        Sort::Flag => Kind::Flag,
        Sort::Object(owner) => Kind::Ref(byte(owner)),
    }
}

fn field_def(field: FieldKnown) -> FieldDef
    ensures { result ≡ field_def_lem field }
{
    FieldDef {
        name: field.name,
        class: byte(field.class),
        kind: kind_of(field.sort),
        nullable: field.nullable,
    }
}

fn param_def(alloc: Global, param: &ParamKnown) -> Result<ParamDef, NoMemory>
    ensures { IfOk result (λ d. d ≡ param_def_lem param.now) }
{
    Ok(ParamDef {
        name: Name::new(alloc, param.name.bytes())?,
        kind: kind_of(param.sort),
        nullable: param.nullable,
    })
}

fn param_defs(alloc: Global, params: &[ParamKnown]) -> Result<Items<ParamDef>, NoMemory>
    ensures { IfOk result (λ ds. ds ≡ map param_def_lem params.now) }
{
    let mut defs = Items::new(alloc);
    for param in params {
        defs.push(param_def(alloc, param)?)?;
    }
    Ok(defs)
}

fn result_def(given: Option<ResultKnown>) -> Option<(Kind, bool)>
    ensures { result ≡ option_map result_def_lem given }
{
    match given {
        None => None,
        Some(given) => Some((kind_of(given.sort), given.nullable)),
    }
}

fn kinds_of(alloc: Global, sorts: &[Sort]) -> Result<Items<Kind>, NoMemory>
    ensures { IfOk result (λ ks. ks ≡ map kind_of_lem sorts.now) }
{
    let mut kinds = Items::new(alloc);
    for sort in sorts {
        kinds.push(kind_of(*sort))?;
    }
    Ok(kinds)
}

fn method_def(
    alloc: Global,
    method: &MethodKnown,
    spec: Spec,
    locals: &[Sort],
    stmts: Items<Stmt>,
) -> Result<MethodDef, NoMemory>
    ensures { IfOk result (λ d. d ≡ method_def_lem method.now spec locals.now stmts) }
{
    let name = Name::new(alloc, method.name.bytes())?;
    let params = param_defs(alloc, method.params.as_slice())?;
    let locals = kinds_of(alloc, locals)?;
    let Spec { needs, gives } = spec;
    Ok(MethodDef {
        name,
        class: byte(method.class),
        fixed: method.fixed,
        params,
        result: result_def(method.result),
        locals,
        needs,
        gives,
        body: Stmt::Block(stmts),
    })
}

// CLAUSES

/// A clause that is a condition.
#[tactic(auto, using(crate::proofs::Lists::leaves))]
fn condition(value: Typed) -> Result<Clause, Fault>
    ensures { result ≡ told (clause_of value) }
{
    match wants(Sort::Flag, &value) {
        Some(fault) => Err(fault),
        None => Ok(Clause {
            expr: value.expr.into_inner(),
        }),
    }
}

/// A clause of this form.
#[tactic(auto, using(crate::proofs::Lists::parts))]
fn clause(
    alloc: Global,
    world: &World<'_>,
    here: &Here<'_>,
    form: Form,
    tree: &JmlTree,
) -> Result<Result<Clause, Fault>, NoMemory>
    ensures { IfOk result (λ r. r ≡ on (told (seen (jml_tree tree.now) (in_clause world.now here.now form []))) (λ x. told (clause_of x))) }
{
    match jml(alloc, world, here, form, &[], tree)? {
        Ok(value) => Ok(condition(value)),
        Err(fault) => Ok(Err(fault)),
    }
}

/// The fault of the first clause beyond the limit.
#[tactic(auto, using(crate::proofs::Lists::leaves))]
fn many_fault(count: usize, at: u32) -> Option<Fault>
    ensures { result ≡ soonest (many_clauses count at) }
{
    unless(count != 255, at, Cause::TooMany(Many::Clauses))
}

fn add_need(mut spec: Spec, clause: Clause) -> Result<Spec, NoMemory>
    ensures { IfOk result (λ r. r ≡ with_need spec clause) }
{
    spec.needs.push(clause)?;
    Ok(spec)
}

fn add_give(mut spec: Spec, clause: Clause) -> Result<Spec, NoMemory>
    ensures { IfOk result (λ r. r ≡ with_give spec clause) }
{
    spec.gives.push(clause)?;
    Ok(spec)
}

/// One `requires` more, where there may be faults.
#[tactic(auto, using(crate::proofs::Lists::leaves))]
fn needing(
    spec: Result<Spec, Fault>,
    clause: Result<Clause, Fault>,
) -> Result<Result<Spec, Fault>, NoMemory>
    ensures { IfOk result (λ r. r ≡ on_two spec clause (λ s c. told (Stands (with_need s c)))) }
{
    match pair(spec, clause) {
        Ok((spec, clause)) => {
            let spec = add_need(spec, clause)?;
            Ok(Ok(spec))
        }
        Err(fault) => Ok(Err(fault)),
    }
}

/// One `ensures` more, where there may be faults.
#[tactic(auto, using(crate::proofs::Lists::leaves))]
fn giving(
    spec: Result<Spec, Fault>,
    clause: Result<Clause, Fault>,
) -> Result<Result<Spec, Fault>, NoMemory>
    ensures { IfOk result (λ r. r ≡ on_two spec clause (λ s c. told (Stands (with_give s c)))) }
{
    match pair(spec, clause) {
        Ok((spec, clause)) => {
            let spec = add_give(spec, clause)?;
            Ok(Ok(spec))
        }
        Err(fault) => Ok(Err(fault)),
    }
}

/// The clauses of a method.
fn clauses(
    alloc: Global,
    world: &World<'_>,
    here: &Here<'_>,
    spec: &[SpecTree],
) -> Result<Result<Spec, Fault>, NoMemory>
    ensures { IfOk result (λ r. r ≡ told (seen_clauses world.now here.now 0 0 (Stands no_clauses) (map clause_tree spec.now))) }
{
    let mut done = Ok(Spec {
        needs: Items::new(alloc),
        gives: Items::new(alloc),
    });
    let mut needs = 0;
    let mut gives = 0;
    for tree in spec {
        match tree {
            SpecTree::Requires(at, tree) => {
                let value = clause(alloc, world, here, Form::Entry, tree)?;
                done = needing(done, beside(many_fault(needs, *at), value))?;
                needs = next(needs);
            }
            SpecTree::Ensures(at, tree) => {
                let value = clause(alloc, world, here, Form::Exit, tree)?;
                done = giving(done, beside(many_fault(gives, *at), value))?;
                gives = next(gives);
            }
        }
    }
    Ok(done)
}

// MEMBERS

/// The fault of a field.
#[tactic(auto, using(crate::proofs::Lists::leaves))]
fn field_fault(
    world: &World<'_>,
    owner: usize,
    counts: Counts,
    mods: &[Modifier],
    kind: &TypeTree,
    name: &Ident,
) -> Option<Fault>
    ensures { result ≡ soonest (field_faults world.now owner counts mods.now kind.now name.now) }
{
    let place = world.field_names.place(owner, name.text.bytes());
    let twice = unless(is_first(place, counts.fields), name.at, Cause::Twice);
    let fields = unless(counts.fields != 64, name.at, Cause::TooMany(Many::Fields));
    let references = unless(
        !(is_object_type(kind) && counts.references == 32),
        name.at,
        Cause::TooMany(Many::RefFields),
    );
    earlier(
        typed_fault(&world.classes, mods, kind),
        earlier(
            word_fault(name),
            earlier(twice, earlier(fields, references)),
        ),
    )
}

/// The fault of the result of a method.
#[tactic(auto, using(crate::proofs::Lists::leaves))]
fn result_fault(world: &World<'_>, mods: &[Modifier], kind: &Option<TypeTree>) -> Option<Fault>
    ensures { result ≡ soonest (result_faults world.now mods.now kind.now) }
{
    match kind {
        None => earlier(
            modifier_fault(mods),
            nullness_fault(false, first_places(mods)),
        ),
        Some(kind) => typed_fault(&world.classes, mods, kind),
    }
}

/// The fault of the head of a method.
#[tactic(auto, using(crate::proofs::Lists::leaves))]
fn method_fault(
    alloc: Global,
    world: &World<'_>,
    owner: usize,
    counts: Counts,
    method: &MethodTree,
) -> Result<Option<Fault>, NoMemory>
    ensures { IfOk result (λ f. f ≡ soonest (method_faults world.now owner counts (method_tree method.now))) }
{
    let place = world.method_names.place(owner, method.name.text.bytes());
    let twice = unless(
        is_first(place, counts.methods),
        method.name.at,
        Cause::Twice,
    );
    let methods = unless(
        counts.methods != 64,
        method.name.at,
        Cause::TooMany(Many::Methods),
    );
    let params = params_fault(alloc, &world.classes, method.params.as_slice())?;
    Ok(earlier(
        result_fault(world, method.mods.as_slice(), &method.result),
        earlier(
            word_fault(&method.name),
            earlier(twice, earlier(methods, params)),
        ),
    ))
}

/// A method of clauses and statements that may have faults.
#[tactic(auto, using(crate::proofs::Lists::leaves))]
fn method_made(
    alloc: Global,
    known: &MethodKnown,
    spec: Result<Spec, Fault>,
    locals: &[Sort],
    stmts: Result<Items<Stmt>, Fault>,
) -> Result<Result<Made, Fault>, NoMemory>
    ensures { IfOk result (λ r. r ≡ on_two spec stmts (λ x ss. told (Stands (Made.Method (method_def_lem known.now x locals.now ss))))) }
{
    match pair(spec, stmts) {
        Ok((spec, stmts)) => {
            let method = method_def(alloc, known, spec, locals, stmts)?;
            Ok(Ok(Made::Method(method)))
        }
        Err(fault) => Ok(Err(fault)),
    }
}

/// A method.
#[tactic(auto, using(crate::proofs::Lists::parts))]
fn method(
    alloc: Global,
    world: &World<'_>,
    owner: usize,
    default: bool,
    counts: Counts,
    tree: &MethodTree,
) -> Result<Result<Made, Fault>, NoMemory>
    ensures { IfOk result (λ r. r ≡ told (seen_method world.now owner default counts (method_tree tree.now))) }
{
    let known = method_known(alloc, &world.classes, owner, default, tree)?;
    let here = here_of(alloc, &known)?;
    let fault = method_fault(alloc, world, owner, counts, tree)?;
    let spec = clauses(alloc, world, &here, tree.spec.as_slice())?;
    let (stmts, locals) = body(alloc, world, &here, tree.body.as_slice())?;
    let made = method_made(alloc, &known, spec, locals.as_slice(), stmts)?;
    Ok(beside(fault, made))
}

/// A field.
#[tactic(auto, using(crate::proofs::Lists::leaves))]
fn field(
    alloc: Global,
    world: &World<'_>,
    owner: usize,
    default: bool,
    counts: Counts,
    mods: &[Modifier],
    kind: &TypeTree,
    name: &Ident,
) -> Result<Result<Made, Fault>, NoMemory>
    ensures { IfOk result (λ r. r ≡ told (seen_part world.now owner default counts (part_field mods.now kind.now name.now))) }
{
    match field_fault(world, owner, counts, mods, kind, name) {
        Some(fault) => Ok(Err(fault)),
        None => {
            let known = field_known(alloc, &world.classes, owner, default, mods, kind, name)?;
            Ok(Ok(Made::Field(field_def(known))))
        }
    }
}

/// An invariant of a clause that may have faults.
#[tactic(auto, using(crate::proofs::Lists::leaves))]
fn as_invariant(clause: Result<Clause, Fault>) -> Result<Made, Fault>
    ensures { result ≡ on clause (λ c. told (Stands (Made.Invariant c))) }
{
    match clause {
        Ok(clause) => Ok(Made::Invariant(clause)),
        Err(fault) => Err(fault),
    }
}

/// A member.
#[tactic(auto, using(crate::proofs::Lists::parts))]
fn member(
    alloc: Global,
    world: &World<'_>,
    owner: usize,
    default: bool,
    counts: Counts,
    tree: &Member,
) -> Result<Result<Made, Fault>, NoMemory>
    ensures { IfOk result (λ r. r ≡ told (seen_part world.now owner default counts (part_tree tree.now))) }
{
    match tree {
        Member::Invariant(at, tree) => {
            let here = here_in(alloc, owner);
            let value = clause(alloc, world, &here, Form::Entry, tree)?;
            Ok(as_invariant(beside(many_fault(counts.invariants, *at), value)))
        }
        Member::Field(mods, kind, name) => {
            field(
                alloc,
                world,
                owner,
                default,
                counts,
                mods.as_slice(),
                kind,
                name,
            )
        }
        Member::Method(tree) => method(alloc, world, owner, default, counts, tree),
    }
}

fn one_more(more: bool, count: usize) -> usize
    ensures { result ≡ one_more_lem more count }
{
    if more { next(count) } else { count }
}

fn counted(mut counts: Counts, tree: &Member) -> Counts
    ensures { result ≡ counted_lem counts (part_tree tree.now) }
{
    match tree {
        Member::Invariant(_, _) => counts.invariants = next(counts.invariants),
        Member::Field(_, kind, _) => {
            counts.fields = next(counts.fields);
            counts.references = one_more(is_object_type(kind), counts.references);
        }
        Member::Method(_) => counts.methods = next(counts.methods),
    }
    counts
}

fn add_made(mut members: Members, made: Made) -> Result<Members, NoMemory>
    ensures { IfOk result (λ r. r ≡ with_made_lem members made) }
{
    match made {
        Made::Invariant(clause) => members.invariants.push(clause)?,
        Made::Field(field) => members.fields.push(field)?,
        Made::Method(method) => members.methods.push(method)?,
    }
    Ok(members)
}

/// One member more, where there may be faults.
#[tactic(auto, using(crate::proofs::Lists::leaves))]
fn with_made(
    members: Result<Members, Fault>,
    made: Result<Made, Fault>,
) -> Result<Result<Members, Fault>, NoMemory>
    ensures { IfOk result (λ r. r ≡ on_two members made (λ ms m. told (Stands (with_made_lem ms m)))) }
{
    match pair(members, made) {
        Ok((members, made)) => {
            let members = add_made(members, made)?;
            Ok(Ok(members))
        }
        Err(fault) => Ok(Err(fault)),
    }
}

/// The members of a class, behind so many of the classes before.
pub(crate) fn all_members(
    alloc: Global,
    world: &World<'_>,
    owner: usize,
    default: bool,
    counts: Counts,
    trees: &[Member],
) -> Result<(Result<Members, Fault>, Counts), NoMemory>
    ensures { IfOk result (λ r. (r.0 ≡ told (seen_parts world.now owner default counts (Stands no_members) (map part_tree trees.now))) × (r.1 ≡ counted_parts counts (map part_tree trees.now))) }
{
    let mut done = Ok(Members {
        invariants: Items::new(alloc),
        fields: Items::new(alloc),
        methods: Items::new(alloc),
    });
    let mut so_far = counts;
    for tree in trees {
        let made = member(alloc, world, owner, default, so_far, tree)?;
        done = with_made(done, made)?;
        so_far = counted(so_far, tree);
    }
    Ok((done, so_far))
}
