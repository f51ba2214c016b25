use crate::pieces::{
    Made, and, bare_method, bin, block, boxed, call, call_on, class, doing, ensured, field,
    for_all, gives, gives_nothing, giving, ident, idle, java, jml, jml_name, local, members_of_a,
    modified, modifier, name, none, nothing, null, number, of_class, old, on_if, one, param,
    reaches, read, required, run, set, step, taking, this, unreceived, yes,
};
use crate::{NameFault, resolve};
use java_tree::{
    ClassTree, DeclTree, Ident, JavaNode, JmlNode, Member, ModWord, ParamTree, Sign, SpecTree,
    StmtTree, Tree, TypeTree,
};
use refusals::Many;
use std::alloc::Global;
use std::test::Fail;
use taco_unit::{Expr, Kind, MethodDef, Stmt, Unit};

fn resolved(alloc: Global, classes: Made<Vec<ClassTree>>) -> Result<Unit, NameFault> {
    let tree = Tree { classes: classes? };
    resolve(alloc, &tree)
}

/// The fault of a text of these classes.
fn fault_of(alloc: Global, classes: Made<Vec<ClassTree>>) -> Option<NameFault> {
    match resolved(alloc, classes) {
        Ok(_) => None,
        Err(fault) => Some(fault),
    }
}

/// The fault of the class A with this member behind its others.
fn fault_with(alloc: Global, member: Made<Member>) -> Option<NameFault> {
    let members = and(members_of_a(alloc), member);
    fault_of(alloc, one(alloc, class(alloc, b"A", 0, members)))
}

/// The fault of the class A with these members alone.
fn fault_among(alloc: Global, members: Made<Vec<Member>>) -> Option<NameFault> {
    fault_of(alloc, one(alloc, class(alloc, b"A", 0, members)))
}

fn unknown(at: u32) -> Option<NameFault> {
    Some(NameFault::Unknown { at })
}

fn twice(at: u32) -> Option<NameFault> {
    Some(NameFault::Twice { at })
}

fn kinds(at: u32) -> Option<NameFault> {
    Some(NameFault::Kinds { at })
}

fn too_many(many: Many, at: u32) -> Option<NameFault> {
    Some(NameFault::TooMany { many, at })
}

// THE TABLE OF FAULTS, a line for each row

#[test]
fn names_without_a_meaning(rt: HostRuntime) {
    let a = rt.alloc();
    assert_eq!(rt;
        fault_with(a, field(a, of_class(a, b"B", 101), b"y", 102)),
        unknown(101)
    );
    assert_eq!(rt;
        fault_with(a, doing(a, step(name(a, b"y", 101)))),
        unknown(101)
    );
    assert_eq!(rt;
        fault_with(
            a,
            doing(a, step(read(a, 101, name(a, b"a", 101), b"y", 103)))
        ),
        unknown(103)
    );
    assert_eq!(rt;
        fault_with(a, doing(a, run(call(a, b"n", 101, none(a))))),
        unknown(101)
    );
    assert_eq!(rt;
        fault_with(a, unreceived(a, step(name(a, b"x", 101)))),
        unknown(101)
    );
}

#[test]
fn members_twice(rt: HostRuntime) {
    let a = rt.alloc();
    let classes = one(a, class(a, b"A", 0, members_of_a(a)));
    assert_eq!(rt;
        fault_of(a, and(classes, class(a, b"A", 101, none(a)))),
        twice(101)
    );
    assert_eq!(rt;
        fault_with(a, field(a, Ok(TypeTree::Flag), b"x", 101)),
        twice(101)
    );
    assert_eq!(rt; fault_with(a, idle(a, b"v", 101)), twice(101));
    assert_eq!(rt; fault_with(a, idle(a, b"x", 101)), None);
}

#[test]
fn variables_twice(rt: HostRuntime) {
    let a = rt.alloc();
    let p = one(a, param(a, Ok(TypeTree::Int), b"p", 101));
    let again = and(p, param(a, Ok(TypeTree::Flag), b"p", 102));
    assert_eq!(rt; fault_with(a, taking(a, again, nothing())), twice(102));
    let p = one(a, param(a, Ok(TypeTree::Int), b"p", 101));
    assert_eq!(rt;
        fault_with(a, taking(a, p, local(a, b"p", 102))),
        twice(102)
    );
    let inner = block(one(a, local(a, b"y", 102)));
    assert_eq!(rt;
        fault_with(a, doing(a, block(and(one(a, local(a, b"y", 101)), inner)))),
        twice(102)
    );
    let holds = jml(104, JmlNode::Flag(true));
    assert_eq!(rt;
        fault_with(a, required(a, for_all(a, 101, b"p", holds))),
        twice(103)
    );
    let holds = jml(107, JmlNode::Flag(true));
    let inner = for_all(a, 104, b"q", holds);
    assert_eq!(rt;
        fault_with(a, required(a, for_all(a, 101, b"q", inner))),
        twice(106)
    );
}

#[test]
fn modifiers_of_fields(rt: HostRuntime) {
    let a = rt.alloc();
    let again = and(
        one(a, modifier(ModWord::Nullable, 101)),
        modifier(ModWord::Nullable, 102),
    );
    assert_eq!(rt;
        fault_with(a, modified(a, again, of_class(a, b"A", 103), b"y", 104)),
        twice(102)
    );
    let both = and(
        one(a, modifier(ModWord::Nullable, 102)),
        modifier(ModWord::NonNull, 101),
    );
    assert_eq!(rt;
        fault_with(a, modified(a, both, of_class(a, b"A", 103), b"y", 104)),
        twice(102)
    );
    let nullable = one(a, modifier(ModWord::Nullable, 101));
    assert_eq!(rt;
        fault_with(a, modified(a, nullable, Ok(TypeTree::Int), b"y", 104)),
        kinds(101)
    );
}

#[test]
fn kinds_of_values(rt: HostRuntime) {
    let a = rt.alloc();
    assert_eq!(rt;
        fault_with(a, doing(a, on_if(a, name(a, b"x", 101), nothing()))),
        kinds(101)
    );
    let sum = bin(a, 102, Sign::Add, name(a, b"x", 102), name(a, b"b", 103));
    assert_eq!(rt;
        fault_with(a, doing(a, set(name(a, b"x", 101), sum))),
        kinds(103)
    );
    assert_eq!(rt;
        fault_with(a, doing(a, set(name(a, b"x", 101), null(102)))),
        kinds(102)
    );
    assert_eq!(rt; fault_with(a, giving(a, gives(101, yes(102)))), kinds(102));
    assert_eq!(rt;
        fault_with(a, doing(a, run(call(a, b"s", 101, one(a, yes(102)))))),
        kinds(102)
    );
    let test = bin(a, 101, Sign::Eq, name(a, b"x", 101), name(a, b"b", 103));
    assert_eq!(rt;
        fault_with(a, doing(a, on_if(a, test, nothing()))),
        kinds(103)
    );
    assert_eq!(rt;
        fault_with(
            a,
            doing(a, step(read(a, 101, name(a, b"x", 101), b"y", 103)))
        ),
        kinds(103)
    );
    assert_eq!(rt;
        fault_with(
            a,
            doing(a, run(call_on(a, 101, null(101), b"i", 103, none(a))))
        ),
        kinds(103)
    );
}

#[test]
fn kinds_of_calls(rt: HostRuntime) {
    let a = rt.alloc();
    assert_eq!(rt;
        fault_with(a, doing(a, run(call(a, b"s", 101, none(a))))),
        kinds(101)
    );
    assert_eq!(rt;
        fault_with(a, unreceived(a, run(call(a, b"i", 101, none(a))))),
        kinds(101)
    );
    assert_eq!(rt;
        fault_with(
            a,
            doing(
                a,
                run(call_on(a, 101, name(a, b"A", 101), b"i", 103, none(a)))
            )
        ),
        kinds(103)
    );
    let args = one(a, number(104, 1));
    assert_eq!(rt;
        fault_with(
            a,
            doing(a, run(call_on(a, 101, name(a, b"a", 101), b"s", 103, args)))
        ),
        kinds(103)
    );
    let value = call(a, b"v", 102, none(a));
    assert_eq!(rt;
        fault_with(a, doing(a, set(name(a, b"x", 101), value))),
        kinds(102)
    );
}

#[test]
fn kinds_of_returns_and_receivers(rt: HostRuntime) {
    let a = rt.alloc();
    assert_eq!(rt; fault_with(a, giving(a, gives_nothing(101))), kinds(101));
    assert_eq!(rt;
        fault_with(a, doing(a, gives(101, number(102, 1)))),
        kinds(102)
    );
    assert_eq!(rt;
        fault_with(a, unreceived(a, step(read(a, 101, this(101), b"x", 103)))),
        kinds(101)
    );
}

#[test]
fn kinds_of_clauses(rt: HostRuntime) {
    let a = rt.alloc();
    assert_eq!(rt;
        fault_with(a, ensured(a, jml(101, JmlNode::Result))),
        kinds(101)
    );
    assert_eq!(rt;
        fault_with(a, ensured(a, old(a, 101, jml_name(a, b"b", 102)))),
        None
    );
    assert_eq!(rt;
        fault_with(a, required(a, old(a, 101, jml_name(a, b"b", 102)))),
        kinds(101)
    );
    let inner = old(a, 102, jml_name(a, b"b", 103));
    assert_eq!(rt; fault_with(a, ensured(a, old(a, 101, inner))), kinds(102));
    assert_eq!(rt;
        fault_with(a, required(a, reaches(a, 101, b"a", 105))),
        None
    );
    assert_eq!(rt;
        fault_with(a, required(a, reaches(a, 101, b"x", 105))),
        kinds(105)
    );
}

// WHICH FAULT IS REPORTED, WHAT A NAME MEANS

/// `class A { B x; }`
#[test]
fn a_class_that_is_not_there(rt: HostRuntime) {
    let a = rt.alloc();
    let members = one(a, field(a, of_class(a, b"B", 10), b"x", 12));
    assert_eq!(rt;
        fault_of(a, one(a, class(a, b"A", 6, members))),
        unknown(10)
    );
}

#[test]
fn the_lesser_place_goes_before_the_lesser_number(rt: HostRuntime) {
    let a = rt.alloc();
    let first = one(a, set(name(a, b"x", 101), null(102)));
    assert_eq!(rt;
        fault_with(a, doing(a, block(and(first, step(name(a, b"y", 105)))))),
        kinds(102)
    );
    let first = one(a, step(name(a, b"y", 101)));
    assert_eq!(rt;
        fault_with(
            a,
            doing(a, block(and(first, set(name(a, b"x", 104), null(105)))))
        ),
        unknown(101)
    );
}

#[test]
fn what_goes_before_what(rt: HostRuntime) {
    let a = rt.alloc();
    // a parameter before a field
    let x = one(a, param(a, Ok(TypeTree::Flag), b"x", 101));
    assert_eq!(rt;
        fault_with(a, taking(a, x, on_if(a, name(a, b"x", 102), nothing()))),
        None
    );
    // a local before a class
    let args = one(a, number(105, 1));
    assert_eq!(rt;
        fault_with(
            a,
            doing(a, run(call_on(a, 102, name(a, b"A", 102), b"s", 104, args)))
        ),
        None
    );
    let args = one(a, number(105, 1));
    let called = run(call_on(a, 102, name(a, b"A", 102), b"s", 104, args));
    assert_eq!(rt;
        fault_with(a, doing(a, block(and(one(a, local(a, b"A", 101)), called)))),
        kinds(104)
    );
}

#[test]
fn where_a_local_ends(rt: HostRuntime) {
    let a = rt.alloc();
    let inner = one(a, block(one(a, local(a, b"y", 101))));
    assert_eq!(rt;
        fault_with(a, doing(a, block(and(inner, step(name(a, b"y", 102)))))),
        unknown(102)
    );
    let branch = one(a, on_if(a, name(a, b"b", 101), local(a, b"y", 102)));
    assert_eq!(rt;
        fault_with(a, doing(a, block(and(branch, step(name(a, b"y", 103)))))),
        unknown(103)
    );
}

// LIMITS: the first item beyond each

const LETTERS: [u8; 26] = *b"abcdefghijklmnopqrstuvwxyz";

/// A name of two letters for each number below 676.
fn numbered(alloc: Global, number: usize, at: usize) -> Made<Ident> {
    let text = [LETTERS[number / 26 % 26], LETTERS[number % 26]];
    ident(alloc, text.as_slice(), at.min(10000) as u32)
}

fn empty_classes(alloc: Global, count: usize) -> Made<Vec<ClassTree>> {
    let mut classes = Vec::new(alloc);
    for n in 0..count {
        classes.push(ClassTree {
            mods: Vec::new(alloc),
            name: numbered(alloc, n, n)?,
            members: Vec::new(alloc),
        })?;
    }
    Ok(classes)
}

fn numbers(alloc: Global, count: usize) -> Made<Vec<Member>> {
    let mut members = Vec::new(alloc);
    for n in 0..count {
        let name = numbered(alloc, n, n)?;
        members.push(Member::Field(Vec::new(alloc), TypeTree::Int, name))?;
    }
    Ok(members)
}

fn references(alloc: Global, count: usize) -> Made<Vec<Member>> {
    let mut members = Vec::new(alloc);
    for n in 0..count {
        let name = numbered(alloc, n, n)?;
        let kind = of_class(alloc, b"A", 0)?;
        members.push(Member::Field(Vec::new(alloc), kind, name))?;
    }
    Ok(members)
}

fn methods(alloc: Global, count: usize) -> Made<Vec<Member>> {
    let mut members = Vec::new(alloc);
    for n in 0..count {
        let mut method = bare_method(alloc, b"m", 0)?;
        method.name = numbered(alloc, n, n)?;
        members.push(Member::Method(method))?;
    }
    Ok(members)
}

fn parameters(alloc: Global, count: usize) -> Made<Vec<ParamTree>> {
    let mut params = Vec::new(alloc);
    for n in 0..count {
        params.push(ParamTree {
            mods: Vec::new(alloc),
            kind: TypeTree::Int,
            name: numbered(alloc, n, n)?,
        })?;
    }
    Ok(params)
}

fn locals(alloc: Global, count: usize) -> Made<StmtTree> {
    let mut decls = Vec::new(alloc);
    for n in 0..count {
        let name = numbered(alloc, n, n)?;
        decls.push(DeclTree { name, value: None })?;
    }
    Ok(StmtTree::Local(Vec::new(alloc), TypeTree::Int, decls))
}

fn invariants(alloc: Global, count: usize) -> Made<Vec<Member>> {
    let mut members = Vec::new(alloc);
    for n in 0..count {
        let holds = jml(0, JmlNode::Flag(true))?;
        members.push(Member::Invariant(n.min(10000) as u32, holds))?;
    }
    Ok(members)
}

fn clauses(alloc: Global, count: usize) -> Made<Member> {
    let mut method = bare_method(alloc, b"m", 0)?;
    for n in 0..count {
        let holds = jml(0, JmlNode::Flag(true))?;
        method
            .spec
            .push(SpecTree::Requires(n.min(10000) as u32, holds))?;
    }
    Ok(Member::Method(method))
}

/// Loops one inside the other; the innermost is made first, and the one inside n others stands at 100 + n.
fn loops(alloc: Global, count: u32) -> Made<StmtTree> {
    let mut stmt = StmtTree::Empty;
    for n in 0..count {
        let at = 100 + (count - 1 - n).min(100);
        let inner = Box::new(alloc, stmt)?;
        stmt = StmtTree::While(at, yes(at)?, inner);
    }
    Ok(stmt)
}

#[test]
fn the_first_class_field_and_method_beyond(rt: HostRuntime) {
    let a = rt.alloc();
    assert_eq!(rt; fault_of(a, empty_classes(a, 16)), None);
    assert_eq!(rt;
        fault_of(a, empty_classes(a, 17)),
        too_many(Many::Classes, 16)
    );
    assert_eq!(rt; fault_among(a, numbers(a, 64)), None);
    assert_eq!(rt; fault_among(a, numbers(a, 65)), too_many(Many::Fields, 64));
    assert_eq!(rt; fault_among(a, references(a, 32)), None);
    assert_eq!(rt;
        fault_among(a, references(a, 33)),
        too_many(Many::RefFields, 32)
    );
    assert_eq!(rt; fault_among(a, methods(a, 64)), None);
    assert_eq!(rt; fault_among(a, methods(a, 65)), too_many(Many::Methods, 64));
}

#[test]
fn the_first_parameter_local_and_clause_beyond(rt: HostRuntime) {
    let a = rt.alloc();
    assert_eq!(rt; fault_with(a, taking(a, parameters(a, 8), nothing())), None);
    assert_eq!(rt;
        fault_with(a, taking(a, parameters(a, 9), nothing())),
        too_many(Many::Params, 8)
    );
    assert_eq!(rt; fault_with(a, doing(a, locals(a, 32))), None);
    assert_eq!(rt;
        fault_with(a, doing(a, locals(a, 33))),
        too_many(Many::Locals, 32)
    );
    assert_eq!(rt; fault_with(a, clauses(a, 255)), None);
    assert_eq!(rt;
        fault_with(a, clauses(a, 256)),
        too_many(Many::Clauses, 255)
    );
    assert_eq!(rt; fault_among(a, invariants(a, 255)), None);
    assert_eq!(rt;
        fault_among(a, invariants(a, 256)),
        too_many(Many::Clauses, 255)
    );
}

#[test]
fn the_first_loop_and_quantifier_beyond(rt: HostRuntime) {
    let a = rt.alloc();
    assert_eq!(rt; fault_with(a, doing(a, loops(a, 4))), None);
    assert_eq!(rt;
        fault_with(a, doing(a, loops(a, 6))),
        too_many(Many::Loops, 104)
    );
    let four = for_all(a, 140, b"r", jml(143, JmlNode::Flag(true)));
    let four = for_all(
        a,
        110,
        b"s",
        for_all(a, 120, b"t", for_all(a, 130, b"u", four)),
    );
    assert_eq!(rt; fault_with(a, required(a, four)), None);
    let five = for_all(
        a,
        130,
        b"u",
        for_all(a, 140, b"r", jml(143, JmlNode::Flag(true))),
    );
    let five = for_all(
        a,
        100,
        b"q",
        for_all(a, 110, b"s", for_all(a, 120, b"t", five)),
    );
    assert_eq!(rt;
        fault_with(a, required(a, five)),
        too_many(Many::Quantifiers, 140)
    );
}

// THE UNIT

/// `int y = (-5), z;`
fn two_locals(alloc: Global) -> Made<StmtTree> {
    let five = boxed(alloc, number(13, 5))?;
    let minus = boxed(alloc, java(12, JavaNode::Neg(five)))?;
    let value = java(11, JavaNode::Paren(minus))?;
    let name = ident(alloc, b"y", 10)?;
    let first = DeclTree {
        name,
        value: Some(value),
    };
    let name = ident(alloc, b"z", 14)?;
    let second = DeclTree { name, value: None };
    let decls = and(one(alloc, Ok(first)), Ok(second))?;
    Ok(StmtTree::Local(Vec::new(alloc), TypeTree::Int, decls))
}

/// `boolean w;`
fn flag_local(alloc: Global) -> Made<StmtTree> {
    let name = ident(alloc, b"w", 15)?;
    let decls = one(alloc, Ok(DeclTree { name, value: None }))?;
    Ok(StmtTree::Local(Vec::new(alloc), TypeTree::Flag, decls))
}

/// `void m(int p) { int y = (-5), z; { boolean w; } x = y; }`
fn whole_method(alloc: Global) -> Made<Member> {
    let mut method = bare_method(alloc, b"m", 2)?;
    method.params = one(alloc, param(alloc, Ok(TypeTree::Int), b"p", 3))?;
    let body = and(
        one(alloc, two_locals(alloc)),
        block(one(alloc, flag_local(alloc))),
    );
    method.body = and(body, set(name(alloc, b"x", 16), name(alloc, b"y", 17)))?;
    Ok(Member::Method(method))
}

fn is_as_wanted(method: &MethodDef) -> bool {
    let Stmt::Block(stmts) = &method.body else {
        return false;
    };
    let kinds = [Kind::Int, Kind::Int, Kind::Flag];
    stmts.len() == 4
        && matches!(stmts.get(0), Some(Stmt::Set(1, Expr::Num(-5))))
        && matches!(stmts.get(1), Some(Stmt::Set(2, Expr::Num(0))))
        && matches!(stmts.get(2), Some(Stmt::Block(_)))
        && matches!(
            stmts.get(3),
            Some(Stmt::Write(Expr::This, 0, Expr::Local(1)))
        )
        && method.locals.as_slice() == kinds.as_slice()
}

#[test]
fn the_unit_of_a_text(rt: HostRuntime) -> Result<(), Fail> {
    let a = rt.alloc();
    let members = and(
        one(a, field(a, Ok(TypeTree::Int), b"x", 1)),
        whole_method(a),
    );
    let unit = resolved(a, one(a, class(a, b"A", 0, members)))?;
    assert_eq!(rt; unit.classes.len(), 1);
    assert_eq!(rt; unit.fields.len(), 1);
    assert_eq!(rt; unit.methods.get(0).is_some_and(is_as_wanted), true);
    Ok(())
}
