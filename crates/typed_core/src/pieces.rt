use java_lex::Lexeme;
use java_tree::{
    ClassTree, DeclTree, Ident, JavaNode, JavaTree, JmlNode, JmlTree, Member, MethodTree, ModWord,
    Modifier, ParamTree, ReachTree, Sign, SpecTree, StmtTree, TypeTree,
};
use no_memory::NoMemory;
use std::alloc::Global;

// PIECES OF TREES: each takes its parts as they are made, so that a row is one expression

pub(crate) type Made<T> = Result<T, NoMemory>;

pub(crate) fn ident(alloc: Global, text: &[u8], at: u32) -> Made<Ident> {
    Ok(Ident {
        text: Lexeme::new(alloc, text)?,
        at,
    })
}

pub(crate) fn of_class(alloc: Global, text: &[u8], at: u32) -> Made<TypeTree> {
    let name = ident(alloc, text, at)?;
    Ok(TypeTree::Class(name))
}

pub(crate) fn none<T: Drop>(alloc: Global) -> Made<Vec<T>> {
    Ok(Vec::new(alloc))
}

pub(crate) fn and<T: Drop>(items: Made<Vec<T>>, item: Made<T>) -> Made<Vec<T>> {
    let mut items = items?;
    items.push(item?)?;
    Ok(items)
}

pub(crate) fn one<T: Drop>(alloc: Global, item: Made<T>) -> Made<Vec<T>> {
    and(none(alloc), item)
}

pub(crate) fn java(at: u32, node: JavaNode) -> Made<JavaTree> {
    Ok(JavaTree { at, node })
}

pub(crate) fn number(at: u32, value: u32) -> Made<JavaTree> {
    java(at, JavaNode::Num(value))
}

pub(crate) fn yes(at: u32) -> Made<JavaTree> {
    java(at, JavaNode::Flag(true))
}

pub(crate) fn null(at: u32) -> Made<JavaTree> {
    java(at, JavaNode::Null)
}

pub(crate) fn this(at: u32) -> Made<JavaTree> {
    java(at, JavaNode::This)
}

pub(crate) fn name(alloc: Global, text: &[u8], at: u32) -> Made<JavaTree> {
    let name = ident(alloc, text, at)?;
    java(at, JavaNode::Named(name))
}

pub(crate) fn boxed(alloc: Global, tree: Made<JavaTree>) -> Made<Box<JavaTree>> {
    let tree = Box::new(alloc, tree?)?;
    Ok(tree)
}

pub(crate) fn read(
    alloc: Global,
    first: u32,
    object: Made<JavaTree>,
    field: &[u8],
    at: u32,
) -> Made<JavaTree> {
    let object = boxed(alloc, object)?;
    let field = ident(alloc, field, at)?;
    java(first, JavaNode::Read(object, field))
}

pub(crate) fn call(
    alloc: Global,
    method: &[u8],
    at: u32,
    args: Made<Vec<JavaTree>>,
) -> Made<JavaTree> {
    let args = args?;
    let method = ident(alloc, method, at)?;
    java(at, JavaNode::Call(method, args))
}

pub(crate) fn call_on(
    alloc: Global,
    first: u32,
    object: Made<JavaTree>,
    method: &[u8],
    at: u32,
    args: Made<Vec<JavaTree>>,
) -> Made<JavaTree> {
    let args = args?;
    let object = boxed(alloc, object)?;
    let method = ident(alloc, method, at)?;
    java(first, JavaNode::CallOn(object, method, args))
}

pub(crate) fn bin(
    alloc: Global,
    at: u32,
    sign: Sign,
    left: Made<JavaTree>,
    right: Made<JavaTree>,
) -> Made<JavaTree> {
    let left = boxed(alloc, left)?;
    let right = boxed(alloc, right)?;
    java(at, JavaNode::Bin(sign, left, right))
}

pub(crate) fn jml(at: u32, node: JmlNode) -> Made<JmlTree> {
    Ok(JmlTree { at, node })
}

pub(crate) fn jml_name(alloc: Global, text: &[u8], at: u32) -> Made<JmlTree> {
    let name = ident(alloc, text, at)?;
    jml(at, JmlNode::Named(name))
}

pub(crate) fn old(alloc: Global, at: u32, inner: Made<JmlTree>) -> Made<JmlTree> {
    let inner = Box::new(alloc, inner?)?;
    jml(at, JmlNode::Old(inner))
}

/// `(\forall A NAME; BODY)`
pub(crate) fn for_all(alloc: Global, at: u32, name: &[u8], body: Made<JmlTree>) -> Made<JmlTree> {
    let body = Box::new(alloc, body?)?;
    let kind = ident(alloc, b"A", at.saturating_add(1))?;
    let name = ident(alloc, name, at.saturating_add(2))?;
    jml(at, JmlNode::Quant(true, kind, name, None, body))
}

/// `\reach(a, A, a + FIELD).has(null)`
pub(crate) fn reaches(alloc: Global, at: u32, field: &[u8], field_at: u32) -> Made<JmlTree> {
    let root = Box::new(alloc, jml_name(alloc, b"a", at.saturating_add(1))?)?;
    let asked = Box::new(alloc, jml(field_at.saturating_add(1), JmlNode::Null)?)?;
    let class = ident(alloc, b"A", at.saturating_add(2))?;
    let link = ident(alloc, b"a", at.saturating_add(3));
    let fields = and(one(alloc, link), ident(alloc, field, field_at))?;
    let reach = ReachTree {
        root,
        class,
        fields,
    };
    jml(at, JmlNode::Has(reach, asked))
}

pub(crate) fn field(alloc: Global, kind: Made<TypeTree>, name: &[u8], at: u32) -> Made<Member> {
    let name = ident(alloc, name, at)?;
    Ok(Member::Field(Vec::new(alloc), kind?, name))
}

pub(crate) fn modified(
    alloc: Global,
    mods: Made<Vec<Modifier>>,
    kind: Made<TypeTree>,
    name: &[u8],
    at: u32,
) -> Made<Member> {
    let name = ident(alloc, name, at)?;
    let mods = mods?;
    Ok(Member::Field(mods, kind?, name))
}

pub(crate) fn modifier(word: ModWord, at: u32) -> Made<Modifier> {
    Ok(Modifier { word, at })
}

pub(crate) fn param(alloc: Global, kind: Made<TypeTree>, name: &[u8], at: u32) -> Made<ParamTree> {
    let name = ident(alloc, name, at)?;
    Ok(ParamTree {
        mods: Vec::new(alloc),
        kind: kind?,
        name,
    })
}

pub(crate) fn step(place: Made<JavaTree>) -> Made<StmtTree> {
    Ok(StmtTree::Step(place?, true))
}

pub(crate) fn set(place: Made<JavaTree>, value: Made<JavaTree>) -> Made<StmtTree> {
    let place = place?;
    Ok(StmtTree::Set(place, value?))
}

pub(crate) fn run(call: Made<JavaTree>) -> Made<StmtTree> {
    Ok(StmtTree::Run(call?))
}

pub(crate) fn gives(at: u32, value: Made<JavaTree>) -> Made<StmtTree> {
    Ok(StmtTree::Return(at, Some(value?)))
}

pub(crate) fn gives_nothing(at: u32) -> Made<StmtTree> {
    Ok(StmtTree::Return(at, None))
}

pub(crate) fn on_if(alloc: Global, test: Made<JavaTree>, then: Made<StmtTree>) -> Made<StmtTree> {
    let then = Box::new(alloc, then?)?;
    Ok(StmtTree::If(test?, then, None))
}

pub(crate) fn nothing() -> Made<StmtTree> {
    Ok(StmtTree::Empty)
}

pub(crate) fn block(stmts: Made<Vec<StmtTree>>) -> Made<StmtTree> {
    Ok(StmtTree::Block(stmts?))
}

/// `int NAME;`
pub(crate) fn local(alloc: Global, text: &[u8], at: u32) -> Made<StmtTree> {
    let name = ident(alloc, text, at)?;
    let decls = one(alloc, Ok(DeclTree { name, value: None }))?;
    Ok(StmtTree::Local(Vec::new(alloc), TypeTree::Int, decls))
}

/// `void NAME() { }`
pub(crate) fn bare_method(alloc: Global, name: &[u8], at: u32) -> Made<MethodTree> {
    Ok(MethodTree {
        spec: Vec::new(alloc),
        mods: Vec::new(alloc),
        result: None,
        name: ident(alloc, name, at)?,
        params: Vec::new(alloc),
        body: Vec::new(alloc),
    })
}

pub(crate) fn idle(alloc: Global, name: &[u8], at: u32) -> Made<Member> {
    Ok(Member::Method(bare_method(alloc, name, at)?))
}

/// `void m(PARAMS) { STATEMENT }`, with `m` at 100.
pub(crate) fn taking(
    alloc: Global,
    params: Made<Vec<ParamTree>>,
    stmt: Made<StmtTree>,
) -> Made<Member> {
    let mut method = bare_method(alloc, b"m", 100)?;
    method.params = params?;
    method.body = one(alloc, stmt)?;
    Ok(Member::Method(method))
}

/// `void m() { STATEMENT }`, with `m` at 100.
pub(crate) fn doing(alloc: Global, stmt: Made<StmtTree>) -> Made<Member> {
    taking(alloc, none(alloc), stmt)
}

/// `int m() { STATEMENT }`, with `m` at 100.
pub(crate) fn giving(alloc: Global, stmt: Made<StmtTree>) -> Made<Member> {
    let mut method = bare_method(alloc, b"m", 100)?;
    method.result = Some(TypeTree::Int);
    method.body = one(alloc, stmt)?;
    Ok(Member::Method(method))
}

/// `static void m() { STATEMENT }`, with `m` at 100.
pub(crate) fn unreceived(alloc: Global, stmt: Made<StmtTree>) -> Made<Member> {
    let mut method = bare_method(alloc, b"m", 100)?;
    method.mods = one(alloc, modifier(ModWord::Static, 99))?;
    method.body = one(alloc, stmt)?;
    Ok(Member::Method(method))
}

/// `void m(int p) { }` with this clause, with `m` at 120.
pub(crate) fn with_clause(alloc: Global, clause: SpecTree) -> Made<Member> {
    let mut method = bare_method(alloc, b"m", 120)?;
    method.spec = one(alloc, Ok(clause))?;
    method.params = one(alloc, param(alloc, Ok(TypeTree::Int), b"p", 121))?;
    Ok(Member::Method(method))
}

pub(crate) fn required(alloc: Global, clause: Made<JmlTree>) -> Made<Member> {
    with_clause(alloc, SpecTree::Requires(99, clause?))
}

pub(crate) fn ensured(alloc: Global, clause: Made<JmlTree>) -> Made<Member> {
    with_clause(alloc, SpecTree::Ensures(99, clause?))
}

pub(crate) fn class(
    alloc: Global,
    text: &[u8],
    at: u32,
    members: Made<Vec<Member>>,
) -> Made<ClassTree> {
    Ok(ClassTree {
        mods: Vec::new(alloc),
        name: ident(alloc, text, at)?,
        members: members?,
    })
}

/// `static int s(int p) { return p; }`
pub(crate) fn static_s(alloc: Global) -> Made<Member> {
    let mut s = bare_method(alloc, b"s", 6)?;
    s.mods = one(alloc, modifier(ModWord::Static, 5))?;
    s.result = Some(TypeTree::Int);
    s.params = one(alloc, param(alloc, Ok(TypeTree::Int), b"p", 7))?;
    s.body = one(alloc, gives(8, name(alloc, b"p", 9)))?;
    Ok(Member::Method(s))
}

/// `int i() { return 0; }`
pub(crate) fn instance_i(alloc: Global) -> Made<Member> {
    let mut i = bare_method(alloc, b"i", 10)?;
    i.result = Some(TypeTree::Int);
    i.body = one(alloc, gives(11, number(12, 0)))?;
    Ok(Member::Method(i))
}

/// What the class A has beside the member that is looked at:
///
/// ```text
/// int x; boolean b; A a; static int s(int p) { return p; } int i() { return 0; } void v() { }
/// ```
pub(crate) fn members_of_a(alloc: Global) -> Made<Vec<Member>> {
    let members = one(alloc, field(alloc, Ok(TypeTree::Int), b"x", 1));
    let members = and(members, field(alloc, Ok(TypeTree::Flag), b"b", 2));
    let members = and(members, field(alloc, of_class(alloc, b"A", 3), b"a", 4));
    let members = and(members, static_s(alloc));
    let members = and(members, instance_i(alloc));
    and(members, idle(alloc, b"v", 13))
}
