use crate::{
    ClassTree, Ident, JavaNode, JavaTree, JmlNode, JmlTree, Member, MethodTree, ModWord, Modifier,
    ParamTree, ReachTree, Sign, SpecTree, StmtTree, Tree, TypeTree, print,
};
use java_lex::Lexeme;
use std::alloc::Global;
use std::test::Fail;

fn ident(alloc: Global, text: &[u8]) -> Result<Ident, Fail> {
    Ok(Ident {
        text: Lexeme::new(alloc, text)?,
        at: 0,
    })
}

fn java(node: JavaNode) -> JavaTree {
    JavaTree { at: 0, node }
}

fn jml(node: JmlNode) -> JmlTree {
    JmlTree { at: 0, node }
}

/// `a`, a name in code.
fn named(alloc: Global, text: &[u8]) -> Result<JavaTree, Fail> {
    Ok(java(JavaNode::Named(ident(alloc, text)?)))
}

/// `a`, a name in a clause.
fn meant(alloc: Global, text: &[u8]) -> Result<JmlTree, Fail> {
    Ok(jml(JmlNode::Named(ident(alloc, text)?)))
}

/// `( \forall N n ; \reach ( a , N , f + g ) . has ( n ) ; ! true )`
fn quantified(alloc: Global) -> Result<JmlTree, Fail> {
    let mut fields = Vec::new(alloc);
    fields.push(ident(alloc, b"f")?)?;
    fields.push(ident(alloc, b"g")?)?;
    let root = Box::new(alloc, meant(alloc, b"a")?)?;
    let class = ident(alloc, b"N")?;
    let reach = ReachTree {
        root,
        class,
        fields,
    };
    let among = Box::new(alloc, meant(alloc, b"n")?)?;
    let range = Box::new(alloc, jml(JmlNode::Has(reach, among)))?;
    let flag = Box::new(alloc, jml(JmlNode::Flag(true)))?;
    let body = Box::new(alloc, jml(JmlNode::Not(flag)))?;
    Ok(jml(JmlNode::Quant(
        true,
        ident(alloc, b"N")?,
        ident(alloc, b"n")?,
        Some(range),
        body,
    )))
}

/// `( a + 1 ) * b`
fn product(alloc: Global) -> Result<JavaTree, Fail> {
    let a = Box::new(alloc, named(alloc, b"a")?)?;
    let one = Box::new(alloc, java(JavaNode::Num(1)))?;
    let sum = Box::new(alloc, java(JavaNode::Bin(Sign::Add, a, one)))?;
    let left = Box::new(alloc, java(JavaNode::Paren(sum)))?;
    let b = Box::new(alloc, named(alloc, b"b")?)?;
    Ok(java(JavaNode::Bin(Sign::Mul, left, b)))
}

/// `if ( a ) { x = ( a + 1 ) * b ; } else return ;`
fn choice(alloc: Global) -> Result<StmtTree, Fail> {
    let mut inner = Vec::new(alloc);
    inner.push(StmtTree::Set(named(alloc, b"x")?, product(alloc)?))?;
    let then = Box::new(alloc, StmtTree::Block(inner))?;
    let other = Box::new(alloc, StmtTree::Return(0, None))?;
    Ok(StmtTree::If(named(alloc, b"a")?, then, Some(other)))
}

/// `/*@ requires ..; @*/ static /*@ nullable @*/ N m ( /*@ non_null @*/ N a , int b ) { .. }`
fn method(alloc: Global) -> Result<MethodTree, Fail> {
    let mut spec = Vec::new(alloc);
    spec.push(SpecTree::Requires(0, quantified(alloc)?))?;
    let mut mods = Vec::new(alloc);
    mods.push(Modifier {
        word: ModWord::Static,
        at: 0,
    })?;
    mods.push(Modifier {
        word: ModWord::Nullable,
        at: 0,
    })?;
    let mut of_a = Vec::new(alloc);
    of_a.push(Modifier {
        word: ModWord::NonNull,
        at: 0,
    })?;
    let mut params = Vec::new(alloc);
    params.push(ParamTree {
        mods: of_a,
        kind: TypeTree::Class(ident(alloc, b"N")?),
        name: ident(alloc, b"a")?,
    })?;
    params.push(ParamTree {
        mods: Vec::new(alloc),
        kind: TypeTree::Int,
        name: ident(alloc, b"b")?,
    })?;
    let mut body = Vec::new(alloc);
    body.push(choice(alloc)?)?;
    let result = Some(TypeTree::Class(ident(alloc, b"N")?));
    Ok(MethodTree {
        spec,
        mods,
        result,
        name: ident(alloc, b"m")?,
        params,
        body,
    })
}

#[test]
fn a_class_is_printed(rt: HostRuntime) -> Result<(), Fail> {
    let alloc = rt.alloc();
    let mut members = Vec::new(alloc);
    members.push(Member::Field(Vec::new(alloc), TypeTree::Flag, ident(alloc, b"v")?))?;
    members.push(Member::Method(method(alloc)?))?;
    let mut mods = Vec::new(alloc);
    mods.push(Modifier {
        word: ModWord::NullableByDefault,
        at: 0,
    })?;
    let mut classes = Vec::new(alloc);
    classes.push(ClassTree {
        mods,
        name: ident(alloc, b"A")?,
        members,
    })?;
    let text = print(alloc, &Tree { classes })?;
    let wanted =
        b"/*@ nullable_by_default @*/ class A { boolean v ; /*@ requires ( \\forall N n ; \\reach ( a , N , f + g ) . has ( n ) ; ! true ) ; @*/ static /*@ nullable @*/ N m ( /*@ non_null @*/ N a , int b ) { if ( a ) { x = ( a + 1 ) * b ; } else return ; } }\n";
    assert_eq!(rt; text.as_slice(), wanted.as_slice());
    Ok(())
}
