use crate::clauses::JmlTree;
use crate::names::{Ident, Modifier, TypeTree};
use crate::statements::StmtTree;

/// A clause of a method, with the place of its word.
#[derive(Drop)]
pub enum SpecTree {
    Requires(u32, JmlTree),
    Ensures(u32, JmlTree),
}

/// A parameter.
#[derive(Drop)]
pub struct ParamTree {
    pub mods: Vec<Modifier>,
    pub kind: TypeTree,
    pub name: Ident,
}

/// A method; without a result it is `void`.
#[derive(Drop)]
pub struct MethodTree {
    pub spec: Vec<SpecTree>,
    pub mods: Vec<Modifier>,
    pub result: Option<TypeTree>,
    pub name: Ident,
    pub params: Vec<ParamTree>,
    pub body: Vec<StmtTree>,
}

/// A member of a class; an invariant has the place of its word.
#[derive(Drop)]
pub enum Member {
    Invariant(u32, JmlTree),
    Field(Vec<Modifier>, TypeTree, Ident),
    Method(MethodTree),
}

/// A class.
#[derive(Drop)]
pub struct ClassTree {
    pub mods: Vec<Modifier>,
    pub name: Ident,
    pub members: Vec<Member>,
}

/// A text: its classes.
#[derive(Drop)]
pub struct Tree {
    pub classes: Vec<ClassTree>,
}
