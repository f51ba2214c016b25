ghost use Rattle.std.specs.Prelude.{◌≡◌, ◌<◌, length, position};
ghost use Rattle.taco_unit.specs.Named.{is_class_named, is_method_named};

use crate::expr::Expr;
use crate::kind::Kind;
use crate::name::Name;
use crate::stmt::Stmt;
use sqlite_items::Items;
use std::marker::Model;

/// An invariant, or a `requires` or `ensures` clause.
#[derive(Drop)]
pub struct Clause {
    pub expr: Expr,
}

/// A class with the numbers of its fields and methods and with its invariants.
#[derive(Drop)]
pub struct ClassDef {
    pub name: Name,
    pub fields: Items<u8>,
    pub methods: Items<u8>,
    pub invariants: Items<Clause>,
}

/// A field of the class of this number.
#[derive(Drop)]
pub struct FieldDef {
    pub name: Name,
    pub class: u8,
    pub kind: Kind,
    pub nullable: bool,
}

/// A parameter of a method.
#[derive(Drop)]
pub struct ParamDef {
    pub name: Name,
    pub kind: Kind,
    pub nullable: bool,
}

/// A method of the class of this number.
#[derive(Drop)]
pub struct MethodDef {
    pub name: Name,
    pub class: u8,
    /// The method is static, so that it has no receiver.
    pub fixed: bool,
    pub params: Items<ParamDef>,
    /// The kind of the result, and whether it may be null. `None` for `void`.
    pub result: Option<(Kind, bool)>,
    /// The kinds of the local variables behind the parameters.
    pub locals: Items<Kind>,
    /// The `requires` clauses.
    pub needs: Items<Clause>,
    /// The `ensures` clauses.
    pub gives: Items<Clause>,
    pub body: Stmt,
}

/// The classes of a text. Fields and methods are numbered over the whole unit.
///
/// Every unit is well kinded: `specs/Well.antt` says what that is.
#[derive(Drop)]
pub struct Unit {
    pub classes: Items<ClassDef>,
    pub fields: Items<FieldDef>,
    pub methods: Items<MethodDef>,
}

impl Model for Unit {
    ghost use Rattle.taco_unit.specs.Parts.{Parts};

    ghost Value = { Parts };

    ghost use Rattle.taco_unit.specs.contracts.expr.Expr as e;
    ghost use Rattle.taco_unit.specs.contracts.stmt.Stmt as s;
    ghost use Rattle.std.specs.Coded.{codes};

    ghost coded = { Prim.hlevel (codes, e.the_row.coded, s.the_row.coded) };

    ghost use Rattle.taco_unit.specs.Well.{IsWell};

    ghost view = { λ u. record { classes = u.classes; fields = u.fields; methods = u.methods } };

    ghost invariant = { λ u. IsWell (record { classes = u.classes; fields = u.fields; methods = u.methods }) };
}

impl ClassDef {
    ghost use Rattle.taco_unit.specs.Named.{is_class_named};

    fn is_named(&self, name: &[u8]) -> bool
        ensures { result ≡ is_class_named name.now self.now }
    {
        self.name.bytes() == name
    }
}

impl MethodDef {
    ghost use Rattle.taco_unit.specs.Named.{is_method_named};

    fn is_named(&self, class: u8, name: &[u8]) -> bool
        ensures { result ≡ is_method_named class name.now self.now }
    {
        self.class == class && self.name.bytes() == name
    }
}

/// The place of the class of this name.
fn place_of_class(classes: &[ClassDef], name: &[u8]) -> Option<usize>
    ensures { result ≡ position (is_class_named name.now) classes.now }
{
    classes.iter().position(|c| c.is_named(name))
}

/// The place of the first method of this class and name.
fn place_of_method(methods: &[MethodDef], class: u8, name: &[u8]) -> Option<usize>
    ensures { result ≡ position (is_method_named class name.now) methods.now }
{
    methods.iter().position(|m| m.is_named(class, name))
}

impl Unit {
    ghost use Rattle.taco_unit.specs.Named.{class_number, method_number};

    /// The number of the class of this name, if there is one. It goes once over the classes, and
    /// takes no memory.
    pub fn class_named(&self, name: &[u8]) -> Option<u8>
        ensures { result ≡ class_number self.now name.now }
    {
        match place_of_class(self.classes.as_slice(), name) {
            Some(place) => Some(place as u8),
            None => None,
        }
    }

    /// The number of the first method of this name in the class, if there is one. It goes once over
    /// the methods of the unit, and takes no memory.
    pub fn method_named(&self, class: u8, name: &[u8]) -> Option<u8>
        requires { class < length self.now.classes }
        ensures { result ≡ method_number self.now class name.now }
    {
        match place_of_method(self.methods.as_slice(), class, name) {
            Some(place) => Some(place as u8),
            None => None,
        }
    }
}
