ghost use Rattle.std.specs.Prelude.{◌≡◌, ◌≤◌, ◌∷◌, ◌++◌, [], length, map, option_map, None, Some, IfOk, OnOk};
ghost use Rattle.java_tree.specs.Seen.{decl_tree, java_tree, stmt_tree, stmt_trees};
ghost use Rattle.declared_names.specs.Faults.{soonest};
ghost use Rattle.declared_names.specs.Seen.{told, on, on_two, over, over_two, Stands};
ghost use Rattle.taco_unit.specs.declared.stmt.Stmt.TheVariants as s;
ghost use Rattle.declared_names.specs.Lookups.{in_body};
ghost use Rattle.typed_expressions.specs.Expressions.{seen, seen_call, seen_target};
ghost use Rattle.typed_statements.specs.Held.{state_of};
ghost use Rattle.typed_statements.specs.Statements.{as_list as as_list_lem, as_stmt as as_stmt_lem, assigned as assigned_lem, block_of, branch, branch_of, condition_of, many_loops, returned, counted as counted_lem, first_value as first_value_lem, given_faults, initial as initial_lem, nothing as nothing_lem, return_of, run_of, seen_body, seen_decl, seen_decls, seen_local, seen_stmt, seen_stmts, set_of, step_of};
ghost use Rattle.typed_statements.specs.Reported.{first_reported, return_reported};

use crate::heads::{type_sort, typed_fault};
use crate::locals::{Locals, close, declare, is_full, local_fault, no_locals, number_of};
use declared_names::{Cause, Declared, Fault, Here, Sort, World, beside, pair, unless};
use java_tree::{DeclTree, Ident, JavaTree, Modifier, StmtTree, TypeTree};
use no_memory::NoMemory;
use refusals::Many;
use sqlite_items::{Boxed, Items};
use std::alloc::Global;
use taco_unit::{Expr, Stmt};
use typed_expressions::{call, java, target};
use typed_forms::{Called, Place, Spot, Typed, byte, wanted, wants};

/// What a statement becomes: one, or for a declaration one assignment for each local.
#[derive(Drop)]
pub enum Piece {
    One(Boxed<Stmt>),
    Many(Items<Stmt>),
}

/// A condition, and the statement under it.
#[derive(Drop)]
pub struct Branch {
    pub test: Boxed<Expr>,
    pub under: Boxed<Stmt>,
}

/// As one statement, directly under `if`, `else` or `while`.
fn as_stmt(alloc: Global, piece: Piece) -> Result<Boxed<Stmt>, NoMemory>
    ensures { IfOk result (λ r. r ≡ as_stmt_lem piece) }
{
    match piece {
        Piece::One(stmt) => Ok(stmt),
        Piece::Many(stmts) => {
            let block = Boxed::new(alloc, Stmt::Block(stmts))?;
            Ok(block)
        }
    }
}

/// One statement, without a fault.
fn one(alloc: Global, stmt: Stmt) -> Result<Result<Piece, Fault>, NoMemory>
    ensures { IfOk result (λ r. r ≡ Ok (Piece.One stmt)) }
{
    let stmt = Boxed::new(alloc, stmt)?;
    Ok(Ok(Piece::One(stmt)))
}

/// Behind other statements of a block.
fn add_piece(mut stmts: Items<Stmt>, piece: Piece) -> Result<Items<Stmt>, NoMemory>
    ensures { IfOk result (λ r. r ≡ stmts ++ as_list_lem piece) }
{
    match piece {
        Piece::One(stmt) => stmts.push(stmt.into_inner())?,
        Piece::Many(more) => stmts.append(more)?,
    }
    Ok(stmts)
}

/// The same, where either may have faults.
#[tactic(auto, using(crate::proofs::Lists::leaves))]
fn with_piece(
    stmts: Result<Items<Stmt>, Fault>,
    piece: Result<Piece, Fault>,
) -> Result<Result<Items<Stmt>, Fault>, NoMemory>
    ensures { IfOk result (λ r. r ≡ on_two stmts piece (λ xs p. told (Stands (xs ++ as_list_lem p)))) }
{
    match pair(stmts, piece) {
        Ok((stmts, piece)) => {
            let stmts = add_piece(stmts, piece)?;
            Ok(Ok(stmts))
        }
        Err(fault) => Ok(Err(fault)),
    }
}

#[tactic(auto, using(crate::proofs::Lists::leaves))]
fn nothing(alloc: Global) -> Result<Result<Piece, Fault>, NoMemory>
    ensures { IfOk result (λ r. r ≡ told (Stands nothing_lem)) }
{
    one(alloc, Stmt::Block(Items::new(alloc)))
}

// VALUES

/// The condition that a value is.
#[tactic(auto, using(crate::proofs::Lists::leaves))]
fn condition(value: Typed) -> Result<Boxed<Expr>, Fault>
    ensures { result ≡ told (condition_of value) }
{
    match wants(Sort::Flag, &value) {
        Some(fault) => Err(fault),
        None => Ok(value.expr),
    }
}

/// The condition of a statement.
#[tactic(auto, using(crate::proofs::Lists::parts))]
fn condition_at(
    alloc: Global,
    world: &World<'_>,
    here: &Here<'_>,
    locals: &Locals,
    tree: &JavaTree,
) -> Result<Result<Boxed<Expr>, Fault>, NoMemory>
    ensures { IfOk result (λ r. r ≡ on (told (seen (java_tree tree.now) (in_body world.now here.now locals.now.held.items))) (λ x. told (condition_of x))) }
{
    match java(alloc, world, here, locals.held.as_slice(), tree)? {
        Ok(value) => Ok(condition(value)),
        Err(fault) => Ok(Err(fault)),
    }
}

fn assigned(spot: Spot, value: Expr) -> Stmt
    ensures { result ≡ assigned_lem spot value }
{
    match spot {
        Spot::Local(number) => Stmt::Set(number, value),
        Spot::Field(object, field) => Stmt::Write(object.into_inner(), field, value),
    }
}

/// An assignment.
#[tactic(auto, using(crate::proofs::Lists::leaves))]
fn assign(alloc: Global, place: Place, value: Typed) -> Result<Result<Piece, Fault>, NoMemory>
    ensures { IfOk result (λ r. r ≡ told (set_of place value)) }
{
    match wants(place.sort, &value) {
        Some(fault) => Ok(Err(fault)),
        None => one(alloc, assigned(place.spot, value.expr.into_inner())),
    }
}

/// The same, where the place or the value may have faults.
fn assignment(
    alloc: Global,
    place: Result<Place, Fault>,
    value: Result<Typed, Fault>,
) -> Result<Result<Piece, Fault>, NoMemory>
    ensures { IfOk result (λ r. r ≡ on_two place value (λ p x. told (set_of p x))) }
{
    match pair(place, value) {
        Ok((place, value)) => assign(alloc, place, value),
        Err(fault) => Ok(Err(fault)),
    }
}

fn counted(spot: Spot, up: bool) -> Stmt
    ensures { result ≡ counted_lem spot up }
{
    match spot {
        Spot::Local(number) => Stmt::StepLocal(number, up),
        Spot::Field(object, field) => Stmt::StepField(object.into_inner(), field, up),
    }
}

/// `++` or `--`.
#[tactic(auto, using(crate::proofs::Lists::leaves))]
fn count(alloc: Global, up: bool, place: Place) -> Result<Result<Piece, Fault>, NoMemory>
    ensures { IfOk result (λ r. r ≡ told (step_of up place)) }
{
    match wanted(Sort::Int, place.at, place.sort) {
        Some(fault) => Ok(Err(fault)),
        None => one(alloc, counted(place.spot, up)),
    }
}

/// The same, where the place may have faults.
fn counting(
    alloc: Global,
    up: bool,
    place: Result<Place, Fault>,
) -> Result<Result<Piece, Fault>, NoMemory>
    ensures { IfOk result (λ r. r ≡ on place (λ p. told (step_of up p))) }
{
    match place {
        Ok(place) => count(alloc, up, place),
        Err(fault) => Ok(Err(fault)),
    }
}

/// A call as a statement.
#[tactic(auto, using(crate::proofs::Lists::leaves))]
fn running(alloc: Global, call: Result<Called, Fault>) -> Result<Result<Piece, Fault>, NoMemory>
    ensures { IfOk result (λ r. r ≡ on call (λ c. told (run_of c))) }
{
    match call {
        Ok(call) => one(alloc, Stmt::Run(call.call)),
        Err(fault) => Ok(Err(fault)),
    }
}

/// The fault of a value that is returned.
#[tactic(auto, using(crate::proofs::Lists::leaves))]
fn given_fault(wanted: Option<Sort>, value: &Typed) -> Option<Fault>
    ensures { result ≡ soonest (given_faults wanted value.now) }
{
    match wanted {
        Some(sort) => wants(sort, value),
        None => Some(Fault {
            at: value.at,
            cause: Cause::Kinds,
        }),
    }
}

/// A return of a value.
#[tactic(auto, using(crate::proofs::Lists::leaves))]
fn return_value(
    alloc: Global,
    wanted: Option<Sort>,
    value: Typed,
) -> Result<Result<Piece, Fault>, NoMemory>
    ensures { IfOk result (λ r. r ≡ told (return_of wanted value)) }
{
    match given_fault(wanted, &value) {
        Some(fault) => Ok(Err(fault)),
        None => one(alloc, Stmt::Return(Some(value.expr.into_inner()))),
    }
}

/// A return, of a value that may have faults, or of none.
#[tactic(auto, using(crate::proofs::Lists::leaves))]
fn returning(
    alloc: Global,
    wanted: Option<Sort>,
    at: u32,
    value: Option<Result<Typed, Fault>>,
) -> Result<Result<Piece, Fault>, NoMemory>
    ensures { IfOk result (λ r. r ≡ return_reported wanted at value) }
{
    match value {
        None => match unless(wanted.is_none(), at, Cause::Kinds) {
            Some(fault) => Ok(Err(fault)),
            None => one(alloc, Stmt::Return(None)),
        },
        Some(value) => match value {
            Ok(value) => return_value(alloc, wanted, value),
            Err(fault) => Ok(Err(fault)),
        },
    }
}

/// The value of an expression, if there is one.
fn value_at(
    alloc: Global,
    world: &World<'_>,
    here: &Here<'_>,
    locals: &Locals,
    tree: &Option<JavaTree>,
) -> Result<Option<Result<Typed, Fault>>, NoMemory>
    ensures { IfOk result (λ v. v ≡ option_map (λ a. told (seen a (in_body world.now here.now locals.now.held.items))) (option_map java_tree tree.now)) }
{
    match tree {
        None => Ok(None),
        Some(tree) => {
            let value = java(alloc, world, here, locals.held.as_slice(), tree)?;
            Ok(Some(value))
        }
    }
}

// DECLARATIONS

/// What a local is set to that is declared without a value.
fn first_value(sort: Sort) -> Expr
    ensures { result ≡ first_value_lem sort }
{
    match sort {
        Sort::Loose => Expr::Null,
        Sort::Null => Expr::Null,
        Sort::Int => Expr::Num(0),
        Sort::Flag => Expr::Flag(false),
        Sort::Object(_) => Expr::Null,
    }
}

/// The first value of the local of this number.
#[tactic(auto, using(crate::proofs::Lists::leaves))]
fn initial(number: usize, sort: Sort, value: Typed) -> Result<Stmt, Fault>
    ensures { result ≡ told (initial_lem number sort value) }
{
    match wants(sort, &value) {
        Some(fault) => Err(fault),
        None => Ok(Stmt::Set(byte(number), value.expr.into_inner())),
    }
}

/// The same, where it may have faults, or there is none.
#[tactic(auto, using(crate::proofs::Lists::leaves))]
fn first_set(sort: Sort, number: usize, value: Option<Result<Typed, Fault>>) -> Result<Stmt, Fault>
    ensures { result ≡ first_reported sort number value }
{
    match value {
        None => Ok(Stmt::Set(byte(number), first_value(sort))),
        Some(value) => match value {
            Ok(value) => initial(number, sort, value),
            Err(fault) => Err(fault),
        },
    }
}

/// A local that is declared: the assignment of its first value.
#[tactic(auto, using(crate::proofs::Forms::declarations))]
fn declaration(
    alloc: Global,
    world: &World<'_>,
    here: &Here<'_>,
    sort: Sort,
    locals: &mut Locals,
    decl: &DeclTree,
) -> Result<Result<Stmt, Fault>, NoMemory>
    requires { length locals.old.sorts ≤ 32 }
    ensures state { OnOk result (state_of locals.new ≡ (seen_decl world.now here.now sort (decl_tree decl.now) (state_of locals.old)).state) }
    ensures is { IfOk result (λ r. r ≡ told (seen_decl world.now here.now sort (decl_tree decl.now) (state_of locals.old)).is) }
{
    let fault = local_fault(here, locals, &decl.name);
    let number = number_of(here, locals);
    declare(alloc, here, locals, sort, &decl.name)?;
    let value = value_at(alloc, world, here, locals, &decl.value)?;
    Ok(beside(fault, first_set(sort, number, value)))
}

fn add_stmt(mut stmts: Items<Stmt>, stmt: Stmt) -> Result<Items<Stmt>, NoMemory>
    ensures { IfOk result (λ r. r ≡ stmts ++ stmt ∷ []) }
{
    stmts.push(stmt)?;
    Ok(stmts)
}

/// One statement more, where either may have faults.
#[tactic(auto, using(crate::proofs::Lists::leaves))]
fn with_stmt(
    stmts: Result<Items<Stmt>, Fault>,
    stmt: Result<Stmt, Fault>,
) -> Result<Result<Items<Stmt>, Fault>, NoMemory>
    ensures { IfOk result (λ r. r ≡ on_two stmts stmt (λ xs x. told (Stands (xs ++ x ∷ [])))) }
{
    match pair(stmts, stmt) {
        Ok((stmts, stmt)) => {
            let stmts = add_stmt(stmts, stmt)?;
            Ok(Ok(stmts))
        }
        Err(fault) => Ok(Err(fault)),
    }
}

/// Locals that are declared: one assignment for each.
fn declarations(
    alloc: Global,
    world: &World<'_>,
    here: &Here<'_>,
    sort: Sort,
    locals: &mut Locals,
    decls: &[DeclTree],
) -> Result<Result<Items<Stmt>, Fault>, NoMemory>
    ensures state { OnOk result (state_of locals.new ≡ (seen_decls world.now here.now sort (map decl_tree decls.now) (state_of locals.old) (Stands [])).state) }
    ensures is { IfOk result (λ r. r ≡ told (seen_decls world.now here.now sort (map decl_tree decls.now) (state_of locals.old) (Stands [])).is) }
{
    let mut done = Ok(Items::new(alloc));
    for decl in decls {
        if is_full(locals) {
            return Ok(done);
        }
        let set = declaration(alloc, world, here, sort, locals, decl)?;
        done = with_stmt(done, set)?;
    }
    Ok(done)
}

/// The assignments of a declaration.
#[tactic(auto, using(crate::proofs::Lists::leaves))]
fn as_piece(stmts: Result<Items<Stmt>, Fault>) -> Result<Piece, Fault>
    ensures { result ≡ on stmts (λ xs. told (Stands (Piece.Many xs))) }
{
    match stmts {
        Ok(stmts) => Ok(Piece::Many(stmts)),
        Err(fault) => Err(fault),
    }
}

/// A declaration of locals.
#[tactic(auto, using(crate::proofs::Lists::parts))]
fn local(
    alloc: Global,
    world: &World<'_>,
    here: &Here<'_>,
    locals: &mut Locals,
    mods: &[Modifier],
    kind: &TypeTree,
    decls: &[DeclTree],
) -> Result<Result<Piece, Fault>, NoMemory>
    ensures state { OnOk result (state_of locals.new ≡ (seen_local world.now here.now mods.now kind.now (map decl_tree decls.now) (state_of locals.old)).state) }
    ensures is { IfOk result (λ r. r ≡ told (seen_local world.now here.now mods.now kind.now (map decl_tree decls.now) (state_of locals.old)).is) }
{
    let fault = typed_fault(&world.classes, mods, kind);
    let sort = type_sort(&world.classes, kind);
    let sets = declarations(alloc, world, here, sort, locals, decls)?;
    Ok(beside(fault, as_piece(sets)))
}

// STATEMENTS

/// Statements in braces.
#[tactic(auto, using(crate::proofs::Lists::leaves))]
fn block(alloc: Global, stmts: Result<Items<Stmt>, Fault>) -> Result<Result<Piece, Fault>, NoMemory>
    ensures { IfOk result (λ r. r ≡ on stmts (λ xs. told (Stands (Piece.One (s.Block xs))))) }
{
    match stmts {
        Ok(stmts) => one(alloc, Stmt::Block(stmts)),
        Err(fault) => Ok(Err(fault)),
    }
}

/// A condition with the statement under it.
#[tactic(auto, using(crate::proofs::Lists::leaves))]
fn under(
    alloc: Global,
    test: Result<Boxed<Expr>, Fault>,
    then: Result<Piece, Fault>,
) -> Result<Result<Branch, Fault>, NoMemory>
    ensures { IfOk result (λ r. r ≡ on_two test then (λ x p. told (Stands (branch x p)))) }
{
    match pair(test, then) {
        Ok((test, then)) => {
            let under = as_stmt(alloc, then)?;
            Ok(Ok(Branch { test, under }))
        }
        Err(fault) => Ok(Err(fault)),
    }
}

/// An `if` without `else`.
#[tactic(auto, using(crate::proofs::Lists::leaves))]
fn if_only(alloc: Global, first: Result<Branch, Fault>) -> Result<Result<Piece, Fault>, NoMemory>
    ensures { IfOk result (λ r. r ≡ on first (λ b. told (Stands (Piece.One (s.If b.test b.under (s.Block [])))))) }
{
    match first {
        Ok(Branch { test, under }) => {
            let other = Boxed::new(alloc, Stmt::Block(Items::new(alloc)))?;
            one(alloc, Stmt::If(test.into_inner(), under, other))
        }
        Err(fault) => Ok(Err(fault)),
    }
}

/// An `if` with its `else`.
#[tactic(auto, using(crate::proofs::Lists::leaves))]
fn if_else(
    alloc: Global,
    first: Result<Branch, Fault>,
    other: Result<Piece, Fault>,
) -> Result<Result<Piece, Fault>, NoMemory>
    ensures { IfOk result (λ r. r ≡ on_two first other (λ b q. told (Stands (Piece.One (s.If b.test b.under (as_stmt_lem q)))))) }
{
    match pair(first, other) {
        Ok((Branch { test, under }, other)) => {
            let other = as_stmt(alloc, other)?;
            one(alloc, Stmt::If(test.into_inner(), under, other))
        }
        Err(fault) => Ok(Err(fault)),
    }
}

/// A `while`.
#[tactic(auto, using(crate::proofs::Lists::leaves))]
fn repeated(alloc: Global, first: Result<Branch, Fault>) -> Result<Result<Piece, Fault>, NoMemory>
    ensures { IfOk result (λ r. r ≡ on first (λ b. told (Stands (Piece.One (s.While b.test b.under))))) }
{
    match first {
        Ok(Branch { test, under }) => one(alloc, Stmt::While(test.into_inner(), under)),
        Err(fault) => Ok(Err(fault)),
    }
}

/// A `return`.
#[tactic(auto, using(crate::proofs::Forms::returns))]
fn return_stmt(
    alloc: Global,
    world: &World<'_>,
    here: &Here<'_>,
    locals: &Locals,
    at: u32,
    value: &Option<JavaTree>,
) -> Result<Result<Piece, Fault>, NoMemory>
    ensures { IfOk result (λ r. r ≡ told (returned world.now here.now (state_of locals.now) at (option_map java_tree value.now))) }
{
    let value = value_at(alloc, world, here, locals, value)?;
    returning(alloc, here.result, at, value)
}

/// An assignment.
#[tactic(auto, using(crate::proofs::Lists::parts))]
fn set_stmt(
    alloc: Global,
    world: &World<'_>,
    here: &Here<'_>,
    locals: &Locals,
    place: &JavaTree,
    value: &JavaTree,
) -> Result<Result<Piece, Fault>, NoMemory>
    ensures { let sc = in_body world.now here.now locals.now.held.items in IfOk result (λ r. r ≡ told (over_two (seen_target (java_tree place.now) sc) (seen (java_tree value.now) sc) set_of)) }
{
    let place = target(alloc, world, here, locals.held.as_slice(), place)?;
    let value = java(alloc, world, here, locals.held.as_slice(), value)?;
    assignment(alloc, place, value)
}

/// `++` or `--`.
#[tactic(auto, using(crate::proofs::Lists::parts))]
fn step_stmt(
    alloc: Global,
    world: &World<'_>,
    here: &Here<'_>,
    locals: &Locals,
    place: &JavaTree,
    up: bool,
) -> Result<Result<Piece, Fault>, NoMemory>
    ensures { IfOk result (λ r. r ≡ told (over (seen_target (java_tree place.now) (in_body world.now here.now locals.now.held.items)) (step_of up))) }
{
    let place = target(alloc, world, here, locals.held.as_slice(), place)?;
    counting(alloc, up, place)
}

/// A call that stands alone.
#[tactic(auto, using(crate::proofs::Lists::parts))]
fn run_stmt(
    alloc: Global,
    world: &World<'_>,
    here: &Here<'_>,
    locals: &Locals,
    run: &JavaTree,
) -> Result<Result<Piece, Fault>, NoMemory>
    ensures { IfOk result (λ r. r ≡ told (over (seen_call (java_tree run.now) (in_body world.now here.now locals.now.held.items)) run_of)) }
{
    let run = call(alloc, world, here, locals.held.as_slice(), run)?;
    running(alloc, run)
}

/// The fault of the first loop beyond the limit.
#[tactic(auto, using(crate::proofs::Lists::leaves))]
fn loops_fault(depth: usize, at: u32) -> Option<Fault>
    ensures { result ≡ soonest (many_loops depth at) }
{
    unless(depth != 4, at, Cause::TooMany(Many::Loops))
}

/// Statements in braces, inside so many loops.
#[cycle(body)]
#[tactic(auto, using(crate::proofs::Steps::arms))]
fn block_stmt(
    alloc: Global,
    world: &World<'_>,
    here: &Here<'_>,
    depth: usize,
    locals: &mut Locals,
    trees: &[StmtTree],
) -> Result<Result<Piece, Fault>, NoMemory>
    requires { depth ≤ 5 }
    ensures state { OnOk result (state_of locals.new ≡ (block_of (state_of locals.old) (seen_stmts world.now here.now depth (stmt_trees trees.now) (state_of locals.old) (Stands []))).state) }
    ensures is { IfOk result (λ r. r ≡ told (block_of (state_of locals.old) (seen_stmts world.now here.now depth (stmt_trees trees.now) (state_of locals.old) (Stands []))).is) }
{
    let held = locals.held.len();
    let list = stmts(alloc, world, here, depth, locals, trees)?;
    close(locals, held);
    block(alloc, list)
}

/// A statement under a condition, inside so many loops.
#[cycle(body)]
#[tactic(auto, using(crate::proofs::Steps::arms))]
fn branch_stmt(
    alloc: Global,
    world: &World<'_>,
    here: &Here<'_>,
    depth: usize,
    locals: &mut Locals,
    tree: &StmtTree,
    test: &JavaTree,
) -> Result<Result<Branch, Fault>, NoMemory>
    requires { depth ≤ 5 }
    ensures state { OnOk result (state_of locals.new ≡ (branch_of world.now here.now (java_tree test.now) (state_of locals.old) (seen_stmt world.now here.now depth (stmt_tree tree.now) (state_of locals.old))).state) }
    ensures is { IfOk result (λ r. r ≡ told (branch_of world.now here.now (java_tree test.now) (state_of locals.old) (seen_stmt world.now here.now depth (stmt_tree tree.now) (state_of locals.old))).is) }
{
    let held = locals.held.len();
    let test = condition_at(alloc, world, here, locals, test)?;
    let then = stmt(alloc, world, here, depth, locals, tree)?;
    close(locals, held);
    under(alloc, test, then)
}

/// A statement inside so many loops: what it becomes, or its fault. The locals are those behind it.
#[cycle(body)]
#[tactic(auto, using(crate::proofs::Steps::arms))]
fn stmt(
    alloc: Global,
    world: &World<'_>,
    here: &Here<'_>,
    depth: usize,
    locals: &mut Locals,
    tree: &StmtTree,
) -> Result<Result<Piece, Fault>, NoMemory>
    requires { depth ≤ 5 }
    ensures state { OnOk result (state_of locals.new ≡ (seen_stmt world.now here.now depth (stmt_tree tree.now) (state_of locals.old)).state) }
    ensures is { IfOk result (λ r. r ≡ told (seen_stmt world.now here.now depth (stmt_tree tree.now) (state_of locals.old)).is) }
{
    if is_full(locals) {
        return nothing(alloc);
    }
    match tree {
        StmtTree::Block(list) => block_stmt(alloc, world, here, depth, locals, list.as_slice()),
        StmtTree::Empty => nothing(alloc),
        StmtTree::If(test, then, None) => {
            let first = branch_stmt(alloc, world, here, depth, locals, then, test)?;
            if_only(alloc, first)
        }
        StmtTree::If(test, then, Some(other)) => {
            let held = locals.held.len();
            let first = branch_stmt(alloc, world, here, depth, locals, then, test)?;
            let other = stmt(alloc, world, here, depth, locals, other)?;
            close(locals, held);
            if_else(alloc, first, other)
        }
        StmtTree::While(at, test, body) => {
            let inner = (depth + 1).min(5);
            let first = branch_stmt(alloc, world, here, inner, locals, body, test)?;
            let whole = repeated(alloc, first)?;
            Ok(beside(loops_fault(depth, *at), whole))
        }
        StmtTree::Return(at, value) => return_stmt(alloc, world, here, locals, *at, value),
        StmtTree::Local(mods, kind, decls) => local(
            alloc,
            world,
            here,
            locals,
            mods.as_slice(),
            kind,
            decls.as_slice(),
        ),
        StmtTree::Set(place, value) => set_stmt(alloc, world, here, locals, place, value),
        StmtTree::Step(place, up) => step_stmt(alloc, world, here, locals, place, *up),
        StmtTree::Run(run) => run_stmt(alloc, world, here, locals, run),
    }
}

/// Statements, one behind the other.
#[cycle(body)]
fn stmts(
    alloc: Global,
    world: &World<'_>,
    here: &Here<'_>,
    depth: usize,
    locals: &mut Locals,
    trees: &[StmtTree],
) -> Result<Result<Items<Stmt>, Fault>, NoMemory>
    requires { depth ≤ 5 }
    ensures state { OnOk result (state_of locals.new ≡ (seen_stmts world.now here.now depth (stmt_trees trees.now) (state_of locals.old) (Stands [])).state) }
    ensures is { IfOk result (λ r. r ≡ told (seen_stmts world.now here.now depth (stmt_trees trees.now) (state_of locals.old) (Stands [])).is) }
{
    let mut done = Ok(Items::new(alloc));
    for tree in trees {
        let piece = stmt(alloc, world, here, depth, locals, tree)?;
        done = with_piece(done, piece)?;
    }
    Ok(done)
}

/// The body of a method and the kinds of its locals, or its fault.
pub fn body(
    alloc: Global,
    world: &World<'_>,
    here: &Here<'_>,
    trees: &[StmtTree],
) -> Result<(Result<Items<Stmt>, Fault>, Items<Sort>), NoMemory>
    ensures { let seen = seen_body world.now here.now (stmt_trees trees.now) in IfOk result (λ r. (r.0 ≡ told seen.is) × (r.1 ≡ seen.state.sorts)) }
{
    let mut locals = no_locals(alloc);
    let list = stmts(alloc, world, here, 0, &mut locals, trees)?;
    Ok((list, locals.sorts))
}
