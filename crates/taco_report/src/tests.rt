ghost use Rattle.std.specs.Prelude.{◌≡◌, ◌≤◌, [], ◌∷◌, length, None, false, true, IfOk};
ghost use Rattle.taco_unit.specs.declared.kind.Kind.TheVariants as kind;
ghost use Rattle.taco_unit.specs.declared.stmt.Stmt.TheVariants.{Block};

use super::*;
use heap_core::{Judged, Object, Part, Problem, Value};
use heap_replay::{Outcome, Replayed};
use java_lex::Absent;
use no_memory::NoMemory;
use refusals::{Many, Refusal};
use sqlite_items::Items;
use std::alloc::Global;
use std::test::Fail;
use taco_unit::{ClassDef, FieldDef, Kind, MethodDef, Name, ParamDef, Scope, Stmt, Unit};

fn one_class(alloc: Global) -> Result<Items<ClassDef>, NoMemory>
    ensures { IfOk result (λ l. l ≡ record { name = 80 ∷ []; fields = 0 ∷ 1 ∷ []; methods = 0 ∷ []; invariants = [] } ∷ []) }
{
    let name = Name::new(alloc, b"P")?;
    let fields = Items::from_slice(alloc, &[0, 1])?;
    let methods = Items::from_slice(alloc, &[0])?;
    let mut classes = Items::new(alloc);
    classes.push(ClassDef {
        name,
        fields,
        methods,
        invariants: Items::new(alloc),
    })?;
    Ok(classes)
}

fn two_fields(alloc: Global) -> Result<Items<FieldDef>, NoMemory>
    ensures { IfOk result (λ l. l ≡ record { name = 118 ∷ []; class = 0; kind = kind.Int; nullable = false } ∷ record { name = 110 ∷ []; class = 0; kind = kind.Ref 0; nullable = true } ∷ []) }
{
    let v = Name::new(alloc, b"v")?;
    let next = Name::new(alloc, b"n")?;
    let mut fields = Items::new(alloc);
    fields.push(FieldDef {
        name: v,
        class: 0,
        kind: Kind::Int,
        nullable: false,
    })?;
    fields.push(FieldDef {
        name: next,
        class: 0,
        kind: Kind::Ref(0),
        nullable: true,
    })?;
    Ok(fields)
}

fn two_params(alloc: Global) -> Result<Items<ParamDef>, NoMemory>
    ensures { IfOk result (λ l. l ≡ record { name = 113 ∷ []; kind = kind.Ref 0; nullable = true } ∷ record { name = 107 ∷ []; kind = kind.Int; nullable = false } ∷ []) }
{
    let q = Name::new(alloc, b"q")?;
    let k = Name::new(alloc, b"k")?;
    let mut params = Items::new(alloc);
    params.push(ParamDef {
        name: q,
        kind: Kind::Ref(0),
        nullable: true,
    })?;
    params.push(ParamDef {
        name: k,
        kind: Kind::Int,
        nullable: false,
    })?;
    Ok(params)
}

fn one_method(alloc: Global) -> Result<Items<MethodDef>, NoMemory>
    ensures { IfOk result (λ l. l ≡ record { name = 109 ∷ []; class = 0; fixed = false; params = record { name = 113 ∷ []; kind = kind.Ref 0; nullable = true } ∷ record { name = 107 ∷ []; kind = kind.Int; nullable = false } ∷ []; result = None; locals = []; needs = []; gives = []; body = Block [] } ∷ []) }
{
    let name = Name::new(alloc, b"m")?;
    let params = two_params(alloc)?;
    let mut methods = Items::new(alloc);
    methods.push(MethodDef {
        name,
        class: 0,
        fixed: false,
        params,
        result: None,
        locals: Items::new(alloc),
        needs: Items::new(alloc),
        gives: Items::new(alloc),
        body: Stmt::Block(Items::new(alloc)),
    })?;
    Ok(methods)
}

/// The class P with an `int` v, a nullable P n and a method m with the parameters P q and `int` k,
/// within 3 objects and 4 bits.
fn problem(alloc: Global) -> Result<Problem, NoMemory> {
    let classes = one_class(alloc)?;
    let fields = two_fields(alloc)?;
    let methods = one_method(alloc)?;
    Ok(Problem {
        unit: Unit {
            classes,
            fields,
            methods,
        },
        method: 0,
        scope: Scope {
            objects: 3,
            ints: 4,
            loops: 3,
            calls: 2,
        },
    })
}

/// Two objects, of which the first holds the second. The lines begin at the bytes 0, 10, 24, 41, 49 and
/// 54, and the text has 58 bytes.
const TWO: &[u8] = b"objects 2\n@0 P v=1 n=@1\n@1 P v=-1 n=null\nthis @0\nq=@1\nk=3\n";

#[test]
fn a_start_is_read_as_it_is_written(rt: HostRuntime) -> Result<(), Fail> {
    let alloc = rt.alloc();
    let problem = problem(alloc)?;
    let start = read_state(alloc, &problem, TWO)?;
    assert_eq!(rt; start.objects.len(), 2);
    assert_eq!(rt; start.this, Value::Obj(0));
    assert_eq!(rt;
        start.args.as_slice(),
        [Value::Obj(1), Value::Num(3)].as_slice()
    );
    let text = state_text(alloc, &problem, &start)?;
    assert_eq!(rt; text.as_slice(), TWO);
    Ok(())
}

/// Where a text is refused.
fn place(alloc: Global, text: &[u8]) -> Result<Option<u32>, NoMemory>
    requires { length text.now ≤ 67108864 }
{
    let problem = problem(alloc)?;
    match read_state(alloc, &problem, text) {
        Ok(_) => Ok(None),
        Err(StateFault::BadState { at }) => Ok(Some(at)),
        Err(StateFault::NoMemory) => Err(NoMemory),
    }
}

#[test]
fn a_text_is_refused_at_its_first_bad_line(rt: HostRuntime) -> Result<(), Fail> {
    let alloc = rt.alloc();
    // The last line has no line feed.
    assert_eq!(rt; place(alloc, &TWO[..57])?, Some(54));
    // The last line is missing.
    assert_eq!(rt; place(alloc, &TWO[..54])?, Some(54));
    let line_too_many =
        b"objects 2\n@0 P v=1 n=@1\n@1 P v=-1 n=null\nthis @0\nq=@1\nk=3\nk=3\n".as_slice();
    assert_eq!(rt; place(alloc, line_too_many)?, Some(58));
    let leading_zero =
        b"objects 2\n@0 P v=01 n=@1\n@1 P v=-1 n=null\nthis @0\nq=@1\nk=3\n".as_slice();
    assert_eq!(rt; place(alloc, leading_zero)?, Some(10));
    let beyond_int = b"objects 1\n@0 P v=2147483648 n=null\nthis @0\nq=null\nk=3\n".as_slice();
    assert_eq!(rt; place(alloc, beyond_int)?, Some(10));
    let spaces = vec![in alloc; b' '; 262144]?;
    assert_eq!(rt; place(alloc, spaces.as_slice())?, Some(0));
    Ok(())
}

#[test]
fn a_start_that_does_not_fit_is_refused_at_the_end(rt: HostRuntime) -> Result<(), Fail> {
    let alloc = rt.alloc();
    let not_reached =
        b"objects 2\n@0 P v=1 n=null\n@1 P v=-1 n=null\nthis @0\nq=null\nk=3\n".as_slice();
    assert_eq!(rt; place(alloc, not_reached)?, Some(62));
    let five_bits = b"objects 1\n@0 P v=8 n=null\nthis @0\nq=null\nk=3\n".as_slice();
    assert_eq!(rt; place(alloc, five_bits)?, Some(45));
    Ok(())
}

#[test]
fn objects_may_have_any_numbers(rt: HostRuntime) -> Result<(), Fail> {
    let alloc = rt.alloc();
    let problem = problem(alloc)?;
    // The receiver is visited first, and has the last number.
    let text = b"objects 2\n@0 P v=1 n=null\n@1 P v=-1 n=@0\nthis @1\nq=null\nk=0\n".as_slice();
    let start = read_state(alloc, &problem, text)?;
    assert_eq!(rt; start.this, Value::Obj(1));
    let written = state_text(alloc, &problem, &start)?;
    assert_eq!(rt; written.as_slice(), text);
    Ok(())
}

/// The report of a replay that ends with this heap.
fn reported(
    alloc: Global,
    judged: Judged,
    outcome: Outcome,
    end_heap: Items<Object>,
) -> Result<Vec<u8>, NoMemory> {
    let problem = problem(alloc)?;
    let replayed = Replayed {
        judged,
        result: outcome,
        end_heap,
    };
    replay_text(alloc, &problem, &replayed)
}

#[test]
fn a_replay_that_breaks_the_contract_shows_its_end(rt: HostRuntime) -> Result<(), Fail> {
    let alloc = rt.alloc();
    let cells = Items::from_slice(alloc, &[Value::Num(1), Value::Null])?;
    let mut heap = Items::new(alloc);
    heap.push(Object { class: 0, cells })?;
    let text = reported(
        alloc,
        Judged::Breaks(Part::Ensures(1)),
        Outcome::Nothing,
        heap,
    )?;
    assert_eq!(rt;
        text.as_slice(),
        b"judged breaks ensures 1\nresult none\nobjects 1\n@0 P v=1 n=null\n".as_slice()
    );
    Ok(())
}

#[test]
fn a_replay_that_is_not_asked_about_shows_no_end(rt: HostRuntime) -> Result<(), Fail> {
    let alloc = rt.alloc();
    let none = Items::new(alloc);
    let text = reported(alloc, Judged::NotAsked, Outcome::Unknown, none)?;
    assert_eq!(rt; text.as_slice(), b"judged notasked\n".as_slice());
    Ok(())
}

#[test]
fn a_method_that_holds(rt: HostRuntime) -> Result<(), Fail> {
    let alloc = rt.alloc();
    let text = holds_text(alloc, &problem(alloc)?)?;
    assert_eq!(rt;
        text.as_slice(),
        b"HOLDS\nscope objects 3 ints 4 loops 3 calls 2\ntuples 0 cleared 0 kept 0 open 0\n".as_slice()
    );
    Ok(())
}

#[test]
fn refusals_are_one_line(rt: HostRuntime) -> Result<(), Fail> {
    let alloc = rt.alloc();
    let text = refusal_text(alloc, &Status::Source(Refusal::Syntax { at: 10 }))?;
    assert_eq!(rt; text.as_slice(), b"source syntax 10\n".as_slice());
    let array = Refusal::Unsupported {
        part: Absent::Array,
        at: 13,
    };
    let text = refusal_text(alloc, &Status::Source(array))?;
    assert_eq!(rt;
        text.as_slice(),
        b"source unsupported array 13\n".as_slice()
    );
    let text = refusal_text(alloc, &Status::Source(Refusal::Unknown { at: 10 }))?;
    assert_eq!(rt; text.as_slice(), b"source unknown 10\n".as_slice());
    let fields = Refusal::TooMany {
        many: Many::RefFields,
        at: 7,
    };
    let text = refusal_text(alloc, &Status::Source(fields))?;
    assert_eq!(rt; text.as_slice(), b"source toomany reffields 7\n".as_slice());
    let text = refusal_text(alloc, &Status::NoMethod)?;
    assert_eq!(rt; text.as_slice(), b"nomethod\n".as_slice());
    let text = refusal_text(alloc, &Status::BadState { at: 24 })?;
    assert_eq!(rt; text.as_slice(), b"badstate 24\n".as_slice());
    let text = refusal_text(alloc, &Status::BadText { slot: 1, at: 10 })?;
    assert_eq!(rt; text.as_slice(), b"badtext 1 10\n".as_slice());
    let text = refusal_text(alloc, &Status::TooLong { slot: 0 })?;
    assert_eq!(rt; text.as_slice(), b"toolong\n".as_slice());
    Ok(())
}
