use crate::{Act, Prog, unroll};
use no_memory::NoMemory;
use sqlite_items::{Boxed, Items};
use std::alloc::Global;
use std::test::Fail;

/// Writes all parts, one behind the other.
#[cycle(writing)]
fn write_all(parts: &[Prog], text: &mut Vec<u8>) -> Result<(), NoMemory> {
    for part in parts {
        write(part, text)?;
    }
    Ok(())
}

/// Writes a program: `m` is a `Make`, `a` another action, `t` a test, `( )` stand round a sequence and
/// `[ ]` round a choice, and `*` before the body of an iteration.
#[cycle(writing)]
fn write(prog: &Prog, text: &mut Vec<u8>) -> Result<(), NoMemory> {
    match prog {
        Prog::Act(Act::Make(..)) => text.push(b'm')?,
        Prog::Act(_) => text.push(b'a')?,
        Prog::Test(..) => text.push(b't')?,
        Prog::Seq(parts) => {
            text.push(b'(')?;
            write_all(parts.as_slice(), text)?;
            text.push(b')')?;
        }
        Prog::Choice(parts) => {
            text.push(b'[')?;
            write_all(parts.as_slice(), text)?;
            text.push(b']')?;
        }
        Prog::Star(body) => {
            text.push(b'*')?;
            write(body.get(), text)?;
        }
    }
    Ok(())
}

fn star(alloc: Global, body: Prog) -> Result<Prog, NoMemory> {
    let body = Boxed::new(alloc, body)?;
    Ok(Prog::Star(body))
}

#[test]
fn an_iteration_inside_another_is_written_out(rt: HostRuntime) -> Result<(), Fail> {
    let alloc = rt.alloc();
    let mut parts = Items::new(alloc);
    parts.push(Prog::Act(Act::Make(0, 0)))?;
    parts.push(star(alloc, Prog::Act(Act::Sum(1, 1, 2)))?)?;
    let nested = star(alloc, Prog::Seq(parts))?;

    let mut text = Vec::new(alloc);
    let written = unroll(alloc, &nested, 2)?;
    write(&written, &mut text)?;
    assert_eq!(rt;
        text.as_slice(),
        b"[()((m[()(a[()(a())])])[()((m[()(a[()(a())])])())])]".as_slice()
    );
    Ok(())
}

#[test]
fn a_long_block_is_a_loop(rt: HostRuntime) -> Result<(), Fail> {
    let alloc = rt.alloc();
    let mut parts = Items::new(alloc);
    for _part in 0..60_000 {
        parts.push(Prog::Act(Act::Copy(0, 1)))?;
    }
    let block = star(alloc, Prog::Seq(parts))?;

    let mut text = Vec::new(alloc);
    let written = unroll(alloc, &block, 2)?;
    write(&written, &mut text)?;
    assert_eq!(rt; text.iter().filter(|b| **b == b'a').count(), 120_000);
    Ok(())
}
