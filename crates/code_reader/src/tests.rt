use crate::{arguments, called, expression, plain};
use java_lex::{Token, tokens};
use java_tree::{Ident, JavaNode, JavaTree, Sign};
use reading_core::{LEVELS, Stop, ident};
use std::alloc::Global;
use std::test::Fail;

/// Where reading stops: before a token behind what was read, or at the one at fault.
#[derive(Clone, Copy, Debug, PartialEq, Eq)]
enum Place {
    Before(u32),
    Wrong(u32),
    Deep(u32),
}

/// The tokens of a text.
fn lexed(alloc: Global, text: &[u8]) -> Result<Vec<Token>, Fail> {
    if text.len() > 67_108_864 {
        return Err(Fail::from("a text that is too long"));
    }
    Ok(tokens(alloc, text)?)
}

/// Where reading an expression within so many levels stops.
fn stops(alloc: Global, left: u8, text: &[u8]) -> Result<Place, Fail> {
    let tokens = lexed(alloc, text)?;
    match expression(alloc, left, tokens.as_slice()) {
        Ok((_tree, rest)) => Ok(Place::Before(rest.first().ok_or("no end")?.from)),
        Err(Stop::Wrong(rest)) => Ok(Place::Wrong(rest.first().ok_or("no end")?.from)),
        Err(Stop::Deep(rest)) => Ok(Place::Deep(rest.first().ok_or("no end")?.from)),
        Err(Stop::Memory) => Err(Fail::from("no memory")),
    }
}

/// Where reading arguments within so many levels stops, and how many they are.
fn counts(alloc: Global, left: u8, text: &[u8]) -> Result<(usize, Place), Fail> {
    let tokens = lexed(alloc, text)?;
    match arguments(alloc, left, tokens.as_slice()) {
        Ok((trees, rest)) => Ok((
            trees.len(),
            Place::Before(rest.first().ok_or("no end")?.from),
        )),
        Err(Stop::Wrong(rest)) => Ok((0, Place::Wrong(rest.first().ok_or("no end")?.from))),
        Err(Stop::Deep(rest)) => Ok((0, Place::Deep(rest.first().ok_or("no end")?.from))),
        Err(Stop::Memory) => Err(Fail::from("no memory")),
    }
}

/// The tree of a text.
fn tree_of(alloc: Global, text: &[u8]) -> Result<JavaTree, Fail> {
    let tokens = lexed(alloc, text)?;
    match expression(alloc, LEVELS, tokens.as_slice()) {
        Ok((tree, _rest)) => Ok(tree),
        Err(_stop) => Err(Fail::from("no expression")),
    }
}

/// `front`, `part` so many times, and `back`.
fn repeated(
    alloc: Global,
    front: &[u8],
    part: &[u8],
    times: usize,
    back: &[u8],
) -> Result<Vec<u8>, Fail> {
    let mut text = front.to_vec(alloc)?;
    for _ in 0..times {
        text.extend_from_slice(part)?;
    }
    text.extend_from_slice(back)?;
    Ok(text)
}

#[test]
fn an_expression_ends_before_the_first_token_that_does_not_go_on_with_it(
    rt: HostRuntime,
) -> Result<(), Fail> {
    assert_eq!(rt; stops(rt.alloc(), 64, b"a + b;")?, Place::Before(5));
    assert_eq!(rt;
        stops(rt.alloc(), 64, b"new Node().next.f(x, 1) == null)")?,
        Place::Before(31)
    );
    assert_eq!(rt; stops(rt.alloc(), 64, b"a / b")?, Place::Before(2));
    assert_eq!(rt; stops(rt.alloc(), 64, b"a == b = c")?, Place::Before(7));
    assert_eq!(rt; stops(rt.alloc(), 64, b"this(a)")?, Place::Before(4));
    assert_eq!(rt; stops(rt.alloc(), 64, b"a /*@ + b */")?, Place::Before(6));
    assert_eq!(rt; stops(rt.alloc(), 64, b"1.a")?, Place::Before(1));
    Ok(())
}

#[test]
fn a_fault_stands_at_the_first_token_with_which_no_expression_begins(
    rt: HostRuntime,
) -> Result<(), Fail> {
    assert_eq!(rt; stops(rt.alloc(), 64, b"a + ;")?, Place::Wrong(4));
    assert_eq!(rt; stops(rt.alloc(), 64, b"a &&")?, Place::Wrong(4));
    assert_eq!(rt; stops(rt.alloc(), 64, b"f(a,)")?, Place::Wrong(4));
    assert_eq!(rt; stops(rt.alloc(), 64, b"f(a b)")?, Place::Wrong(4));
    assert_eq!(rt; stops(rt.alloc(), 64, b"new (")?, Place::Wrong(4));
    assert_eq!(rt; stops(rt.alloc(), 64, b"new Node(a)")?, Place::Wrong(9));
    assert_eq!(rt; stops(rt.alloc(), 64, b"a.1")?, Place::Wrong(2));
    assert_eq!(rt; stops(rt.alloc(), 64, b"(a[0])")?, Place::Wrong(2));
    assert_eq!(rt; stops(rt.alloc(), 64, b"a == /*@ b */")?, Place::Wrong(9));
    Ok(())
}

#[test]
fn arguments_are_read_in_their_brackets(rt: HostRuntime) -> Result<(), Fail> {
    assert_eq!(rt; counts(rt.alloc(), 64, b"()")?, (0, Place::Before(2)));
    assert_eq!(rt;
        counts(rt.alloc(), 64, b"(a, b.c) + d")?,
        (2, Place::Before(9))
    );
    assert_eq!(rt; counts(rt.alloc(), 64, b"(a")?, (0, Place::Wrong(2)));
    assert_eq!(rt; counts(rt.alloc(), 64, b"a")?, (0, Place::Wrong(0)));
    assert_eq!(rt; counts(rt.alloc(), 64, b"(,)")?, (0, Place::Wrong(1)));
    assert_eq!(rt; counts(rt.alloc(), 0, b"()")?, (0, Place::Deep(0)));
    assert_eq!(rt; counts(rt.alloc(), 1, b"(a, b.c)")?, (0, Place::Deep(5)));
    assert_eq!(rt; counts(rt.alloc(), 2, b"(a, b.c)")?, (2, Place::Before(8)));
    Ok(())
}

#[test]
fn chains_bind_as_their_operators_do_and_to_the_left(rt: HostRuntime) -> Result<(), Fail> {
    let tree = tree_of(rt.alloc(), b"a || b && c == d < e + f * -g")?;
    let JavaNode::Bin(Sign::Or, _, tree) = &tree.node else {
        return Err(Fail::from("no ||"));
    };
    let JavaNode::Bin(Sign::And, _, tree) = &tree.node else {
        return Err(Fail::from("no &&"));
    };
    let JavaNode::Bin(Sign::Eq, _, tree) = &tree.node else {
        return Err(Fail::from("no =="));
    };
    let JavaNode::Bin(Sign::Lt, _, tree) = &tree.node else {
        return Err(Fail::from("no <"));
    };
    let JavaNode::Bin(Sign::Add, _, tree) = &tree.node else {
        return Err(Fail::from("no +"));
    };
    let JavaNode::Bin(Sign::Mul, _, tree) = &tree.node else {
        return Err(Fail::from("no *"));
    };
    assert!(rt; matches!(tree.node, JavaNode::Neg(_)));
    assert_eq!(rt; tree.at, 27);
    let tree = tree_of(rt.alloc(), b"a - b + c")?;
    let JavaNode::Bin(Sign::Add, tree, _) = &tree.node else {
        return Err(Fail::from("no +"));
    };
    assert!(rt; matches!(tree.node, JavaNode::Bin(Sign::Sub, _, _)));
    Ok(())
}

#[test]
fn steps_hang_on_what_stands_before_them(rt: HostRuntime) -> Result<(), Fail> {
    let tree = tree_of(rt.alloc(), b"(a).f(b, !c).d")?;
    assert_eq!(rt; tree.at, 0);
    let JavaNode::Read(tree, name) = &tree.node else {
        return Err(Fail::from("no field"));
    };
    assert_eq!(rt; (name.text.bytes(), name.at), (b"d".as_slice(), 13));
    let JavaNode::CallOn(tree, name, arguments) = &tree.node else {
        return Err(Fail::from("no call"));
    };
    assert_eq!(rt; (name.text.bytes(), name.at), (b"f".as_slice(), 4));
    assert_eq!(rt; arguments.len(), 2);
    assert!(rt; matches!(tree.node, JavaNode::Paren(_)));
    Ok(())
}

/// The first name of a text.
fn name_of(alloc: Global, text: &[u8]) -> Result<Ident, Fail> {
    let tokens = lexed(alloc, text)?;
    Ok(ident(alloc, tokens.as_slice().first().ok_or("no name")?)?)
}

#[test]
fn names_and_calls_stand_alone_or_behind_a_target(rt: HostRuntime) -> Result<(), Fail> {
    let tree = plain(rt.alloc(), None, name_of(rt.alloc(), b"a")?)?;
    assert!(rt; matches!(tree.node, JavaNode::Named(_)));
    let tree = called(
        rt.alloc(),
        Some(tree),
        name_of(rt.alloc(), b"f")?,
        Vec::new(rt.alloc()),
    )?;
    assert!(rt; matches!(tree.node, JavaNode::CallOn(_, _, _)));
    let tree = plain(rt.alloc(), Some(tree), name_of(rt.alloc(), b"b")?)?;
    assert!(rt; matches!(tree.node, JavaNode::Read(_, _)));
    let tree = called(
        rt.alloc(),
        None,
        name_of(rt.alloc(), b"g")?,
        Vec::new(rt.alloc()),
    )?;
    assert!(rt; matches!(tree.node, JavaNode::Call(_, _)));
    Ok(())
}

#[test]
fn level_64_is_opened_and_level_65_is_not(rt: HostRuntime) -> Result<(), Fail> {
    let brackets = repeated(rt.alloc(), b"", b"(", 64, b"a")?;
    let brackets = repeated(rt.alloc(), brackets.as_slice(), b")", 64, b"")?;
    assert_eq!(rt;
        stops(rt.alloc(), 64, brackets.as_slice())?,
        Place::Before(129)
    );
    let brackets = repeated(rt.alloc(), b"", b"(", 65, b"a")?;
    assert_eq!(rt;
        stops(rt.alloc(), 64, brackets.as_slice())?,
        Place::Deep(64)
    );
    let sum = repeated(rt.alloc(), b"a", b"+a", 64, b"")?;
    assert_eq!(rt; stops(rt.alloc(), 64, sum.as_slice())?, Place::Before(129));
    let sum = repeated(rt.alloc(), b"a", b"+a", 65, b"")?;
    assert_eq!(rt; stops(rt.alloc(), 64, sum.as_slice())?, Place::Deep(129));
    let steps = repeated(rt.alloc(), b"a", b".b", 64, b"")?;
    assert_eq!(rt;
        stops(rt.alloc(), 64, steps.as_slice())?,
        Place::Before(129)
    );
    let steps = repeated(rt.alloc(), b"a", b".b", 65, b"")?;
    assert_eq!(rt; stops(rt.alloc(), 64, steps.as_slice())?, Place::Deep(129));
    let unary = repeated(rt.alloc(), b"", b"!", 64, b"a")?;
    assert_eq!(rt; stops(rt.alloc(), 64, unary.as_slice())?, Place::Before(65));
    let unary = repeated(rt.alloc(), b"", b"- ", 65, b"a")?;
    assert_eq!(rt; stops(rt.alloc(), 64, unary.as_slice())?, Place::Deep(128));
    let calls = repeated(rt.alloc(), b"", b"f(", 64, b"a")?;
    let calls = repeated(rt.alloc(), calls.as_slice(), b")", 64, b"")?;
    assert_eq!(rt;
        stops(rt.alloc(), 64, calls.as_slice())?,
        Place::Before(193)
    );
    let calls = repeated(rt.alloc(), b"", b"f(", 65, b"a")?;
    assert_eq!(rt; stops(rt.alloc(), 64, calls.as_slice())?, Place::Deep(129));
    let steps = repeated(rt.alloc(), b"a", b".f()", 63, b"")?;
    assert_eq!(rt;
        stops(rt.alloc(), 64, steps.as_slice())?,
        Place::Before(253)
    );
    let steps = repeated(rt.alloc(), b"a", b".f()", 64, b"")?;
    assert_eq!(rt; stops(rt.alloc(), 64, steps.as_slice())?, Place::Deep(255));
    Ok(())
}

#[test]
fn no_number_of_arguments_is_too_many(rt: HostRuntime) -> Result<(), Fail> {
    let arguments = repeated(rt.alloc(), b"f(", b"a,", 3000, b"a)")?;
    assert_eq!(rt;
        stops(rt.alloc(), 64, arguments.as_slice())?,
        Place::Before(6004)
    );
    Ok(())
}
