ghost use Rattle.std.specs.Prelude.{◌<◌, IfOk, length};
ghost use Rattle.jml_reader.specs.Clause.{IsEnded};

use crate::{SyntaxFault, clause, predicate};
use java_lex::{Absent, Token, tokens};
use java_tree::{JmlNode, JmlTree, Sign};
use reading_core::{LEVELS, Stop};
use std::alloc::Global;
use std::test::Fail;

/// The tokens of a text.
fn lexed(alloc: Global, text: &[u8]) -> Result<Vec<Token>, Fail>
    ensures ended { IfOk result (λ v. IsEnded v.items) }
    ensures some { IfOk result (λ v. 0 < length v.items) }
{
    if text.len() > 67_108_864 {
        return Err(Fail::from("a text that is too long"));
    }
    Ok(tokens(alloc, text)?)
}

/// Where reading the text of a clause stops: the place of the first token behind the expression, or the fault.
fn stop(alloc: Global, text: &[u8]) -> Result<Result<u32, SyntaxFault>, Fail> {
    let tokens = lexed(alloc, text)?;
    match clause(alloc, tokens.as_slice(), 0) {
        Ok((_tree, place)) => {
            let token = tokens.as_slice().get(place).ok_or("no token behind it")?;
            Ok(Ok(token.from))
        }
        Err(fault) => Ok(Err(fault)),
    }
}

/// `front`, `part` so many times, and `back`.
fn repeated(
    alloc: Global,
    front: &[u8],
    part: &[u8],
    times: usize,
    back: &[u8],
) -> Result<Vec<u8>, Fail> {
    let mut text = front.to_vec(alloc)?;
    for _ in 0..times {
        text.extend_from_slice(part)?;
    }
    text.extend_from_slice(back)?;
    Ok(text)
}

#[test]
fn an_expression_ends_before_the_first_token_that_does_not_go_on_with_it(
    rt: HostRuntime,
) -> Result<(), Fail> {
    assert_eq!(rt; stop(rt.alloc(), b"/*@ a + b; */")?, Ok(9));
    assert_eq!(rt; stop(rt.alloc(), b"/*@ a */ b")?, Ok(9));
    assert_eq!(rt; stop(rt.alloc(), b"/*@ a / b */")?, Ok(6));
    assert_eq!(rt;
        stop(
            rt.alloc(),
            b"/*@ (\\forall N n; n.v > 0; n.next == null) && \\old(x) == -1 */ ;"
        )?,
        Ok(63)
    );
    assert_eq!(rt;
        stop(
            rt.alloc(),
            b"/*@ !\\reach(a, N, f + g).has(b.c) ==> \\reach(a, N, f).int_size() <= \\result; */"
        )?,
        Ok(75)
    );
    Ok(())
}

#[test]
fn a_fault_stands_at_the_first_token_with_which_no_expression_begins(
    rt: HostRuntime,
) -> Result<(), Fail> {
    assert_eq!(rt;
        stop(rt.alloc(), b"/*@ a + ; */")?,
        Err(SyntaxFault::Syntax { at: 8 })
    );
    assert_eq!(rt;
        stop(rt.alloc(), b"/*@ \\reach(a, N).has(b) */")?,
        Err(SyntaxFault::Syntax { at: 15 })
    );
    assert_eq!(rt;
        stop(rt.alloc(), b"/*@ \\reach(a, N, f).size() */")?,
        Err(SyntaxFault::Syntax { at: 20 })
    );
    assert_eq!(rt;
        stop(rt.alloc(), b"/*@ (\\forall n; true) */")?,
        Err(SyntaxFault::Syntax { at: 14 })
    );
    assert_eq!(rt;
        stop(rt.alloc(), b"/*@ a && */ b")?,
        Err(SyntaxFault::Syntax { at: 12 })
    );
    assert_eq!(rt;
        stop(rt.alloc(), b"/*@ !/ */")?,
        Err(SyntaxFault::Unsupported {
            part: Absent::Operator,
            at: 5
        })
    );
    assert_eq!(rt;
        stop(rt.alloc(), b"/*@ (a[0]) */")?,
        Err(SyntaxFault::Unsupported {
            part: Absent::Array,
            at: 6
        })
    );
    assert_eq!(rt;
        stop(rt.alloc(), b"//@ ")?,
        Err(SyntaxFault::Syntax { at: 4 })
    );
    Ok(())
}

/// The tree of the text of a clause.
fn tree_of(alloc: Global, text: &[u8]) -> Result<JmlTree, Fail> {
    let tokens = lexed(alloc, text)?;
    let (tree, _place) = clause(alloc, tokens.as_slice(), 0)?;
    Ok(tree)
}

#[test]
fn chains_associate_to_the_left_and_implications_to_the_right(rt: HostRuntime) -> Result<(), Fail> {
    let tree = tree_of(rt.alloc(), b"/*@ a && b || c ==> d ==> e */")?;
    let JmlNode::Bin(Sign::Implies, left, right) = &tree.node else {
        return Err(Fail::from("no ==>"));
    };
    assert!(rt; matches!(left.node, JmlNode::Bin(Sign::Or, _, _)));
    assert!(rt; matches!(right.node, JmlNode::Bin(Sign::Implies, _, _)));
    let tree = tree_of(rt.alloc(), b"/*@ a <==> b <==> c */")?;
    let JmlNode::Bin(Sign::Iff, left, _) = &tree.node else {
        return Err(Fail::from("no <==>"));
    };
    assert!(rt; matches!(left.node, JmlNode::Bin(Sign::Iff, _, _)));
    Ok(())
}

#[test]
fn the_first_part_of_two_is_the_range_of_a_quantifier(rt: HostRuntime) -> Result<(), Fail> {
    let tree = tree_of(rt.alloc(), b"/*@ (\\exists N n; !n.v; n == null) */")?;
    let JmlNode::Quant(all, class, name, Some(range), body) = &tree.node else {
        return Err(Fail::from("no quantifier with a range"));
    };
    assert!(rt; !*all);
    assert_eq!(rt; (class.at, name.at), (13, 15));
    assert!(rt; matches!(range.node, JmlNode::Not(_)));
    assert!(rt; matches!(body.node, JmlNode::Bin(Sign::Eq, _, _)));
    Ok(())
}

#[test]
fn a_reach_has_its_fields_in_order(rt: HostRuntime) -> Result<(), Fail> {
    let tree = tree_of(rt.alloc(), b"/*@ \\reach(a, N, f + g).has(b) */")?;
    let JmlNode::Has(reach, object) = &tree.node else {
        return Err(Fail::from("no reach"));
    };
    assert_eq!(rt; reach.fields.len(), 2);
    assert_eq!(rt; (reach.fields[0].at, reach.fields[1].at), (17, 21));
    assert!(rt; matches!(object.node, JmlNode::Named(_)));
    Ok(())
}

#[test]
fn a_predicate_is_read_within_the_levels_that_are_left(rt: HostRuntime) -> Result<(), Fail> {
    let tokens = lexed(rt.alloc(), b"/*@ !a; */")?;
    assert!(rt;
        matches!(
            predicate(rt.alloc(), 0, tokens.as_slice()),
            Err(Stop::Deep(_))
        )
    );
    match predicate(rt.alloc(), LEVELS, tokens.as_slice()) {
        Ok((tree, rest)) => {
            assert!(rt; matches!(tree.node, JmlNode::Not(_)));
            assert_eq!(rt; rest.first().ok_or("no end")?.from, 6);
        }
        Err(_stop) => return Err(Fail::from("no predicate")),
    }
    Ok(())
}

#[test]
fn level_64_is_opened_and_level_65_is_not(rt: HostRuntime) -> Result<(), Fail> {
    let brackets = repeated(rt.alloc(), b"/*@ ", b"(", 64, b"a")?;
    let brackets = repeated(rt.alloc(), brackets.as_slice(), b")", 64, b" */")?;
    assert_eq!(rt; stop(rt.alloc(), brackets.as_slice())?, Ok(136));
    let brackets = repeated(rt.alloc(), b"/*@ ", b"(", 65, b"a */")?;
    assert_eq!(rt;
        stop(rt.alloc(), brackets.as_slice())?,
        Err(SyntaxFault::Deep { at: 68 })
    );
    let sum = repeated(rt.alloc(), b"/*@ a", b"+a", 64, b" */")?;
    assert_eq!(rt; stop(rt.alloc(), sum.as_slice())?, Ok(136));
    let sum = repeated(rt.alloc(), b"/*@ a", b"+a", 65, b" */")?;
    assert_eq!(rt;
        stop(rt.alloc(), sum.as_slice())?,
        Err(SyntaxFault::Deep { at: 133 })
    );
    let steps = repeated(rt.alloc(), b"/*@ a", b".b", 65, b" */")?;
    assert_eq!(rt;
        stop(rt.alloc(), steps.as_slice())?,
        Err(SyntaxFault::Deep { at: 133 })
    );
    let unary = repeated(rt.alloc(), b"/*@ ", b"!", 65, b"a */")?;
    assert_eq!(rt;
        stop(rt.alloc(), unary.as_slice())?,
        Err(SyntaxFault::Deep { at: 68 })
    );
    let implications = repeated(rt.alloc(), b"/*@ a", b"==>a", 65, b" */")?;
    assert_eq!(rt;
        stop(rt.alloc(), implications.as_slice())?,
        Err(SyntaxFault::Deep { at: 261 })
    );
    Ok(())
}

#[test]
fn a_long_text_of_brackets_is_too_deep(rt: HostRuntime) -> Result<(), Fail> {
    let text = repeated(rt.alloc(), b"//@", b"(", 262141, b"")?;
    assert_eq!(rt;
        stop(rt.alloc(), text.as_slice())?,
        Err(SyntaxFault::Deep { at: 67 })
    );
    Ok(())
}
