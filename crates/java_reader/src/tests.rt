use crate::{SourceFault, read_unit};
use java_lex::Absent;
use java_tree::print;
use std::alloc::Global;
use std::test::Fail;

/// The fault of a text, if it has one.
fn fault(alloc: Global, text: &[u8]) -> Result<Option<SourceFault>, Fail> {
    if text.len() > 262_145 {
        return Err("the text is too long for a test".into());
    }
    match read_unit(alloc, text) {
        Ok(_tree) => Ok(None),
        Err(fault) => Ok(Some(fault)),
    }
}

/// `front`, `part` so many times, and `back`.
fn repeated(
    alloc: Global,
    front: &[u8],
    part: &[u8],
    times: usize,
    back: &[u8],
) -> Result<Vec<u8>, Fail> {
    let mut text = front.to_vec(alloc)?;
    for _ in 0..times {
        text.extend_from_slice(part)?;
    }
    text.extend_from_slice(back)?;
    Ok(text)
}

/// The fault of the method of these statements: `front`, `part` so many times, and `back`.
fn fault_of_body(
    alloc: Global,
    front: &[u8],
    part: &[u8],
    times: usize,
    back: &[u8],
) -> Result<Option<SourceFault>, Fail> {
    let body = repeated(alloc, front, part, times, back)?;
    let text = repeated(alloc, b"class A { void m() { ", body.as_slice(), 1, b" } }")?;
    fault(alloc, text.as_slice())
}

#[test]
fn texts_are_refused_at_the_first_token_at_fault(rt: HostRuntime) -> Result<(), Fail> {
    let alloc = rt.alloc();
    assert_eq!(rt; fault(alloc, b"")?, Some(SourceFault::Syntax { at: 0 }));
    assert_eq!(rt;
        fault(alloc, b"class L {\n")?,
        Some(SourceFault::Syntax { at: 10 })
    );
    assert_eq!(rt;
        fault(alloc, b"class A { int[] x; }")?,
        Some(SourceFault::Unsupported {
            part: Absent::Array,
            at: 13
        })
    );
    assert_eq!(rt; fault(alloc, b"class A { B x; }")?, None);
    assert_eq!(rt;
        fault(alloc, b"class A { void m() { x = ; } }")?,
        Some(SourceFault::Syntax { at: 25 })
    );
    assert_eq!(rt;
        fault(alloc, b"class A { int f( ; }")?,
        Some(SourceFault::Syntax { at: 17 })
    );
    assert_eq!(rt;
        fault(alloc, b"class A { int x y; }")?,
        Some(SourceFault::Syntax { at: 16 })
    );
    assert_eq!(rt;
        fault(alloc, b"class A { void m() { a.b ; } }")?,
        Some(SourceFault::Syntax { at: 25 })
    );
    assert_eq!(rt;
        fault(alloc, b"class A { /*@ requires true @*/ int x; }")?,
        Some(SourceFault::Syntax { at: 32 })
    );
    assert_eq!(rt;
        fault(alloc, b"class A { /*@ requires true; @*/ int x; }")?,
        Some(SourceFault::Syntax { at: 38 })
    );
    assert_eq!(rt;
        fault(alloc, b"class A { //@ also\n}")?,
        Some(SourceFault::Unsupported {
            part: Absent::Jml,
            at: 14
        })
    );
    assert_eq!(rt;
        fault(alloc, b"class A { void m() { for")?,
        Some(SourceFault::Unsupported {
            part: Absent::Statement,
            at: 21
        })
    );
    assert_eq!(rt;
        fault(alloc, b"class A { int[] x; } #")?,
        Some(SourceFault::BadToken { at: 21 })
    );
    Ok(())
}

#[test]
fn level_64_is_opened_and_level_65_is_not(rt: HostRuntime) -> Result<(), Fail> {
    let alloc = rt.alloc();
    // brackets
    let front = b"class D { static boolean f(boolean a) { return ";
    let open = repeated(alloc, front, b"(", 64, b"a")?;
    let text = repeated(alloc, open.as_slice(), b")", 64, b"; } }")?;
    assert_eq!(rt; fault(alloc, text.as_slice())?, None);
    let open = repeated(alloc, front, b"(", 65, b"a")?;
    let text = repeated(alloc, open.as_slice(), b")", 65, b"; } }")?;
    assert_eq!(rt;
        fault(alloc, text.as_slice())?,
        Some(SourceFault::Deep { at: 111 })
    );
    // operators of a chain, and unary ones
    assert_eq!(rt; fault_of_body(alloc, b"x = a", b"+a", 64, b";")?, None);
    assert_eq!(rt;
        fault_of_body(alloc, b"x = a", b"+a", 65, b";")?,
        Some(SourceFault::Deep { at: 154 })
    );
    assert_eq!(rt; fault_of_body(alloc, b"x = ", b"!", 64, b"a;")?, None);
    assert_eq!(rt;
        fault_of_body(alloc, b"x = ", b"!", 65, b"a;")?,
        Some(SourceFault::Deep { at: 89 })
    );
    // the dots of a place
    assert_eq!(rt; fault_of_body(alloc, b"a", b".b", 64, b" = 1;")?, None);
    assert_eq!(rt;
        fault_of_body(alloc, b"a", b".b", 65, b" = 1;")?,
        Some(SourceFault::Deep { at: 150 })
    );
    // implications of a clause
    let clause = repeated(
        alloc,
        b"class A { //@ requires a",
        b"==>a",
        64,
        b";\nvoid m() { } }",
    )?;
    assert_eq!(rt; fault(alloc, clause.as_slice())?, None);
    let clause = repeated(
        alloc,
        b"class A { //@ requires a",
        b"==>a",
        65,
        b";\nvoid m() { } }",
    )?;
    assert_eq!(rt;
        fault(alloc, clause.as_slice())?,
        Some(SourceFault::Deep { at: 280 })
    );
    // inner blocks, and a block behind an `if`
    assert_eq!(rt;
        fault_of_body(alloc, b"", b"{", 65, b"")?,
        Some(SourceFault::Deep { at: 85 })
    );
    assert_eq!(rt;
        fault_of_body(alloc, b"if (a) ", b"{", 64, b"")?,
        Some(SourceFault::Deep { at: 91 })
    );
    let blocks = repeated(alloc, b"", b"{", 64, b"")?;
    assert_eq!(rt;
        fault_of_body(alloc, blocks.as_slice(), b"}", 64, b"")?,
        None
    );
    // each `else` stands in the one before it, and its `if` and the `(` of that open a level each
    assert_eq!(rt;
        fault_of_body(alloc, b"if (a) ; ", b"else if (a) ; ", 62, b"")?,
        None
    );
    assert_eq!(rt;
        fault_of_body(alloc, b"if (a) ; ", b"else if (a) ; ", 62, b"else ;")?,
        None
    );
    assert_eq!(rt;
        fault_of_body(alloc, b"if (a) ; ", b"else if (a) ; ", 63, b"")?,
        Some(SourceFault::Deep { at: 906 })
    );
    Ok(())
}

/// The tree of a text, as it is printed.
fn printed(alloc: Global, text: &[u8]) -> Result<Vec<u8>, Fail> {
    if text.len() > 262_145 {
        return Err("the text is too long for a test".into());
    }
    let tree = read_unit(alloc, text)?;
    let text = print(alloc, &tree)?;
    Ok(text)
}

#[test]
fn a_tree_keeps_what_has_an_effect(rt: HostRuntime) -> Result<(), Fail> {
    let text = b"package p.q; import java.util.*; import static a.B.c;\n\
        public /*@ non_null_by_default @*/ final class A {\n\
        ; private /*@ spec_public non_null nullable @*/ A x, y; ;\n\
        //@ public normal_behavior requires x == y; ensures \\result > 0;\n\
        public static /*@ nullable @*/ int f(final int a, /*@ nullable @*/ A b) { int c = 1, d; this.x.y = null; f(c); return a; }\n\
        /*@ protected invariant x != null; @*/ }\n\
        class B { }";
    let printed = printed(rt.alloc(), text)?;
    let wanted =
        b"/*@ non_null_by_default @*/ class A { /*@ nullable non_null @*/ A x ; /*@ nullable non_null @*/ A y ; \
        /*@ requires x == y ; ensures \\result > 0 ; @*/ static /*@ nullable @*/ int f ( int a , /*@ nullable @*/ A b ) \
        { int c = 1 , d ; this . x . y = null ; f ( c ) ; return a ; } /*@ invariant x != null ; @*/ } class B { }\n";
    assert_eq!(rt; printed.as_slice(), wanted.as_slice());
    Ok(())
}

/// A class with a method whose text is that of a list, in the profile's words.
const LIST: &[u8] = b"class Node { int v; /*@ nullable @*/ Node next; }\n\
class List {\n\
  /*@ nullable @*/ Node head;\n\
  /*@ invariant (\\forall Node n; \\reach(head, Node, next).has(n);\n\
    @   !\\reach(n.next, Node, next).has(n)\n\
    @   && (n.next != null ==> n.v <= n.next.v)); @*/\n\
  /*@ ensures \\reach(head, Node, next).int_size()\n\
    @   == \\old(\\reach(head, Node, next).int_size()) + 1; @*/\n\
  void insert(int k) {\n\
    Node x = new Node();\n\
    x.v = k;\n\
    if (head == null || k <= head.v) { x.next = head; head = x; return; }\n\
    Node p = head;\n\
    while (p.next != null && p.next.v < k) { p = p.next; }\n\
    x.next = p.next;\n\
    p.next = x;\n\
  }\n\
}\n";

#[test]
fn a_class_of_lists_is_read(rt: HostRuntime) -> Result<(), Fail> {
    let printed = printed(rt.alloc(), LIST)?;
    let wanted =
        b"class Node { int v ; /*@ nullable @*/ Node next ; } class List { /*@ nullable @*/ Node head ; \
        /*@ invariant ( \\forall Node n ; \\reach ( head , Node , next ) . has ( n ) ; \
        ! \\reach ( n . next , Node , next ) . has ( n ) && ( n . next != null ==> n . v <= n . next . v ) ) ; \
        ensures \\reach ( head , Node , next ) . int_size ( ) == \\old ( \\reach ( head , Node , next ) . int_size ( ) ) + 1 ; @*/ \
        void insert ( int k ) { Node x = new Node ( ) ; x . v = k ; \
        if ( head == null || k <= head . v ) { x . next = head ; head = x ; return ; } Node p = head ; \
        while ( p . next != null && p . next . v < k ) { p = p . next ; } x . next = p . next ; p . next = x ; } }\n";
    assert_eq!(rt; printed.as_slice(), wanted.as_slice());
    Ok(())
}

#[test]
fn long_texts_are_read(rt: HostRuntime) -> Result<(), Fail> {
    let alloc = rt.alloc();
    let text = repeated(alloc, b"", b"(", 262_144, b"")?;
    assert_eq!(rt;
        fault(alloc, text.as_slice())?,
        Some(SourceFault::Syntax { at: 0 })
    );
    let text = repeated(alloc, b"class A { int f() { return ", b"(", 262_117, b"")?;
    assert_eq!(rt;
        fault(alloc, text.as_slice())?,
        Some(SourceFault::Deep { at: 91 })
    );
    let text = repeated(alloc, b"class A {", b";", 10_000, b"}")?;
    assert_eq!(rt; fault(alloc, text.as_slice())?, None);
    let text = repeated(alloc, b"class A { void m() { ", b"f();", 65_530, b"} }")?;
    assert_eq!(rt; fault(alloc, text.as_slice())?, None);
    Ok(())
}
