use crate::{Absent, LexFault, Terminal, Token, TokenKind, tokens};
use std::alloc::Global;
use std::test::Fail;

/// Texts, and their tokens with their places.
const ROWS: [(&str, &str); 47] = [
    ("", "end@0-0"),
    ("/**/", "end@4-4"),
    ("/*/", "bad@0"),
    ("//@", "end@3-3"),
    ("//@ ", "end@4-4"),
    ("/*@@ x @@*/", "j:x@5-6 end@11-11"),
    ("/*@ x @ @*/", "j:x@4-5 j:@@6-7 end@11-11"),
    ("// a //@ x\ny", "y@11-12 end@12-12"),
    ("a.b", "a@0-1 .@1-2 b@2-3 end@3-3"),
    ("0", "#0@0-1 end@1-1"),
    ("01", "bad@0"),
    ("2147483647", "#2147483647@0-10 end@10-10"),
    ("2147483648", "bad@0"),
    ("1x", "bad@0"),
    ("1_", "bad@0"),
    ("1$", "#1@0-1 $@1-2 end@2-2"),
    ("\"a\\\"b\"", "text@0-6 end@6-6"),
    ("'\"'", "text@0-3 end@3-3"),
    ("\"a", "bad@0"),
    ("\"a\\", "bad@0"),
    ("\"a\\\nb\"", "bad@0"),
    ("a /* b", "bad@2"),
    ("\\old", "bad@0"),
    (
        "//@ \\old \\a1",
        "j:\\old@4-8 j:\\a@9-11 j:#1@11-12 end@12-12",
    ),
    ("//@ \\", "bad@4"),
    ("a ==> b", "a@0-1 ==@2-4 >@4-5 b@6-7 end@7-7"),
    ("//@ a ==> b", "j:a@4-5 j:==>@6-9 j:b@10-11 end@11-11"),
    ("a <== b", "a@0-1 <=@2-4 =@4-5 b@6-7 end@7-7"),
    (
        "//@ a <== b <==> c",
        "j:a@4-5 j:<==@6-9 j:b@10-11 j:<==>@12-16 j:c@17-18 end@18-18",
    ),
    ("//@ a <=!=> b", "j:a@4-5 j:<=!=>@6-11 j:b@12-13 end@13-13"),
    ("a >>>= b", "a@0-1 >>>=@2-6 b@7-8 end@8-8"),
    ("a//b\rc", "a@0-1 c@5-6 end@6-6"),
    ("//@ a\rb", "j:a@4-5 b@6-7 end@7-7"),
    ("//@ a // b @\nc", "j:a@4-5 c@13-14 end@14-14"),
    (
        "/*@ a\r\n  @@ b\n@c @ @@*/ d",
        "j:a@4-5 j:b@12-13 j:c@15-16 j:@@17-18 d@24-25 end@25-25",
    ),
    ("/*@ // a @*/ b", "b@13-14 end@14-14"),
    ("/*@ \"a @*/ b\"", "bad@4"),
    ("/*@ /* a */ b", "j:/@4-5 j:*@5-6 j:a@7-8 b@12-13 end@13-13"),
    ("/*@ # */ b #", "bad@4"),
    ("/*@ a", "bad@0"),
    ("@ x", "@@0-1 x@2-3 end@3-3"),
    ("é", "bad@0"),
    ("a\x7f", "bad@1"),
    (
        "class _ $x x$1",
        "class@0-5 _@6-7 $x@8-10 x$1@11-14 end@14-14",
    ),
    (
        "a-->b++ +c",
        "a@0-1 --@1-3 >@3-4 b@4-5 ++@5-7 +@8-9 c@9-10 end@10-10",
    ),
    ("\x0b", "bad@0"),
    ("//@ a */ b", "j:a@4-5 j:*@6-7 j:/@7-8 j:b@9-10 end@10-10"),
];

/// A class with a list, a method and its contract.
const LIST: &str = "class Node { int v; /*@ nullable @*/ Node next; }
class List {
  /*@ nullable @*/ Node head;
  /*@ invariant (\\forall Node n; \\reach(head, Node, next).has(n);
    @   !\\reach(n.next, Node, next).has(n)
    @   && (n.next != null ==> n.v <= n.next.v)); @*/
  /*@ ensures \\reach(head, Node, next).int_size()
    @   == \\old(\\reach(head, Node, next).int_size()) + 1; @*/
  void insert(int k) {
    Node x = new Node();
    x.v = k;
    if (head == null || k <= head.v) { x.next = head; head = x; return; }
    Node p = head;
    while (p.next != null && p.next.v < k) { p = p.next; }
    x.next = p.next;
    p.next = x;
  }
}
";

/// Its tokens, with their places.
const LIST_TOKENS: [&str; 28] = [
    "class@0-5 Node@6-10 {@11-12 int@13-16 v@17-18 ;@18-19 j:nullable@24-32 Node@37-41",
    "next@42-46 ;@46-47 }@48-49 class@50-55 List@56-60 {@61-62 j:nullable@69-77 Node@82-86",
    "head@87-91 ;@91-92 j:invariant@99-108 j:(@109-110 j:\\forall@110-117 j:Node@118-122",
    "j:n@123-124 j:;@124-125 j:\\reach@126-132 j:(@132-133 j:head@133-137 j:,@137-138",
    "j:Node@139-143 j:,@143-144 j:next@145-149 j:)@149-150 j:.@150-151 j:has@151-154",
    "j:(@154-155 j:n@155-156 j:)@156-157 j:;@157-158 j:!@167-168 j:\\reach@168-174 j:(@174-175",
    "j:n@175-176 j:.@176-177 j:next@177-181 j:,@181-182 j:Node@183-187 j:,@187-188",
    "j:next@189-193 j:)@193-194 j:.@194-195 j:has@195-198 j:(@198-199 j:n@199-200 j:)@200-201",
    "j:&&@210-212 j:(@213-214 j:n@214-215 j:.@215-216 j:next@216-220 j:!=@221-223",
    "j:null@224-228 j:==>@229-232 j:n@233-234 j:.@234-235 j:v@235-236 j:<=@237-239 j:n@240-241",
    "j:.@241-242 j:next@242-246 j:.@246-247 j:v@247-248 j:)@248-249 j:)@249-250 j:;@250-251",
    "j:ensures@262-269 j:\\reach@270-276 j:(@276-277 j:head@277-281 j:,@281-282 j:Node@283-287",
    "j:,@287-288 j:next@289-293 j:)@293-294 j:.@294-295 j:int_size@295-303 j:(@303-304",
    "j:)@304-305 j:==@314-316 j:\\old@317-321 j:(@321-322 j:\\reach@322-328 j:(@328-329",
    "j:head@329-333 j:,@333-334 j:Node@335-339 j:,@339-340 j:next@341-345 j:)@345-346",
    "j:.@346-347 j:int_size@347-355 j:(@355-356 j:)@356-357 j:)@357-358 j:+@359-360",
    "j:#1@361-362 j:;@362-363 void@370-374 insert@375-381 (@381-382 int@382-385 k@386-387",
    ")@387-388 {@389-390 Node@395-399 x@400-401 =@402-403 new@404-407 Node@408-412 (@412-413",
    ")@413-414 ;@414-415 x@420-421 .@421-422 v@422-423 =@424-425 k@426-427 ;@427-428 if@433-435",
    "(@436-437 head@437-441 ==@442-444 null@445-449 ||@450-452 k@453-454 <=@455-457",
    "head@458-462 .@462-463 v@463-464 )@464-465 {@466-467 x@468-469 .@469-470 next@470-474",
    "=@475-476 head@477-481 ;@481-482 head@483-487 =@488-489 x@490-491 ;@491-492 return@493-499",
    ";@499-500 }@501-502 Node@507-511 p@512-513 =@514-515 head@516-520 ;@520-521 while@526-531",
    "(@532-533 p@533-534 .@534-535 next@535-539 !=@540-542 null@543-547 &&@548-550 p@551-552",
    ".@552-553 next@553-557 .@557-558 v@558-559 <@560-561 k@562-563 )@563-564 {@565-566",
    "p@567-568 =@569-570 p@571-572 .@572-573 next@573-577 ;@577-578 }@579-580 x@585-586",
    ".@586-587 next@587-591 =@592-593 p@594-595 .@595-596 next@596-600 ;@600-601 p@606-607",
    ".@607-608 next@608-612 =@613-614 x@615-616 ;@616-617 }@620-621 }@622-623 end@624-624",
];

/// Adds a token with its place, and `j:` before it where it stands in an annotation.
fn push_shown(alloc: Global, shown: &mut String, token: &Token) -> Result<(), Fail> {
    if token.jml {
        shown.push_str("j:")?;
    }
    match &token.kind {
        TokenKind::Word(text) => push_text(shown, text.bytes())?,
        TokenKind::Slashed(text) => push_text(shown, text.bytes())?,
        TokenKind::Symbol(text) => push_text(shown, text.bytes())?,
        TokenKind::Number(n) => shown.push_str(format!(in alloc; "#{n}")?.as_str())?,
        TokenKind::Quoted => shown.push_str("text")?,
        TokenKind::End => shown.push_str("end")?,
    }
    shown.push_str(format!(in alloc; "@{}-{}", token.from, token.to)?.as_str())?;
    Ok(())
}

fn push_text(shown: &mut String, bytes: &[u8]) -> Result<(), Fail> {
    shown.push_str(std::str::from_utf8(bytes)?)?;
    Ok(())
}

/// The tokens of a text, parted by spaces, or its first bad place.
fn shown(alloc: Global, text: &str) -> Result<String, Fail> {
    let mut shown = String::new(alloc);
    if text.len() > 1000 {
        return Ok(shown);
    }
    match tokens(alloc, text.as_bytes()) {
        Ok(tokens) => {
            for token in &tokens {
                if !shown.is_empty() {
                    shown.push_str(" ")?;
                }
                push_shown(alloc, &mut shown, token)?;
            }
        }
        Err(LexFault::BadToken { at }) => shown.push_str(format!(in alloc; "bad@{at}")?.as_str())?,
        Err(LexFault::NoMemory) => shown.push_str("no memory")?,
    }
    Ok(shown)
}

#[test]
fn texts_are_cut(rt: HostRuntime) -> Result<(), Fail> {
    for (text, wanted) in &ROWS {
        let found = shown(rt.alloc(), text)?;
        assert_eq!(rt; found.as_str(), *wanted, "{text}");
    }
    Ok(())
}

#[test]
fn a_class_is_cut(rt: HostRuntime) -> Result<(), Fail> {
    let mut wanted = String::new(rt.alloc());
    for line in &LIST_TOKENS {
        if !wanted.is_empty() {
            wanted.push_str(" ")?;
        }
        wanted.push_str(line)?;
    }
    let found = shown(rt.alloc(), LIST)?;
    assert_eq!(rt; found.as_str(), wanted.as_str());
    Ok(())
}

/// Texts of one token, in an annotation or not, and what they are to the grammar.
const TERMINALS: [(&str, Terminal); 16] = [
    ("class", Terminal::Class),
    ("requires", Terminal::Name),
    ("//@ requires", Terminal::Requires),
    ("//@ static", Terminal::Static),
    ("//@ x", Terminal::Name),
    ("const", Terminal::Reserved),
    ("//@ assert", Terminal::Absent(Absent::Statement)),
    ("//@ pure", Terminal::Absent(Absent::Jml)),
    ("//@ \\result", Terminal::ResultValue),
    ("//@ \\type", Terminal::Absent(Absent::Jml)),
    ("[", Terminal::Absent(Absent::Array)),
    ("'x'", Terminal::Absent(Absent::Text)),
    ("->", Terminal::Absent(Absent::Operator)),
    ("@", Terminal::Absent(Absent::Modifier)),
    ("17", Terminal::Number),
    ("", Terminal::End),
];

#[test]
fn terminals_are_told(rt: HostRuntime) -> Result<(), Fail> {
    for (text, wanted) in &TERMINALS {
        assert!(rt; text.len() < 100);
        let found = tokens(rt.alloc(), text.as_bytes())?;
        assert!(rt; !found.is_empty());
        assert!(rt; found[0].terminal() == *wanted, "{text}");
    }
    Ok(())
}

#[test]
fn bytes_are_kept(rt: HostRuntime) -> Result<(), Fail> {
    let bytes = Vec::from_slice(rt.alloc(), b"next")?;
    let lexeme = crate::Lexeme::from_vec(bytes);
    assert_eq!(rt; lexeme.bytes(), b"next".as_slice());
    let copy = crate::Lexeme::new(rt.alloc(), lexeme.bytes())?;
    assert_eq!(rt; copy.into_vec(), lexeme.into_vec());
    Ok(())
}
