use crate::{Fixed, fixed, name};
use java_lex::tokens;
use std::test::Fail;

#[test]
fn a_name_and_a_semicolon_are_read(rt: HostRuntime) -> Result<(), Fail> {
    let tokens = tokens(rt.alloc(), b"x ;")?;
    let Ok((name, rest)) = name(rt.alloc(), tokens.as_slice(), false) else {
        return Err("no name".into());
    };
    assert_eq!(rt; name.text.bytes(), b"x".as_slice());
    assert_eq!(rt; name.at, 0);
    let Ok(rest) = fixed(rest, false, Fixed::Semicolon) else {
        return Err("no semicolon".into());
    };
    assert_eq!(rt; rest.len(), 1);
    Ok(())
}
