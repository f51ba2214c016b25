ghost use Rattle.std.specs.Prelude.{◌<◌};

use super::*;
use std::alloc::{AllocError, Global};
use std::test::Fail;

/// Files with one file, `abc`, of five bytes.
fn one_file(alloc: Global, most: usize, failing: &[u64]) -> Result<MemFiles, AllocError>
    requires { 0 < most }
{
    let mut contents = Vec::new(alloc);
    contents.push((b"abc".to_vec(alloc)?, b"12345".to_vec(alloc)?))?;
    Ok(MemFiles::new(alloc, contents, most, failing.to_vec(alloc)?))
}

/// What `read_all` gives of a file after an `open`, or None where that fails.
fn read(
    alloc: Global,
    files: &mut MemFiles,
    name: &str,
    limit: u32,
) -> Option<Result<Vec<u8>, ReadEnd>> {
    match files.open(1, name) {
        Opened::Ready => Some(read_all(alloc, files, 1, limit)),
        _ => None,
    }
}

#[test]
fn reads_whole_files(rt: HostRuntime) -> Result<(), Fail> {
    let alloc = rt.alloc();
    for most in [1, 2, 5, 100] {
        let mut files = one_file(alloc, most, &[])?;
        match read(alloc, &mut files, "abc", 5) {
            Some(Ok(bytes)) => assert_eq!(rt; bytes.as_slice(), b"12345".as_slice()),
            _ => panic!(rt; "at {most}"),
        }
    }
    Ok(())
}

#[test]
fn names_what_ends_a_read(rt: HostRuntime) -> Result<(), Fail> {
    let alloc = rt.alloc();
    let mut files = one_file(alloc, 2, &[])?;
    assert!(rt;
        matches!(
            read(alloc, &mut files, "abc", 4),
            Some(Err(ReadEnd::TooLong))
        )
    );
    assert!(rt; read(alloc, &mut files, "ab", 9).is_none());
    let mut files = one_file(alloc, 2, &[2])?;
    assert!(rt; matches!(read(alloc, &mut files, "abc", 9), Some(Err(ReadEnd::Fault))));
    Ok(())
}

#[test]
fn writes_whole_texts(rt: HostRuntime) -> Result<(), Fail> {
    let alloc = rt.alloc();
    for most in [1, 2, 100] {
        let mut sink = MemSink::new(alloc, 5, most, Vec::new(alloc))?;
        assert_eq!(rt; write_all(&mut sink, b"12345"), Ok(()));
        assert_eq!(rt; sink.bytes(), b"12345".as_slice());
        assert_eq!(rt; write_all(&mut sink, b"6"), Err(WriteFault { sent: 0 }));
    }
    let mut sink = MemSink::new(alloc, 9, 2, [1].to_vec(alloc)?)?;
    assert_eq!(rt; write_all(&mut sink, b"12345"), Err(WriteFault { sent: 2 }));
    assert_eq!(rt; sink.bytes(), b"12".as_slice());
    Ok(())
}
