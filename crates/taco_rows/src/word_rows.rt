use crate::calls::{has_answer, plain_answer, shelf};
use std::test::Fail;
use taco_io::MemSink;
use taco_run::Status;

/// Words that are no request, or one that is not served so far.
const NO_REQUESTS: [&str; 15] = [
    "",
    "prove F G",
    "check F --class B",
    "sat F --objects 3",
    "proof F G --conflicts 1",
    "stress --number 1",
    "stress --number 1 --objects 3",
    "check F --class B --method id --schedule 0",
    "replay F G --class B --method id --conflicts 1",
    "bounds F --class B --method id",
    "check F --class B --method id --objects=",
    "check F --class B --method id --objects 13",
    "check F --class B --method id --ints 04",
    "check -h",
    "-h",
];

#[test]
fn words_that_are_no_request_are_refused(rt: HostRuntime) -> Result<(), Fail> {
    let alloc = rt.alloc();
    let text = b"class B { static boolean id(boolean a) { return a; } }";
    for line in NO_REQUESTS {
        let texts = (text.as_slice(), b"".as_slice());
        let has = has_answer(alloc, line, texts, Status::Usage, b"usage\n")?;
        assert!(rt; has, "{line}");
    }
    let mut files = shelf(alloc, text, b"", 9, &[])?;
    let mut sink = MemSink::new(alloc, 100, 9, Vec::new(alloc))?;
    let check = "check F --class B --method id";
    let plain = plain_answer(alloc, check, &mut files, &mut sink)?;
    assert_eq!(rt; plain.status, Status::Usage);
    assert_eq!(rt; sink.bytes(), b"usage\n".as_slice());
    Ok(())
}
