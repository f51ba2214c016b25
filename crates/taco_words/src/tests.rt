use super::*;
use std::alloc::Global;

/// Whether words are a request. Which one it is, is proved.
fn are_a_request(alloc: Global, words: &[&str]) -> bool {
    request_of(alloc, words).is_ok()
}

#[test]
fn memory_is_enough_for_each_command(rt: HostRuntime) {
    let lines = [
        "check --class B B.java --method=id --conflicts 7",
        "bounds B.java --class B --method id --workers 2 --schedule 0,1,1",
        "replay B.java S --class B --method id --objects 12",
        "sat F.cnf",
        "proof F.cnf F.log",
        "stress --number 65536",
    ];
    for line in lines {
        let words = line
            .split(' ')
            .collect::<Vec<&str>>(rt.alloc())
            .expect(&rt, "words");
        assert!(rt; are_a_request(rt.alloc(), words.as_slice()), "{line}");
    }
}
