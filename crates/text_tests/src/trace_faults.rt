//! The texts of faults of traces. Which traces are refused is in cases/traces.

use Fault::{Cut, NotUtf8, OutOfMemory, OutOfRange, TooLong, UnknownWord};
use std::alloc::{AllocError, Global};
use std::test::Fail;
use verdict::{Fault, TraceFault};

/// Each fault, and the text of it at line 7.
static TEXTS: [(Fault, &str); 6] = [
    (NotUtf8, "line 7: fault 1: not UTF-8"),
    (UnknownWord, "line 7: fault 2: unknown word"),
    (OutOfRange, "line 7: fault 3: number out of range"),
    (TooLong, "line 7: fault 4: too long"),
    (Cut, "line 7: fault 5: cut"),
    (OutOfMemory, "line 7: fault 6: out of memory"),
];

fn told(alloc: Global, fault: Fault) -> Result<String, AllocError> {
    let refused = TraceFault { line: 7, fault };
    format!(in alloc; "{refused}")
}

#[test]
fn faults_are_told(rt: HostRuntime) -> Result<(), Fail> {
    for (fault, text) in &TEXTS {
        let told = told(rt.alloc(), *fault)?;
        assert_eq!(rt; told.as_str(), *text);
    }
    Ok(())
}
