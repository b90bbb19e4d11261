//! Which fault a script is refused for.
//!
//! Tests read a script by `read` alone: each function that calls `parse` itself is dear to prove, since it sees all
//! that `parse` promises.

use script::{Mode, Script, parse};
use std::alloc::Global;

/// The number of a fault, and its line.
pub type Refused = (u8, usize);

pub fn read(alloc: Global, bytes: &[u8], mode: Mode) -> Result<Script, Refused> {
    match parse(alloc, bytes, mode) {
        Ok(script) => Ok(script),
        Err(refused) => Err((refused.fault.number(), refused.line)),
    }
}

/// Whether that is the answer to a script, or memory was refused at one of these lines.
pub fn is_or_wants_memory(answer: Result<usize, Refused>, want: usize, lines: &[usize]) -> bool {
    match answer {
        Ok(number) => number == want,
        Err((fault, line)) => fault == 6 && lines.contains(&line),
    }
}
