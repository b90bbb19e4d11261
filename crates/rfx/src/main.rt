//! `rfx`: runs a script event by event and prints its trace or its table, or lets real threads make its calls and
//! prints their replies, or judges a trace.
//!
//! The system's files and words are handed to `report`, whose contracts say what is written.
#![tactic(auto)]

use report::{OUT_OF_MEMORY, run};
use std::io::BufWriter;
use std::process::ExitCode;
use streams::{SystemFiles, system_words};

fn main(rt: HostRuntime) -> ExitCode {
    let words = system_words(&rt);
    let Ok(mut out) = BufWriter::new(rt.alloc(), rt.stdout()) else {
        let _ = rt.eprint(OUT_OF_MEMORY);
        return ExitCode::from(1);
    };
    let files = SystemFiles(&rt);
    let status = run(&rt, rt.alloc(), words, &files, &mut out, &mut rt.stderr());
    ExitCode::from(status)
}
