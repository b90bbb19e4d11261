//! `rfx-explain`: tells what is wrong with a script or a trace, as a compiler does.
//!
//! The system's files and words are handed to `explain`, whose contracts say what is written.
#![tactic(auto)]

use explain::{OUT_OF_MEMORY, run};
use std::io::BufWriter;
use std::process::ExitCode;
use streams::{SystemFiles, system_words};

fn main(rt: HostRuntime) -> ExitCode {
    let words = system_words(&rt);
    let Ok(mut out) = BufWriter::new(rt.alloc(), rt.stdout()) else {
        let _ = rt.eprint(OUT_OF_MEMORY);
        return ExitCode::from(1);
    };
    let files = SystemFiles(&rt);
    let status = run(rt.alloc(), words, &files, &mut out, &mut rt.stderr());
    ExitCode::from(status)
}
