//! `rfx-draw`: draws a trace, as `rfx run` prints one, or a history, as `pz-record` does, for a terminal, as SVG or as a
//! page.
//!
//! The system's files and words are handed to `draw_report`, whose contracts say what is written.
#![tactic(auto)]

use draw_report::{OUT_OF_MEMORY, run};
use std::io::BufWriter;
use std::process::ExitCode;
use streams::{SystemFiles, system_words};

fn main(rt: HostRuntime) -> ExitCode {
    let words = system_words(&rt);
    let Ok(mut out) = BufWriter::new(rt.alloc(), rt.stdout()) else {
        let _ = rt.eprint(OUT_OF_MEMORY);
        return ExitCode::from(1);
    };
    let files = SystemFiles(&rt);
    let status = run(rt.alloc(), words, &files, &mut out, &mut rt.stderr());
    ExitCode::from(status)
}
