//! `rfx-explore`: lists every outcome of a small script.
//!
//! The system's files and words are handed to `explore_report`, whose contracts say what is written. On a terminal, the
//! number of states is shown about once a second, too.
#![tactic(auto)]

mod progress;

use crate::progress::Shown;
use explore_report::{Maker, OUT_OF_MEMORY, run};
use std::fs::{self, File};
use std::io::{self, BufWriter};
use std::process::ExitCode;
use streams::{Output, SystemFiles, system_words};

/// Makes the system's files.
#[derive(Drop)]
struct SystemMaker<'a>(&'a HostRuntime);

impl Maker for SystemMaker<'_> {
    type File = BufWriter<File>;

    fn make(&self, name: &str) -> io::Result<BufWriter<File>> {
        BufWriter::new(self.0.alloc(), fs::create(self.0, name)?)
    }

    fn fill(&self, _name: &str, mut file: BufWriter<File>) -> io::Result<()> {
        file.let_go()
    }
}

fn main(rt: HostRuntime) -> ExitCode {
    let words = system_words(&rt);
    let Ok(mut out) = BufWriter::new(rt.alloc(), rt.stdout()) else {
        let _ = rt.eprint(OUT_OF_MEMORY);
        return ExitCode::from(1);
    };
    let files = SystemFiles(&rt);
    let maker = SystemMaker(&rt);
    let mut progress = Shown::new(&rt);
    let status = run(
        rt.alloc(),
        words,
        &files,
        &maker,
        &mut progress,
        &mut out,
        &mut rt.stderr(),
    );
    ExitCode::from(status)
}
