//! `rfx-judge`: judges a history of robust mutexes, of which nobody knows the moments at which calls took effect.
//!
//! The system's files and words are handed to `judge_report`, whose contracts say what is written. On a terminal it is
//! reported besides how much of a long history was read (`progress`).
#![tactic(auto)]

mod progress;

use crate::progress::WatchedFiles;
use judge_report::{Maker, OUT_OF_MEMORY, run};
use std::fs::{self, File};
use std::io::{self, BufWriter, ErrorKind};
use std::process::ExitCode;
use streams::{Output, system_words};

/// Makes and removes the system's files.
#[derive(Drop)]
struct SystemMaker<'a>(&'a HostRuntime);

impl Maker for SystemMaker<'_> {
    type File = BufWriter<File>;

    fn make(&self, name: &str) -> io::Result<BufWriter<File>> {
        BufWriter::new(self.0.alloc(), fs::create(self.0, name)?)
    }

    fn fill(&self, _name: &str, mut file: BufWriter<File>) -> io::Result<()> {
        file.let_go()
    }

    fn remove(&self, name: &str) -> io::Result<bool> {
        match fs::remove_file(self.0, name) {
            Ok(()) => Ok(true),
            Err(error) if error.kind() == ErrorKind::NotFound => Ok(false),
            Err(error) => Err(error),
        }
    }
}

fn main(rt: HostRuntime) -> ExitCode {
    let words = system_words(&rt);
    let Ok(mut out) = BufWriter::new(rt.alloc(), rt.stdout()) else {
        let _ = rt.eprint(OUT_OF_MEMORY);
        return ExitCode::from(1);
    };
    let files = WatchedFiles(&rt);
    let maker = SystemMaker(&rt);
    let status = run(
        rt.alloc(),
        words,
        &files,
        &maker,
        &mut out,
        &mut rt.stderr(),
    );
    ExitCode::from(status)
}
