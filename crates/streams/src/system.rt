//! The system's files, and the words of its command line. What the system gives is in no contract.

use crate::opening::Opener;
use std::io::{self, Read};
use std::{env, fs};

/// The standard input's name among files. It is read as it stands, since opening it again is refused where it is a
/// socket, or another user's pipe.
const STANDARD_INPUT: &str = "/dev/stdin";

/// The files of the system.
#[derive(Drop)]
pub struct SystemFiles<'a>(pub &'a HostRuntime);

/// The standard input, or another file.
#[derive(Drop)]
pub enum SystemInput {
    Standard(io::Stdin),
    Opened(fs::File),
}

impl Read for SystemInput {
    fn read(&mut self, buf: &mut [u8]) -> io::Result<usize> {
        match self {
            SystemInput::Standard(input) => input.read(buf),
            SystemInput::Opened(file) => file.read(buf),
        }
    }
}

impl Opener for SystemFiles<'_> {
    type Input = SystemInput;

    fn open(&self, file: &str) -> io::Result<SystemInput> {
        if file == STANDARD_INPUT {
            return Ok(SystemInput::Standard(self.0.stdin()));
        }
        Ok(SystemInput::Opened(fs::open(self.0, file)?))
    }
}

/// The words of the command line, the program's name first. An error where one of them isn't UTF-8, or memory was
/// refused.
pub fn system_words(rt: &HostRuntime) -> io::Result<Vec<String>> {
    Ok(env::args(rt)?.collect(rt.alloc())?)
}
