//! Files that are only played, and the words of a command line that names them.

use std::alloc::Global;
use std::cell::Cell;
use std::io::{self, ErrorKind, Read};
use streams::Opener;

/// An open file: its bytes; one without end; or one whose reads fail.
#[derive(Drop)]
pub enum File<'a> {
    Bytes(&'a [u8]),
    Endless,
    Broken,
}

impl Read for File<'_> {
    fn read(&mut self, buf: &mut [u8]) -> io::Result<usize> {
        match self {
            File::Bytes(bytes) => bytes.read(buf),
            File::Endless => {
                buf.fill(b'#');
                Ok(buf.len())
            }
            File::Broken => Err(io::Error::from(ErrorKind::BrokenPipe)),
        }
    }
}

/// Has the file `f` and the standard input, of the same bytes, the script `s`, one that is `endless` and one that is
/// `broken`; memory to open the one that is `refused` is refused. It counts what is opened.
#[derive(Drop)]
pub struct Folder<'a> {
    script: &'a [u8],
    text: &'a [u8],
    pub opened: Cell<usize>,
}

impl<'a> Opener for Folder<'a> {
    type Input = File<'a>;

    fn open(&self, file: &str) -> io::Result<File<'a>> {
        self.opened.set(self.opened.get().saturating_add(1));
        match file {
            "f" | "/dev/stdin" => Ok(File::Bytes(self.text)),
            "s" => Ok(File::Bytes(self.script)),
            "endless" => Ok(File::Endless),
            "broken" => Ok(File::Broken),
            "refused" => Err(io::Error::from(ErrorKind::OutOfMemory)),
            _ => Err(io::Error::from(ErrorKind::NotFound)),
        }
    }
}

impl<'a> Folder<'a> {
    /// The file `f` has these bytes, and the script none.
    pub fn new(text: &'a [u8]) -> Folder<'a> {
        Folder::with_script(b"", text)
    }

    /// The script has these bytes, and the file `f` those.
    pub fn with_script(script: &'a [u8], text: &'a [u8]) -> Folder<'a> {
        Folder {
            script,
            text,
            opened: Cell::new(0),
        }
    }
}

/// The words of a command line.
pub fn words(alloc: Global, line: &[&str]) -> io::Result<Vec<String>> {
    let mut words = Vec::new(alloc);
    for word in line {
        words.push(String::from_str(alloc, word)?)?;
    }
    Ok(words)
}
