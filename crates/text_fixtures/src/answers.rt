//! What a program answers.

use crate::writers::Fixed;

/// What a program answered, printed and told.
#[derive(Drop)]
pub struct Answered {
    pub status: u8,
    pub printed: Vec<u8>,
    pub told: Vec<u8>,
}

impl Answered {
    pub fn new(status: u8, printed: Vec<u8>, told: Vec<u8>) -> Answered {
        Answered {
            status,
            printed,
            told,
        }
    }

    pub fn is(&self, status: u8, printed: &str, told: &str) -> bool {
        self.status == status
            && self.printed.as_slice() == printed.as_bytes()
            && self.told.as_slice() == told.as_bytes()
    }
}

/// Whether a program whose messages begin so printed nothing, and told that memory was refused.
pub fn wants_memory(status: u8, out: &Fixed, err: &Fixed, begin: &[u8]) -> bool {
    status == 1
        && out.bytes().is_empty()
        && err.bytes().starts_with(begin)
        && err.bytes().ends_with(b"out of memory\n")
}
