//! What a call answers that was refused memory.

use std::alloc::AllocError;
use thiserror::Error;

/// No memory was left. Nothing has changed.
#[derive(Clone, Copy, Debug, PartialEq, Eq, Error)]
#[error("out of memory")]
pub struct NoMem;

impl From<AllocError> for NoMem {
    fn from(_e: AllocError) -> NoMem {
        NoMem
    }
}
