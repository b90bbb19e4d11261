//! Texts that tests put together.

use std::alloc::{AllocError, Global};

/// The three, one after the other.
pub fn joined(alloc: Global, front: &str, middle: &str, end: &str) -> Result<String, AllocError> {
    let mut text = String::from_str(alloc, front)?;
    text.push_str(middle)?;
    text.push_str(end)?;
    Ok(text)
}
