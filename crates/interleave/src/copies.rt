//! Copies of what a machine is made of.
ghost use Rattle.std.specs.Prelude.{◌≡◌, IfOk};

use memorymap::NoMem;
use protocol::Thread;
use std::alloc::Global;

/// The same threads.
pub(crate) fn same_threads(alloc: Global, threads: &Vec<Thread>) -> Result<Vec<Thread>, NoMem>
    ensures { IfOk result (λ v. v.items ≡ threads.now.items) }
{
    let mut copy = Vec::with_capacity(alloc, threads.len())?;
    copy.extend_from_slice(threads)?;
    Ok(copy)
}
