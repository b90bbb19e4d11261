//! Whether no trace shows a history.

ghost use Rattle.std.specs.Prelude.{◌≡◌, true, reverse, IfOk};
ghost use Rattle.histories.specs.Histories.{LegalHistory};
ghost use Rattle.refuting.specs.Turns.{entries};

use crate::closing::Halt;
use crate::refuter::Refuter;
use crate::replies::replies;
use histories::{Head, HistoryLine};
use std::alloc::{AllocError, Global};

/// Whether the lines are refuted, as one mutex shows or a thread's own lines: then no trace shows them. Of illegal
/// histories it may miss some, as where the mutex has more than 4,096 states. It asks for memory for each line, and for
/// each state of the mutex.
pub fn refutes(
    alloc: Global,
    head: &Head,
    lines: &[HistoryLine],
    mutex: u16,
) -> Result<bool, AllocError>
    ensures { IfOk result
        (λ refuted. refuted ≡ true → LegalHistory head.now.mutexes (reverse (entries lines.now)) → ⊥) }
{
    if u32::from(mutex) >= head.mutexes {
        return Ok(false);
    }
    let replies = replies(alloc, lines)?;
    let mut refuter = Refuter::new(alloc, mutex)?;
    for (at, line) in lines.iter().enumerate() {
        match refuter.take(alloc, &line.entry, replies[at]) {
            Ok(true) => {}
            Ok(false) => return Ok(true),
            Err(Halt::Crowded) => return Ok(false),
            Err(Halt::Memory) => return Err(AllocError),
        }
    }
    Ok(false)
}
