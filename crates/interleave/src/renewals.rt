//! Threads that were reaped and live again: their ids are used again.
ghost use Rattle.std.specs.Prelude.{◌≡◌, List, length};
ghost use Rattle.memorymap.specs.Layouts.{words_of};
ghost use Rattle.protocol.specs.declared.event.Event.TheVariants.{Renew};
ghost use Rattle.protocol.specs.Machine.{happens};
ghost use Rattle.syscalls.specs.Kernels.{Kernel'};
ghost use Rattle.interleave.specs.Shown.{state_at};

use crate::threads::is_reaped;
use lockword::Tid;
use memorymap::Layout;
use protocol::{Note, Stage, Thread};
use syscalls::{Memory, PlainMemory};

/// The thread lives again, if it was reaped: the three words of its head are as they were at first, an empty list
/// that nothing is pending beside, and it is in no call and owns nothing. The kernel has its head as before.
pub(crate) fn renew(
    layout: &Layout,
    memory: &mut PlainMemory,
    threads: &mut Vec<Thread>,
    thread: Tid,
) -> Note
    requires words { length memory.old ≡ words_of layout.now }
    requires threads { length threads.old.items ≡ layout.now.threads }
    ensures state { (kernel : Kernel')
        → state_at layout.now memory.new kernel threads.new.items
        ≡ (happens (state_at layout.now memory.old kernel threads.old.items) (Renew thread)).state }
    ensures note { (kernel : Kernel')
        → result ≡ (happens (state_at layout.now memory.old kernel threads.old.items) (Renew thread)).note }
    ensures words { length memory.new ≡ length memory.old }
    ensures threads { length threads.new.items ≡ length threads.old.items }
{
    if layout.threads() < thread.get() {
        return Note::Nothing;
    }
    let index = thread.as_index();
    if !is_reaped(&threads[index].stage) {
        return Note::Nothing;
    }
    let head = layout.head(thread);
    let _ = memory.store(head, layout.first_word(head));
    let _ = memory.store(head + 1, layout.first_word(head + 1));
    let _ = memory.store(head + 2, layout.first_word(head + 2));
    threads[index] = Thread {
        stage: Stage::Idle,
        held: 0,
    };
    Note::Renewed { thread }
}
