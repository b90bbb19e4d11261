//! What calls return.

ghost use Rattle.std.specs.Prelude.{ℕ, ◌≡◌, None, List, ◌∷◌, IfOk, slice_index_or};
ghost use Rattle.histories.specs.declared.entry.Entry.{Entry};
ghost use Rattle.refuting.specs.Turns.{replies_of, reply_in};

use crate::state::IDS;
use crate::turn::thread_of;
use facts::Fact;
use histories::{Entry, HistoryLine};
use lockword::Reply;
use std::alloc::{AllocError, Global};

/// What is known of each thread after the last line.
fn nothing_yet() -> [Option<Reply>; IDS]
    ensures { (t : ℕ) → slice_index_or result t None ≡ None }
{
    [None; IDS]
}

/// For each line what its thread's next return says, in the lines after it.
pub fn replies(alloc: Global, lines: &[HistoryLine]) -> Result<Vec<Option<Reply>>, AllocError>
    ensures { IfOk result (λ v. v.items ≡ replies_of lines.now) }
{
    let mut next = nothing_yet();
    let mut replies = Vec::new(alloc);
    for back in 0..lines.len() {
        let entry = lines[lines.len() - 1 - back].entry;
        replies.push(next[usize::from(thread_of(&entry).get())])?;
        hear(&mut next, &entry);
    }
    replies.reverse();
    Ok(replies)
}

/// Keeps what its thread's next return says after all lines before this one.
fn hear(next: &mut [Option<Reply>; IDS], entry: &Entry)
    ensures { (t : ℕ) (es : List Entry) → slice_index_or next.old t None ≡ reply_in t es → slice_index_or next.new t None ≡ reply_in t (entry.now ∷ es) }
{
    if let Entry::Told(Fact::Return(thread, reply)) = *entry {
        next[usize::from(thread.get())] = Some(reply);
    }
}
