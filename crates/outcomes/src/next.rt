//! The call that a thread makes next.
ghost use Rattle.std.specs.Prelude.{◌≡◌, drop};
ghost use Rattle.outcomes.specs.Plans.{comes_after, call_of, next_among};

use crate::plan::{Act, Item};
use condvar::Op;
use lockword::Reply;

/// A call that comes next.
#[derive(Clone, Copy, Debug, PartialEq, Eq)]
pub(crate) struct Next {
    pub op: Op,
    pub phase: u16,
    /// How many items the thread has passed, once it has begun the call.
    pub at: usize,
}

/// Whether an item comes where that is the last reply.
fn comes_after(last: Option<Reply>, after: Option<Reply>) -> bool
    ensures { result ≡ comes_after last after }
{
    match (after, last) {
        (None, _) => true,
        (Some(_), None) => false,
        (Some(wanted), Some(reply)) => wanted.number() == reply.number(),
    }
}

/// The call of an item. Once its thread has begun it, the thread has passed this many items.
fn call_of(passed: usize, item: &Item) -> Option<Next>
    ensures { result ≡ call_of passed item.now.phase item.now.act }
{
    match item.act {
        Act::Call(op) => Some(Next {
            op,
            phase: item.phase,
            at: passed,
        }),
        Act::Stop => None,
    }
}

/// The call that comes next of a thread that has passed this many items.
pub(crate) fn next_among(items: &[Item], at: usize, last: Option<Reply>) -> Option<Next>
    ensures { result ≡ next_among last at (drop at items.now) }
{
    for index in at..items.len() {
        let item = items[index];
        if comes_after(last, item.after) {
            return call_of(index + 1, &item);
        }
    }
    None
}
