//! What signals and broadcasts do under the locks of buckets. A section that compares a counter loads it there.
ghost use Rattle.std.specs.Prelude.{◌≡◌, ℕ};
ghost use Rattle.buckets.specs.Queues.{IsOrderly, Takes};
ghost use Rattle.stepprograms.specs.declared.access.Access.TheVariants.{Wake as AtWake};
ghost use Rattle.ruledwords.specs.ConditionCalls.{cond_access_in, cond_call, cond_pass};
ghost use Rattle.ruledwords.specs.ConditionCalls.{cond_place_at, CondUnmoved, IsCondRunningOf};
ghost use Rattle.ruledwords.specs.Passes.{card, layout_of};
ghost use Rattle.threadbench.specs.Conditions.{FindsKnown, IsCellOf, IsMoveOf, MovesAcross, MovesAll, MovesInside};

use buckets::{Batch, Bucket};
use memorymap::Key;
use ruledwords::{CondRunning, Words};

/// A wake: takes at most this many threads out of the key's queue, those that stand first, in their order.
pub(crate) fn wake_for_condition(
    bucket: &mut Bucket,
    running: &CondRunning,
    words: &Words,
    key: Key,
    most: u32,
) -> Batch
    requires wake { (at : ℕ) × (cond_access_in running.now ≡ AtWake at most) }
    requires key { key.0 ≡ cond_place_at (layout_of words.now) running.now }
    ensures takes { Takes bucket.old bucket.new key.0 most result }
    ensures orderly { IsOrderly bucket.new }
{
    let _running = running;
    let _words = words;
    bucket.take(key, most)
}

/// A requeue within one bucket: loads the counter, and where its low half is the expected one moves at most this many
/// threads of the key's queue, those that stand first, to the end of the other key's queue. It wakes nobody. None where
/// the counter differs; then nothing changes.
pub(crate) fn move_within_in(
    bucket: &mut Bucket,
    running: &mut CondRunning,
    words: &Words,
    key: Key,
    expected: u32,
    to: Key,
    moves: u32,
) -> Option<Batch>
    requires words { IsCondRunningOf words.now running.old }
    requires moves { IsMoveOf (cond_access_in running.old) expected moves }
    requires key { key.0 ≡ cond_place_at (layout_of words.now) running.old }
    requires to { IsCellOf words.now running.old to.0 }
    ensures unmoved { CondUnmoved words.now running.old running.new }
    ensures known { FindsKnown (layout_of words.now) running.old running.new }
    ensures moves { MovesInside bucket.old bucket.new key.0 (card (cond_pass running.new)).last expected to.0 moves
        result }
    ensures all { MovesAll bucket.old bucket.new bucket.old bucket.new key.0 to.0 result }
{
    // What a bucket always is, as that it has at most 250 sleepers, is known once it is asked for one.
    let _stands = bucket.stands(running.thread());
    let seen = running.load(words).get();
    if (seen & 0xffff_ffff) as u32 != expected {
        return None;
    }
    Some(bucket.move_within(key, moves, to))
}

/// A requeue from a bucket to another one, as [`move_within_in`]. Nothing changes either where the other bucket has no
/// room for them, or one of them is there, which can't come up, but what lies under locks doesn't say so.
pub(crate) fn move_to_in(
    bucket: &mut Bucket,
    other: &mut Bucket,
    running: &mut CondRunning,
    words: &Words,
    key: Key,
    expected: u32,
    to: Key,
    moves: u32,
) -> Option<Batch>
    requires words { IsCondRunningOf words.now running.old }
    requires moves { IsMoveOf (cond_access_in running.old) expected moves }
    requires key { key.0 ≡ cond_place_at (layout_of words.now) running.old }
    requires to { IsCellOf words.now running.old to.0 }
    ensures unmoved { CondUnmoved words.now running.old running.new }
    ensures known { FindsKnown (layout_of words.now) running.old running.new }
    ensures moves { MovesAcross bucket.old bucket.new other.old other.new key.0 (card (cond_pass running.new)).last
        expected to.0 moves result }
    ensures all { MovesAll bucket.old bucket.new other.old other.new key.0 to.0 result }
{
    // Like `move_within_in`.
    let _stands = bucket.stands(running.thread());
    let seen = running.load(words).get();
    if (seen & 0xffff_ffff) as u32 != expected || !bucket.fits(other, key, moves) {
        return None;
    }
    Some(bucket.move_to(other, key, moves, to))
}
