//! Whether positions are the same.
ghost use Rattle.std.specs.Prelude.{◌≡◌, ◌≢◌, true, map, MatchBool};
ghost use Rattle.outcomes.specs.Outcomes.{ended_in, outcome_in};
ghost use Rattle.outcomes.specs.declared.plan.Plan.{Plan};
ghost use Rattle.outcomes.specs.Comparisons.{AreComparable, IsComparable};
ghost use Rattle.outcomes.specs.Kept.{place_in, places_in, IsKept};
ghost use Rattle.outcomes.specs.Stored.{places_among, threads_in, Holds};

use crate::kept::{Kept, Life};
use crate::outcome::{Ended, Outcome};
use crate::standing::Standing;
use crate::stored::{Scene, Stored};
use interleave::Sleeper;
use lockword::Reply;
use posixmutex::Object;
use protocol::Thread;
use std::alloc::Global;
use std::rc::Rc;

/// Whether words are the same.
fn same_words(a: &[u64], b: &[u64]) -> bool
    ensures { result ≡ true → a.now ≡ b.now }
{
    *a == *b
}

/// Whether threads are the same.
fn same_thread(a: &Thread, b: &Thread) -> bool
    ensures { result ≡ true → IsComparable a.now.stage → IsComparable b.now.stage → a.now ≡ b.now }
{
    *a == *b
}

/// Whether sleepers are the same.
fn same_sleepers(a: &[Sleeper], b: &[Sleeper]) -> bool
    ensures { result ≡ true → a.now ≡ b.now }
{
    *a == *b
}

/// Whether replies are the same.
fn same_replies(a: &[Reply], b: &[Reply]) -> bool
    ensures { MatchBool result (a.now ≡ b.now) (a.now ≢ b.now) }
{
    *a == *b
}

/// Whether a thread has come as far as another one.
fn same_life(a: &Life, b: &Life) -> bool
    ensures { result ≡ true → place_in a.now ≡ place_in b.now }
{
    a.at == b.at && same_replies(&a.replies, &b.replies)
}

/// Whether a thread ended as another one.
fn same_end(a: &Ended, b: &Ended) -> bool
    ensures { MatchBool result (ended_in a.now ≡ ended_in b.now) (ended_in a.now ≢ ended_in b.now) }
{
    a.end == b.end && same_replies(&a.replies, &b.replies)
}

/// Whether threads ended the same.
fn same_ends(a: &[Ended], b: &[Ended]) -> bool
    ensures { MatchBool result (map ended_in a.now ≡ map ended_in b.now) (map ended_in a.now ≢ map ended_in b.now) }
{
    if a.len() != b.len() {
        return false;
    }
    for index in 0..a.len() {
        if !same_end(&a[index], &b[index]) {
            return false;
        }
    }
    true
}

/// Whether mutexes are the same.
fn same_mutexes(a: &[Object], b: &[Object]) -> bool
    ensures { MatchBool result (a.now ≡ b.now) (a.now ≢ b.now) }
{
    *a == *b
}

/// Whether outcomes are the same.
pub(crate) fn same_outcomes(a: &Outcome, b: &Outcome) -> bool
    ensures { MatchBool result (outcome_in a.now ≡ outcome_in b.now) (outcome_in a.now ≢ outcome_in b.now) }
{
    same_ends(&a.threads, &b.threads) && same_mutexes(&a.mutexes, &b.mutexes)
}

/// Whether a scene has these words and sleepers.
pub(crate) fn is_scene(scene: &Scene, words: &[u64], sleepers: &[Sleeper]) -> bool
    ensures { result ≡ true
        → (scene.now.words.items ≡ words.now) × (scene.now.sleepers.items ≡ sleepers.now) }
{
    same_words(&scene.words, words) && same_sleepers(&scene.sleepers, sleepers)
}

/// Whether this thread stands so, and has come so far.
pub(crate) fn is_standing(standing: &Standing, thread: &Thread, life: &Life) -> bool
    ensures { result ≡ true → IsComparable thread.now.stage
        → (standing.now.thread ≡ thread.now) × (standing.now.place ≡ place_in life.now) }
{
    same_thread(&standing.thread, thread) && same_life(&standing.life, life)
}

/// Whether threads stand so, and have come so far.
fn are_standings(standings: &[Rc<Standing, Global>], threads: &[Thread], lives: &[Life]) -> bool
    ensures { result ≡ true → AreComparable threads.now
        → (threads_in standings.now ≡ threads.now) × (places_among standings.now ≡ places_in lives.now) }
{
    if standings.len() != threads.len() || standings.len() != lives.len() {
        return false;
    }
    for index in 0..standings.len() {
        if !is_standing(&standings[index], &threads[index], &lives[index]) {
            return false;
        }
    }
    true
}

/// Whether positions are the same: the machine's words, threads and sleepers, the phase, and how far each thread has
/// come. Only then does the search store one in the other's place.
pub(crate) fn is_same(stored: &Stored, kept: &Kept) -> bool
    ensures { result ≡ true → (plan : Plan) → IsKept plan kept.now → Holds stored.now kept.now }
{
    if stored.phase != kept.phase {
        return false;
    }
    if !is_scene(&stored.scene, &kept.saved.words, &kept.saved.sleepers) {
        return false;
    }
    are_standings(&stored.standings, &kept.saved.threads, kept.lives())
}
