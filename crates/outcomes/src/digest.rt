//! Digests of positions: equal positions have the same, and different ones seldom do. Nothing rests on either.

use crate::kept::{Kept, Life};
use crate::standing::Standing;
use condvar::{CodedCondPhase, CondPhase};
use exitwalk::{CodedRow, Row};
use interleave::Sleeper;
use mutex::{CodedPhase, Phase};
use protocol::{Stage, Thread};
use std::alloc::Global;
use std::rc::Rc;

const FACTOR: u64 = 0x9e37_79b9_7f4a_7c15;

/// One number more.
fn mixed(digest: u64, number: u64) -> u64 {
    let product = (digest ^ number).wrapping_mul(FACTOR);
    product ^ (product >> 29)
}

fn with_phase(digest: u64, phase: &Phase) -> u64 {
    let coded = CodedPhase::of(phase);
    let low = mixed(digest, u64::from(coded.kind) + 256 * u64::from(coded.flag));
    mixed(mixed(low, coded.x), coded.y)
}

fn with_condition(digest: u64, phase: &CondPhase) -> u64 {
    let coded = CodedCondPhase::of(phase);
    let low = mixed(digest, u64::from(coded.kind) + 256 * u64::from(coded.seen));
    mixed(
        low,
        u64::from(coded.lock.kind) + 65536 * (coded.lock.x % 65536),
    )
}

fn with_walk(digest: u64, row: &Row) -> u64 {
    let coded = CodedRow::of(row);
    let low = mixed(digest, u64::from(coded.kind) + 256 * u64::from(coded.again));
    mixed(mixed(low, coded.at), coded.entry)
}

fn with_stage(digest: u64, stage: &Stage) -> u64 {
    match *stage {
        Stage::Idle => mixed(digest, 1),
        Stage::Calling(op, program) => {
            let started = mixed(digest, 2 + op.operation() as u64);
            with_phase(started, &program.phase())
        }
        Stage::AtCondition(_, program) => with_condition(mixed(digest, 3), &program.phase()),
        Stage::Dying(walk) => with_walk(mixed(digest, 4), &walk.row()),
        Stage::Reaped => mixed(digest, 5),
    }
}

fn with_words(digest: u64, words: &[u64]) -> u64 {
    let mut digest = digest;
    for word in words {
        digest = mixed(digest, *word);
    }
    digest
}

fn with_sleepers(digest: u64, sleepers: &[Sleeper]) -> u64 {
    let mut digest = digest;
    for sleeper in sleepers {
        digest = mixed(
            digest,
            256 * (sleeper.place % 65536) + u64::from(sleeper.thread.get()),
        );
    }
    digest
}

fn with_life(digest: u64, life: &Life) -> u64 {
    let mut digest = mixed(digest, life.at as u64);
    for reply in &life.replies {
        digest = mixed(digest, u64::from(reply.number()));
    }
    digest
}

/// The digest of a scene.
pub(crate) fn digest_of_scene(words: &[u64], sleepers: &[Sleeper]) -> u64 {
    with_sleepers(with_words(0, words), sleepers)
}

/// The digest of a standing.
pub(crate) fn digest_of_standing(thread: &Thread, life: &Life) -> u64 {
    with_life(with_stage(0, &thread.stage), life)
}

/// The digests of a position and of its scene.
#[derive(Clone, Copy, Debug, PartialEq, Eq)]
pub(crate) struct Digests {
    pub position: u64,
    pub scene: u64,
}

/// The digest of a thread's standing: that of an earlier one, unless the thread is the one that has changed since.
fn standing_digest(
    kept: &Kept,
    index: usize,
    earlier: &[Rc<Standing, Global>],
    changed: usize,
) -> u64 {
    if index != changed {
        if let Some(standing) = earlier.get(index) {
            return standing.digest;
        }
    }
    match (kept.saved.threads.get(index), kept.lives().get(index)) {
        (Some(thread), Some(life)) => digest_of_standing(thread, life),
        _ => 0,
    }
}

/// The digests of a position, before which the threads stood so: none has changed since but the one with this index.
pub(crate) fn digests_of(kept: &Kept, earlier: &[Rc<Standing, Global>], changed: usize) -> Digests {
    let scene = digest_of_scene(&kept.saved.words, &kept.saved.sleepers);
    let mut position = mixed(scene, u64::from(kept.phase));
    for index in 0..kept.saved.threads.len() {
        position = mixed(position, standing_digest(kept, index, earlier, changed));
    }
    Digests { position, scene }
}
