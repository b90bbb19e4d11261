//! Waiting for other threads, for a while.
use std::sync::Wait;
use std::sync::atomic::{AtomicU64, Ordering};
use std::thread;
use std::time::{Clock, Duration};
use threadbench::Bench;

/// How often a thread looks again whether what it waits for has come, some 200 microseconds apart: for ten seconds or
/// more.
const LOOKS: u32 = 50_000;

fn pause<R: Clock>(rt: &R) {
    thread::sleep(rt, Duration::from_micros(200));
}

/// Waits until so much was counted; false where that doesn't come.
pub fn waits_for<R: Clock>(rt: &R, count: &AtomicU64, much: u64) -> bool {
    for _ in 0..LOOKS {
        if count.load(Ordering::SeqCst) >= much {
            return true;
        }
        pause(rt);
    }
    false
}

/// Waits until each of these threads stands in a queue; false where one doesn't come to.
pub fn fall_asleep<R: Wait + Clock>(rt: &R, bench: &Bench, threads: &[u8]) -> bool {
    for thread in threads {
        if !falls_asleep(rt, bench, *thread) {
            return false;
        }
    }
    true
}

fn falls_asleep<R: Wait + Clock>(rt: &R, bench: &Bench, thread: u8) -> bool {
    for _ in 0..LOOKS {
        if bench.sleeps(rt, thread) == Ok(true) {
            return true;
        }
        pause(rt);
    }
    false
}

/// Whether each of these threads stands in a queue now.
pub fn are_asleep<R: Wait>(rt: &R, bench: &Bench, threads: &[u8]) -> bool {
    threads
        .iter()
        .all(|thread| bench.sleeps(rt, *thread) == Ok(true))
}

/// Kills all threads, so that a test in which one sleeps forever ends. Where all went well it kills nobody.
pub fn ends_unless<R: Wait>(rt: &R, bench: &Bench, well: bool) -> bool {
    if !well {
        for thread in 1..=bench.words().layout().threads() {
            let _ = bench.kill(rt, thread);
        }
    }
    well
}
