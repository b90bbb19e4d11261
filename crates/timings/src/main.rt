//! How long things take, in nanoseconds. The figures are the machine's; no test looks at them.
//!
//! ```text
//! timings events N               an event of the machine, with few threads and mutexes, with many, and with condition
//!                                variables, of N turns of threads each
//! timings rounds N               a round of trylock and unlock by one thread, and its accesses made plainly, N times
//! timings THREADS TIMES one      TIMES pairs of lock and unlock of one mutex, as many by each thread: a pair
//!                       own      the same, each thread of a mutex of its own: a pair
//!                       pingpong two threads signal each other and wait for each other by turns: a round
//!                       broadcast one thread wakes all others by a broadcast: until all of them wait again
//!                       death    a thread takes a mutex from a dead owner, declares it consistent and dies as its
//!                                owner, and the next one begins: a thread
//! ```
//!
//! With other words it measures nothing.
#![tactic(auto)]

mod calls;
mod contended;
mod events;
mod load;
mod meets;
mod rounds;

use crate::load::Load;
use std::{env, io};

/// What is measured this many times.
fn tell_counted(rt: &HostRuntime, what: &str, count: &str) -> io::Result<()> {
    let Ok(count) = count.parse::<u64>() else {
        return Ok(());
    };
    match what {
        "events" => events::tell_all(rt, count),
        "rounds" => rounds::tell_all(rt, count),
        _ => Ok(()),
    }
}

fn main(rt: HostRuntime) -> io::Result<()> {
    let mut words = Vec::new(rt.alloc());
    for word in env::args(&rt)?.skip(1) {
        if words.push(word).is_err() {
            return Ok(());
        }
    }
    match words.as_slice() {
        [what, count] => tell_counted(&rt, what, count),
        [threads, times, case] => match Load::of(threads, times, case) {
            Some(load) => match contended::measure(&rt, rt.alloc(), &load)? {
                Some((took, well)) => contended::tell(&rt, &load, well, took),
                None => Ok(()),
            },
            None => Ok(()),
        },
        _ => Ok(()),
    }
}
