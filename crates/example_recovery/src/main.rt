//! A worked example: two accounts that a robust mutex guards, and whose owner dies in the middle of a transfer.
//!
//! One thread owns the mutex, takes 30 from the first account, and dies before it adds them to the second. Another
//! thread waits for the mutex meanwhile. The walk over the dead thread's list marks the mutex and wakes whoever sleeps
//! on it: the other thread gets EOWNERDEAD, puts the accounts right by their journal, declares the mutex consistent,
//! and makes a transfer of its own. The gate proves it, runs it, and compares what it prints with `stdout`.
#![tactic(auto)]

mod accounts;
mod guard;

ghost use Rattle.std.specs.Prelude.{◌≡◌, ◌<◌};
ghost use Rattle.ruledwords.specs.Passes.{layout_of, IsLive, IsPassOf};

use crate::accounts::Accounts;
use crate::guard::{Guarded, NotOwned, Owner};
use lockword::Reply;
use memorymap::Layout;
use ruledwords::{Live, Pass, Reaped};
use std::io;
use std::sync::Wait;
use std::thread::{self, Threads};
use threadbench::Bench;

/// Makes half a transfer, and dies.
fn die_in_a_transfer<R: Wait>(rt: &R, bench: &Bench, owner: Owner<'_>) -> Pass<Reaped>
    requires pass { IsLive bench.now owner.pass }
    requires mutex { owner.mutex < (layout_of bench.now).mutexes }
    ensures { IsPassOf bench.now result }
{
    owner.accounts.begin_transfer(30);
    owner.die(rt, bench)
}

/// Takes the mutex, makes a transfer, and tells what the lock was answered, unless the thread was killed in it.
fn transfer<R: Wait>(rt: &R, bench: &Bench, guarded: &Guarded, pass: Pass<Live>) -> Option<Reply>
    requires pass { IsLive bench.now pass }
    requires mutex { guarded.now.mutex < (layout_of bench.now).mutexes }
{
    match guarded.lock(rt, bench, pass) {
        Ok(owner) => {
            let told = owner.told;
            owner.accounts.begin_transfer(10);
            owner.accounts.end_transfer(10);
            let _pass = owner.unlock(rt, bench);
            Some(told)
        }
        Err(NotOwned::Refused(_, refused)) => Some(refused),
        Err(NotOwned::Killed(_)) => None,
    }
}

/// One thread dies as the owner while another comes for the mutex; what that one gets.
fn recover<R: Threads + Wait + Sync>(
    rt: &R,
    bench: &Bench,
    guarded: &Guarded,
    first: Pass<Live>,
    second: Pass<Live>,
) -> Option<Reply>
    requires first { IsLive bench.now first }
    requires second { IsLive bench.now second }
    requires mutex { guarded.now.mutex < (layout_of bench.now).mutexes }
{
    let Ok(owner) = guarded.lock(rt, bench, first) else {
        return None;
    };
    let (_dead, told) = thread::join(
        rt,
        || -> Pass<Reaped>
            requires { IsLive bench.now owner.pass × (owner.mutex < (layout_of bench.now).mutexes) }
            ensures { IsPassOf bench.entry.now result }
        { die_in_a_transfer(rt, bench, owner) },
        || -> Option<Reply>
            requires { IsLive bench.now second × (guarded.now.mutex < (layout_of bench.now).mutexes) }
        { transfer(rt, bench, guarded, second) },
    );
    told
}

fn main(rt: HostRuntime) -> io::Result<()> {
    let Ok(layout) = Layout::new(2, 1, &[]) else {
        return Ok(());
    };
    let Ok((bench, mut passes)) = Bench::new(rt.alloc(), layout, &[]) else {
        return Ok(());
    };
    let guarded = Guarded::new(0, Accounts::new(100));
    let (Some(second), Some(first)) = (passes.pop(), passes.pop()) else {
        return Ok(());
    };
    let told = recover(&rt, &bench, &guarded, first, second);
    let (first, second) = guarded.into_accounts().balances();
    let told = match told {
        Some(reply) => reply.name(),
        None => "nothing",
    };
    println!(rt;
        "an owner died with 30 taken; the next one was told {told}, and left {first} and {second}"
    )
}
