//! Waits and wakes, and sleepers that die.

use super::{Call, make_all, play, words};
use crate::kernels::has_sleepers;
use lockword::Reply;
use std::test::Fail;
use syscalls::Kernel;

static WAITS_AND_WAKES: [Call; 15] = [
    Call::Sleep(&[1], 4, 7),
    Call::WaitRefused(2, 4, 8, Reply::EAGAIN),
    Call::Sleep(&[2], 4, 7),
    Call::Sleep(&[3], 5, 0),
    Call::WaitRefused(4, 16, 0, Reply::EFAULT),
    Call::WaitRefused(4, 0, 0, Reply::EFAULT),
    Call::WaitRefused(4, u64::MAX, 0, Reply::EFAULT),
    Call::Sleep(&[4], 6, 7),
    Call::Wake(4, 0, &[]),
    Call::Wake(4, 1, &[1]),
    Call::Wake(4, 5, &[2]),
    Call::Wake(4, 1, &[]),
    Call::WakeRefused(16, 1, Reply::EFAULT),
    Call::Asleep(2, false),
    Call::Asleep(3, true),
];

#[test]
fn waits_and_wakes_of_four_threads(rt: HostRuntime) -> Result<(), Fail> {
    play(&rt, rt.alloc(), 4, &WAITS_AND_WAKES)
}

static FIVE_SLEEP: [Call; 3] = [
    Call::Sleep(&[3, 250, 1, 2], 15, 0),
    Call::Sleep(&[5], 4, 7),
    Call::Sleepers(15, &[3, 250, 1, 2]),
];

static ONE_DIES: [Call; 6] = [
    Call::Remove(250, true),
    Call::Sleepers(15, &[3, 1, 2]),
    Call::Remove(250, false),
    Call::Asleep(250, false),
    Call::Wake(15, u32::MAX, &[3, 1, 2]),
    Call::Asleep(5, true),
];

/// A sleeper that dies leaves its queue, and those after it keep their order.
#[test]
fn a_removal_takes_one_thread(rt: HostRuntime) -> Result<(), Fail> {
    let memory = words(&rt, rt.alloc())?;
    let mut kernel = Kernel::new(rt.alloc(), 250)?;
    make_all(&rt, &mut kernel, &memory, &FIVE_SLEEP);
    let copy = kernel.clone()?;
    make_all(&rt, &mut kernel, &memory, &ONE_DIES);
    has_sleepers(&rt, &copy, 15, &[3, 250, 1, 2]);
    assert!(rt; kernel.threads() == 250);
    Ok(())
}
