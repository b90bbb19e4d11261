//! Requeues: who is woken, who is moved, and which are refused.

use super::{Call, play};
use crate::kernels::{Moved, RequeueCall, Woken};
use lockword::Reply;
use std::test::Fail;

static REQUEUES: [Call; 17] = [
    Call::Sleep(&[1, 2, 3, 4], 4, 7),
    Call::Sleep(&[5], 5, 0),
    Call::CmpRequeue(7, RequeueCall(4, 5, Woken(1, &[1]), Moved(2, &[2, 3]))),
    Call::CmpRequeueRefused(4, 8, 5, Reply::EAGAIN),
    Call::CmpRequeueRefused(4, 8, 4, Reply::EINVAL),
    Call::CmpRequeueRefused(0, 8, 5, Reply::EFAULT),
    Call::CmpRequeueRefused(4, 8, 16, Reply::EFAULT),
    Call::CmpRequeueRefused(16, 8, 16, Reply::EINVAL),
    Call::RequeueRefused(0, 0, Reply::EINVAL),
    Call::RequeueRefused(4, 16, Reply::EFAULT),
    Call::RequeueRefused(0, 5, Reply::EFAULT),
    Call::Sleepers(4, &[4]),
    Call::Sleepers(5, &[5, 2, 3]),
    Call::Asleep(1, false),
    Call::Requeue(RequeueCall(4, 5, Woken(0, &[]), Moved(64, &[4]))),
    Call::Wake(5, 64, &[5, 2, 3, 4]),
    Call::Requeue(RequeueCall(5, 4, Woken(64, &[]), Moved(64, &[]))),
];

/// Those who are moved stand after those who slept on the other word, and a requeue that is refused changes nothing.
#[test]
fn requeues_of_five_threads(rt: HostRuntime) -> Result<(), Fail> {
    play(&rt, rt.alloc(), 5, &REQUEUES)
}

static WAKES_AND_MOVES: [Call; 6] = [
    Call::Sleep(&[4, 1, 3, 2], 6, 7),
    Call::CmpRequeue(7, RequeueCall(6, 15, Woken(2, &[4, 1]), Moved(1, &[3]))),
    Call::Sleepers(6, &[2]),
    Call::Sleepers(15, &[3]),
    Call::Requeue(RequeueCall(15, 6, Woken(u32::MAX, &[3]), Moved(1, &[]))),
    Call::Sleepers(6, &[2]),
];

/// A requeue wakes before it moves, and compares the low half alone.
#[test]
fn a_requeue_wakes_and_moves(rt: HostRuntime) -> Result<(), Fail> {
    play(&rt, rt.alloc(), 4, &WAKES_AND_MOVES)
}
