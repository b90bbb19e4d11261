//! Where each thread's robust list begins.

use crate::batches::thread;
use crate::kernels::reply_of;
use lockword::Reply;
use std::process::Abort;
use std::test::Fail;
use syscalls::Kernel;

/// A set of the head of one of the kernel's threads.
fn set(rt: &impl Abort, kernel: &mut Kernel, id: u8, head: u64, len: u64) -> Reply {
    let thread = thread(rt, id);
    assert!(rt; thread.get() <= kernel.threads());
    reply_of(kernel.set_robust_list(thread, head, len))
}

/// The thread's head is this one.
fn has_head(rt: &impl Abort, kernel: &Kernel, id: u8, head: u64) {
    match kernel.get_robust_list(id) {
        Ok((first, len)) => assert!(rt; first == head && len == 24),
        Err(_) => assert!(rt; false),
    }
}

fn has_no_head(rt: &impl Abort, kernel: &Kernel, id: u8) {
    match kernel.get_robust_list(id) {
        Ok(_) => assert!(rt; false),
        Err(reply) => assert!(rt; reply == Reply::ESRCH),
    }
}

/// A head is recorded as its thread set it, and a set with another length is refused.
#[test]
fn heads_of_two_threads(rt: HostRuntime) -> Result<(), Fail> {
    let mut kernel = Kernel::new(rt.alloc(), 2)?;
    has_head(&rt, &kernel, 1, 0);
    assert!(rt; set(&rt, &mut kernel, 1, 4, 16) == Reply::EINVAL);
    has_head(&rt, &kernel, 1, 0);
    assert!(rt; set(&rt, &mut kernel, 1, 4, 24) == Reply::OK);
    has_head(&rt, &kernel, 1, 4);
    has_no_head(&rt, &kernel, 3);
    has_no_head(&rt, &kernel, 0);
    has_head(&rt, &kernel, 2, 0);
    has_head(&rt, &kernel.clone()?, 1, 4);
    Ok(())
}
