//! Two accounts, and how a transfer that was cut short is undone.

use std::sync::atomic::{AtomicU64, Ordering};

/// Two accounts, whose sum stays, and a journal: what they had before a transfer that is under way.
#[derive(Drop)]
pub(crate) struct Accounts {
    first: AtomicU64,
    second: AtomicU64,
    under_way: AtomicU64,
    first_before: AtomicU64,
    second_before: AtomicU64,
}

impl Accounts {
    /// So much on the first account, and nothing on the second.
    pub(crate) fn new(first: u64) -> Accounts {
        Accounts {
            first: AtomicU64::new(first),
            second: AtomicU64::new(0),
            under_way: AtomicU64::new(0),
            first_before: AtomicU64::new(0),
            second_before: AtomicU64::new(0),
        }
    }

    /// What is on them.
    pub(crate) fn balances(&self) -> (u64, u64) {
        (
            self.first.load(Ordering::SeqCst),
            self.second.load(Ordering::SeqCst),
        )
    }

    /// Notes what is on them, and takes the amount from the first account. Whoever dies after this has lost money.
    pub(crate) fn begin_transfer(&self, amount: u64) {
        let (first, second) = self.balances();
        self.first_before.store(first, Ordering::SeqCst);
        self.second_before.store(second, Ordering::SeqCst);
        self.under_way.store(1, Ordering::SeqCst);
        self.first
            .store(first.wrapping_sub(amount), Ordering::SeqCst);
    }

    /// Adds the amount to the second account: the transfer is done.
    pub(crate) fn end_transfer(&self, amount: u64) {
        let (_, second) = self.balances();
        self.second
            .store(second.wrapping_add(amount), Ordering::SeqCst);
        self.under_way.store(0, Ordering::SeqCst);
    }

    /// Undoes a transfer that is under way.
    pub(crate) fn repair(&self) {
        if self.under_way.load(Ordering::SeqCst) == 1 {
            let first = self.first_before.load(Ordering::SeqCst);
            let second = self.second_before.load(Ordering::SeqCst);
            self.first.store(first, Ordering::SeqCst);
            self.second.store(second, Ordering::SeqCst);
            self.under_way.store(0, Ordering::SeqCst);
        }
    }
}
