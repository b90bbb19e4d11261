//! Accounts that the owner of a mutex alone reaches.
ghost use Rattle.std.specs.Prelude.{◌≡◌, ◌<◌, true, IfOk, IfErr};
ghost use Rattle.ruledwords.specs.OwnWords.{owns_in};
ghost use Rattle.ruledwords.specs.Passes.{card, layout_of, IsLive, IsPassOf};
ghost use Rattle.threadbench.specs.Answered.{IsWorkerOf};
ghost use Rattle.example_recovery.specs.NotOwned.{IsNotOwnedOf};

use crate::accounts::Accounts;
use lockword::Reply;
use mutex::Call;
use ruledwords::{Live, Never, Outcome, Pass, Reaped, Released, Running};
use std::sync::Wait;
use threadbench::{Bench, WorkerPass};

/// Accounts that a mutex of a bench guards.
#[derive(Drop)]
pub(crate) struct Guarded {
    mutex: u16,
    accounts: Accounts,
}

/// A thread that holds the mutex, and what its lock was answered: EOWNERDEAD where the mutex's last owner died. The
/// accounts are reached by it alone.
#[derive(Drop)]
pub(crate) struct Owner<'a> {
    pub(crate) told: Reply,
    pub(crate) accounts: &'a Accounts,
    mutex: u16,
    pass: Pass<Live>,
}

/// Why a thread doesn't own the mutex.
#[derive(Drop)]
pub(crate) enum NotOwned {
    /// The lock was answered so.
    Refused(Pass<Live>, Reply),
    /// Somebody killed it ([`Bench::kill`]), and the kernel went through its list.
    Killed(Pass<Reaped>),
}

impl Guarded {
    /// Accounts that this mutex guards.
    pub(crate) fn new(mutex: u16, accounts: Accounts) -> Guarded
        ensures { result.mutex ≡ mutex }
    {
        Guarded { mutex, accounts }
    }

    /// The accounts, when no thread needs the mutex any more.
    pub(crate) fn into_accounts(self) -> Accounts {
        let Guarded { mutex: _, accounts } = self;
        accounts
    }

    /// Takes the mutex, asleep while another thread owns it. After a dead owner the accounts are put right first, and
    /// the mutex is declared consistent. The pass comes back where the mutex can't be had.
    pub(crate) fn lock<'a, R: Wait>(
        &'a self,
        rt: &R,
        bench: &Bench,
        pass: Pass<Live>,
    ) -> Result<Owner<'a>, NotOwned>
        requires pass { IsLive bench.now pass }
        requires mutex { self.now.mutex < (layout_of bench.now).mutexes }
        ensures live { IfOk result (λ o. IsLive bench.now o.pass) }
        ensures mutex { IfOk result (λ o. o.mutex ≡ self.now.mutex) }
        ensures owns { IfOk result (λ o. owns_in (layout_of bench.now) (card o.pass) self.now.mutex ≡ true) }
        ensures not { IfErr result (IsNotOwnedOf bench.now) }
    {
        match bench.lock(rt, pass, self.mutex, &mut Never) {
            Outcome::Lives(pass, Reply::OK) => Ok(self.owner(Reply::OK, pass)),
            Outcome::Lives(pass, Reply::EOWNERDEAD) => {
                self.accounts.repair();
                let pass = declared(bench, pass, self.mutex);
                Ok(self.owner(Reply::EOWNERDEAD, pass))
            }
            Outcome::Lives(pass, told) => Err(NotOwned::Refused(pass, told)),
            Outcome::Dead(dead) => Err(NotOwned::Killed(bench.exit(rt, dead))),
        }
    }

    fn owner(&self, told: Reply, pass: Pass<Live>) -> Owner<'_>
        ensures pass { result.pass ≡ pass }
        ensures mutex { result.mutex ≡ self.now.mutex }
    {
        Owner {
            told,
            accounts: &self.accounts,
            mutex: self.mutex,
            pass,
        }
    }
}

/// The mutex's state is as it should be again (pthread_mutex_consistent).
fn declared(bench: &Bench, pass: Pass<Live>, mutex: u16) -> Pass<Live>
    requires pass { IsLive bench.now pass }
    requires mutex { mutex < (layout_of bench.now).mutexes }
    ensures live { IsLive bench.now result }
    ensures owns { owns_in (layout_of bench.now) (card pass) mutex ≡ true
        → owns_in (layout_of bench.now) (card result) mutex ≡ true }
{
    match bench.words().consistent(pass, mutex, &mut Never) {
        Outcome::Lives(pass, _) => pass,
        Outcome::Dead(_) => unreachable!(),
    }
}

impl Owner<'_> {
    /// Frees the mutex, and wakes one who waits for it. Where somebody kills its thread before that wake, the kernel
    /// makes it as it goes through the thread's list.
    pub(crate) fn unlock<R: Wait>(self, rt: &R, bench: &Bench) -> WorkerPass
        requires pass { IsLive bench.now self.pass }
        requires mutex { self.mutex < (layout_of bench.now).mutexes }
        ensures { IsWorkerOf bench.now result }
    {
        let Owner { mutex, pass, .. } = self;
        match bench.words().release(pass, mutex, &mut Never) {
            Released::Owes(owed) => match bench.pay(rt, owed, &mut Never) {
                Outcome::Lives(pass, _) => WorkerPass::Lives(pass),
                Outcome::Dead(dead) => WorkerPass::Reaped(bench.exit(rt, dead)),
            },
            Released::Refused(pass, _) => WorkerPass::Lives(pass),
            Released::Dead(_) => unreachable!(),
        }
    }

    /// The thread dies as the owner, and the kernel goes through its list: the mutex is marked, and one who waits for
    /// it is woken.
    pub(crate) fn die<R: Wait>(self, rt: &R, bench: &Bench) -> Pass<Reaped>
        requires pass { IsLive bench.now self.pass }
        requires mutex { self.mutex < (layout_of bench.now).mutexes }
        ensures { IsPassOf bench.now result }
    {
        let Owner { mutex, pass, .. } = self;
        match Running::call(bench.words(), pass, Call::Unlock(mutex)) {
            Ok(running) => bench.exit(rt, running.die()),
            Err(_) => unreachable!(),
        }
    }
}
