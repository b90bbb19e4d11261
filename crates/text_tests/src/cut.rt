//! Certificates that are too long for one trace, in windows.

ghost use Rattle.std.specs.Prelude.{◌≤◌};
ghost use Rattle.histories.specs.Reading.{IsHead};

use facts::{Begun, Fact};
use histories::{Entry, Head};
use lockword::{Reply, Tid};
use posixmutex::{Decision, Operation};
use std::alloc::Global;
use verdict::{Verdict, check, read_trace};
use windows::{Cutter, Stop, Window, events_of, write_certificate};

/// A certificate that is written down step by step; None where no memory is left.
#[derive(Drop)]
struct Draft {
    steps: Vec<Entry>,
}

impl Draft {
    fn tell(&mut self, fact: Fact) -> Option<()> {
        self.steps.push(Entry::Told(fact)).ok()
    }

    /// The thread of this kill is doomed.
    fn tell_doom(&mut self, kill: Fact) -> Option<()> {
        self.steps.push(Entry::Doom(kill.thread())).ok()
    }

    fn begin(&mut self, id: u8, operation: Operation, mutex: u16) -> Option<()> {
        let call = Begun {
            operation,
            mutex,
            condition: None,
        };
        self.tell(Fact::Begin(Tid::new(id)?, call))
    }

    fn wait(&mut self, id: u8, condition: u16, mutex: u16) -> Option<()> {
        let call = Begun {
            operation: Operation::Wait,
            mutex,
            condition: Some(condition),
        };
        self.tell(Fact::Begin(Tid::new(id)?, call))
    }

    fn point(&mut self, id: u8, operation: Operation, mutex: u16, reply: Reply) -> Option<()> {
        let thread = Tid::new(id)?;
        self.tell(Fact::Point(Decision {
            thread,
            mutex,
            operation,
            reply,
        }))
    }

    fn back(&mut self, id: u8, reply: Reply) -> Option<()> {
        self.tell(Fact::Return(Tid::new(id)?, reply))
    }

    /// A call, from its begin to its return.
    fn call(&mut self, id: u8, operation: Operation, mutex: u16, reply: Reply) -> Option<()> {
        self.begin(id, operation, mutex)?;
        self.point(id, operation, mutex, reply)?;
        self.back(id, reply)
    }

    fn kill(&mut self, id: u8) -> Option<()> {
        self.tell(Fact::Kill(Tid::new(id)?))
    }

    /// An owner's death, told of its mutex.
    fn bury(&mut self, id: u8, mutex: u16) -> Option<()> {
        self.tell(Fact::Death(Tid::new(id)?, mutex))
    }

    fn reap(&mut self, id: u8) -> Option<()> {
        self.tell(Fact::Reap(Tid::new(id)?))
    }

    fn renew(&mut self, id: u8) -> Option<()> {
        self.tell(Fact::Renew(Tid::new(id)?))
    }

    fn doom(&mut self, id: u8) -> Option<()> {
        self.tell_doom(Fact::Kill(Tid::new(id)?))
    }

    /// Two threads lock and unlock the mutex in turn, this many times each; each lock begins while the other one has
    /// it.
    fn storm(&mut self, pairs: usize) -> Option<()> {
        self.begin(1, Operation::Lock, 0)?;
        for _ in 0..pairs {
            self.turn(1, 2)?;
            self.turn(2, 1)?;
        }
        self.point(1, Operation::Lock, 0, Reply::OK)?;
        self.back(1, Reply::OK)?;
        self.call(1, Operation::Unlock, 0, Reply::OK)
    }

    /// The one thread has begun its lock; it gets the mutex, the other one begins, and it unlocks.
    fn turn(&mut self, one: u8, other: u8) -> Option<()> {
        self.point(one, Operation::Lock, 0, Reply::OK)?;
        self.begin(other, Operation::Lock, 0)?;
        self.back(one, Reply::OK)?;
        self.begin(one, Operation::Unlock, 0)?;
        self.point(one, Operation::Unlock, 0, Reply::OK)?;
        self.back(one, Reply::OK)
    }

    /// Thread 3 is reaped, and mutex 1 inconsistent; mutex 2 is unusable.
    fn spoil_two(&mut self) -> Option<()> {
        self.call(3, Operation::Lock, 1, Reply::OK)?;
        self.kill(3)?;
        self.bury(3, 1)?;
        self.reap(3)?;
        self.call(4, Operation::Lock, 2, Reply::OK)?;
        self.kill(4)?;
        self.bury(4, 2)?;
        self.reap(4)?;
        self.renew(4)?;
        self.call(4, Operation::Lock, 2, Reply::EOWNERDEAD)?;
        self.call(4, Operation::Unlock, 2, Reply::OK)
    }

    /// Thread 4 owns mutex 6 and waits on 3, 5 owns 7 and is in the call that took 4.
    fn leave_calls(&mut self) -> Option<()> {
        self.call(4, Operation::Lock, 6, Reply::OK)?;
        self.call(4, Operation::Lock, 3, Reply::OK)?;
        self.wait(4, 0, 3)?;
        self.point(4, Operation::Unlock, 3, Reply::OK)?;
        self.call(5, Operation::Lock, 7, Reply::OK)?;
        self.begin(5, Operation::TryLock, 4)?;
        self.point(5, Operation::TryLock, 4, Reply::OK)
    }

    /// Thread 6 is killed owning mutex 5, and 7 is doomed, and was told that its time limit came as it waited for 4.
    fn leave_dead(&mut self) -> Option<()> {
        self.call(6, Operation::Lock, 5, Reply::OK)?;
        self.kill(6)?;
        self.begin(7, Operation::TimedLock, 4)?;
        self.point(7, Operation::TimedLock, 4, Reply::ETIMEDOUT)?;
        self.doom(7)
    }

    /// What is still so at the cut.
    fn leave_open(&mut self) -> Option<()> {
        self.spoil_two()?;
        self.leave_calls()?;
        self.leave_dead()
    }

    /// How all of that ends.
    fn end_all(&mut self) -> Option<()> {
        self.call(1, Operation::Lock, 1, Reply::EOWNERDEAD)?;
        self.call(1, Operation::Consistent, 1, Reply::OK)?;
        self.call(1, Operation::TryLock, 2, Reply::ENOTRECOVERABLE)?;
        self.point(4, Operation::Lock, 3, Reply::OK)?;
        self.back(4, Reply::OK)?;
        self.back(5, Reply::OK)?;
        self.call(5, Operation::Unlock, 4, Reply::OK)?;
        self.call(4, Operation::Unlock, 6, Reply::OK)?;
        self.bury(6, 5)?;
        self.reap(6)?;
        self.kill(7)?;
        self.renew(3)?;
        self.call(3, Operation::Lock, 5, Reply::EOWNERDEAD)
    }
}

fn head_of(mutexes: u32) -> Head
    requires least { 1 ≤ mutexes }
    requires most { mutexes ≤ 65536 }
    ensures { IsHead result }
{
    Head {
        threads: 7,
        mutexes,
        conditions: 1,
    }
}

/// What windows have told so far.
#[derive(Drop)]
struct Joined {
    windows: usize,
    /// The lines of their preambles.
    before: usize,
    /// What their own lines tell.
    facts: Vec<Fact>,
}

/// Adds a window, if the judge of traces finds it legal.
fn add(alloc: Global, joined: &mut Joined, window: &Window) -> Option<()> {
    let Ok(Verdict::Legal { .. }) = check(alloc, &window.text) else {
        return None;
    };
    let told = read_trace(alloc, &window.text).ok()?;
    for at in window.preamble..told.lines.len() {
        joined.facts.push(told.lines[at].fact).ok()?;
    }
    joined.windows = joined.windows.saturating_add(1);
    joined.before = joined.before.saturating_add(window.preamble);
    Some(())
}

/// The windows of these steps, up to a hundred, and why there is no further one.
fn join(
    alloc: Global,
    head: &Head,
    steps: &[Entry],
    joined: &mut Joined,
) -> Option<Result<(), Stop>>
    requires { IsHead head.now }
{
    let mut cutter = match Cutter::new(alloc, head) {
        Ok(cutter) => cutter,
        Err(why) => return Some(Err(why)),
    };
    for _ in 0..100 {
        match cutter.next(alloc, head, steps) {
            Ok(Some(window)) => add(alloc, joined, &window)?,
            Ok(None) => return Some(Ok(())),
            Err(why) => return Some(Err(why)),
        }
    }
    None
}

/// Whether just these steps' lines are recorded, in their order.
fn tells(joined: &Joined, steps: &[Entry]) -> bool {
    let mut at: usize = 0;
    for step in steps {
        if let Entry::Told(fact) = step {
            if joined.facts.get(at) != Some(fact) {
                return false;
            }
            at = at.saturating_add(1);
        }
    }
    at == joined.facts.len()
}

fn none_yet(alloc: Global) -> Joined {
    Joined {
        windows: 0,
        before: 0,
        facts: Vec::new(alloc),
    }
}

fn nothing(alloc: Global) -> Draft {
    Draft {
        steps: Vec::new(alloc),
    }
}

/// What windows tell of a certificate of 108,000 lines and more; whether that is its lines, and whether preambles are as
/// long as they have to be: at the cut mutex 1 takes 7 lines, 2 takes 13, thread 3 two, 4 eight, 5 five, 6 four and 7
/// two, and what the first two threads do one to six.
fn long_one(alloc: Global) -> Option<(usize, bool, bool)> {
    let mut draft = nothing(alloc);
    draft.leave_open()?;
    draft.storm(9_000)?;
    draft.end_all()?;
    let mut joined = none_yet(alloc);
    join(alloc, &head_of(8), &draft.steps, &mut joined)?.ok()?;
    let as_long = joined.before >= 42 && joined.before <= 47;
    Some((joined.windows, tells(&joined, &draft.steps), as_long))
}

#[test]
fn windows_join(rt: HostRuntime) {
    assert_eq!(rt; long_one(rt.alloc()), Some((2, true, true)));
}

/// Why the certificate isn't cut in which a thread stays in a call that declared a mutex consistent; and how many
/// windows there were before.
fn stuck_one(alloc: Global) -> Option<(usize, Result<(), Stop>)> {
    let mut draft = nothing(alloc);
    draft.call(3, Operation::Lock, 1, Reply::OK)?;
    draft.kill(3)?;
    draft.bury(3, 1)?;
    draft.reap(3)?;
    draft.call(4, Operation::Lock, 1, Reply::EOWNERDEAD)?;
    draft.begin(4, Operation::Consistent, 1)?;
    draft.point(4, Operation::Consistent, 1, Reply::OK)?;
    draft.storm(9_000)?;
    let mut joined = none_yet(alloc);
    let end = join(alloc, &head_of(8), &draft.steps, &mut joined)?;
    Some((joined.windows, end))
}

/// How the cutting of a return that no call began ends.
fn wrong_one(alloc: Global, mutexes: u32) -> Option<Result<(), Stop>>
    requires least { 1 ≤ mutexes }
    requires most { mutexes ≤ 65536 }
{
    let mut draft = nothing(alloc);
    draft.back(1, Reply::OK)?;
    join(alloc, &head_of(mutexes), &draft.steps, &mut none_yet(alloc))
}

#[test]
fn why_there_is_no_window(rt: HostRuntime) {
    assert_eq!(rt; stuck_one(rt.alloc()), Some((1, Err(Stop::NoPlace))));
    assert_eq!(rt; wrong_one(rt.alloc(), 8), Some(Err(Stop::Refused)));
    assert_eq!(rt; wrong_one(rt.alloc(), 4_097), Some(Err(Stop::TooMany)));
}

/// Whether a short certificate has one window, without a preamble, which tells its lines; and is written as a trace.
fn is_whole(alloc: Global) -> Option<bool> {
    let mut draft = nothing(alloc);
    draft.leave_open()?;
    let mut joined = none_yet(alloc);
    join(alloc, &head_of(8), &draft.steps, &mut joined)?.ok()?;
    let is_one = joined.windows == 1 && joined.before == 0 && tells(&joined, &draft.steps);
    let mut text = Vec::new(alloc);
    write_certificate(&mut text, &head_of(8), &draft.steps).ok()?;
    let Ok(Verdict::Legal { .. }) = check(alloc, &text) else {
        return Some(false);
    };
    // one step is a doom, which is no line
    Some(is_one && events_of(&draft.steps) == draft.steps.len().saturating_sub(1))
}

#[test]
fn a_short_certificate_is_one_window(rt: HostRuntime) {
    assert_eq!(rt; is_whole(rt.alloc()), Some(true));
}
