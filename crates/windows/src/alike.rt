//! Whether threads and mutexes are alike at two places.

ghost use Rattle.std.specs.Prelude.{ℕ, ◌≡◌, ◌<◌, true, length};
ghost use Rattle.windows.specs.Places.{WaitsAlike, may_time_out};

use certificates::{Made, Phase, State};
use facts::Begun;
use posixmutex::{Object, Operation};

fn is_same_call(a: &Begun, b: &Begun) -> bool
    ensures { result ≡ true → a.now ≡ b.now }
{
    *a == *b
}

fn is_same_made(a: &Made, b: &Made) -> bool
    ensures { result ≡ true → a.now ≡ b.now }
{
    *a == *b
}

fn is_same_phase(a: &Phase, b: &Phase) -> bool
    ensures { result ≡ true → a.now ≡ b.now }
{
    match *a {
        Phase::Resting => matches!(*b, Phase::Resting),
        Phase::Calling(call, made) => match *b {
            Phase::Calling(other, reached) => {
                is_same_call(&call, &other) && is_same_made(&made, &reached)
            }
            _ => false,
        },
        Phase::Dying => matches!(*b, Phase::Dying),
        Phase::Reaped => matches!(*b, Phase::Reaped),
    }
}

fn same_phases(a: &[Phase], b: &[Phase]) -> bool
    ensures { result ≡ true → a.now ≡ b.now }
{
    if a.len() != b.len() {
        return false;
    }
    for at in 0..a.len() {
        if !is_same_phase(&a[at], &b[at]) {
            return false;
        }
    }
    true
}

fn same_objects(a: &[Object], b: &[Object]) -> bool
    ensures { result ≡ true → a.now ≡ b.now }
{
    if a.len() != b.len() {
        return false;
    }
    for at in 0..a.len() {
        if a[at] != b[at] {
            return false;
        }
    }
    true
}

/// Whether another thread has owned the mutex at this place since the thread with this id began its call.
fn has_waited(state: &State, id: usize, at: usize) -> bool
    requires thread { id < length state.now.begun.items }
    requires object { at < length state.now.objects.items }
    requires freed { at < length state.now.freed.items }
    ensures { result ≡ may_time_out state.now id at }
{
    match state.objects[at].owner {
        None => state.begun[id] < state.freed[at],
        Some(owner) => usize::from(owner.get()) != id,
    }
}

/// Whether the thread with this id, if it is in a lock with a time limit that has had no point, has waited at both places
/// or at neither.
fn waits_alike(a: &State, b: &State, id: usize) -> bool
    requires { id < length a.now.phases.items }
    ensures { result ≡ true → WaitsAlike a.now b.now id }
{
    let Phase::Calling(call, Made::Nothing) = a.phases[id] else {
        return true;
    };
    if call.operation != Operation::TimedLock {
        return true;
    }
    let at = usize::from(call.mutex);
    if id >= a.begun.len() || id >= b.begun.len() {
        return false;
    }
    if at >= a.objects.len() || at >= b.objects.len() {
        return false;
    }
    if at >= a.freed.len() || at >= b.freed.len() {
        return false;
    }
    has_waited(a, id, at) == has_waited(b, id, at)
}

/// The same of all threads.
fn all_wait_alike(a: &State, b: &State) -> bool
    ensures { result ≡ true → (t : ℕ) → WaitsAlike a.now b.now t }
{
    for id in 0..a.phases.len() {
        if !waits_alike(a, b, id) {
            return false;
        }
    }
    true
}

/// Whether threads are in the same phases, mutexes have the same objects, and the same threads have waited.
pub fn are_alike(a: &State, b: &State) -> bool
    ensures phases { result ≡ true → a.now.phases.items ≡ b.now.phases.items }
    ensures objects { result ≡ true → a.now.objects.items ≡ b.now.objects.items }
    ensures waits { result ≡ true → (t : ℕ) → WaitsAlike a.now b.now t }
{
    same_phases(&a.phases, &b.phases)
        && same_objects(&a.objects, &b.objects)
        && all_wait_alike(a, b)
}
