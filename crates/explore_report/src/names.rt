//! The names of threads, mutexes and condition variables.

ghost use Rattle.std.specs.Prelude.{◌≡◌, ◌+◌, ◌-◌, ◌<◌, Some, length, map, option_map, slice_get};
ghost use Rattle.std.specs.List.{list_any};
ghost use Rattle.std.specs.Str.{bytes_eq};
ghost use Rattle.explore_report.specs.Patterns.{place_of};
ghost use Rattle.explore_report.specs.Texts.{condition_name, name_at};

use lockword::Tid;
use script::Script;

/// The name of the thread after this many others.
pub fn thread_name_at(script: &Script, before: u8) -> &str
    requires { before < length script.now.threads }
    ensures { slice_get script.now.threads before ≡ Some result.now }
{
    // Counting the threads shows that there are few.
    let _count = script.threads();
    script.thread_name(Tid::new(before + 1).unwrap())
}

/// The name of a thread; none if there is no such thread.
pub fn thread_name(script: &Script, thread: Tid) -> &str
    ensures { result.now ≡ name_at script.now.threads (thread - 1) }
{
    if thread.get() <= script.threads() {
        script.thread_name(thread)
    } else {
        ""
    }
}

/// The name of a mutex; none if there is no such mutex.
pub fn mutex_name(script: &Script, mutex: u16) -> &str
    ensures { result.now ≡ name_at script.now.mutexes mutex }
{
    if mutex < script.mutexes() {
        script.mutex_name(mutex)
    } else {
        ""
    }
}

/// The name of a condition variable; none if there is no such condition variable.
pub fn condition_name(script: &Script, condition: u16) -> &str
    ensures { result.now ≡ condition_name script.now condition }
{
    if condition < script.conditions() {
        script.condition_name(condition)
    } else {
        ""
    }
}

/// The thread with this name, if the script declares one.
pub fn thread_named(script: &Script, name: &str) -> Option<Tid>
    ensures { result ≡ option_map (λ i. i + 1) (place_of script.now.threads name.now) }
{
    for before in 0..script.threads() {
        if thread_name_at(script, before) == name {
            let thread = Tid::new(before + 1).unwrap();
            return Some(thread);
        }
    }
    None
}

/// The mutex with this name, if the script declares one.
pub fn mutex_named(script: &Script, name: &str) -> Option<u16>
    ensures { result ≡ place_of script.now.mutexes name.now }
{
    for mutex in 0..script.mutexes() {
        if script.mutex_name(mutex) == name {
            return Some(mutex);
        }
    }
    None
}

/// Whether a name is one of these.
pub fn is_among(names: &[&str], name: &str) -> bool
    ensures { result ≡ list_any (λ w. bytes_eq w.now name.now) names.now }
{
    names.iter().any(|it| *it == name)
}
