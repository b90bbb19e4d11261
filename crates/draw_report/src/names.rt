//! The names of a script, for a picture.

ghost use Rattle.std.specs.Prelude.{◌≡◌, map, string_bytes, IfOk};
ghost use Rattle.script.specs.Reading.{condition_names};
ghost use Rattle.draw_report.specs.Names.{begins_so, called_by, called_in, is_like};

use lockword::Tid;
use picture::Names;
use script::Script;
use std::alloc::{AllocError, Global};
use verdict::Head;

fn thread_names(alloc: Global, script: &Script) -> Result<Vec<String>, AllocError>
    ensures { IfOk result (λ v. map string_bytes v.items ≡ script.now.threads) }
{
    let mut names = Vec::new(alloc);
    let threads = script.threads();
    for index in 0..threads {
        let thread = Tid::new(index + 1).unwrap();
        names.push(String::from_str(alloc, script.thread_name(thread))?)?;
    }
    Ok(names)
}

fn mutex_names(alloc: Global, script: &Script) -> Result<Vec<String>, AllocError>
    ensures { IfOk result (λ v. map string_bytes v.items ≡ script.now.mutexes) }
{
    let mut names = Vec::new(alloc);
    let mutexes = script.mutexes();
    for mutex in 0..mutexes {
        names.push(String::from_str(alloc, script.mutex_name(mutex))?)?;
    }
    Ok(names)
}

fn condition_names(alloc: Global, script: &Script) -> Result<Vec<String>, AllocError>
    ensures { IfOk result (λ v. map string_bytes v.items ≡ condition_names script.now) }
{
    let mut names = Vec::new(alloc);
    let conditions = script.conditions();
    for condition in 0..conditions {
        names.push(String::from_str(alloc, script.condition_name(condition))?)?;
    }
    Ok(names)
}

/// The names that the script declares, in the order of its lines.
fn names_in(alloc: Global, script: &Script) -> Result<Names, AllocError>
    ensures { IfOk result (λ n. n ≡ called_in script.now) }
{
    let threads = thread_names(alloc, script)?;
    let mutexes = mutex_names(alloc, script)?;
    let conditions = condition_names(alloc, script)?;
    Ok(Names::new(threads, mutexes, conditions))
}

/// What things are called: as in the script, or by numbers.
pub fn names_of(alloc: Global, script: &Option<Script>) -> Result<Names, AllocError>
    ensures { IfOk result (λ n. n ≡ called_by script.now) }
{
    match script {
        Some(script) => names_in(alloc, script),
        None => Ok(Names::none(alloc)),
    }
}

fn begins_so(script: &Script, head: &Head) -> bool
    ensures { result ≡ begins_so script.now head.now }
{
    script.threads() == head.threads
        && script.mutexes() == head.mutexes
        && script.conditions() == head.conditions
}

/// Whether a run of the script, if there is one, begins as this trace does.
pub fn is_like(script: &Option<Script>, head: &Head) -> bool
    ensures { result ≡ is_like script.now head.now }
{
    match script {
        Some(script) => begins_so(script, head),
        None => true,
    }
}
