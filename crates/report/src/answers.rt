//! What a script's threads were answered, by the names of the script.
ghost use Rattle.std.specs.Prelude.{◌≡◌, length, map, IfOk};

use crate::threads::Answers;
use lockword::Tid;
use script::Script;
use std::alloc::{AllocError, Global};
use texts::{ConditionWord, MutexWord, ThreadReplies};

/// Each thread's name, its replies and whether it died, in the order of the threads' ids.
pub fn thread_replies<'a>(
    alloc: Global,
    script: &'a Script,
    answers: &'a Answers,
) -> Result<Vec<ThreadReplies<'a>>, AllocError>
    requires replies { length answers.now.replies.items ≡ length script.now.threads }
    requires died { length answers.now.died.items ≡ length script.now.threads }
    ensures names { IfOk result (λ v. map (λ t. t.name.now) v.items ≡ script.now.threads) }
    ensures replies { IfOk result
        (λ v. map (λ t. t.replies.now) v.items ≡ map (λ r. r.items) answers.now.replies.items) }
    ensures died { IfOk result (λ v. map (λ t. t.died) v.items ≡ answers.now.died.items) }
{
    let mut lines = Vec::new(alloc);
    let threads = script.threads();
    for index in 0..threads {
        let thread = Tid::new(index + 1).unwrap();
        lines.push(ThreadReplies {
            name: script.thread_name(thread),
            replies: answers.replies[usize::from(index)].as_slice(),
            died: answers.died[usize::from(index)],
        })?;
    }
    Ok(lines)
}

/// Each mutex's name and the word of its cell, in the order of the mutexes' numbers.
pub fn mutex_words<'a>(
    alloc: Global,
    script: &'a Script,
    answers: &'a Answers,
) -> Result<Vec<MutexWord<'a>>, AllocError>
    requires { length answers.now.cells.items ≡ length script.now.mutexes }
    ensures names { IfOk result (λ v. map (λ m. m.name.now) v.items ≡ script.now.mutexes) }
    ensures cells { IfOk result (λ v. map (λ m. m.cell) v.items ≡ answers.now.cells.items) }
{
    let mut lines = Vec::new(alloc);
    let mutexes = script.mutexes();
    for mutex in 0..mutexes {
        lines.push(MutexWord {
            name: script.mutex_name(mutex),
            cell: answers.cells[usize::from(mutex)],
        })?;
    }
    Ok(lines)
}

/// Each condition variable's name and the word of its counter, in the order of the condition variables' numbers.
pub fn condition_words<'a>(
    alloc: Global,
    script: &'a Script,
    answers: &'a Answers,
) -> Result<Vec<ConditionWord<'a>>, AllocError>
    requires { length answers.now.counters.items ≡ length script.now.conditions }
    ensures names { IfOk result (λ v. map (λ c. c.name.now) v.items ≡ map (λ c. c.0) script.now.conditions) }
    ensures counters { IfOk result (λ v. map (λ c. c.counter) v.items ≡ answers.now.counters.items) }
{
    let mut lines = Vec::new(alloc);
    let conditions = script.conditions();
    for condition in 0..conditions {
        lines.push(ConditionWord {
            name: script.condition_name(condition),
            counter: answers.counters[usize::from(condition)],
        })?;
    }
    Ok(lines)
}
