//! What things are called, in the data of a page.

ghost use Rattle.std.specs.Prelude.{◌≡◌, ◌++◌, ◌<◌, string_bytes, IfOk};
ghost use Rattle.picture.specs.Pieces.{each};
ghost use Rattle.page.specs.Escapes.{escaped};
ghost use Rattle.page.specs.Names.{conditions_named, mutexes_named, threads_named};
ghost use Rattle.page.specs.Names.{condition_called, label_text, mutex_called, names_text, thread_called};

use crate::pieces::add_word;
use itoa::Buffer;
use percent_encoding::{NON_ALPHANUMERIC, percent_encode};
use picture::Names;
use std::alloc::AllocError;

/// Adds a text that may have any characters: all but letters and digits are percent-encoded.
pub fn add_escaped(text: &mut String, word: &[u8]) -> Result<(), AllocError>
    ensures { IfOk result (λ _. string_bytes text.new ≡ string_bytes text.old ++ escaped word.now) }
{
    percent_encode(word, NON_ALPHANUMERIC).append_to(text)
}

/// A name in two pieces, after what comes before it.
fn add_label(text: &mut String, head: &str, tail: &str) -> Result<(), AllocError>
    ensures { IfOk result (λ _. string_bytes text.new ≡ string_bytes text.old ++ label_text head.now tail.now) }
{
    add_word(text, ",\"")?;
    add_escaped(text, head.as_bytes())?;
    add_escaped(text, tail.as_bytes())?;
    add_word(text, "\"")
}

fn add_thread(text: &mut String, names: &Names, index: u8) -> Result<(), AllocError>
    requires { index < 255 }
    ensures { IfOk result (λ _. string_bytes text.new ≡ string_bytes text.old ++ thread_called names.now index) }
{
    let mut digits = Buffer::new();
    let label = names.thread(index + 1, &mut digits);
    add_label(text, label.head, label.tail)
}

fn add_mutex(text: &mut String, names: &Names, mutex: u16) -> Result<(), AllocError>
    ensures { IfOk result (λ _. string_bytes text.new ≡ string_bytes text.old ++ mutex_called names.now mutex) }
{
    let mut digits = Buffer::new();
    let label = names.mutex(mutex, &mut digits);
    add_label(text, label.head, label.tail)
}

fn add_condition(text: &mut String, names: &Names, condition: u16) -> Result<(), AllocError>
    ensures { IfOk result (λ _. string_bytes text.new ≡ string_bytes text.old ++ condition_called names.now condition) }
{
    let mut digits = Buffer::new();
    let label = names.condition(condition, &mut digits);
    add_label(text, label.head, label.tail)
}

fn add_threads(text: &mut String, names: &Names, count: u8) -> Result<(), AllocError>
    ensures { IfOk result
        (λ _. string_bytes text.new ≡ string_bytes text.old ++ each (thread_called names.now) count) }
{
    for index in 0..count {
        add_thread(text, names, index)?;
    }
    Ok(())
}

fn add_mutexes(text: &mut String, names: &Names, count: u16) -> Result<(), AllocError>
    ensures { IfOk result (λ _. string_bytes text.new ≡ string_bytes text.old ++ each (mutex_called names.now) count) }
{
    for index in 0..count {
        add_mutex(text, names, index)?;
    }
    Ok(())
}

fn add_conditions(text: &mut String, names: &Names, count: u16) -> Result<(), AllocError>
    ensures { IfOk result
        (λ _. string_bytes text.new ≡ string_bytes text.old ++ each (condition_called names.now) count) }
{
    for index in 0..count {
        add_condition(text, names, index)?;
    }
    Ok(())
}

fn name_threads(text: &mut String, names: &Names, count: u8) -> Result<(), AllocError>
    ensures { IfOk result (λ _. string_bytes text.new ≡ string_bytes text.old ++ threads_named names.now count) }
{
    add_word(text, "[[\"threads\"")?;
    add_threads(text, names, count)
}

fn name_mutexes(text: &mut String, names: &Names, count: u16) -> Result<(), AllocError>
    ensures { IfOk result (λ _. string_bytes text.new ≡ string_bytes text.old ++ mutexes_named names.now count) }
{
    add_word(text, "],[\"mutexes\"")?;
    add_mutexes(text, names, count)
}

fn name_conditions(text: &mut String, names: &Names, count: u16) -> Result<(), AllocError>
    ensures { IfOk result (λ _. string_bytes text.new ≡ string_bytes text.old ++ conditions_named names.now count) }
{
    add_word(text, "],[\"conditions\"")?;
    add_conditions(text, names, count)?;
    add_word(text, "]],\n")
}

/// What that many threads, mutexes and condition variables are called.
pub fn add_names(
    text: &mut String,
    names: &Names,
    threads: u8,
    mutexes: u16,
    conditions: u16,
) -> Result<(), AllocError>
    ensures { IfOk result
        (λ _. string_bytes text.new ≡ string_bytes text.old ++ names_text names.now threads mutexes conditions) }
{
    name_threads(text, names, threads)?;
    name_mutexes(text, names, mutexes)?;
    name_conditions(text, names, conditions)
}
