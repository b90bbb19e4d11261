//! The names that lines declare, and what was declared with them.

ghost use Rattle.std.specs.Prelude.{◌≡◌, ◌<◌, ◌≤◌, length, map, IfOk, string_bytes};
ghost use Rattle.std.specs.List.{list_any};
ghost use Rattle.script.specs.Outcome.{Gives};
ghost use Rattle.script.specs.Reading.{added, is_numbered, names_of, place_of, several, with_entry, with_name};
ghost use Rattle.script.specs.Seen.{entries_seen};

use crate::fault::Fault;
use crate::words::is_below;
use indexmap::{IndexMap, IndexSet};
use lines::is_number_word;
use std::alloc::Global;

/// The place of a name among the declared ones, from 0.
pub(crate) fn place(names: &IndexSet<String>, word: &str) -> Result<usize, Fault>
    ensures value { result ≡ place_of word.now (map string_bytes names.now.keys) }
    ensures within { IfOk result (λ i. i < length (map string_bytes names.now.keys)) }
{
    names.get_index_of(word).ok_or(Fault::NoSuchName)
}

/// The place of a name among those that were declared with more than their names, from 0.
pub(crate) fn entry_place<V>(entries: &IndexMap<String, V>, word: &str) -> Result<usize, Fault>
    ensures value { result ≡ place_of word.now (names_of (entries_seen entries.now.entries)) }
    ensures within { IfOk result (λ i. i < length entries.now.entries) }
{
    entries.get_index_of(word).ok_or(Fault::NoSuchName)
}

/// Adds a name, unless it is there.
pub(crate) fn add_name(alloc: Global, names: &mut IndexSet<String>, word: &str) -> Result<(), Fault>
    ensures { Gives (λ _. map string_bytes names.new.keys) result
        (with_name (map string_bytes names.old.keys) word.now) }
{
    if names.contains(word) {
        return Err(Fault::NoSuchName);
    }
    names.insert(String::from_str(alloc, word)?)?;
    Ok(())
}

/// Adds a name and what was declared with it, unless the name is there.
pub(crate) fn add_entry<V: Copy>(
    alloc: Global,
    entries: &mut IndexMap<String, V>,
    word: &str,
    value: V,
) -> Result<(), Fault>
    ensures { Gives (λ _. entries_seen entries.new.entries) result
        (with_entry (entries_seen entries.old.entries) word.now value) }
{
    if entries.contains_key(word) {
        return Err(Fault::NoSuchName);
    }
    entries.insert(String::from_str(alloc, word)?, value)?;
    Ok(())
}

/// Adds a name, unless there are as many as may be, or it is there.
pub(crate) fn declare(
    alloc: Global,
    names: &mut IndexSet<String>,
    limit: usize,
    word: &str,
) -> Result<(), Fault>
    ensures { Gives (λ _. map string_bytes names.new.keys) result
        (added limit (map string_bytes names.old.keys) word.now) }
{
    if names.len() >= limit {
        return Err(Fault::OutOfRange);
    }
    add_name(alloc, names, word)
}

/// Whether a name is a word with a number below `count` after it.
fn is_numbered(name: &str, word: &str, count: u32) -> bool
    ensures { result ≡ is_numbered word.now count name.now }
{
    match name.strip_prefix(word) {
        Some(digits) => is_number_word(digits) && is_below(digits, count),
        None => false,
    }
}

/// Whether one of the names is a word with a number below `count` after it.
fn clashes(names: &IndexSet<String>, word: &str, count: u32) -> bool
    ensures { result ≡ list_any (λ name. is_numbered word.now count name) (map string_bytes names.now.keys) }
{
    names
        .iter()
        .any(|name| is_numbered(name.as_str(), word, count))
}

/// Adds `count` names, a word with each number from 0 on after it, unless there would be more than may be, or one is
/// there.
pub(crate) fn declare_numbered(
    alloc: Global,
    names: &mut IndexSet<String>,
    limit: usize,
    word: &str,
    count: u32,
) -> Result<(), Fault>
    requires { length names.old.keys ≤ limit }
    ensures { Gives (λ _. map string_bytes names.new.keys) result
        (several limit (map string_bytes names.old.keys) word.now count) }
{
    if count as usize > limit - names.len() {
        return Err(Fault::OutOfRange);
    }
    if clashes(names, word, count) {
        return Err(Fault::NoSuchName);
    }
    for number in 0..count {
        names.insert(format!(in alloc; "{word}{number}")?)?;
    }
    Ok(())
}
