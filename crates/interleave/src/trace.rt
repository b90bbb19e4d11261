//! Traces of the machine's events.
ghost use Rattle.std.specs.Prelude.{◌≡◌, ◌+◌, ◌<◌, ◌≤◌, [], ◌∷◌, ◌++◌, vec_len, vec_capacity};

use protocol::Note;

/// How many threads, mutexes and condition variables there are, and what each event did, in order.
#[derive(Debug, Drop)]
pub struct Trace {
    pub threads: u8,
    pub mutexes: u16,
    pub conditions: u16,
    pub notes: Vec<Note>,
}

/// Adds an item for which there is room.
pub(crate) fn push_in_room<T: Copy>(list: &mut Vec<T>, item: &T)
    requires { vec_len list.old < vec_capacity list.old }
    ensures items { list.new.items ≡ list.old.items ++ item.now ∷ [] }
    ensures len { vec_len list.new ≡ vec_len list.old + 1 }
    ensures room { vec_capacity list.old ≤ vec_capacity list.new }
{
    let _ = list.push(*item);
}
