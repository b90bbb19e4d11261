//! The rings of the keys that have sleepers.
ghost use Rattle.std.specs.Prelude.{◌≡◌, ◌==◌, ◌<◌, ◌∷◌, ◌++◌, List, length, vec_capacity};
ghost use Rattle.std.specs.List.{position};
ghost use Rattle.buckets.specs.declared.ring.Ring.{Ring};
ghost use Rattle.buckets.specs.Rings.{left_of};

use crate::sleeper::Sleeper;
use lockword::Tid;
use memorymap::Key;

/// Where the queue of a key begins: its first sleeper, and how many there are, 1 or more.
#[derive(Clone, Copy, Debug, PartialEq, Eq)]
pub struct Ring {
    pub first: Sleeper,
    pub count: usize,
}

/// Where the ring of the key stands among the rings; None where nobody sleeps on the key.
pub(crate) fn ring_on(rings: &[Ring], key: Key) -> Option<usize>
    ensures { result ≡ position (λ r. r.first.key.0 == key.0) rings.now }
{
    rings.iter().position(|ring| ring.first.key == key)
}

/// A thread leaves its ring: the thread after it becomes the first where it was the first, and a ring of nobody is
/// taken away.
pub(crate) fn leave(rings: &mut Vec<Ring>, place: usize, thread: Tid, after: Tid)
    requires { place < length rings.old.items }
    ensures left { (front back : List Ring) (r : Ring) → length front ≡ place → rings.old.items ≡ front ++ r ∷ back
        → rings.new.items ≡ front ++ (left_of r thread after ++ back) }
    ensures room { vec_capacity rings.new ≡ vec_capacity rings.old }
{
    let Ring { first, count } = rings[place];
    if count <= 1 {
        rings.remove(place);
        return;
    }
    let head = first.thread;
    let thread = if head == thread { after } else { head };
    rings[place] = Ring {
        first: Sleeper {
            thread,
            key: first.key,
        },
        count: count - 1,
    };
}
