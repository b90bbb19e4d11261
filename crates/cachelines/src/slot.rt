//! Where the word of a place lies.
ghost use Rattle.std.specs.Prelude.{◌≡◌, ◌<◌, ◌^◌};
ghost use Rattle.cachelines.specs.Spread.{slot_of, slots_for};

/// The words of a group.
const GROUP: usize = 3;

/// The words of memory for a group: from the last word of one to the first of the next one is a cache line.
const ROOM: usize = 10;

/// The word of memory that has a place.
#[inline(always)]
pub(crate) fn slot(place: usize) -> usize
    requires { place < 2 ^ 60 }
    ensures { result ≡ slot_of place }
{
    ROOM * ((place + 2) / GROUP) + (place + 2) % GROUP
}

/// How many words of memory this many places take.
pub(crate) fn room(places: usize) -> usize
    requires { places < 2 ^ 60 }
    ensures { result ≡ slots_for places }
{
    ROOM * ((places + 1) / GROUP + 1)
}
