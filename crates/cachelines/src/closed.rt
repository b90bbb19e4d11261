//! Words that no thread shares any more: they can be read, and their memory is given back.
ghost use Rattle.std.specs.Prelude.{◌≡◌, ◌<◌, ◌^◌};
ghost use Rattle.std.specs.Mem.Slots.{slots_len, IsFull};
ghost use Rattle.cachelines.specs.Spread.{slots_for};

use std::alloc::Global;

/// Words that no thread shares any more.
pub struct Closed {
    pub(crate) closed: atomic_table::Closed<(), Global>,
    /// How many.
    pub(crate) count: usize,
    pub ghost full: { IsFull closed.words },
    pub ghost wide: { slots_len closed.words ≡ slots_for count },
    pub ghost few: { count < 2 ^ 60 },
    pub ghost bare: { slots_len closed.slots ≡ 0 },
}

impl Drop for Closed {
    fn drop(self) {
        let Closed { closed, count: _ } = self;
        closed.free();
    }
}
