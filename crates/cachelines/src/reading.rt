//! The words after the last step, read by place.
ghost use Rattle.std.specs.Prelude.{◌≡◌, ◌<◌, slice_index};
ghost use Rattle.cachelines.specs.Closings.{words_at};

use crate::closed::Closed;
use crate::slot::slot;

impl Closed {
    /// The word of a place.
    pub fn word(&self, place: usize) -> u64
        requires { place < self.now.count }
        ensures { result ≡ slice_index (words_at self.now) place }
    {
        self.closed.word(slot(place))
    }
}
