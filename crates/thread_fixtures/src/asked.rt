//! A fate that counts.
use ruledwords::Fate;
use std::sync::atomic::{AtomicU64, Ordering};

/// A fate that counts where others can see it how often it was asked, and stops its thread once, where it is asked for
/// the time with a number, from 1; a 0 never comes.
#[derive(Drop)]
pub struct Asked<'a> {
    count: &'a AtomicU64,
    stops_at: u64,
    has_stopped: bool,
}

impl<'a> Asked<'a> {
    /// Counts on from what was counted, and stops where it comes to that number.
    pub fn new(count: &'a AtomicU64, stops_at: u64) -> Asked<'a> {
        Asked {
            count,
            stops_at,
            has_stopped: false,
        }
    }
}

impl Fate for Asked<'_> {
    ghost use Rattle.std.specs.Prelude.{if◌then◌else◌};

    ghost stopped = { λ f. if f.has_stopped then 1 else 0 };

    fn stops(&mut self) -> bool {
        let before = self.count.fetch_add(1, Ordering::SeqCst);
        let stops = before.wrapping_add(1) == self.stops_at && !self.has_stopped;
        self.has_stopped = self.has_stopped || stops;
        stops
    }
}
