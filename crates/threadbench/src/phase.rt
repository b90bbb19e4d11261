//! What workers share that are at work at once.
use crate::bench::Bench;
use std::sync::OnceLock;

/// The bench and the gate of some workers, and whether they begin, once that is recorded.
pub(crate) struct Phase<'a, G> {
    pub(crate) bench: &'a Bench,
    pub(crate) gate: &'a G,
    pub(crate) begins: &'a OnceLock<bool>,
}

impl<'a, G> Drop for Phase<'a, G> {
    fn drop(self) {
        let Self {
            bench: _,
            gate: _,
            begins: _,
        } = self;
    }
}
