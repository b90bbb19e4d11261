//! What a look at a counter finds.
ghost use Rattle.std.specs.Prelude.{◌≡◌};
ghost use Rattle.ruledwords.specs.Found.{word_found};

/// The word of a condition variable's counter, and the place at which it was loaded. Nothing makes one but a load of
/// that place ([`CondRunning::load`](crate::CondRunning::load)).
#[derive(Drop)]
pub struct CounterWord {
    pub(crate) at: u64,
    pub(crate) word: u64,
}

impl CounterWord {
    /// The word.
    pub fn get(&self) -> u64
        ensures { result ≡ word_found self.now }
    {
        self.word
    }
}
