//! What holds of every word.
ghost use Rattle.grammar.specs.Laws.{KnownWordsAreThoseThatFit};

/// At each place that lists its words, a line continues after a word exactly if it is one of those words, or at
/// [`Next::Event`](crate::Next::Event) if it is a number.
pub fn known_words_are_those_that_fit()
    ensures { KnownWordsAreThoseThatFit }
{}
