//! How the words are made, with a pass for each thread.
ghost use Rattle.std.specs.Prelude.{◌≡◌, ℕ, ◌+◌, ◌<◌, Some, IfOk, All, length, slice_get, slice_index};
ghost use Rattle.lockword.specs.Threads.{most_threads};
ghost use Rattle.memorymap.specs.Layouts.{words_of, IsLayout};
ghost use Rattle.ruledwords.specs.Rules.{first_card, opening_word};
ghost use Rattle.ruledwords.specs.Passes.{layout_of, presets_of, card, IsLive};

use crate::pass::{Live, Opening, Pass, Words};
use crate::rule::Deal;
use cachelines::Places;
use lockword::Tid;
use memorymap::{Layout, NoMem};
use std::alloc::{AllocError, Global};
use std::marker::PhantomData;

impl Words {
    /// Makes the words, with a value for each condition variable's counter in the order of their numbers, and a pass
    /// for each thread in the order of their ids. Each list is empty, and nobody owns a mutex.
    pub fn new(
        alloc: Global,
        layout: Layout,
        presets: &[u32],
    ) -> Result<(Words, Vec<Pass<Live>>), NoMem>
        requires { length presets.now ≡ length layout.conditions }
        ensures layout { IfOk result (λ r. layout_of r.0 ≡ layout) }
        ensures presets { IfOk result (λ r. presets_of r.0 ≡ presets.now) }
        ensures passes { IfOk result (λ r. length r.1.items ≡ layout.threads) }
        ensures each { IfOk result (λ r. All (λ p. IsLive r.0 p) r.1.items) }
        ensures cards { IfOk result
            (λ r. (i : ℕ) (p : _) → slice_get r.1.items i ≡ Some p → card p ≡ first_card layout presets.now (i + 1)) }
    {
        match Words::made(alloc, layout, presets) {
            Ok(made) => Ok(made),
            Err(_) => Err(NoMem),
        }
    }

    /// The layout whose words they are.
    pub fn layout(&self) -> &Layout
        ensures { result.now ≡ layout_of self.now }
    {
        &self.layout
    }

    fn made(
        alloc: Global,
        layout: Layout,
        presets: &[u32],
    ) -> Result<(Words, Vec<Pass<Live>>), AllocError>
        requires { length presets.now ≡ length layout.conditions }
        ensures layout { IfOk result (λ r. layout_of r.0 ≡ layout) }
        ensures presets { IfOk result (λ r. presets_of r.0 ≡ presets.now) }
        ensures passes { IfOk result (λ r. length r.1.items ≡ layout.threads) }
        ensures each { IfOk result (λ r. All (λ p. IsLive r.0 p) r.1.items) }
        ensures cards { IfOk result
            (λ r. (i : ℕ) (p : _) → slice_get r.1.items i ≡ Some p → card p ≡ first_card layout presets.now (i + 1)) }
    {
        let words = first_words(alloc, &layout, presets)?;
        let threads = layout.threads();
        let mut passes = Vec::with_capacity(alloc, threads as usize)?;
        let opening = Opening { layout, words };
        let (places, mut seat) = Places::of_words(alloc, opening.words.as_slice(), &opening)?;
        for before in 0..threads {
            let mine = places.split_seat::<Deal>(&mut seat);
            let pass = Pass {
                seat: mine,
                thread: thread_after(before),
                held: 0,
                state: PhantomData,
            };
            passes.push(pass)?;
        }
        let Opening { layout, words: _ } = opening;
        Ok((Words { places, layout }, passes))
    }
}

/// The thread that comes after this many.
fn thread_after(before: u8) -> Tid
    requires { before < most_threads }
    ensures { result ≡ before + 1 }
{
    match Tid::new(before + 1) {
        Some(thread) => thread,
        None => unreachable!(),
    }
}

/// The words before the first step.
fn first_words(alloc: Global, layout: &Layout, presets: &[u32]) -> Result<Vec<u64>, AllocError>
    requires { length presets.now ≡ length layout.now.conditions }
    ensures count { IfOk result (λ words. length words.items ≡ words_of layout.now) }
    ensures each { IfOk result
        (λ words. (p : ℕ) → p < words_of layout.now
        → slice_index words.items p ≡ opening_word layout.now presets.now p) }
    ensures layout { IsLayout layout.now }
{
    let count = layout.words();
    let mut words = Vec::with_capacity(alloc, count)?;
    for place in 0..count {
        words.push(first_word(layout, presets, place))?;
    }
    Ok(words)
}

/// The word at a place before the first step.
fn first_word(layout: &Layout, presets: &[u32], place: usize) -> u64
    requires counters { length presets.now ≡ length layout.now.conditions }
    requires place { place < words_of layout.now }
    ensures { result ≡ opening_word layout.now presets.now place }
{
    let counters = 1 + 3 * layout.threads() as usize + 3 * layout.mutexes() as usize;
    if place < counters {
        layout.first_word(place as u64)
    } else {
        u64::from(presets[place - counters])
    }
}

impl<A> Pass<A> {
    /// The thread whose pass it is.
    pub fn thread(&self) -> Tid
        ensures { result ≡ (card self.now).thread }
    {
        self.thread
    }
}
