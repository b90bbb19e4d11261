//! Five threads at a bench.
ghost use Rattle.std.specs.Prelude.{◌≡◌, ◌<◌, ◌+◌, All, IfOk, length};
ghost use Rattle.ruledwords.specs.Passes.{IsLive};

use memorymap::{Layout, NoMem};
use ruledwords::{Live, Pass, Words};
use std::alloc::Global;
use threadbench::Bench;

/// A bench, and the passes of its last five threads, which are in no call.
type Team = (
    Bench,
    Pass<Live>,
    Pass<Live>,
    Pass<Live>,
    Pass<Live>,
    Pass<Live>,
);

/// The last of these passes, which are some.
pub fn last_of(_words: &Words, passes: &mut Vec<Pass<Live>>) -> Pass<Live>
    requires passes { All (λ p. IsLive _words.now p) passes.old.items }
    requires some { 0 < length passes.old.items }
    ensures pass { IsLive _words.now result }
    ensures rest { All (λ p. IsLive _words.now p) passes.new.items }
    ensures len { length passes.new.items + 1 ≡ length passes.old.items }
{
    passes.pop().unwrap()
}

/// A bench of a layout of five threads or more, whose counters begin so, one preset for each of its condition
/// variables; and its last five threads, by their ids. It is refused as when memory runs out where there are fewer
/// threads, or not as many presets.
pub fn team(alloc: Global, layout: Layout, presets: &[u32]) -> Result<Team, NoMem>
    ensures first { IfOk result (λ t. IsLive t.0 t.1) }
    ensures second { IfOk result (λ t. IsLive t.0 t.2) }
    ensures third { IfOk result (λ t. IsLive t.0 t.3) }
    ensures fourth { IfOk result (λ t. IsLive t.0 t.4) }
    ensures fifth { IfOk result (λ t. IsLive t.0 t.5) }
{
    if presets.len() != usize::from(layout.conditions()) || layout.threads() < 5 {
        return Err(NoMem);
    }
    let (bench, mut passes) = Bench::new(alloc, layout, presets)?;
    let words = bench.words();
    let fifth = last_of(words, &mut passes);
    let fourth = last_of(words, &mut passes);
    let third = last_of(words, &mut passes);
    let second = last_of(words, &mut passes);
    let first = last_of(words, &mut passes);
    Ok((bench, first, second, third, fourth, fifth))
}
