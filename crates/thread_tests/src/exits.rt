//! Threads that die, and what the walk over their lists leaves.
ghost use Rattle.std.specs.Prelude.{◌<◌, IfSome};
ghost use Rattle.ruledwords.specs.declared.pass.Card.{Card};
ghost use Rattle.ruledwords.specs.Deaths.{reaping_pass, HasWalked, IsReapingOf, WalksOn};
ghost use Rattle.ruledwords.specs.Passes.{card, layout_of, IsDying, IsLive, IsPassOf};

use crate::two::{CELLS, Two, cells, of_two, told};
use lockword::Reply::{self, EOWNERDEAD, OK};
use memorymap::Layout;
use mutex::Call::{self, Consistent, TryLock};
use ruledwords::{Dead, Live, Pass, Reaped, Reaping, Running, Walked, Words};
use std::alloc::Global;
use std::test::Fail;
use stepprograms::{Access, Answer};

/// The thread dies, before the first access of a declaration.
fn die(words: &Words, pass: Pass<Live>) -> Pass<Dead>
    requires pass { IsLive words.now pass }
    requires mutex { 0 < (layout_of words.now).mutexes }
    ensures { IsDying words.now result }
{
    match Running::call(words, pass, Call::Consistent(0)) {
        Ok(running) => running.die(),
        Err(_) => unreachable!(),
    }
}

/// One access of the walk. Nobody sleeps, so a wake wakes nobody.
fn step(words: &Words, reaping: Reaping) -> Walked
    requires { IsReapingOf words.now reaping }
    ensures { (c : Card) → HasWalked (layout_of words.now) c (card (reaping_pass reaping))
        → WalksOn words.now c result }
{
    match reaping.next() {
        Access::Wake { .. } => reaping.answer(Answer::Count(0)),
        _ => reaping.access(words),
    }
}

/// Walks the dead thread's list, and tells by how many accesses; None after a hundred of them.
fn walk(words: &Words, pass: Pass<Dead>) -> Option<(Pass<Reaped>, u32)>
    requires { IsDying words.now pass }
    ensures { IfSome result (λ r. IsPassOf words.now r.0) }
{
    let mut reaping = Reaping::walk(words, pass);
    for accesses in 1..101_u32 {
        match step(words, reaping) {
            Walked::Goes(next) => reaping = next,
            Walked::Reaped(pass) => return Some((pass, accesses)),
        }
    }
    None
}

/// What a dead thread leaves.
#[derive(Clone, Copy, PartialEq, Eq)]
struct Story {
    /// How many accesses its walk made.
    accesses: u32,
    /// Whether all calls got what they should be.
    well: bool,
    cells: [u64; CELLS],
}

/// The first of the two makes calls and dies, and its list is walked; then the two meet, and the second one makes
/// calls. None where the walk doesn't end.
fn dies(
    alloc: Global,
    layout: Layout,
    takes: &[(Call, Reply)],
    then: &[(Call, Reply)],
) -> Result<Option<Story>, Fail> {
    let Two(words, first, second) = of_two(alloc, layout, &[])?;
    let mutexes = words.layout().mutexes();
    let (first, taken) = told(&words, first, takes);
    let Some((first, accesses)) = walk(&words, die(&words, first)) else {
        return Ok(None);
    };
    let (_first, second) = words.meet(first, second);
    let (second, well) = told(&words, second, then);
    Ok(Some(Story {
        accesses,
        well: taken && well,
        cells: cells(&words.close(second), mutexes),
    }))
}

static TAKES_THREE: [(Call, Reply); 3] = [(TryLock(0), OK), (TryLock(3), OK), (TryLock(1), OK)];

static AFTERWARDS: [(Call, Reply); 4] = [
    (TryLock(3), EOWNERDEAD),
    (TryLock(2), OK),
    (TryLock(0), EOWNERDEAD),
    (Consistent(3), OK),
];

/// A walk loads the three words of the head, and of each entry the next one and its mutex's word, which it marks.
/// Whoever takes these mutexes then is told that their owner died, until it declares them consistent.
#[test]
fn each_mutex_of_a_dead_owner_is_marked(rt: HostRuntime) -> Result<(), Fail> {
    let layout = Layout::with_processes(&[0, 1], &[1000, 2000], 4, &[])?;
    let story = dies(rt.alloc(), layout, &TAKES_THREE, &AFTERWARDS)?;
    let want = Story {
        accesses: 12,
        well: true,
        cells: [0x4000_0002, 0x4000_0000, 2, 2],
    };
    assert!(rt; story == Some(want));
    Ok(())
}

/// A thread that holds nothing has an empty list: its walk loads its head.
#[test]
fn the_walk_of_an_empty_list(rt: HostRuntime) -> Result<(), Fail> {
    let story = dies(rt.alloc(), Layout::new(2, 1, &[])?, &[], &[])?;
    let want = Story {
        accesses: 3,
        well: true,
        cells: [0; CELLS],
    };
    assert!(rt; story == Some(want));
    Ok(())
}
