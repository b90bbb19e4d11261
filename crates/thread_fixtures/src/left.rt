//! What is left at the end of a bench.
ghost use Rattle.std.specs.Prelude.{◌≡◌, length};
ghost use Rattle.ruledwords.specs.Passes.{last_layout, IsPassOf};

use ruledwords::{Last, Pass};
use threadbench::Bench;

/// The words of the first two mutexes' cells and of the first two condition variables' counters; 0 where there are
/// none.
#[derive(Clone, Copy, Debug, PartialEq, Eq)]
pub struct Left {
    pub cells: [u64; 2],
    pub counters: [u64; 2],
}

fn cell(last: &Last, mutexes: u16, mutex: u16) -> u64
    requires { mutexes ≡ (last_layout last.now).mutexes }
{
    if mutex < mutexes { last.cell(mutex) } else { 0 }
}

fn counter(last: &Last, conditions: u16, condition: u16) -> u64
    requires { conditions ≡ length (last_layout last.now).conditions }
{
    if condition < conditions {
        last.counter(condition)
    } else {
        0
    }
}

impl Left {
    /// Ends the bench, and tells what is left.
    pub fn of<A>(bench: Bench, pass: Pass<A>) -> Left
        requires { IsPassOf bench pass }
    {
        let layout = bench.words().layout();
        let mutexes = layout.mutexes();
        let conditions = layout.conditions();
        let last = bench.close(pass);
        Left {
            cells: [cell(&last, mutexes, 0), cell(&last, mutexes, 1)],
            counters: [counter(&last, conditions, 0), counter(&last, conditions, 1)],
        }
    }
}
