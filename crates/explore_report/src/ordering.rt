//! The order in which outcomes are numbered.

ghost use Rattle.std.specs.Prelude.{◌≡◌, ◌++◌, map, OnOk, IfOk};
ghost use Rattle.explore_report.specs.Texts.{deaths, in_order, with_deaths};

use crate::patterns::is_dead;
use outcomes::Witnessed;
use std::alloc::{AllocError, Global};

/// How many threads died.
fn deaths(witnessed: &Witnessed) -> usize
    ensures { result ≡ deaths witnessed.now }
{
    let threads = witnessed.outcome.threads.iter();
    threads.filter(|ended| is_dead(ended.end)).count()
}

/// Adds the outcomes in which this many threads died.
fn add_with<'a>(
    order: &mut Vec<&'a Witnessed>,
    outcomes: &'a [Witnessed],
    count: usize,
) -> Result<(), AllocError>
    ensures { OnOk result (map (λ w. w.now) order.new.items
        ≡ map (λ w. w.now) order.old.items ++ with_deaths outcomes.entry.now count) }
{
    for witnessed in outcomes {
        if deaths(witnessed) == count {
            order.push(witnessed)?;
        }
    }
    Ok(())
}

/// The outcomes in the order in which they are numbered: those with fewer deaths come first, and among those with as
/// many, the order stays. There are this many threads.
pub fn in_order<'a>(
    alloc: Global,
    threads: u8,
    outcomes: &'a [Witnessed],
) -> Result<Vec<&'a Witnessed>, AllocError>
    ensures { IfOk result (λ v. map (λ w. w.now) v.items ≡ in_order threads outcomes.entry.now) }
{
    let mut order = Vec::new(alloc);
    for count in 0..usize::from(threads) + 1 {
        add_with(&mut order, outcomes, count)?;
    }
    Ok(order)
}
