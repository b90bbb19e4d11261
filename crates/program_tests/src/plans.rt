//! Exploring plans: at its limit, with lists that are no longer than they have to be, and where memory is refused.

use condvar::Op;
use memorymap::Layout;
use mutex::Call;
use outcomes::{Act, Asked, Found, Item, Plan, Progress, explore};
use std::alloc::{AllocError, Global};

/// How often it was told that the search has ended.
#[derive(Drop)]
struct Ends(u32);

impl Progress for Ends {
    fn reached(&mut self, _states: usize) {}

    fn ended(&mut self) {
        self.0 = self.0.saturating_add(1);
    }
}

fn item(call: Call) -> Item {
    Item {
        phase: 0,
        after: None,
        act: Act::Call(Op::OnMutex(call)),
    }
}

/// A plan for two threads, of which the first locks the mutex and unlocks it. The second one isn't in the lists: it has
/// no calls, and may not be killed.
fn plan_of(alloc: Global, layout: Layout, kills: u8) -> Result<Plan, AllocError> {
    let items = vec![in alloc; item(Call::Lock(0)), item(Call::Unlock(0))]?;
    let mut threads = Vec::new(alloc);
    threads.push(items)?;
    Ok(Plan {
        layout,
        presets: Vec::new(alloc),
        threads,
        asked: Asked {
            kills,
            killable: vec![in alloc; true]?,
            expire: false,
            leave: false,
            spare: false,
        },
    })
}

/// Whether exploring the plan gives as much, or memory was refused; and the search has ended once.
fn gives(alloc: Global, kills: u8, limit: usize, wanted: (bool, usize, usize)) -> bool {
    let Ok(layout) = Layout::new(2, 1, &[]) else {
        return false;
    };
    let Ok(plan) = plan_of(alloc, layout, kills) else {
        return true;
    };
    let mut ends = Ends(0);
    match explore(alloc, &plan, limit, &mut ends) {
        Ok(found) => ends.0 == 1 && counts(&found) == wanted,
        Err(_refused) => ends.0 == 1,
    }
}

/// Whether no outcome is missing, how many positions were reached, and how many outcomes there are.
fn counts(found: &Found) -> (bool, usize, usize) {
    (found.complete, found.states, found.outcomes.len())
}

/// Passes too where any one allocation fails.
#[test]
fn a_search_stops_at_its_limit(rt: HostRuntime) {
    assert!(rt; gives(rt.alloc(), 0, 0, (false, 0, 0)));
    assert!(rt; gives(rt.alloc(), 0, 1, (false, 1, 0)));
    assert!(rt; gives(rt.alloc(), 0, 17, (false, 17, 0)));
    assert!(rt; gives(rt.alloc(), 0, 18, (true, 18, 1)));
}

/// Passes too where any one allocation fails.
#[test]
fn whoever_is_not_in_the_list_is_not_killed(rt: HostRuntime) {
    assert!(rt; gives(rt.alloc(), 2, 1000, (true, 90, 5)));
}
