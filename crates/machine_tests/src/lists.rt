//! What a call does at its thread's robust list, where the entry of mutex 1 is at 11 and 12 and the thread's head at 4.

use crate::steps::Made::{Loads, Stores};
use crate::steps::Step;
use crate::steps::Then::Goes;

/// The entry is made the pending one.
pub(crate) const ANNOUNCED: Step = Step(Stores(6, 11), Goes);

/// The entry is linked into an empty list, whose head leads to itself.
pub(crate) const LINKED_ALONE: [Step; 4] = [
    Step(Loads(4, 4), Goes),
    Step(Stores(11, 4), Goes),
    Step(Stores(12, 4), Goes),
    Step(Stores(4, 11), Goes),
];

/// The entry is unlinked, and leaves the list empty.
pub(crate) const UNLINKED_ALONE: [Step; 3] = [
    Step(Loads(11, 4), Goes),
    Step(Loads(12, 4), Goes),
    Step(Stores(4, 4), Goes),
];
