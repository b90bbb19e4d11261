//! How far apart groups lie.
ghost use Rattle.std.specs.Prelude.{◌≡◌, ◌<◌, ◌≤◌, ◌/◌, ◌+◌};
ghost use Rattle.cachelines.specs.Spread.{slot_of};

/// A word of one group and a word of a later group are at least eight words apart, which are 64 bytes.
pub fn groups_are_apart(one: u64, other: u64)
    ensures { (one + 2) / 3 < (other + 2) / 3 → slot_of one + 8 ≤ slot_of other }
{}
