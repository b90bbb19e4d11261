//! What holds of every walk.
ghost use Rattle.exitwalk.specs.Laws.{WalksAreRight};
ghost use Rattle.exitwalk.specs.AnyAnswers.{AnyAnswersEnd};
ghost use Rattle.exitwalk.specs.Steps.{StepsAreRight};
ghost use Rattle.exitwalk.specs.Lists.{WholeListsAreTreated};

/// If nobody else writes, a walk over any words ends after at most 8,198 accesses and leaves what the kernel's
/// documents say. Each entry of the list, and then the pending one, is treated, up to the first address that isn't
/// valid.
#[tactic(auto, using(crate::proofs::Alone::right))]
pub fn walks_are_right()
    ensures { WalksAreRight }
{}

/// Whatever its accesses return, a walk ends after at most 10,247 of them and loads at most 2,048 entries. Each
/// exchange that it asks for says that the owner died, in a word that it learned is the dead thread's; it asks for at
/// most two each time that it treats a word. An answer that isn't one of its access, such as a fault, ends it.
#[tactic(auto, using(crate::proofs::Asks::end))]
pub fn any_answers_end()
    ensures { AnyAnswersEnd }
{}

/// If others write too, each access leaves the word alone or is the death of its owner, and fewer accesses are left
/// after it. If others only set WAITERS in the dead thread's words, no second exchange fails.
#[tactic(auto, using(crate::proofs::Steps::steps))]
pub fn steps_are_right()
    ensures { StepsAreRight }
{}

/// If nobody else writes, the walk over a whole list treats the word of each entry and that of the pending entry, and
/// changes no other word. A whole list leads back to its head over valid addresses, with at most 2,048 entries. No word
/// is left with the dead thread as its owner.
#[tactic(auto, using(crate::proofs::Lists::whole))]
pub fn whole_lists_are_treated()
    ensures { WholeListsAreTreated }
{}
