//! What holds of lists, and of every link and unlink.
ghost use Rattle.robustlist.specs.Lists.{ChainsAreUnique, HeadsBeginEmpty};
ghost use Rattle.robustlist.specs.LinkLaws.{LinksAreRight, LinksAlone};
ghost use Rattle.robustlist.specs.UnlinkLaws.{UnlinksAreRight, UnlinksAlone};

/// A head leads over one list at most.
#[tactic(auto, using(crate::proofs::Lists::unique))]
pub fn chains_are_unique()
    ensures { ChainsAreUnique }
{}

/// A head whose first word is its own address has an empty list.
#[tactic(auto, using(crate::proofs::Lists::begins_empty))]
pub fn heads_begin_empty()
    ensures { HeadsBeginEmpty }
{}

/// From a list that is chained both ways, a link goes to one with its entry in front. After each access the words are a
/// chain of the old list or of the new one, whatever others write elsewhere.
#[tactic(auto, using(crate::proofs::Links::right))]
pub fn links_are_right()
    ensures { LinksAreRight }
{}

/// If nobody else writes, a link makes 4 accesses into an empty list and 5 into another, and writes only the list's and
/// the entry's words.
pub fn links_alone()
    ensures { LinksAlone }
{}

/// From a list that is chained both ways, an unlink goes to one without its entry. After each access the words are a
/// chain of the old list or of the new one, whatever others write elsewhere.
#[tactic(auto, using(crate::proofs::Unlinks::right))]
pub fn unlinks_are_right()
    ensures { UnlinksAreRight }
{}

/// If nobody else writes, an unlink makes 3 accesses for the last entry and 4 for another, and leaves the entry's own
/// words.
pub fn unlinks_alone()
    ensures { UnlinksAlone }
{}
