//! What holds of all that the program tells.

ghost use Rattle.std.specs.Prelude.{◌≡◌};
ghost use Rattle.explore_report.specs.Laws.{AlwaysIsTrue, FoundOutcomesArePrinted, NeverIsTrue, NoOutcomeIsMissing};
ghost use Rattle.explore_report.specs.Laws.{PrintedOutcomesArePossible, PrintedOutcomesWerePlayed};
ghost use Rattle.explore_report.specs.Laws.{ScriptsPlayTheirOutcome, StatusesAreRight};

use crate::making::Maker;
use std::io::Write;
use streams::{Opener, Output};

/// Each outcome that is printed is that of a run of the script: of events that may come one after the other, from the
/// first position to one that is over.
pub fn printed_outcomes_are_possible()
    ensures { PrintedOutcomesArePossible }
{}

/// Each outcome that was found is printed, whether or not the list is complete.
#[tactic(auto, using(crate::proofs::Lawful::found_are_printed))]
pub fn found_outcomes_are_printed()
    ensures { FoundOutcomesArePrinted }
{}

/// Each outcome that is printed was played before, unless its script passes a limit of scripts. The script is one for
/// `rfx run`, and its run has these replies, these deaths and these sleepers, each where it sleeps, and the mutexes left
/// so.
pub fn printed_outcomes_were_played()
    ensures { PrintedOutcomesWerePlayed }
{}

/// Where the first line ends with `, complete`, each run of the script that is over has its outcome printed, and once
/// only. It ends so exactly if the search was complete.
pub fn no_outcome_is_missing()
    ensures { NoOutcomeIsMissing }
{}

/// Where the exit status is 0, no run of the script that is over has what `--never` names.
pub fn never_is_true()
    ensures { NeverIsTrue }
{}

/// Where the exit status is 0, each run of the script that is over has what `--always` names.
pub fn always_is_true()
    ensures { AlwaysIsTrue }
{}

/// What `--script K OUT` writes to OUT is a script for `rfx run`, and its run has outcome K: these replies, these deaths
/// and these sleepers, each where it sleeps, and the mutexes left so.
pub fn scripts_play_their_outcome<M: Maker>(maker: &M)
    ensures { ScriptsPlayTheirOutcome (M.makes maker.now) (M.fills maker.now) }
{}

/// The exit status is 0 only if no outcome is missing, and each has what is asked of it; 1 only if a run has an outcome
/// that hasn't, or a failure was reported; 2 only if the command line asks for no exploring; 3 only if the limit of states
/// was reached, and each outcome that was found has what is asked. There is no other. Except after a failure, the whole
/// text was written, of the whole file.
pub fn statuses_are_right<F: Opener, M: Maker, W: Output, E: Write>(
    files: &F,
    maker: &M,
    out: &W,
    before: &E,
    after: &E,
)
    ensures { StatusesAreRight (F.opens files.now) (M.makes maker.now) (M.fills maker.now) (W.is_let_go out.now)
        (after.now ≡ before.now) }
{}
