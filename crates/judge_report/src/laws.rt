//! What holds of all that the program says.

ghost use Rattle.judge_report.specs.Laws.{ExplanationsAreSaid, FaultsAreAtLines, LinesAreNumbered, NotesAreInOrder};
ghost use Rattle.judge_report.specs.Laws.{OptionsAreRead, OptionsWrite, QuotesAreReadBack, StatusesAreRight};
ghost use Rattle.judge_report.specs.Laws.{TurnWordsAreSo};
ghost use Rattle.judge_report.specs.Laws.{WaitersAreNamed, WindowsAreInOrder};
ghost use Rattle.judge_report.specs.Traces.{TracesAreWritten};
ghost use Rattle.std.specs.Prelude.{◌≡◌};

use crate::making::Maker;
use std::io::Write;
use streams::{Opener, Output};

/// The exit status is 0 only if the file's history is legal, and `legal ..` was written, whole; 1 only if it isn't legal,
/// or not decided, and `illegal at line L ..` or `undecided at line L ..` was written, or a failure was reported; 2 only
/// if the command line asks for no judgement. There is no other. If the failure is that the certificate couldn't be written
/// or cut, or that a window of another run couldn't be removed, what the history was found to be was written, whole. A
/// command line that asks for nothing gets the usage, with status 2, unless memory is refused.
pub fn statuses_are_right<F: Opener, M: Maker, W: Output, E: Write>(
    files: &F,
    maker: &M,
    out: &W,
    before: &E,
    after: &E,
)
    ensures { StatusesAreRight (F.opens files.now) (M.makes maker.now) (M.fills maker.now) (W.is_let_go out.now)
        (after.now ≡ before.now) }
{}

/// In a history that was read, each line that is kept is what its line of the bytes says, counted from 1, and no line
/// that says something is left out. So the L in `illegal at line L` is a line of the file.
pub fn lines_are_numbered()
    ensures { LinesAreNumbered }
{}

/// A fault is reported at a line of the file, counted from 1.
pub fn faults_are_at_lines()
    ensures { FaultsAreAtLines }
{}

/// Each option asks for what its name says: `--waiting` for the calls that still wait, `--trace OUT` for a whole
/// certificate, `--windows OUT` for one in windows. The history isn't written over: not by a certificate whose name is
/// spelled alike except for repeated slashes and parts `.`, nor by a window, whose number is 1 or more and has no zero in front.
/// Names that differ, and those of different directories, are those of two files. A command line of another form asks for
/// nothing.
pub fn options_are_read()
    ensures { OptionsAreRead }
{}

/// Each option keeps what it asks for: nothing without an option, one file with the whole certificate or with the trace
/// up to the illegal line, or a file for each window, which has the certificate's events that its line says.
pub fn options_write<M: Maker>(maker: &M)
    ensures { OptionsWrite (M.makes maker.now) (M.fills maker.now) }
{}

/// With `--trace OUT` a trace that shows the history is written to OUT, as [`explain_history`](crate::explain_history)
/// returns its lines; or the history is undecided, which is reported, and OUT is left empty.
pub fn traces_are_written<M: Maker>(maker: &M)
    ensures { TracesAreWritten (M.makes maker.now) (M.fills maker.now) }
{}

/// A certificate's windows are reported in their order: they are numbered from 1, each has the events after the last of
/// the one before, and together they have all.
pub fn windows_are_in_order<M: Maker>(maker: &M)
    ensures { WindowsAreInOrder (M.makes maker.now) (M.fills maker.now) }
{}

/// With `--waiting`, each lock that still waits and shouldn't is named, with its thread and its mutex, and whether that is
/// unusable. Without it no call is named.
pub fn waiters_are_named()
    ensures { WaitersAreNamed }
{}

/// What is said of a line that is out of its thread's turn is so, by the thread's newest line before it.
pub fn turn_words_are_so()
    ensures { TurnWordsAreSo }
{}

/// What is said of an illegal return names its own thread as the one that could get another reply, and ends with the line
/// where its call began. Before that stand the lines on its mutex: a death, who got it, who declared it consistent, who
/// left it.
pub fn notes_are_in_order()
    ensures { NotesAreInOrder }
{}

/// A line that is quoted is read back as the line that it quotes; and what a trace says that isn't seen from outside is
/// read as that.
pub fn quotes_are_read_back()
    ensures { QuotesAreReadBack }
{}

/// What [`explain_history`](crate::explain_history) returns as said of an illegal history is what is printed of it: its first
/// illegal line and the same reason. Only the replies that the thread could get may be others. Nothing is said only of a
/// legal history.
#[tactic(auto, using(crate::proofs::Explaining::explained_so))]
pub fn explanations_are_said()
    ensures { ExplanationsAreSaid }
{}
