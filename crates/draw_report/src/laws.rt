//! What holds of every picture.

ghost use Rattle.std.specs.Prelude.{◌≡◌};
ghost use Rattle.draw_report.specs.Files.{ExcessIsSaid, HistoriesAreDrawnAsTraces, HistoriesAreKnown, UndecidedIsSaid};
ghost use Rattle.draw_report.specs.Plain.{NamesArePlain};
ghost use Rattle.draw_report.specs.Programs.{OtherWordsAreRefused, SuccessIsWhole};
ghost use Rattle.draw_report.specs.Sufficing.{NamesSuffice};

use std::io::Write;
use streams::{Opener, Output};

/// Whatever a script that is read calls threads, mutexes and condition variables, the names have no character that ends
/// a text or begins markup. So they stand as they are in a picture, in a page too.
pub fn names_are_plain()
    ensures { NamesArePlain }
{}

/// Where a trace is drawn with a script's names, each of its threads, mutexes and condition variables has one, and no
/// name is left over.
pub fn names_suffice()
    ensures { NamesSuffice }
{}

/// What is drawn of a history are the lines of a trace that shows it, as the judge of histories writes one. Of an illegal
/// history a text ends with what that judge says: the line and the reason. As SVG the row of its illegal line is marked, and
/// the note below the picture is the first line of what the judge says. A page has all of that.
pub fn histories_are_drawn_as_traces()
    ensures { HistoriesAreDrawnAsTraces }
{}

/// A file with a history's first line is drawn as a history, if it isn't too long, and no file is that begins otherwise.
pub fn histories_are_known()
    ensures { HistoriesAreKnown }
{}

/// The message of an undecided history has the line and the event that the judge of histories names.
pub fn undecided_is_said()
    ensures { UndecidedIsSaid }
{}

/// The exit status is 0 only if all of what was asked for was written, the writer has let go of it, and nothing was
/// reported.
pub fn success_is_whole<F: Opener, W: Output, E: Write>(files: &F, out: &W, before: &E, after: &E)
    ensures { SuccessIsWhole (F.opens files.now) (W.is_let_go out.now) (after.now ≡ before.now) }
{}

/// A history that has more mutexes or condition variables than a trace may have isn't drawn, and the message says so of its
/// first line. Each other one fits whose lines name only threads and mutexes that this line counts.
#[tactic(auto, using(crate::proofs::Histories::excess_is_said))]
pub fn excess_is_said()
    ensures { ExcessIsSaid }
{}

/// A command line whose words aren't those of a picture's parts, in whatever order, nor `--legend` alone, gets the usage,
/// with status 2, unless memory is refused. Nothing is written.
pub fn other_words_are_refused<F: Opener, W: Output, E: Write>(
    files: &F,
    out: &W,
    before: &E,
    after: &E,
)
    ensures { OtherWordsAreRefused (F.opens files.now) (W.is_let_go out.now) (after.now ≡ before.now) }
{}
