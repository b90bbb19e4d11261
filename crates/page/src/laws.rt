//! What holds of every page.

ghost use Rattle.page.specs.Decoding.{ScriptReadsStates};
ghost use Rattle.page.specs.Escapes.{NamesAreEscaped};
ghost use Rattle.page.specs.Flags.{FlagsAreRead};
ghost use Rattle.page.specs.Judged.{FittingLinesAreShown, MisfitsAreTold, ShownLinesFit, StatesAreTheJudges};
ghost use Rattle.page.specs.Quoting.{NamesStandInQuotes};
ghost use Rattle.page.specs.Shows.{PageShows};
ghost use Rattle.page.specs.Titles.{HistoryLinesAreShown, TitlesTellTheFirstDeath};

/// The data of a page says the state after each of its lines, in their order, and nothing else: a reader who starts at any
/// of its whole states, and changes what each line changes, gets just these states.
pub fn page_shows()
    ensures { PageShows }
{}

/// If each of some lines fits those before it, the state after them is the one that the judge of traces has. A thread that
/// rests is in no call, has no point and no bed, and wasn't killed. A thread in a call is in just that call; its newest
/// point is as far as the judge has the call's points, and has the reply that the call will return; and it has a bed exactly
/// if the judge has it asleep. A dying or reaped thread has neither call nor point nor bed. The bed is in the queue that
/// the thread's newest sleep or move names, since that line; the point is the thread's newest one; the thread's life is
/// one more than it has renewals. And each mutex is as the judge has it.
pub fn states_are_the_judges()
    ensures { StatesAreTheJudges }
{}

/// Each line that a page shows fits those before it, if the page says what the judge of traces found.
pub fn shown_lines_fit()
    ensures { ShownLinesFit }
{}

/// Each line of a trace up to which all fit is shown, if it is one of the first 100,000 after the head.
pub fn fitting_lines_are_shown()
    ensures { FittingLinesAreShown }
{}

/// If the judge of traces finds that a line doesn't fit, the page names that very line next to the reason.
pub fn misfits_are_told()
    ensures { MisfitsAreTold }
{}

/// A script that reads the data of a page takes a flag for true exactly if it is set.
pub fn flags_are_read()
    ensures { FlagsAreRead }
{}

/// Whatever things are called, the first texts in quotes of a page's data are the names of all threads, mutexes and
/// condition variables, in their order, escaped. Each is in quotes of its own, which it doesn't end. The data after the
/// names are the same for all names. No byte of the data begins or ends markup or escapes another: there is no angle
/// bracket, ampersand, apostrophe or backslash.
pub fn names_stand_in_quotes()
    ensures { NamesStandInQuotes }
{}

/// Whatever a thing is called, its name in the data of a page has no character that ends a text or begins markup, and is
/// read back as this name. The picture has names as they are: those of a script have no such character, as
/// `names_are_plain` of `draw_report` says.
pub fn names_are_escaped()
    ensures { NamesAreEscaped }
{}

/// The texts of a page's data are those of values as JSON has them, and taken as the page's script takes them, place by
/// place, they say what they stand for:
///
/// - which life a thread is in, whether it was killed and reaped, its call and that call's newest point;
/// - on which mutex or condition variable the thread sleeps, since which line;
/// - a mutex's owner, and whether the mutex is inconsistent and unusable;
/// - what a line tells, and which thread and mutex it changes;
/// - how many events and lines the trace has, and which line doesn't fit.
pub fn script_reads_states()
    ensures { ScriptReadsStates }
{}

/// The title of a page names the thread and the mutex of the first death of an owner that the shown lines tell. After that
/// it names the thread that gets the mutex first, if one does, and its reply. If the shown lines tell no death, neither does
/// the title.
#[tactic(auto, using(crate::proofs::Titles::titles_tell))]
pub fn titles_tell_the_first_death()
    ensures { TitlesTellTheFirstDeath }
{}

/// The page of a history shows the first 100,000 lines of its trace, without the illegal line, if there is one: that is the
/// last, and is named next to the reason.
#[tactic(auto, using(crate::proofs::Titles::history_shown_so))]
pub fn history_lines_are_shown()
    ensures { HistoryLinesAreShown }
{}
