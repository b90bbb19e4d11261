//! Lines of a history, by their places.

ghost use Rattle.std.specs.Prelude.{◌≡◌, ◌-◌};
ghost use Rattle.std.specs.List.{slice_get};
ghost use Rattle.judge_report.specs.Texts.{entry_thread, line_of};

use histories::{Entry, HistoryLine};
use lockword::Tid;

/// Whose line it is.
pub fn thread_of(line: &HistoryLine) -> Tid
    ensures { result ≡ entry_thread line.now.entry }
{
    match line.entry {
        Entry::Told(fact) => fact.thread(),
        Entry::Doom(thread) => thread,
    }
}

/// The line at this place, counted from 1.
pub fn line_at(lines: &[HistoryLine], place: usize) -> Option<HistoryLine>
    ensures { result ≡ slice_get lines.now (place - 1) }
{
    match lines.get(place.saturating_sub(1)) {
        Some(line) => Some(*line),
        None => None,
    }
}

/// The line at this place, counted from 1, if there is one.
pub fn line_of(lines: &[HistoryLine], place: Option<usize>) -> Option<HistoryLine>
    ensures { result ≡ line_of lines.now place }
{
    match place {
        Some(place) => line_at(lines, place),
        None => None,
    }
}
