//! What holds of histories.

ghost use Rattle.histories.specs.Histories.{BeginningsAreLegal, CertificatesSuffice};
ghost use Rattle.histories.specs.Histories.{HistoriesAreExplained, TracesAreHistories};
ghost use Rattle.histories.specs.Written.{FaultsAreTheTraces, LinesAreInRange, LinesAreReadBack};
ghost use Rattle.histories.specs.Written.{OnlyTheseAreRead};

/// If a history is legal, so is each of its beginnings. So either there is a first line that no order of the calls
/// explains, or there is none.
pub fn beginnings_are_legal()
    ensures { BeginningsAreLegal }
{}

/// A history is legal if a trace shows it that is judged legal and in which waits release only consistent mutexes.
pub fn certificates_suffice()
    ensures { CertificatesSuffice }
{}

/// What is seen of a legal trace is a legal history, if its waits release consistent mutexes only.
pub fn traces_are_histories()
    ensures { TracesAreHistories }
{}

/// A legal history has a trace that explains itself. Its points and deaths are a legal history of robust mutexes. Each
/// call that returned has exactly its points and the last one's reply. A killed thread's death is recorded for what it
/// owned then and for nothing else (`Explains` of the judge of traces).
pub fn histories_are_explained()
    ensures { HistoriesAreExplained }
{}

/// Each line that a history with this head may have is read as it was written: the head, each entry, the entries of a
/// trace that can't be seen from outside, and the last line.
pub fn lines_are_read_back()
    ensures { LinesAreReadBack }
{}

/// All that is read is in range: the numbers of a head, events, which are counted from 1, and the thread, mutex,
/// condition variable and operation of an entry.
pub fn lines_are_in_range()
    ensures { LinesAreInRange }
{}

/// No text except an entry's own line is read as the entry, and none except the last line's as the last line.
pub fn only_these_are_read()
    ensures { OnlyTheseAreRead }
{}

/// A fault has the number and the words of a trace's fault of its kind.
pub fn faults_are_the_traces()
    ensures { FaultsAreTheTraces }
{}
