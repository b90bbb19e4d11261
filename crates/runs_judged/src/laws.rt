//! What holds of the verdict on every run.
ghost use Rattle.runs_judged.specs.Judged.{PrintedRunsAreLegal, RunsAreJudgedLegal, ScriptsAreJudgedLegal};
ghost use Rattle.runs_judged.specs.Written.{LinesAreReadBack};

/// The first line of a trace, each line after it and the last line are read as what they were written from, whatever
/// follows them. This holds of any numbers in their ranges, any reply, and any operation that calls have.
pub fn lines_are_read_back()
    ensures { LinesAreReadBack }
{}

/// The text of any run of at most 64 threads and 100,000 events is a trace without a fault, and legal. The counters may
/// have any values at first. So a checker finds it legal, with exactly the number of its points, unless memory runs
/// out.
pub fn runs_are_judged_legal()
    ensures { RunsAreJudgedLegal }
{}

/// The text of the run of every script that isn't too long to play is judged legal.
pub fn scripts_are_judged_legal()
    ensures { ScriptsAreJudgedLegal }
{}

/// If any bytes are a script that isn't too long to play, what is printed of its run is a trace without a fault. It is
/// judged legal, with exactly the number of its points.
pub fn printed_runs_are_legal()
    ensures { PrintedRunsAreLegal }
{}
