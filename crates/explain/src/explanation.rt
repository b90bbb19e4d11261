//! What is said of a file.

ghost use Rattle.std.specs.Prelude.{◌≡◌};
ghost use Rattle.explain.specs.Advised.{back_to, besides, marking, nothing, saying};

use grammar::Next;
use posixmutex::Operation;
use script::{Mode, ScriptFault};
use verdict::{TraceFault, TraceMisfit};

/// What a file is.
#[derive(Clone, Copy, Debug, PartialEq, Eq)]
pub enum Title {
    /// A script without fault, for one of the modes or for both.
    Good {
        /// `rfx run` plays it.
        run: bool,
        /// `rfx threads` plays it.
        threads: bool,
    },
    /// A script that is refused, for this mode.
    Script(Mode, ScriptFault),
    /// A legal trace.
    Legal {
        /// How many of its lines tell of a point.
        points: usize,
        /// The first line, from 1, that tells of a wait which makes its mutex unusable: no run has such a line.
        spoiling: Option<usize>,
    },
    /// A trace that isn't legal.
    Illegal(TraceMisfit),
    /// A trace that is refused.
    Trace(TraceFault),
}

/// What is said of a line beside its fault.
#[derive(Clone, Copy, Debug, PartialEq, Eq)]
pub enum Note {
    /// No line feed ends the last line.
    NoLineFeed,
    /// The line ends with CR LF.
    CarriageReturn,
    /// A blank comes before the first word.
    LeadingBlank,
    /// Two blanks stand one after the other.
    TwoBlanks,
    /// A blank comes after the last word.
    TrailingBlank,
    /// A tab is in a word.
    Tab,
    /// A byte order mark comes before the first word.
    ByteOrderMark,
    /// The first word has capitals.
    Capitals,
    /// A remark comes after words.
    Remark,
    /// The line begins as a remark does elsewhere.
    Slashes,
    /// A line of a trace is empty.
    EmptyLine,
    /// A remark is in a trace.
    NoRemarks,
    /// The line is one of scripts of this mode alone.
    OtherMode(Mode),
    /// The line begins with the word of a call.
    CallWord,
    /// The line is one of traces.
    OfTrace,
    /// The line begins as a history's first one does.
    OfHistory,
    /// The line is one of scripts.
    OfScript,
    /// A word is missing.
    Missing(Lack),
    /// A declaration comes after a command.
    BehindCommand,
    /// The number isn't from the first to the last of these.
    Range { low: u32, high: u32 },
    /// There are more of them than there may be.
    TooMany(Things, u32),
    /// There aren't that many mutexes from this one on.
    PastLast,
    /// The script declares none.
    NothingDeclared(Things),
    /// No line before declares the name.
    Undeclared(Things),
    /// The first of these has the name, and not the second.
    OtherThing(Things, Things),
    /// A line before declares the name.
    DeclaredTwice(Things),
    /// A line before has the thread die.
    DiesTwice,
    /// This byte of the file, from 1, is no part of a character in UTF-8.
    BadByte(usize),
    /// What the file may be that isn't UTF-8.
    LooksSo(Looks),
    /// The file has more bytes than it may have.
    Bytes(u32),
    /// The file has more lines than it may have.
    Lines(u32),
    /// The script runs more events than it may run.
    Events(u32),
    /// The first line of the trace counts fewer.
    Uncounted(Things, u32),
    /// The mutex, as it is, allows the thread's operation other replies.
    Allowed(Standing, Operation),
    /// A wait of an inconsistent mutex is refused in a run.
    SpoilingWait,
    /// No `end` line ends the trace.
    NoEnd,
    /// Something comes after the `end` line.
    BehindEnd,
}

/// What names and numbers are of.
#[derive(Clone, Copy, Debug, PartialEq, Eq)]
pub enum Things {
    Processes,
    Threads,
    Mutexes,
    Conditions,
}

/// How a mutex stands to a thread.
#[derive(Clone, Copy, Debug, PartialEq, Eq)]
pub struct Standing {
    /// The thread owns it.
    pub owns: bool,
    /// Nobody owns it.
    pub free: bool,
    /// An owner died, and nobody has declared it consistent.
    pub inconsistent: bool,
    /// It can't be locked.
    pub unusable: bool,
}

/// A word that a line lacks.
#[derive(Clone, Copy, Debug, PartialEq, Eq)]
pub enum Lack {
    /// The name of such a thing.
    Name(Things),
    /// How many of them.
    Count(Things),
    /// Where a process maps the words.
    Base,
    /// What a counter begins with.
    Counter,
    /// How many accesses.
    Accesses,
    /// Before which access a thread dies.
    Death,
    /// How many events.
    Events,
}

/// What bytes look like that are no text.
#[derive(Clone, Copy, Debug, PartialEq, Eq)]
pub enum Looks {
    Utf16,
    Binary,
    Latin1,
}

/// A word of a line, and what is wrong with it.
#[derive(Clone, Copy, Debug, PartialEq, Eq)]
pub struct Mark<'a> {
    /// The word, from 0; as many as the line has where one is missing after the last.
    pub word: usize,
    /// What it has to be, where it is of another kind.
    pub expected: Option<Next>,
    /// The known word that it is next to, which may have been meant.
    pub near: Option<&'a str>,
}

/// What is marked of a line, what is said of it, and which earlier line it goes back to.
#[derive(Clone, Copy, Debug, PartialEq, Eq)]
pub struct Advice<'a> {
    pub mark: Option<Mark<'a>>,
    pub note: Option<Note>,
    /// What is said as well.
    pub also: Option<Note>,
    /// From 1.
    pub origin: Option<usize>,
}

impl Advice<'_> {
    /// Nothing is said.
    pub fn none() -> Advice<'static>
        ensures { result ≡ nothing }
    {
        Advice {
            mark: None,
            note: None,
            also: None,
            origin: None,
        }
    }

    /// Something is said, and nothing marked.
    pub fn only(note: Note) -> Advice<'static>
        ensures { result ≡ saying note }
    {
        Advice {
            mark: None,
            note: Some(note),
            also: None,
            origin: None,
        }
    }

    /// A word is marked that is of the right kind, and something said of it.
    pub fn at(word: usize, note: Note) -> Advice<'static>
        ensures { result ≡ marking word note }
    {
        Advice {
            mark: Some(Mark {
                word,
                expected: None,
                near: None,
            }),
            note: Some(note),
            also: None,
            origin: None,
        }
    }

    /// The same, and something said as well.
    pub fn besides(self, note: Note) -> Self
        ensures { result ≡ besides note self.entry }
    {
        Advice {
            also: Some(note),
            ..self
        }
    }

    /// The same, which goes back to this earlier line.
    pub fn back_to(self, origin: Option<usize>) -> Self
        ensures { result ≡ back_to origin self.entry }
    {
        Advice { origin, ..self }
    }
}

/// All that is said of a file: what it is, and what is said of the line that this names.
#[derive(Clone, Copy, Debug, PartialEq, Eq)]
pub struct Explanation<'a> {
    pub title: Title,
    pub advice: Advice<'a>,
}
