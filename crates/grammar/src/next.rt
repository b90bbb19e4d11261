//! What the next word of a line has to be.

ghost use Rattle.std.specs.Prelude.{◌≡◌, ◌<◌};
ghost use Rattle.std.specs.List.{list_all};
ghost use Rattle.script.specs.Forms.{is_name, is_name_byte, is_stem};
ghost use Rattle.grammar.specs.Nexts.{deed, event, fitting, is_call, is_lettered, is_made, is_reply, is_scripted};
ghost use Rattle.grammar.specs.Nexts.{keyword, mode_of_word, of_run, of_threads, operation, shared};

use lines::is_number_word;
use lockword::Reply as ReplyName;
use posixmutex::Operation;
use script::{MAX_NAME, MAX_STEM, Mode};

/// What the next word of a line has to be, and with it how the line goes on.
#[derive(Clone, Copy, Debug, PartialEq, Eq)]
pub enum Next {
    /// No word: the line ends.
    End,

    /// The first word of a script's line.
    Keyword(Mode),
    /// A name, the last word.
    Name,
    /// The name of a thread that is declared.
    NewThread,
    /// The name of the thread's process, or no word.
    ProcessOrEnd,
    /// A name, and then a number.
    NameNumber,
    /// A name, and then a name and a number.
    NameNameNumber,
    /// A name, and then another one.
    NameName,
    /// A name of at most 12 characters, and then a number.
    StemNumber,
    /// A number, the last word.
    Number,
    /// A name, and then a call.
    NameCall(Mode),
    /// A call's word, and then a name.
    Call(Mode),

    /// The first word of a trace.
    Head,
    /// A number, and then two numbers.
    ThreeNumbers,
    /// A number, and then a number.
    TwoNumbers,
    /// The number of an event, or the word of a trace's last line.
    Event,
    /// The word of what the event did.
    Deed,
    /// A thread, the last word.
    Thread,
    /// A thread, and then a mutex.
    ThreadMutex,
    /// A thread, and then a mutex or a condition variable.
    ThreadPlace,
    /// A thread, and then a reply.
    ThreadReply,
    /// A thread, and then a call.
    ThreadCall,
    /// A thread, and then a mutex, a call and a reply.
    ThreadPoint,
    /// A mutex, the last word.
    Mutex,
    /// A mutex or a condition variable, the last word.
    Place,
    /// A reply, the last word.
    Reply,
    /// A call's word, and then what it is made on.
    Operation,
    /// A condition variable, and then its mutex.
    ConditionMutex,
    /// A mutex, and then a call and a reply.
    MutexCallReply,
    /// A call's word, and then a reply.
    CallReply,
}

/// Whether these are bytes that names have after the first.
fn are_name_bytes(bytes: &[u8]) -> bool
    ensures { result ≡ list_all is_name_byte bytes.now }
{
    bytes.iter().all(|b| b.is_ascii_lowercase() || b.is_ascii_digit() || *b == b'_')
}

/// Whether the word is spelled as a name of scripts.
fn is_name(word: &str) -> bool
    ensures { result ≡ is_name word.now }
{
    match word.as_bytes() {
        [first, rest @ ..] => {
            first.is_ascii_lowercase() && rest.len() < MAX_NAME && are_name_bytes(rest)
        }
        [] => false,
    }
}

/// Whether the word is spelled as a name that stays one with a number after it.
fn is_stem(word: &str) -> bool
    ensures { result ≡ is_stem word.now }
{
    is_name(word) && word.len() <= MAX_STEM
}

/// Whether the word is a letter and a number after it.
fn is_lettered(letter: char, word: &str) -> bool
    requires { letter < 128 }
    ensures { result ≡ is_lettered letter word.now }
{
    match word.strip_prefix(letter) {
        Some(digits) => is_number_word(digits),
        None => false,
    }
}

/// Whether the word is that of a call, as traces tell them.
fn is_call(word: &str) -> bool
    ensures { result ≡ is_call word.now }
{
    match word.parse::<Operation>() {
        Ok(Operation::Death) | Err(_) => false,
        Ok(_) => true,
    }
}

/// Whether the word is that of a call that scripts make.
pub fn is_scripted(word: &str) -> bool
    ensures { result ≡ is_scripted word.now }
{
    match word.parse::<Operation>() {
        Ok(Operation::Death) | Ok(Operation::Reinit) | Err(_) => false,
        Ok(_) => true,
    }
}

/// Whether the word is that of a call that scripts of this mode make: those with a time limit are for the machine.
fn is_made(mode: Mode, word: &str) -> bool
    ensures { result ≡ is_made mode word.now }
{
    match word.parse::<Operation>() {
        Ok(Operation::Death) | Ok(Operation::Reinit) | Err(_) => false,
        Ok(Operation::TimedLock) | Ok(Operation::TimedWait) => match mode {
            Mode::Run => true,
            Mode::Threads => false,
        },
        Ok(_) => true,
    }
}

/// Whether the word is that of a reply.
fn is_reply(word: &str) -> bool
    ensures { result ≡ is_reply word.now }
{
    word.parse::<ReplyName>().is_ok()
}

/// What follows the word of a line that scripts of both modes have.
fn shared(mode: Mode, word: &str) -> Option<Next>
    ensures { result ≡ shared mode word.now }
{
    match word {
        "process" => Some(Next::NameNumber),
        "thread" => Some(Next::NewThread),
        "mutex" => Some(Next::Name),
        "mutexes" => Some(Next::StemNumber),
        "cond" => Some(Next::NameNameNumber),
        "call" => Some(Next::NameCall(mode)),
        _ => None,
    }
}

/// What follows the word of a line that scripts for the machine alone have.
fn of_run(word: &str) -> Option<Next>
    ensures { result ≡ of_run word.now }
{
    match word {
        "begin" => Some(Next::NameCall(Mode::Run)),
        "step" => Some(Next::NameNumber),
        "kill" | "killall" | "renew" => Some(Next::Name),
        "remake" => Some(Next::NameName),
        "leave" | "expire" | "decline" | "go" => Some(Next::Name),
        "spare" => Some(Next::Name),
        "locks" => Some(Next::NameNameNumber),
        _ => None,
    }
}

/// What follows the word of a line that scripts for real threads alone have.
fn of_threads(word: &str) -> Option<Next>
    ensures { result ≡ of_threads word.now }
{
    match word {
        "phase" => Some(Next::End),
        "die" => Some(Next::NameNumber),
        _ => None,
    }
}

/// What follows the first word of a script's line.
fn keyword(mode: Mode, word: &str) -> Option<Next>
    ensures { result ≡ keyword mode word.now }
{
    match shared(mode, word) {
        Some(next) => Some(next),
        None => match mode {
            Mode::Run => of_run(word),
            Mode::Threads => of_threads(word),
        },
    }
}

/// What follows the word of what an event did.
fn deed(word: &str) -> Option<Next>
    ensures { result ≡ deed word.now }
{
    match word {
        "begin" => Some(Next::ThreadCall),
        "kill" => Some(Next::Thread),
        "point" => Some(Next::ThreadPoint),
        "death" => Some(Next::ThreadMutex),
        "sleep" => Some(Next::ThreadPlace),
        "wake" => Some(Next::Thread),
        "move" => Some(Next::ThreadMutex),
        "return" => Some(Next::ThreadReply),
        "reaped" => Some(Next::Thread),
        "renew" => Some(Next::Thread),
        _ => None,
    }
}

/// What follows the word of a call that begins.
fn operation(word: &str) -> Option<Next>
    ensures { result ≡ operation word.now }
{
    match word.parse::<Operation>() {
        Ok(Operation::Lock) => Some(Next::Mutex),
        Ok(Operation::TryLock) => Some(Next::Mutex),
        Ok(Operation::TimedLock) => Some(Next::Mutex),
        Ok(Operation::Unlock) => Some(Next::Mutex),
        Ok(Operation::Consistent) => Some(Next::Mutex),
        Ok(Operation::Reinit) => Some(Next::Mutex),
        Ok(Operation::Wait) => Some(Next::ConditionMutex),
        Ok(Operation::TimedWait) => Some(Next::ConditionMutex),
        Ok(Operation::Signal) => Some(Next::ConditionMutex),
        Ok(Operation::Broadcast) => Some(Next::ConditionMutex),
        Ok(Operation::Death) | Err(_) => None,
    }
}

/// The first word of an event's line, or of a trace's last one.
fn event(word: &str) -> Option<Next>
    ensures { result ≡ event word.now }
{
    if word == "end" {
        Some(Next::Number)
    } else {
        fitting(is_number_word(word), Next::Deed)
    }
}

/// What follows a word that fits.
fn fitting(fits: bool, next: Next) -> Option<Next>
    ensures { result ≡ fitting fits next }
{
    if fits { Some(next) } else { None }
}

impl Next {
    ghost use Rattle.grammar.specs.Nexts.{after, is_over};

    /// How the line goes on after this word; None where no line of its kind does.
    pub fn after(self, word: &str) -> Option<Next>
        ensures { result ≡ after self word.now }
    {
        match self {
            Next::End => None,
            Next::Keyword(mode) => keyword(mode, word),
            Next::Name => fitting(is_name(word), Next::End),
            Next::NewThread => fitting(is_name(word), Next::ProcessOrEnd),
            Next::ProcessOrEnd => fitting(is_name(word), Next::End),
            Next::NameNumber => fitting(is_name(word), Next::Number),
            Next::NameNameNumber => fitting(is_name(word), Next::NameNumber),
            Next::NameName => fitting(is_name(word), Next::Name),
            Next::StemNumber => fitting(is_stem(word), Next::Number),
            Next::Number => fitting(is_number_word(word), Next::End),
            Next::NameCall(mode) => fitting(is_name(word), Next::Call(mode)),
            Next::Call(mode) => fitting(is_made(mode, word), Next::Name),
            Next::Head => fitting(word == "trace", Next::ThreeNumbers),
            Next::ThreeNumbers => fitting(is_number_word(word), Next::TwoNumbers),
            Next::TwoNumbers => fitting(is_number_word(word), Next::Number),
            Next::Event => event(word),
            Next::Deed => deed(word),
            Next::Thread => fitting(is_lettered('t', word), Next::End),
            Next::ThreadMutex => fitting(is_lettered('t', word), Next::Mutex),
            Next::ThreadPlace => fitting(is_lettered('t', word), Next::Place),
            Next::ThreadReply => fitting(is_lettered('t', word), Next::Reply),
            Next::ThreadCall => fitting(is_lettered('t', word), Next::Operation),
            Next::ThreadPoint => fitting(is_lettered('t', word), Next::MutexCallReply),
            Next::Mutex => fitting(is_lettered('m', word), Next::End),
            Next::Place => fitting(is_lettered('m', word) || is_lettered('c', word), Next::End),
            Next::Reply => fitting(is_reply(word), Next::End),
            Next::Operation => operation(word),
            Next::ConditionMutex => fitting(is_lettered('c', word), Next::Mutex),
            Next::MutexCallReply => fitting(is_lettered('m', word), Next::CallReply),
            Next::CallReply => fitting(is_call(word), Next::Reply),
        }
    }

    /// Whether a line may end here.
    pub fn is_over(self) -> bool
        ensures { result ≡ is_over self }
    {
        match self {
            Next::End | Next::ProcessOrEnd => true,
            _ => false,
        }
    }
}

/// The mode whose scripts alone have lines with this first word.
pub fn mode_of_word(word: &str) -> Option<Mode>
    ensures { result ≡ mode_of_word word.now }
{
    if of_run(word).is_some() {
        return Some(Mode::Run);
    }
    if of_threads(word).is_some() {
        return Some(Mode::Threads);
    }
    None
}
