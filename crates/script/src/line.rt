//! The kinds of line of a script.

ghost use Rattle.std.specs.Prelude.{◌≡◌, true, false, option_map, option_and_then};
ghost use Rattle.script.specs.Forms.{call_form, calling_form, cond_form, die_form, form_of, has, is_silent};
ghost use Rattle.script.specs.Forms.{is_stem, is_untimed, locks_form, member_form, mutexes_form, name_form, or_else};
ghost use Rattle.script.specs.Forms.{phase_form, process_form, remake_form, run_has, step_form, threads_have};
ghost use Rattle.lines.specs.Numbers.{is_number, within};
ghost use Rattle.script.specs.Seen.{call_seen, form_seen};

use crate::command::Mode;
use crate::limits::{MAX_ACCESS, MAX_BASE, MAX_COUNTER, MAX_MUTEXES, MAX_STEM, MAX_STEPS};
use crate::words::is_word_name;
use lines::{Words, is_number_word, number_in, words_in};
use posixmutex::Operation;

/// A call, with the name of its mutex or of its condition variable.
#[derive(Clone, Copy)]
pub enum NamedCall<'a> {
    Lock(&'a str),
    TryLock(&'a str),
    TimedLock(&'a str),
    Unlock(&'a str),
    Consistent(&'a str),
    Wait(&'a str),
    TimedWait(&'a str),
    Signal(&'a str),
    Broadcast(&'a str),
}

/// What a line that isn't silent says, by names.
#[derive(Clone, Copy)]
pub enum Line<'a> {
    /// A process and its base. None here and below: the number is out of its range.
    Process(&'a str, Option<u32>),
    Thread(&'a str),
    /// A thread, and then its process.
    Member(&'a str, &'a str),
    Mutex(&'a str),
    Mutexes(&'a str, Option<u32>),
    /// The name of the condition variable, then that of its mutex, and what its counter begins with.
    Cond(&'a str, &'a str, Option<u32>),
    Begin(&'a str, NamedCall<'a>),
    Step(&'a str, Option<u32>),
    Kill(&'a str),
    KillAll(&'a str),
    Leave(&'a str),
    Decline(&'a str),
    Expire(&'a str),
    Renew(&'a str),
    /// A thread and a mutex.
    Remake(&'a str, &'a str),
    Spare(&'a str),
    Go(&'a str),
    Call(&'a str, NamedCall<'a>),
    Locks(&'a str, &'a str, Option<u32>),
    Phase,
    /// A thread, and the number of the access before which it dies.
    Die(&'a str, Option<u32>),
}

/// Whether the line is empty or a comment.
pub fn is_silent_line(text: &str) -> bool
    ensures { result ≡ is_silent text.now }
{
    match text.as_bytes() {
        [] => true,
        [first, ..] => *first == b'#',
    }
}

fn of_a_name<'a>(keyword: &'a str, name: &'a str) -> Option<Line<'a>>
    ensures { option_map form_seen result ≡ name_form keyword.now name.now }
{
    if !is_word_name(name) {
        return None;
    }
    match keyword {
        "thread" => Some(Line::Thread(name)),
        "mutex" => Some(Line::Mutex(name)),
        "kill" => Some(Line::Kill(name)),
        "killall" => Some(Line::KillAll(name)),
        "go" => Some(Line::Go(name)),
        "leave" => Some(Line::Leave(name)),
        "decline" => Some(Line::Decline(name)),
        "renew" => Some(Line::Renew(name)),
        "spare" => Some(Line::Spare(name)),
        "expire" => Some(Line::Expire(name)),
        _ => None,
    }
}

fn step<'a>(keyword: &'a str, thread: &'a str, number: &'a str) -> Option<Line<'a>>
    ensures { option_map form_seen result ≡ step_form keyword.now thread.now number.now }
{
    if keyword == "step" && is_word_name(thread) && is_number_word(number) {
        return Some(Line::Step(thread, number_in(number, 1, MAX_STEPS)));
    }
    None
}

fn die<'a>(keyword: &'a str, thread: &'a str, number: &'a str) -> Option<Line<'a>>
    ensures { option_map form_seen result ≡ die_form keyword.now thread.now number.now }
{
    if keyword == "die" && is_word_name(thread) && is_number_word(number) {
        return Some(Line::Die(thread, number_in(number, 1, MAX_ACCESS)));
    }
    None
}

/// Whether the word is spelled as a name that stays one with a number after it.
fn is_word_stem(word: &str) -> bool
    ensures { result ≡ is_stem word.now }
{
    is_word_name(word) && word.len() <= MAX_STEM
}

fn mutexes<'a>(keyword: &'a str, name: &'a str, number: &'a str) -> Option<Line<'a>>
    ensures { option_map form_seen result ≡ mutexes_form keyword.now name.now number.now }
{
    if keyword == "mutexes" && is_word_stem(name) && is_number_word(number) {
        return Some(Line::Mutexes(name, number_in(number, 1, MAX_MUTEXES as u32)));
    }
    None
}

fn process<'a>(keyword: &'a str, name: &'a str, number: &'a str) -> Option<Line<'a>>
    ensures { option_map form_seen result ≡ process_form keyword.now name.now number.now }
{
    if keyword == "process" && is_word_name(name) && is_number_word(number) {
        return Some(Line::Process(name, number_in(number, 0, MAX_BASE)));
    }
    None
}

fn member<'a>(keyword: &'a str, thread: &'a str, process: &'a str) -> Option<Line<'a>>
    ensures { option_map form_seen result ≡ member_form keyword.now thread.now process.now }
{
    if keyword == "thread" && is_word_name(thread) && is_word_name(process) {
        return Some(Line::Member(thread, process));
    }
    None
}

fn remake<'a>(keyword: &'a str, thread: &'a str, mutex: &'a str) -> Option<Line<'a>>
    ensures { option_map form_seen result ≡ remake_form keyword.now thread.now mutex.now }
{
    if keyword == "remake" && is_word_name(thread) && is_word_name(mutex) {
        return Some(Line::Remake(thread, mutex));
    }
    None
}

fn locks<'a>(keyword: &'a str, thread: &'a str, mutex: &'a str, number: &'a str) -> Option<Line<'a>>
    ensures { option_map form_seen result
        ≡ locks_form keyword.now thread.now mutex.now number.now }
{
    if keyword == "locks" && is_word_name(thread) && is_word_name(mutex) && is_number_word(number) {
        return Some(Line::Locks(thread, mutex, number_in(number, 1, MAX_MUTEXES as u32)));
    }
    None
}

fn cond<'a>(keyword: &'a str, name: &'a str, mutex: &'a str, number: &'a str) -> Option<Line<'a>>
    ensures { option_map form_seen result
        ≡ cond_form keyword.now name.now mutex.now number.now }
{
    if keyword == "cond" && is_word_name(name) && is_word_name(mutex) && is_number_word(number) {
        return Some(Line::Cond(name, mutex, number_in(number, 0, MAX_COUNTER)));
    }
    None
}

fn named_call<'a>(word: &'a str, name: &'a str) -> Option<NamedCall<'a>>
    ensures { option_map call_seen result ≡ call_form word.now name.now }
{
    if !is_word_name(name) {
        return None;
    }
    match word.parse::<Operation>() {
        Ok(Operation::Lock) => Some(NamedCall::Lock(name)),
        Ok(Operation::TryLock) => Some(NamedCall::TryLock(name)),
        Ok(Operation::TimedLock) => Some(NamedCall::TimedLock(name)),
        Ok(Operation::Unlock) => Some(NamedCall::Unlock(name)),
        Ok(Operation::Consistent) => Some(NamedCall::Consistent(name)),
        Ok(Operation::Wait) => Some(NamedCall::Wait(name)),
        Ok(Operation::TimedWait) => Some(NamedCall::TimedWait(name)),
        Ok(Operation::Signal) => Some(NamedCall::Signal(name)),
        Ok(Operation::Broadcast) => Some(NamedCall::Broadcast(name)),
        Ok(Operation::Death) | Ok(Operation::Reinit) | Err(_) => None,
    }
}

fn calling<'a>(keyword: &'a str, thread: &'a str, call: NamedCall<'a>) -> Option<Line<'a>>
    ensures { option_map form_seen result
        ≡ calling_form keyword.now thread.now (call_seen call.entry) }
{
    if !is_word_name(thread) {
        return None;
    }
    match keyword {
        "begin" => Some(Line::Begin(thread, call)),
        "call" => Some(Line::Call(thread, call)),
        _ => None,
    }
}

fn phase(keyword: &str) -> Option<Line<'_>>
    ensures { option_map form_seen result ≡ phase_form keyword.now }
{
    if keyword == "phase" {
        return Some(Line::Phase);
    }
    None
}

/// A line of three words.
fn of_three<'a>(keyword: &'a str, second: &'a str, third: &'a str) -> Option<Line<'a>>
    ensures { option_map form_seen result ≡ or_else (step_form keyword.now second.now third.now)
        (or_else (die_form keyword.now second.now third.now)
        (or_else (mutexes_form keyword.now second.now third.now)
        (or_else (process_form keyword.now second.now third.now)
        (or_else (member_form keyword.now second.now third.now) (remake_form keyword.now second.now third.now))))) }
{
    if let Some(line) = step(keyword, second, third) {
        return Some(line);
    }
    if let Some(line) = die(keyword, second, third) {
        return Some(line);
    }
    if let Some(line) = mutexes(keyword, second, third) {
        return Some(line);
    }
    if let Some(line) = process(keyword, second, third) {
        return Some(line);
    }
    match member(keyword, second, third) {
        Some(line) => Some(line),
        None => remake(keyword, second, third),
    }
}

/// A line of four words.
fn of_four<'a>(
    keyword: &'a str,
    second: &'a str,
    third: &'a str,
    fourth: &'a str,
) -> Option<Line<'a>>
    ensures { option_map form_seen result ≡ or_else (locks_form keyword.now second.now third.now fourth.now)
        (or_else (cond_form keyword.now second.now third.now fourth.now)
        (option_and_then (calling_form keyword.now second.now) (call_form third.now fourth.now))) }
{
    if let Some(line) = locks(keyword, second, third, fourth) {
        return Some(line);
    }
    match cond(keyword, second, third, fourth) {
        Some(line) => Some(line),
        None => calling(keyword, second, named_call(third, fourth)?),
    }
}

/// Whether the call has no time limit.
fn is_untimed(call: NamedCall<'_>) -> bool
    ensures { result ≡ is_untimed (call_seen call.entry) }
{
    match call {
        NamedCall::TimedLock(_) | NamedCall::TimedWait(_) => false,
        NamedCall::Lock(_) | NamedCall::TryLock(_) => true,
        NamedCall::Unlock(_) | NamedCall::Consistent(_) => true,
        NamedCall::Wait(_) | NamedCall::Signal(_) | NamedCall::Broadcast(_) => true,
    }
}

/// Whether scripts for real threads have such lines.
fn is_of_threads(line: &Line<'_>) -> bool
    ensures { result ≡ threads_have (form_seen line.now) }
{
    match line {
        Line::Process(..) | Line::Thread(_) | Line::Member(..) => true,
        Line::Mutex(_) | Line::Mutexes(..) | Line::Cond(..) => true,
        Line::Call(_, call) => is_untimed(*call),
        Line::Phase | Line::Die(..) => true,
        Line::Begin(..) | Line::Step(..) | Line::Kill(_) => false,
        Line::KillAll(_) | Line::Go(_) | Line::Locks(..) => false,
        Line::Leave(_) | Line::Decline(_) => false,
        Line::Expire(_) => false,
        Line::Renew(_) => false,
        Line::Remake(..) => false,
        Line::Spare(_) => false,
    }
}

/// Whether scripts of the mode have such lines.
fn is_of(mode: Mode, line: &Line<'_>) -> bool
    ensures { result ≡ has mode (form_seen line.now) }
{
    match mode {
        Mode::Run => !matches!(line, Line::Phase | Line::Die(..)),
        Mode::Threads => is_of_threads(line),
    }
}

/// What a line says that isn't silent, and None where it is no line of a script of this mode.
pub fn line_of(text: &str, mode: Mode) -> Option<Line<'_>>
    requires { is_silent text.now ≡ false }
    ensures { option_map form_seen result ≡ form_of mode text.now }
{
    let line = match words_in(text) {
        Words::One(keyword) => phase(keyword),
        Words::Two(keyword, name) => of_a_name(keyword, name),
        Words::Three(keyword, second, third) => of_three(keyword, second, third),
        Words::Four(keyword, second, third, fourth) => of_four(keyword, second, third, fourth),
        _ => None,
    }?;
    if is_of(mode, &line) { Some(line) } else { None }
}
