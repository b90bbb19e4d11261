//! What the words of a command line ask for.

ghost use Rattle.std.specs.Prelude.{◌≡◌, map, option_map, is_some, not, true, Some, None, IfOk, OnOk, if◌then◌else◌};
ghost use Rattle.std.specs.List.{list_any};
ghost use Rattle.std.specs.Str.{bytes_eq};
ghost use Rattle.explore_report.specs.Asked.{added, asked_after, asked_by, asked_of, asked_with, bare, choice_of, choices_of, explored};
ghost use Rattle.explore_report.specs.Asked.{first_option, is_over, kept_of, kills_of, lone, no_choices};
ghost use Rattle.explore_report.specs.Asked.{number_in, options_read, script_option, states_of, with_named, with_value};

use crate::names::is_among;
use lines::{is_number_word, number_in as number_within};
use std::alloc::{AllocError, Global};
use streams::is_file;

/// How many states there may be, if the command line says nothing else.
pub const MOST_STATES: u32 = 5_000_000;

/// How many threads may be killed at most.
pub const MOST_KILLS: u32 = 4;

/// Where the script of an outcome is written.
#[derive(Clone, Copy)]
pub struct Wanted<'a> {
    /// The outcome's number, from 1.
    pub number: u32,
    /// The file.
    pub out: &'a str,
}

/// The options of a command line.
#[derive(Drop)]
pub struct Options<'a> {
    /// `--kills N`: how many threads may be killed at most.
    pub kills: Option<u32>,
    /// `--kill T`, each T once: only these threads may be killed.
    pub named: Vec<&'a str>,
    /// `--expire`: deadlines may pass.
    pub expire: bool,
    /// `--leave`: sleepers may wake up spuriously.
    pub leave: bool,
    /// `--spare`: wakes may be left to threads that answer for the mutex.
    pub spare: bool,
    /// `--states N`: how many states there may be.
    pub states: Option<u32>,
    /// `--never PATTERN`, each time that it is given.
    pub never: Vec<&'a str>,
    /// `--always PATTERN`, each time that it is given.
    pub always: Vec<&'a str>,
    /// `--script K OUT`.
    pub script: Option<Wanted<'a>>,
}

/// What a command line asks for.
#[derive(Drop)]
pub enum Form<'a> {
    /// `rfx-explore [OPTION].. FILE`: the outcomes of the script in FILE.
    Explore(Options<'a>, &'a str),
    /// The same, but the script of an outcome would be written over this file, which is explored.
    Overwriting(&'a str),
    /// Every other command line, those that ask for help or the version among them.
    Usage,
}

/// An option of a command line.
#[derive(Clone, Copy)]
enum Flag<'a> {
    Kills(u32),
    Kill(&'a str),
    Expire,
    Leave,
    Spare,
    States(u32),
    Never(&'a str),
    Always(&'a str),
    Script(Wanted<'a>),
}

/// The number that a word is, if it is one from `low` to `high`.
fn number(word: &str, low: u32, high: u32) -> Option<u32>
    ensures { result ≡ number_in low high word.now }
{
    if is_number_word(word) {
        number_within(word, low, high)
    } else {
        None
    }
}

/// The option of one word.
fn lone_flag<'a>(word: &str) -> Option<Flag<'a>>
    ensures { option_map choice_of result ≡ lone word.now }
{
    if word == "--expire" {
        Some(Flag::Expire)
    } else if word == "--leave" {
        Some(Flag::Leave)
    } else if word == "--spare" {
        Some(Flag::Spare)
    } else {
        None
    }
}

/// The option of a word and its value.
fn flag_with<'a>(word: &str, value: &'a str) -> Option<Flag<'a>>
    ensures { option_map choice_of result ≡ with_value word.now value.now }
{
    if word == "--kills" {
        Some(Flag::Kills(number(value, 0, MOST_KILLS)?))
    } else if word == "--kill" {
        Some(Flag::Kill(value))
    } else if word == "--states" {
        Some(Flag::States(number(value, 1, MOST_STATES)?))
    } else if word == "--never" {
        Some(Flag::Never(value))
    } else if word == "--always" {
        Some(Flag::Always(value))
    } else {
        None
    }
}

/// The option `--script K OUT`.
fn script_flag<'a>(word: &str, number_word: &str, out: &'a str) -> Option<Flag<'a>>
    ensures { option_map choice_of result ≡ script_option word.now number_word.now out.now }
{
    if word == "--script" && is_file(out) {
        let number = number(number_word, 1, MOST_STATES)?;
        Some(Flag::Script(Wanted { number, out }))
    } else {
        None
    }
}

/// The first option of some words, and the words after it.
fn first_flag<'a>(words: &'a [&'a str]) -> Option<(Flag<'a>, &'a [&'a str])>
    ensures { option_map (λ x. (choice_of x.0, map (λ w. w.now) x.1.now)) result ≡ first_option (map (λ w. w.now) words.now) }
{
    let [word, rest @ ..] = words else {
        return None;
    };
    if let Some(flag) = lone_flag(word) {
        return Some((flag, rest));
    }
    let [value, rest @ ..] = rest else {
        return None;
    };
    if let Some(flag) = flag_with(word, value) {
        return Some((flag, rest));
    }
    let [out, rest @ ..] = rest else {
        return None;
    };
    let flag = script_flag(word, value, out)?;
    Some((flag, rest))
}

/// Sets a flag, and returns whether it wasn't set.
fn set(flag: &mut bool) -> bool
    ensures set { flag.new ≡ true }
    ensures was { result ≡ not flag.old }
{
    let was = *flag;
    *flag = true;
    !was
}

/// Puts a value, and returns whether there was none.
fn put<T: Copy>(place: &mut Option<T>, value: &T) -> bool
    ensures put { place.new ≡ Some value.now }
    ensures was { result ≡ not (is_some place.old) }
{
    let was = place.is_some();
    *place = Some(*value);
    !was
}

/// The name without `./` at its beginning, as often as that is there.
#[tactic(auto, unfolding(crate::specs::Asked::bare))]
fn bare(name: &[u8]) -> &[u8]
    ensures { result.now ≡ bare name.now }
{
    match name {
        [a, b, rest @ ..] => {
            if *a == b'.' && *b == b'/' {
                bare(rest)
            } else {
                name
            }
        }
        _ => name,
    }
}

impl<'a> Options<'a> {
    /// No option is given.
    fn none(alloc: Global) -> Options<'a>
        ensures { choices_of result ≡ no_choices }
    {
        Options {
            kills: None,
            named: Vec::new(alloc),
            expire: false,
            leave: false,
            spare: false,
            states: None,
            never: Vec::new(alloc),
            always: Vec::new(alloc),
            script: None,
        }
    }

    /// Whether a thread is named.
    fn is_named(&self, name: &str) -> bool
        ensures { result ≡ list_any (λ w. bytes_eq w name.now) (choices_of self.entry.now).named }
    {
        is_among(&self.named, name)
    }

    /// Adds the name of a thread that may be killed, unless it is there.
    fn add_named(&mut self, name: &'a str) -> Result<(), AllocError>
        ensures { OnOk result (choices_of self.new ≡ with_named (choices_of self.old) name.now) }
    {
        if self.is_named(name) {
            return Ok(());
        }
        self.named.push(name)?;
        Ok(())
    }

    /// Adds an option. False: it was given before, and may be given once.
    fn add(&mut self, flag: Flag<'a>) -> Result<bool, AllocError>
        ensures { IfOk result (λ fits. added (choices_of self.old) (choice_of flag.entry)
            ≡ (if fits then Some (choices_of self.new) else None)) }
    {
        match flag {
            Flag::Kills(number) => Ok(put(&mut self.kills, &number)),
            Flag::Kill(name) => {
                self.add_named(name)?;
                Ok(true)
            }
            Flag::Expire => Ok(set(&mut self.expire)),
            Flag::Leave => Ok(set(&mut self.leave)),
            Flag::Spare => Ok(set(&mut self.spare)),
            Flag::States(number) => Ok(put(&mut self.states, &number)),
            Flag::Never(pattern) => {
                self.never.push(pattern)?;
                Ok(true)
            }
            Flag::Always(pattern) => {
                self.always.push(pattern)?;
                Ok(true)
            }
            Flag::Script(wanted) => Ok(put(&mut self.script, &wanted)),
        }
    }

    /// How many threads may be killed: as many as `--kills` says; else as many as are named.
    pub fn kills(&self) -> u8
        ensures { result ≡ kills_of (choices_of self.entry.now) }
    {
        let kills = match self.kills {
            Some(number) => number as usize,
            None => self.named.len(),
        };
        kills.min(MOST_KILLS as usize) as u8
    }

    /// How many states there may be.
    pub fn states(&self) -> u32
        ensures { result ≡ states_of (choices_of self.entry.now) }
    {
        match self.states {
            Some(number) => number,
            None => MOST_STATES,
        }
    }

    /// Whether the script of an outcome would be written over this file.
    fn is_over(&self, file: &str) -> bool
        ensures { result ≡ is_over (choices_of self.entry.now).script file.now }
    {
        match self.script {
            Some(wanted) => bare(wanted.out.as_bytes()) == bare(file.as_bytes()),
            None => false,
        }
    }
}

/// What is asked for, once all options are known.
fn explored<'a>(options: Options<'a>, file: &'a str) -> Form<'a>
    ensures { asked_by result ≡ explored (choices_of options.entry) file.now }
{
    if !is_file(file) {
        Form::Usage
    } else if options.is_over(file) {
        Form::Overwriting(file)
    } else {
        Form::Explore(options, file)
    }
}

/// What is asked for by what is left after the options.
fn form_with<'a>(options: Options<'a>, words: &'a [&'a str]) -> Form<'a>
    ensures { asked_by result ≡ asked_with (choices_of options.entry) (map (λ w. w.now) words.now) }
{
    match words {
        [file] => explored(options, file),
        [] => Form::Usage,
        [_, _, ..] => Form::Usage,
    }
}

/// The form of some words, of which at most `most` options at the front haven't been read.
fn form_from<'a>(
    most: usize,
    options: Options<'a>,
    words: &'a [&'a str],
) -> Result<Form<'a>, AllocError>
    ensures { IfOk result (λ form. asked_by form
        ≡ asked_after (options_read most (choices_of options.entry) (map (λ w. w.now) words.now))) }
{
    if most == 0 {
        return Ok(form_with(options, words));
    }
    let Some((flag, rest)) = first_flag(words) else {
        return Ok(form_with(options, words));
    };
    let mut options = options;
    if options.add(flag)? {
        form_from(most - 1, options, rest)
    } else {
        Ok(Form::Usage)
    }
}

/// The form of a command line, of which the first word is the program's name.
pub fn form_of_words<'a>(alloc: Global, words: &'a [&'a str]) -> Result<Form<'a>, AllocError>
    ensures { IfOk result (λ form. asked_by form ≡ asked_of (map (λ w. w.now) words.now)) }
{
    match words {
        [] => Ok(Form::Usage),
        [_, words @ ..] => form_from(words.len(), Options::none(alloc), words),
    }
}
