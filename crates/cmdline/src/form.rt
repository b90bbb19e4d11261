//! Which of its forms a command line has.

ghost use Rattle.std.specs.Prelude.{◌≡◌, true, false, IfOk, Some, map, option_map};
ghost use Rattle.clap.specs.Words.{app_of, rule_of, subcommand_of, subcommand_rows_of, takes};
ghost use Rattle.clap.specs.declared.builder.command.Command.TheViews.{out-Command};
ghost use Rattle.cmdline.specs.Forms.{asked_of, asked_by, rfx, run_app, file_app, table_rule, file_rule};
ghost use Rattle.cmdline.specs.Said.{Said, IsSaid, seen, asked_for, in_order};

use clap::error::ErrorKind;
use clap::{Arg, ArgAction, ArgMatches, Command};
use memorymap::NoMem;
use std::alloc::{AllocError, Global};
use streams::is_file;

/// What a command line asks for.
#[derive(Clone, Copy, Debug, PartialEq, Eq)]
pub enum Form<'a> {
    /// `rfx run FILE`: the script in this file is run. The name doesn't begin with a hyphen.
    Run(&'a str),
    /// `rfx run --table FILE`: the script in this file is run, and how it left the threads, mutexes and condition
    /// variables is reported. The name doesn't begin with a hyphen.
    Table(&'a str),
    /// `rfx threads FILE`: the calls of the script in this file are made by real threads. The name doesn't begin with a
    /// hyphen.
    Threads(&'a str),
    /// `rfx check FILE`: the trace in this file is judged. The name doesn't begin with a hyphen.
    Check(&'a str),
    /// Every other command line, those that ask for help or the version among them.
    Usage,
}

/// The option `--table`.
fn table<'a>(alloc: Global) -> Arg<'a>
    ensures rule { rule_of result ≡ table_rule }
    ensures local { result.global ≡ false }
{
    Arg::new(alloc, "table")
        .long("table")
        .action(ArgAction::SetTrue)
}

/// The argument `FILE`.
fn file<'a>(alloc: Global) -> Arg<'a>
    ensures rule { rule_of result ≡ file_rule }
    ensures local { result.global ≡ false }
{
    Arg::new(alloc, "FILE")
        .required(true)
        .action(ArgAction::Set)
}

/// The subcommand of this name, with its FILE.
fn subcommand<'a>(alloc: Global, name: &'a str) -> Result<Command<'a>, AllocError>
    ensures app { IfOk result (λ r. app_of r ≡ file_app name.now) }
    ensures local { IfOk result (λ r. (out-Command r).has_globals ≡ false) }
{
    Command::new(alloc, name).arg(file(alloc))
}

/// The subcommand `run`, with its option and its FILE.
fn run<'a>(alloc: Global) -> Result<Command<'a>, AllocError>
    ensures app { IfOk result (λ r. app_of r ≡ run_app) }
    ensures local { IfOk result (λ r. (out-Command r).has_globals ≡ false) }
{
    Command::new(alloc, "run")
        .arg(table(alloc))?
        .arg(file(alloc))
}

/// The command that clap is given.
fn command<'a>(alloc: Global) -> Result<Command<'a>, AllocError>
    ensures { IfOk result (λ r. app_of r ≡ rfx) }
{
    Command::new(alloc, "rfx")
        .subcommand(run(alloc)?)?
        .subcommand(subcommand(alloc, "threads")?)?
        .subcommand(subcommand(alloc, "check")?)
}

/// What clap found in the words.
#[derive(Clone, Copy)]
struct Found<'a> {
    /// The subcommand.
    word: &'a str,
    /// Whether `--table` was given.
    table: bool,
    /// FILE.
    file: &'a str,
}

/// The subcommand, its option and its FILE among the matches; nothing where there is no subcommand, or no FILE.
fn found_in<'a>(matches: &ArgMatches<'a>) -> Option<Found<'a>>
    ensures { (s : Said) → IsSaid (subcommand_rows_of matches.now) s → option_map seen result ≡ Some s }
{
    let (word, inner) = matches.subcommand()?;
    let file = inner.get_str("FILE")?;
    let table = inner.get_flag("table");
    Some(Found { word, table, file })
}

/// What clap finds in the words; nothing where it refuses them.
fn found_by_clap<'a>(alloc: Global, words: &'a [&'a str]) -> Result<Option<Found<'a>>, NoMem>
    ensures { IfOk result
        (λ found. (s : Said) → takes rfx (map (λ w. w.now) words.entry.now) ≡ true
        → IsSaid (subcommand_of rfx (map (λ w. w.now) words.entry.now)) s → option_map seen found ≡ Some s) }
{
    let command = command(alloc)?;
    let kind = match command.try_get_matches_from(words) {
        Ok(matches) => return Ok(found_in(&matches)),
        Err(error) => error.kind(),
    };
    match kind {
        ErrorKind::OutOfMemory => Err(NoMem),
        _ => Ok(None),
    }
}

/// Whether the words are just those that were found, in the order of the forms, and FILE names a file. clap takes other
/// orders too, `--` and hyphens.
fn are_in_order(words: &[&str], found: &Found<'_>) -> bool
    ensures { result ≡ in_order (map (λ w. w.now) words.now) (seen found.now) }
{
    match words {
        [_, word, file] => {
            !found.table && is_file(file) && *word == found.word && *file == found.file
        }
        [_, word, option, file] => {
            found.table
                && is_file(file)
                && *option == "--table"
                && *word == found.word
                && *file == found.file
        }
        _ => false,
    }
}

/// The form of what was found.
fn form_of<'a>(found: Found<'a>) -> Form<'a>
    ensures { asked_by result ≡ asked_for (seen found.entry) }
{
    match (found.table, found.word) {
        (false, "run") => Form::Run(found.file),
        (true, "run") => Form::Table(found.file),
        (false, "threads") => Form::Threads(found.file),
        (false, "check") => Form::Check(found.file),
        _ => Form::Usage,
    }
}

/// The form of a command line, of which the first word is the program's name. NoMem says that memory was refused.
pub fn form_of_words<'a>(alloc: Global, words: &'a [&'a str]) -> Result<Form<'a>, NoMem>
    ensures { IfOk result (λ f. asked_by f ≡ asked_of (map (λ w. w.now) words.entry.now)) }
{
    let Some(found) = found_by_clap(alloc, words)? else {
        return Ok(Form::Usage);
    };
    if are_in_order(words, &found) {
        Ok(form_of(found))
    } else {
        Ok(Form::Usage)
    }
}
