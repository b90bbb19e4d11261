//! From a script's bytes to what is printed of it.

ghost use Rattle.std.specs.Prelude.{◌≡◌, ◌⊎◌, true, map, option_map, IfOk, IfErr, OnOk};
ghost use Rattle.explore_report.specs.Asked.{choices_of, kept_of};
ghost use Rattle.explore_report.specs.Told.{AddsDemands, Answers, AreReplayed, Asks, Demands, HasScript, IsReplayed, IsUnplayable};
ghost use Rattle.explore_report.specs.Told.{IsUnkept, IsUnplayed, IsUnwanted, IsWanted, Tells, Unanswered, Unasked, Untells};
ghost use Rattle.explore_report.specs.Told.{first_unknown, question_in, status_of, told_text};
ghost use Rattle.explore_report.specs.Texts.{demanded};
ghost use Rattle.explore_report.specs.Replays.{Came};
ghost use Rattle.explore_report.specs.Witnesses.{script_text};

use crate::asking::{Options, Wanted};
use crate::judging::{Demand, add_demands, are_met};
use crate::names::thread_named;
use crate::ordering::in_order;
use crate::patterns::read_pattern;
use crate::planning::{Explored, plan_of, read_script};
use crate::replaying::{Replay, is_settled, replays};
use crate::telling::add_found;
use crate::witness::script_of;
use memorymap::NoMem;
use outcomes::{Found, Plan, Progress, Witnessed, explore};
use script::{Script, ScriptFault};
use std::alloc::{AllocError, Global};

/// Why nothing is said of a script.
#[derive(Clone, Copy)]
pub enum Untold<'a> {
    /// Memory was refused.
    OutOfMemory,
    /// The bytes are no script.
    Ill(ScriptFault),
    /// No thread has this name.
    NoThread(&'a str),
    /// These words are no pattern, or name what the script doesn't declare.
    NoPattern(&'a str),
    /// No outcome has this number.
    NoOutcome(u32),
    /// The script of the outcome with this number is too long to be played.
    TooLong(u32),
    /// The script of the outcome with this number was played, and has another outcome.
    Unplayed(usize),
}

/// What is printed and written of a script.
#[derive(Drop)]
pub struct Told {
    /// The text for standard output.
    pub text: Vec<u8>,
    /// The script of the outcome that was asked for.
    pub script: Option<Vec<u8>>,
    /// The exit status.
    pub status: u8,
}

/// What is explored, and what is asked of each outcome.
#[derive(Drop)]
struct Question<'a> {
    explored: Explored,
    demands: Vec<Demand<'a>>,
    plan: Plan,
}

/// The first of these names that no thread has.
fn first_unknown<'a>(script: &Script, named: &[&'a str]) -> Option<&'a str>
    ensures { option_map (λ w. w.now) result ≡ first_unknown script.now (map (λ w. w.now) named.now) }
{
    for name in named {
        if thread_named(script, name).is_none() {
            return Some(name);
        }
    }
    None
}

/// Adds what these patterns ask of every outcome.
fn add_patterns<'a>(
    demands: &mut Vec<Demand<'a>>,
    script: &Script,
    patterns: &[&'a str],
    always: bool,
) -> Result<(), Untold<'a>>
    ensures { AddsDemands script.now always (map (λ w. w.now) patterns.now) (map demanded demands.old.items)
        (map demanded demands.new.items) result }
{
    for words in patterns {
        let Some(pattern) = read_pattern(script, words) else {
            return Err(Untold::NoPattern(words));
        };
        let demand = Demand {
            words,
            pattern,
            always,
        };
        if demands.push(demand).is_err() {
            return Err(Untold::OutOfMemory);
        }
    }
    Ok(())
}

/// What the patterns of a command line ask of every outcome.
fn all_demands<'a>(
    alloc: Global,
    script: &Script,
    options: &Options<'a>,
) -> Result<Vec<Demand<'a>>, Untold<'a>>
    ensures { Demands script.now (choices_of options.now) result }
{
    let mut demands = Vec::new(alloc);
    match add_patterns(&mut demands, script, &options.never, false) {
        Ok(()) => {}
        Err(why) => return Err(why),
    }
    match add_patterns(&mut demands, script, &options.always, true) {
        Ok(()) => Ok(demands),
        Err(why) => Err(why),
    }
}

/// What a script's bytes and the options of a command line ask.
fn question_of<'a>(
    alloc: Global,
    options: &Options<'a>,
    bytes: &[u8],
) -> Result<Question<'a>, Untold<'a>>
    ensures asks { IfOk result (Asks bytes.now (choices_of options.now)) }
    ensures fails { IfErr result (Unasked bytes.now (choices_of options.now)) }
{
    let explored = match read_script(alloc, bytes) {
        Ok(explored) => explored,
        Err(fault) => return Err(Untold::Ill(fault)),
    };
    if let Some(name) = first_unknown(&explored.script, &options.named) {
        return Err(Untold::NoThread(name));
    }
    let demands = match all_demands(alloc, &explored.script, options) {
        Ok(demands) => demands,
        Err(why) => return Err(why),
    };
    match plan_of(alloc, &explored, options) {
        Ok(plan) => Ok(Question {
            explored,
            demands,
            plan,
        }),
        Err(_refused) => Err(Untold::OutOfMemory),
    }
}

/// What came of playing the script of an outcome.
fn came_of(alloc: Global, script: &Script, witnessed: &Witnessed) -> Result<Replay, NoMem>
    ensures { IfOk result (Came (script_text script.now witnessed.now.events.items) witnessed.now.outcome) }
{
    let text = script_of(alloc, script, &witnessed.events)?;
    replays(alloc, &text, &witnessed.outcome)
}

/// Plays the script of an outcome: whether it has the outcome, or is too long to be played.
fn is_replayed(alloc: Global, script: &Script, witnessed: &Witnessed) -> Result<bool, NoMem>
    ensures so { IfOk result (λ so. so ≡ true → IsReplayed script.now witnessed.now ⊎ IsUnplayable script.now witnessed.now) }
    ensures only { IfOk result (λ so. IsReplayed script.now witnessed.now ⊎ IsUnplayable script.now witnessed.now → so ≡ true) }
{
    let replay = came_of(alloc, script, witnessed)?;
    Ok(is_settled(replay))
}

/// Plays the script of each outcome, unless it is too long for that.
fn play_scripts<'a>(
    alloc: Global,
    script: &Script,
    outcomes: &[&Witnessed],
) -> Result<(), Untold<'a>>
    ensures played { OnOk result (AreReplayed script.now (map (λ w. w.now) outcomes.now)) }
    ensures fails { IfErr result (IsUnplayed script.now (map (λ w. w.now) outcomes.now)) }
{
    let mut number = 0;
    for witnessed in outcomes {
        number += 1;
        match is_replayed(alloc, script, witnessed) {
            Ok(true) => {}
            Ok(false) => return Err(Untold::Unplayed(number)),
            Err(_refused) => return Err(Untold::OutOfMemory),
        }
    }
    Ok(())
}

/// The script of the outcome with this number.
fn script_at<'a>(
    alloc: Global,
    script: &Script,
    outcomes: &[&Witnessed],
    number: u32,
) -> Result<Vec<u8>, Untold<'a>>
    ensures script { IfOk result (λ v. HasScript script.now (map (λ w. w.now) outcomes.now) number v.items) }
    ensures fails { IfErr result (IsUnkept script.now (map (λ w. w.now) outcomes.now) number) }
{
    let Some(witnessed) = outcomes.get((number as usize).saturating_sub(1)) else {
        return Err(Untold::NoOutcome(number));
    };
    let Ok(text) = script_of(alloc, script, &witnessed.events) else {
        return Err(Untold::OutOfMemory);
    };
    match replays(alloc, &text, &witnessed.outcome) {
        Ok(Replay::Same) => Ok(text),
        Ok(Replay::TooLong) => Err(Untold::TooLong(number)),
        Ok(Replay::Other) => Err(Untold::Unplayed(number as usize)),
        Err(_refused) => Err(Untold::OutOfMemory),
    }
}

/// The script that is wanted, if one is.
fn script_wanted<'a>(
    alloc: Global,
    script: &Script,
    outcomes: &[&Witnessed],
    wanted: Option<Wanted<'a>>,
) -> Result<Option<Vec<u8>>, Untold<'a>>
    ensures script { IfOk result (λ kept. IsWanted script.now (map (λ w. w.now) outcomes.now)
        (option_map kept_of wanted.entry) (option_map (λ v. v.items) kept)) }
    ensures fails { IfErr result (IsUnwanted script.now (map (λ w. w.now) outcomes.now) (option_map kept_of wanted.entry)) }
{
    match wanted {
        Some(wanted) => match script_at(alloc, script, outcomes, wanted.number) {
            Ok(text) => Ok(Some(text)),
            Err(why) => Err(why),
        },
        None => Ok(None),
    }
}

/// The exit status.
fn status_of(met: bool, complete: bool) -> u8
    ensures { result ≡ status_of met complete }
{
    if !met {
        1
    } else if !complete {
        3
    } else {
        0
    }
}

/// The text for standard output. The outcomes that were found are in the order in which they are numbered.
fn text_of(
    alloc: Global,
    question: &Question<'_>,
    named: &[&str],
    found: &Found,
    outcomes: &[&Witnessed],
) -> Result<Vec<u8>, AllocError>
    ensures { IfOk result (λ v. v.items ≡ told_text (question_in question.now) (map (λ w. w.now) named.now)
        (map (λ w. w.now) outcomes.now) found.now.complete found.now.states) }
{
    let mut text = Vec::new(alloc);
    let script = &question.explored.script;
    let asked = &question.plan.asked;
    let (complete, states) = (found.complete, found.states);
    add_found(
        alloc, &mut text, script, asked, named, outcomes, complete, states,
    )?;
    add_demands(&mut text, outcomes, complete, &question.demands)?;
    Ok(text)
}

/// What is said of what was found.
fn answer<'a>(
    alloc: Global,
    options: &Options<'a>,
    question: &Question<'a>,
    found: &Found,
) -> Result<Told, Untold<'a>>
    ensures answers { IfOk result (Answers (question_in question.now) (choices_of options.now) found.now) }
    ensures fails { IfErr result (Unanswered (question_in question.now) (choices_of options.now) found.now) }
{
    let script = &question.explored.script;
    let Ok(outcomes) = in_order(alloc, script.threads(), &found.outcomes) else {
        return Err(Untold::OutOfMemory);
    };
    match play_scripts(alloc, script, &outcomes) {
        Ok(()) => {}
        Err(why) => return Err(why),
    }
    let kept = match script_wanted(alloc, script, &outcomes, options.script) {
        Ok(kept) => kept,
        Err(why) => return Err(why),
    };
    let Ok(text) = text_of(alloc, question, &options.named, found, &outcomes) else {
        return Err(Untold::OutOfMemory);
    };
    Ok(Told {
        text,
        script: kept,
        status: status_of(are_met(&outcomes, &question.demands), found.complete),
    })
}

/// Explores the script that these bytes are: what is printed and written of it.
pub fn tell<'a, P: Progress>(
    alloc: Global,
    options: &Options<'a>,
    bytes: &[u8],
    progress: &mut P,
) -> Result<Told, Untold<'a>>
    ensures tells { IfOk result (Tells bytes.now (choices_of options.now)) }
    ensures fails { IfErr result (Untells bytes.now (choices_of options.now)) }
{
    let question = match question_of(alloc, options, bytes) {
        Ok(question) => question,
        Err(why) => return Err(why),
    };
    match explore(alloc, &question.plan, options.states() as usize, progress) {
        Ok(found) => answer(alloc, options, &question, &found),
        Err(_refused) => Err(Untold::OutOfMemory),
    }
}
