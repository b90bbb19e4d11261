//! From a script to a plan: what each thread calls, in order.

ghost use Rattle.std.specs.Prelude.{◌≡◌, ◌+◌, ◌≤◌, ◌<◌, ◌-◌, map, length, option_to_list, slice_get, IfOk};
ghost use Rattle.std.specs.List.{flat_map, range_with_len};
ghost use Rattle.explore_report.specs.Asked.{choices_of};
ghost use Rattle.explore_report.specs.Plans.{depends_on, item_at, items_in, items_of, may_die, phase_at, said_by, ends_phase};
ghost use Rattle.explore_report.specs.Plans.{said_read, text_said, Gives, IsPlanOf};

use crate::asking::Options;
use crate::names::{is_among, thread_name_at};
use crate::spelling::{Kind, spell};
use lines::text_of;
use lockword::{Reply, Tid};
use outcomes::{Act, Asked, Item, Plan};
use script::{Action, Command, Fault, MAX_BYTES, Mode, Script, ScriptFault, parse};
use std::alloc::{AllocError, Global};

/// A script that is explored: its names and commands, and what else each of its lines says.
#[derive(Drop)]
pub struct Explored {
    pub script: Script,
    pub kinds: Vec<Kind>,
}

fn fault(line: usize, fault: Fault) -> ScriptFault
    ensures { result ≡ record { line = line; fault = fault } }
{
    ScriptFault { line, fault }
}

/// Reads the lines of a script that is explored.
fn read_text(alloc: Global, text: &str) -> Result<Explored, ScriptFault>
    ensures { Gives (text_said text.now) result }
{
    let Ok(spelling) = spell(alloc, text) else {
        return Err(fault(1, Fault::OutOfMemory));
    };
    match parse(alloc, &spelling.text, Mode::Run) {
        Ok(script) => Ok(Explored {
            script,
            kinds: spelling.kinds,
        }),
        Err(fault) => Err(fault),
    }
}

/// Reads a script that is explored, or finds its first fault.
pub fn read_script(alloc: Global, bytes: &[u8]) -> Result<Explored, ScriptFault>
    ensures { Gives (said_read bytes.now) result }
{
    if bytes.len() > MAX_BYTES {
        return Err(fault(1, Fault::TooLong));
    }
    match text_of(bytes) {
        Ok(text) => read_text(alloc, text),
        Err(line) => Err(fault(line, Fault::NotUtf8)),
    }
}

/// Whether a phase ends.
fn ends_phase(kind: Kind) -> bool
    ensures { result ≡ ends_phase kind }
{
    matches!(kind, Kind::Phase)
}

/// How many phases have ended before a line.
fn phase_at(kinds: &[Kind], line: usize) -> u16
    ensures { result ≡ phase_at kinds.now line }
{
    let before = &kinds[..line.min(kinds.len())];
    let count = before.iter().filter(|kind| ends_phase(**kind)).count();
    count.min(65_535) as u16
}

/// The reply on which a line depends.
fn depends_on(kinds: &[Kind], line: usize) -> Option<Reply>
    ensures { result ≡ depends_on (slice_get kinds.now (line - 1)) }
{
    match kinds.get(line.saturating_sub(1)) {
        Some(kind) => match *kind {
            Kind::After(reply) => Some(reply),
            Kind::StopAfter(reply) => Some(reply),
            Kind::Plain => None,
            Kind::Phase => None,
        },
        None => None,
    }
}

/// An item that is at a line.
fn item_at(kinds: &[Kind], line: usize, act: Act) -> Item
    ensures { result ≡ item_at kinds.now line act }
{
    Item {
        phase: phase_at(kinds, line),
        after: depends_on(kinds, line),
        act,
    }
}

/// The item that a command is for a thread, if it is one.
fn item_in(kinds: &[Kind], thread: Tid, command: &Command) -> Option<Item>
    ensures { option_to_list result ≡ items_in kinds.now thread command.now }
{
    match command.action {
        Action::Call(caller, op) if caller == thread => {
            Some(item_at(kinds, command.line, Act::Call(op)))
        }
        Action::Go(caller) if caller == thread => Some(item_at(kinds, command.line, Act::Stop)),
        _ => None,
    }
}

/// What a thread has to do.
fn items_of(
    alloc: Global,
    kinds: &[Kind],
    commands: &[Command],
    thread: Tid,
) -> Result<Vec<Item>, AllocError>
    ensures { IfOk result (λ v. v.items ≡ flat_map (items_in kinds.now thread) commands.now) }
{
    let mut items = Vec::new(alloc);
    for command in commands {
        if let Some(item) = item_in(kinds, thread, command) {
            items.push(item)?;
        }
    }
    Ok(items)
}

/// What each thread has to do.
fn all_items(alloc: Global, explored: &Explored) -> Result<Vec<Vec<Item>>, AllocError>
    ensures { IfOk result (λ v. map (λ items. items.items) v.items
        ≡ map (λ i. items_of (said_by explored.now) (i + 1)) (range_with_len 0 (length explored.now.script.threads))) }
{
    let mut threads = Vec::new(alloc);
    for before in 0..explored.script.threads() {
        let thread = Tid::new(before + 1).unwrap();
        let items = items_of(alloc, &explored.kinds, explored.script.commands(), thread)?;
        threads.push(items)?;
    }
    Ok(threads)
}

/// What the counters begin with.
fn presets_of(alloc: Global, script: &Script) -> Result<Vec<u32>, AllocError>
    ensures { IfOk result (λ v. v.items ≡ map (λ c. c.counter) (map (λ x. x.1) script.now.conditions)) }
{
    let mut presets = Vec::new(alloc);
    for condition in 0..script.conditions() {
        presets.push(script.condition(condition).counter)?;
    }
    Ok(presets)
}

/// Whether a thread of this name may be killed: it is named, or none is.
fn may_die(named: &[&str], name: &str) -> bool
    ensures { result ≡ may_die (map (λ w. w.now) named.now) name.now }
{
    named.is_empty() || is_among(named, name)
}

/// Which threads may be killed.
fn killable_of(alloc: Global, script: &Script, named: &[&str]) -> Result<Vec<bool>, AllocError>
    ensures { IfOk result (λ v. v.items ≡ map (may_die (map (λ w. w.now) named.now)) script.now.threads) }
{
    let mut killable = Vec::new(alloc);
    for before in 0..script.threads() {
        killable.push(may_die(named, thread_name_at(script, before)))?;
    }
    Ok(killable)
}

/// What is explored of a script with these options.
pub fn plan_of(
    alloc: Global,
    explored: &Explored,
    options: &Options<'_>,
) -> Result<Plan, AllocError>
    ensures { IfOk result (IsPlanOf (said_by explored.now) (choices_of options.now)) }
{
    let presets = presets_of(alloc, &explored.script)?;
    let threads = all_items(alloc, explored)?;
    let killable = killable_of(alloc, &explored.script, &options.named)?;
    Ok(Plan {
        layout: explored.script.layout(),
        presets,
        threads,
        asked: Asked {
            kills: options.kills(),
            killable,
            expire: options.expire,
            leave: options.leave,
            spare: options.spare,
        },
    })
}
