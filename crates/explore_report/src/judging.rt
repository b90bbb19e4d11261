//! Whether the outcomes have what `--never` and `--always` ask for.

ghost use Rattle.std.specs.Prelude.{◌≡◌, ◌++◌, map, OnOk};
ghost use Rattle.std.specs.List.{flat_map};
ghost use Rattle.explore_report.specs.Texts.{are_met, breaks, demand_text, demanded, first_broken, holds_words};
ghost use Rattle.explore_report.specs.Texts.{is_broken, start_words, verdict_text};

use crate::patterns::{Pattern, is_met};
use itoa::Buffer;
use outcomes::Witnessed;
use reasons::add;
use std::alloc::AllocError;

/// What is asked of every outcome.
#[derive(Clone, Copy)]
pub struct Demand<'a> {
    /// The pattern's words.
    pub words: &'a str,
    pub pattern: Pattern,
    /// Whether each outcome has to meet it; else none may.
    pub always: bool,
}

/// Whether an outcome breaks a demand.
fn breaks(pattern: Pattern, always: bool, witnessed: &Witnessed) -> bool
    ensures { result ≡ breaks pattern always witnessed.now }
{
    if is_met(&witnessed.outcome, pattern) {
        !always
    } else {
        always
    }
}

/// The number of the first outcome that breaks a demand, from 1.
fn broken_by(outcomes: &[&Witnessed], demand: &Demand<'_>) -> Option<usize>
    ensures { result ≡ first_broken (demanded demand.now) 0 (map (λ w. w.now) outcomes.now) }
{
    let mut number = 0;
    for witnessed in outcomes {
        number += 1;
        if breaks(demand.pattern, demand.always, witnessed) {
            return Some(number);
        }
    }
    None
}

/// What a demand begins with.
fn start_words(always: bool) -> &'static str
    ensures { result.now ≡ start_words always }
{
    if always { "always " } else { "never " }
}

/// What is said of a demand that no outcome breaks.
fn holds_words(complete: bool) -> &'static str
    ensures { result.now ≡ holds_words complete }
{
    if complete {
        ": holds\n"
    } else {
        ": holds so far\n"
    }
}

/// Which outcome breaks a demand, if one does.
fn add_verdict(text: &mut Vec<u8>, complete: bool, broken: Option<usize>) -> Result<(), AllocError>
    ensures { OnOk result (text.new.items ≡ text.old.items ++ verdict_text complete broken) }
{
    match broken {
        Some(number) => {
            let mut numbers = Buffer::new();
            add(
                text,
                &[": broken by outcome ", numbers.format(number), "\n"],
            )
        }
        None => text.extend_from_slice(holds_words(complete).as_bytes()),
    }
}

/// Whether an outcome breaks a demand.
fn is_broken(outcomes: &[&Witnessed], demand: &Demand<'_>) -> bool
    ensures { result ≡ is_broken (map (λ w. w.now) outcomes.now) (demanded demand.now) }
{
    broken_by(outcomes, demand).is_some()
}

/// Whether no outcome breaks any of these demands.
pub fn are_met(outcomes: &[&Witnessed], demands: &[Demand<'_>]) -> bool
    ensures { result ≡ are_met (map (λ w. w.now) outcomes.now) (map demanded demands.now) }
{
    for demand in demands {
        if is_broken(outcomes, demand) {
            return false;
        }
    }
    true
}

/// Adds whether a demand is met, or which outcome breaks it first.
fn add_demand(
    text: &mut Vec<u8>,
    outcomes: &[&Witnessed],
    complete: bool,
    demand: &Demand<'_>,
) -> Result<(), AllocError>
    ensures { OnOk result (text.new.items
        ≡ text.old.items ++ demand_text complete (map (λ w. w.now) outcomes.now) (demanded demand.now)) }
{
    text.extend_from_slice(start_words(demand.always).as_bytes())?;
    text.extend_from_slice(demand.words.as_bytes())?;
    add_verdict(text, complete, broken_by(outcomes, demand))
}

/// Adds the same for each of these demands.
pub fn add_demands(
    text: &mut Vec<u8>,
    outcomes: &[&Witnessed],
    complete: bool,
    demands: &[Demand<'_>],
) -> Result<(), AllocError>
    ensures { OnOk result (text.new.items ≡ text.old.items
        ++ flat_map (demand_text complete (map (λ w. w.now) outcomes.now)) (map demanded demands.now)) }
{
    for demand in demands {
        add_demand(text, outcomes, complete, demand)?;
    }
    Ok(())
}
