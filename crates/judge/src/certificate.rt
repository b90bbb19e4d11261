//! A certificate of a history's lines, if one is found.

ghost use Rattle.std.specs.Prelude.{◌≡◌, true, reverse, IfOk, IfSome};
ghost use Rattle.certificates.specs.Certificates.{IsCertificate, entries};
ghost use Rattle.histories.specs.Histories.{LegalHistory};
ghost use Rattle.histories.specs.Reading.{IsHead};

use crate::kills::{Doomed, doomed_in, go_on, tries_of, with_dooms, with_kills};
use certificates::certify;
use completing::{Pass, Stop, has_dooms, weave};
use histories::{Entry, Head, HistoryLine};
use std::alloc::Global;

/// A pass over these lines; or the reason why none is.
pub fn pass_over(alloc: Global, head: &Head, lines: &[HistoryLine]) -> Result<Pass, Stop> {
    let mut pass = Pass::new(alloc, head, lines)?;
    for line in lines {
        pass.take(&line.entry)?;
    }
    Ok(pass)
}

/// The steps woven from a pass, if they are a certificate.
fn woven(
    alloc: Global,
    head: &Head,
    lines: &[HistoryLine],
    pass: &mut Pass,
    late: bool,
) -> Result<Option<Vec<Entry>>, Stop>
    requires { IsHead head.now }
    ensures { IfOk result (λ found. IfSome found (λ steps. IsCertificate head.now.mutexes lines.now steps.items)) }
{
    let steps = match weave(alloc, lines, pass, late) {
        Ok(steps) => steps,
        Err(Stop::Memory) => return Err(Stop::Memory),
        Err(_) => return Ok(None),
    };
    if certify(alloc, head, lines, &steps)? {
        Ok(Some(steps))
    } else {
        Ok(None)
    }
}

/// A certificate of these lines, if a pass over them finds one.
fn certificate_by_pass(
    alloc: Global,
    head: &Head,
    lines: &[HistoryLine],
) -> Result<Option<Vec<Entry>>, Stop>
    requires { IsHead head.now }
    ensures { IfOk result (λ found. IfSome found (λ steps. IsCertificate head.now.mutexes lines.now steps.items)) }
{
    let mut pass = match pass_over(alloc, head, lines) {
        Ok(pass) => pass,
        Err(Stop::Memory) => return Err(Stop::Memory),
        Err(_) => return Ok(None),
    };
    let found = woven(alloc, head, lines, &mut pass, false)?;
    if found.is_some() || !has_dooms(lines) {
        return Ok(found);
    }
    woven(alloc, head, lines, &mut pass, true)
}

/// Steps of the lines with kills where they are tried, if a pass over those finds them: as steps of these lines.
fn steps_by_kills(
    alloc: Global,
    head: &Head,
    lines: &[HistoryLine],
    doomed: &[Doomed],
) -> Result<Option<Vec<Entry>>, Stop>
    requires { IsHead head.now }
{
    let changed = with_kills(alloc, lines, doomed)?;
    match certificate_by_pass(alloc, head, &changed)? {
        Some(steps) => Ok(Some(with_dooms(alloc, lines, doomed, &steps)?)),
        None => Ok(None),
    }
}

/// The same, if the steps are a certificate of these lines.
fn certificate_by_kills(
    alloc: Global,
    head: &Head,
    lines: &[HistoryLine],
    doomed: &[Doomed],
) -> Result<Option<Vec<Entry>>, Stop>
    requires { IsHead head.now }
    ensures { IfOk result (λ found. IfSome found (λ steps. IsCertificate head.now.mutexes lines.now steps.items)) }
{
    let Some(steps) = steps_by_kills(alloc, head, lines, doomed)? else {
        return Ok(None);
    };
    if certify(alloc, head, lines, &steps)? {
        Ok(Some(steps))
    } else {
        Ok(None)
    }
}

/// A certificate of these lines, if one is found with kills instead of dooms, at the moments that are tried.
fn certificate_by_tries(
    alloc: Global,
    head: &Head,
    lines: &[HistoryLine],
) -> Result<Option<Vec<Entry>>, Stop>
    requires { IsHead head.now }
    ensures { IfOk result (λ found. IfSome found (λ steps. IsCertificate head.now.mutexes lines.now steps.items)) }
{
    let mut doomed = doomed_in(alloc, lines)?;
    for _ in 0..tries_of(lines) {
        if !go_on(&mut doomed) {
            return Ok(None);
        }
        let found = certificate_by_kills(alloc, head, lines, &doomed)?;
        if found.is_some() {
            return Ok(found);
        }
    }
    Ok(None)
}

/// A certificate of these lines, if one is found. Tries are made only where a pass over the lines isn't refused.
pub fn certificate_of(
    alloc: Global,
    head: &Head,
    lines: &[HistoryLine],
) -> Result<Option<Vec<Entry>>, Stop>
    requires { IsHead head.now }
    ensures { IfOk result (λ found. IfSome found (λ steps. IsCertificate head.now.mutexes lines.now steps.items)) }
{
    let found = certificate_by_pass(alloc, head, lines)?;
    if found.is_some() || !has_dooms(lines) {
        return Ok(found);
    }
    match pass_over(alloc, head, lines) {
        Ok(_pass) => certificate_by_tries(alloc, head, lines),
        Err(Stop::Memory) => Err(Stop::Memory),
        Err(_) => Ok(None),
    }
}

/// Whether a certificate of these lines is found.
pub fn has_certificate(alloc: Global, head: &Head, lines: &[HistoryLine]) -> Result<bool, Stop>
    requires { IsHead head.now }
    ensures { IfOk result (λ found. found ≡ true → LegalHistory head.now.mutexes (reverse (entries lines.now))) }
{
    let Some(_steps) = certificate_of(alloc, head, lines)? else {
        return Ok(false);
    };
    Ok(true)
}
