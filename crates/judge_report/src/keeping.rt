//! Keeping a certificate: in one file, or in a file for each of its windows.

ghost use Rattle.std.specs.Prelude.{◌≡◌, ◌≤◌, ◌+◌, [], length, reverse, string_bytes, IfOk, IfErr};
ghost use Rattle.std.specs.IoError.{error_kind};
ghost use Rattle.histories.specs.Reading.{IsHead};
ghost use Rattle.windows.specs.Texts.{certificate_text, steps_count};
ghost use Rattle.windows.specs.Windows.{IsWindow};
ghost use Rattle.judge_report.specs.Asked.{kept_of};
ghost use Rattle.judge_report.specs.Heard.{heard_of};
ghost use Rattle.judge_report.specs.Kept.{AreKept, IsCleared, IsCutOf, IsFilled, IsIllegalKept, IsKept, IsUnkept};
ghost use Rattle.judge_report.specs.Kept.{IsUndecidedKept, IsWindowKept, IsWritten, OrMemory};
ghost use Rattle.judge_report.specs.Kept.{uncut_by, unkept_by, window_name};

use crate::asking::Keeping;
use crate::making::Maker;
use crate::messages::Failure;
use crate::reading::History;
use histories::{Entry, Head};
use itoa::Buffer;
use judge::Judgement;
use std::alloc::{AllocError, Global};
use std::io::{self, ErrorKind};
use streams::put_text;
use windows::{Cutter, Stop, Window, events_of, write_certificate};

/// What a window has of its certificate.
#[derive(Clone, Copy)]
pub struct Cut {
    /// The window's number, counted from 1.
    pub number: usize,
    /// How many of the certificate's events stand before the window's.
    pub before: usize,
    /// The last of the certificate's events that it has.
    pub last: usize,
    /// How many events it begins with that aren't the certificate's.
    pub preamble: usize,
}

/// Fills the file of this name with a certificate.
fn fill<M: Maker>(maker: &M, name: &str, head: &Head, steps: &[Entry]) -> io::Result<()>
    ensures { IfOk result (λ _. IsWritten (M.makes maker.now) (M.fills maker.now) name.now
        (certificate_text head.now steps.now)) }
{
    let mut file = maker.make(name)?;
    write_certificate(&mut file, head, steps)?;
    maker.fill(name, file)
}

/// Fills the file of this name with a text.
fn fill_text<M: Maker>(maker: &M, name: &str, text: &[u8]) -> io::Result<()>
    ensures { IfOk result (λ _. IsWritten (M.makes maker.now) (M.fills maker.now) name.now text.now) }
{
    let mut file = maker.make(name)?;
    put_text(&mut file, text)?;
    maker.fill(name, file)
}

/// The name of the file that has the window with this number.
fn window_name(alloc: Global, out: &str, number: usize) -> Result<String, AllocError>
    ensures { IfOk result (λ name. string_bytes name ≡ window_name out.now number) }
{
    let mut name = String::from_str(alloc, out)?;
    name.push_str(".")?;
    let mut digits = Buffer::new();
    name.push_str(digits.format(number as u64))?;
    Ok(name)
}

/// What it is reported as that a certificate isn't cut.
fn uncut_by(why: Stop) -> Failure
    ensures { result ≡ uncut_by why }
{
    match why {
        Stop::TooMany => Failure::TooMany,
        Stop::Memory => Failure::OutOfMemory,
        Stop::NoPlace | Stop::Refused => Failure::NoPlace,
    }
}

/// What it is reported as that a file couldn't be written or removed, if no memory was refused: this failure.
fn unkept_by(error: &io::Error, failure: Failure) -> Failure
    requires { IsUnkept failure }
    ensures value { result ≡ unkept_by (error_kind error.now) failure }
    ensures this { OrMemory failure result }
    ensures fails { IsUnkept result }
{
    match error.kind() {
        ErrorKind::OutOfMemory => Failure::OutOfMemory,
        _ => failure,
    }
}

/// What the window with this number has of these steps.
fn cut_of(steps: &[Entry], number: usize, window: &Window) -> Cut
    requires order { window.now.from ≤ window.now.to }
    requires within { window.now.to ≤ length steps.now }
    ensures cut { IsCutOf steps.now window.now result }
    ensures number { result.number ≡ number }
{
    Cut {
        number,
        before: events_of(&steps[..window.from]),
        last: events_of(&steps[..window.to]),
        preamble: window.preamble,
    }
}

/// Fills the file of the window with this number.
fn keep_window<M: Maker>(
    alloc: Global,
    maker: &M,
    out: &str,
    number: usize,
    window: &Window,
) -> Result<(), Failure>
    ensures kept { IfOk result (λ _. IsWritten (M.makes maker.now) (M.fills maker.now) (window_name out.now number)
        window.now.text.items) }
    ensures fails { IfErr result IsUnkept }
    ensures this { IfErr result (OrMemory (Failure.CannotKeepWindow number)) }
{
    let Ok(name) = window_name(alloc, out, number) else {
        return Err(Failure::OutOfMemory);
    };
    match fill_text(maker, &name, &window.text) {
        Ok(()) => Ok(()),
        Err(error) => Err(unkept_by(&error, Failure::CannotKeepWindow(number))),
    }
}

/// Removes the file of the window with this number; false if there is none.
fn remove_window<M: Maker>(
    alloc: Global,
    maker: &M,
    out: &str,
    number: usize,
) -> Result<bool, Failure>
    ensures removed { IfOk result (λ _. M.lacks maker.now (window_name out.now number)) }
    ensures fails { IfErr result IsUnkept }
    ensures this { IfErr result (OrMemory (Failure.CannotRemove number)) }
{
    let Ok(name) = window_name(alloc, out, number) else {
        return Err(Failure::OutOfMemory);
    };
    match maker.remove(&name) {
        Ok(removed) => Ok(removed),
        Err(error) => Err(unkept_by(&error, Failure::CannotRemove(number))),
    }
}

/// Removes the files of windows after this many, which another history left, up to the first that isn't there. Returns
/// these windows.
fn without_older<M: Maker>(
    alloc: Global,
    maker: &M,
    out: &str,
    cuts: Vec<Cut>,
) -> Result<Vec<Cut>, Failure>
    ensures same { IfOk result (λ kept. kept.items ≡ cuts.items) }
    ensures removed { IfOk result (λ kept. M.lacks maker.now (window_name out.now (length kept.items + 1))) }
    ensures fails { IfErr result IsUnkept }
{
    let first = cuts.len() + 1;
    let mut removed = remove_window(alloc, maker, out, first)?;
    for number in first.saturating_add(1)..usize::MAX {
        if !removed {
            break;
        }
        removed = remove_window(alloc, maker, out, number)?;
    }
    Ok(cuts)
}

/// Cuts a certificate, fills a file for each window, and removes those of later windows. Returns what the windows have of
/// it.
fn keep_windows<M: Maker>(
    alloc: Global,
    maker: &M,
    out: &str,
    head: &Head,
    steps: &[Entry],
) -> Result<Vec<Cut>, Failure>
    requires { IsHead head.now }
    ensures kept { IfOk result (λ cuts. AreKept (M.makes maker.now) (M.fills maker.now) out.now head.now steps.now
        (length steps.now) (reverse cuts.items)) }
    ensures removed { IfOk result (λ cuts. M.lacks maker.now (window_name out.now (length cuts.items + 1))) }
    ensures fails { IfErr result IsUnkept }
{
    let mut cutter = match Cutter::new(alloc, head) {
        Ok(cutter) => cutter,
        Err(why) => return Err(uncut_by(why)),
    };
    let mut cuts = Vec::new(alloc);
    loop {
        let window = match cutter.next(alloc, head, steps) {
            Ok(Some(window)) => window,
            Ok(None) => return without_older(alloc, maker, out, cuts),
            Err(why) => return Err(uncut_by(why)),
        };
        let number = cuts.len() + 1;
        keep_window(alloc, maker, out, number, &window)?;
        let cut = cut_of(steps, number, &window);
        let Ok(()) = cuts.push(cut) else {
            return Err(Failure::OutOfMemory);
        };
    }
}

/// Keeps a certificate where it is to be kept; which windows it was cut into.
fn keep_steps<M: Maker>(
    alloc: Global,
    maker: &M,
    keeping: Keeping<'_>,
    head: &Head,
    steps: &[Entry],
) -> Result<Vec<Cut>, Failure>
    requires { IsHead head.now }
    ensures kept { IfOk result (λ cuts. IsKept (M.makes maker.now) (M.fills maker.now) (kept_of keeping.entry) head.now
        steps.now cuts.items) }
    ensures removed { IfOk result (λ cuts. IsCleared (M.lacks maker.now) (kept_of keeping.entry) cuts.items) }
    ensures fails { IfErr result IsUnkept }
{
    match keeping {
        Keeping::Nowhere => Ok(Vec::new(alloc)),
        Keeping::Whole(name) => match fill(maker, name, head, steps) {
            Ok(()) => Ok(Vec::new(alloc)),
            Err(error) => Err(unkept_by(&error, Failure::CannotKeep)),
        },
        Keeping::Windows(out) => keep_windows(alloc, maker, out, head, steps),
    }
}

/// Removes the files of windows, as the history has none.
fn keep_no_window<M: Maker>(alloc: Global, maker: &M, out: &str) -> Result<Vec<Cut>, Failure>
    ensures none { IfOk result (λ cuts. cuts.items ≡ []) }
    ensures removed { IfOk result (λ cuts. M.lacks maker.now (window_name out.now (length cuts.items + 1))) }
    ensures fails { IfErr result IsUnkept }
{
    without_older(alloc, maker, out, Vec::new(alloc))
}

/// Keeps the trace of an illegal history up to its illegal line, if it is to be kept whole; windows it has none.
fn keep_illegal<M: Maker>(
    alloc: Global,
    maker: &M,
    keeping: Keeping<'_>,
    head: &Head,
    steps: &[Entry],
) -> Result<Vec<Cut>, Failure>
    ensures kept { IfOk result (λ cuts. IsIllegalKept (M.makes maker.now) (M.fills maker.now) (kept_of keeping.entry)
        head.now steps.now × (cuts.items ≡ [])) }
    ensures removed { IfOk result (λ cuts. IsCleared (M.lacks maker.now) (kept_of keeping.entry) cuts.items) }
    ensures fails { IfErr result IsUnkept }
{
    match keeping {
        Keeping::Nowhere => Ok(Vec::new(alloc)),
        Keeping::Whole(name) => match fill(maker, name, head, steps) {
            Ok(()) => Ok(Vec::new(alloc)),
            Err(error) => Err(unkept_by(&error, Failure::CannotKeep)),
        },
        Keeping::Windows(out) => keep_no_window(alloc, maker, out),
    }
}

/// Leaves the file empty that is to have the trace of an undecided history, which has none: so no older trace stays there.
fn keep_undecided<M: Maker>(
    alloc: Global,
    maker: &M,
    keeping: Keeping<'_>,
) -> Result<Vec<Cut>, Failure>
    ensures kept { IfOk result (λ cuts. IsUndecidedKept (M.makes maker.now) (M.fills maker.now) (kept_of keeping.entry)
        × (cuts.items ≡ [])) }
    ensures removed { IfOk result (λ cuts. IsCleared (M.lacks maker.now) (kept_of keeping.entry) cuts.items) }
    ensures fails { IfErr result IsUnkept }
{
    match keeping {
        Keeping::Nowhere => Ok(Vec::new(alloc)),
        Keeping::Whole(name) => match fill_text(maker, name, &[]) {
            Ok(()) => Ok(Vec::new(alloc)),
            Err(error) => Err(unkept_by(&error, Failure::CannotKeep)),
        },
        Keeping::Windows(out) => keep_no_window(alloc, maker, out),
    }
}

/// Keeps the certificate, where there is one, where it is to be kept, or a trace of an illegal history up to its illegal
/// line; of an undecided one the file is left empty. The files of windows after these are removed, up to the first number
/// that no file has. Returns which windows the certificate was cut into.
pub fn keep<M: Maker>(
    alloc: Global,
    maker: &M,
    keeping: Keeping<'_>,
    history: &History,
    judgement: &Judgement,
) -> Result<Vec<Cut>, Failure>
    requires { IsHead history.now.head }
    ensures filled { IfOk result (λ cuts. IsFilled (M.makes maker.now) (M.fills maker.now) (kept_of keeping.entry)
        (heard_of history.now) judgement.now cuts.items) }
    ensures removed { IfOk result (λ cuts. IsCleared (M.lacks maker.now) (kept_of keeping.entry) cuts.items) }
    ensures fails { IfErr result IsUnkept }
{
    match judgement {
        Judgement::Legal(steps) => keep_steps(alloc, maker, keeping, &history.head, steps),
        Judgement::Illegal { steps, .. } => {
            keep_illegal(alloc, maker, keeping, &history.head, steps)
        }
        Judgement::Undecided(_) => keep_undecided(alloc, maker, keeping),
    }
}
