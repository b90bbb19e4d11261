//! Reading and judging a trace from its first byte to its last.

ghost use Rattle.std.specs.Prelude.{◌≡◌, ◌+◌, ◌<◌, ◌≤◌, nat_lt, [], length, IfOk};
ghost use Rattle.lines.specs.Lines.{lines_of};
ghost use Rattle.verdict.specs.Limits.{max_bytes};
ghost use Rattle.verdict.specs.Judges.{IsInside, IsSound};
ghost use Rattle.verdict.specs.Passes.{AnswersLines, IsFresh, MakesPass, Takes, found_at};
ghost use Rattle.verdict.specs.Reading.{IsHead, head_read, lines_read, text_read, trace_read, unended};
ghost use Rattle.verdict.specs.Verdicts.{Answers, Tells, verdict_of};

use crate::fault::{Fault, TraceFault};
use crate::head::Head;
use crate::judge::Judge;
use crate::limits::MAX_BYTES;
use crate::misfit::{Misfit, TraceMisfit};
use crate::reading::{Read, head_of, line_of};
use facts::Line;
use lines::{cut, text_of};
use std::alloc::{AllocError, Global};

/// What a trace without fault is found to be.
#[derive(Clone, Copy, Debug, PartialEq, Eq)]
pub enum Verdict {
    /// Each line fits those before it.
    Legal {
        /// How many of its lines tell of a point.
        points: usize,
    },
    /// A line doesn't fit.
    Illegal {
        /// The first such line, from 1.
        line: usize,
    },
}

/// What a trace without fault is found to be, and why.
#[derive(Clone, Copy, Debug, PartialEq, Eq)]
pub enum Finding {
    /// Each line fits those before it.
    Legal {
        /// How many of its lines tell of a point.
        points: usize,
    },
    /// A line doesn't fit.
    Illegal(TraceMisfit),
}

impl Finding {
    /// The verdict, without the reason.
    pub fn verdict(self) -> Verdict
        ensures { result ≡ verdict_of self }
    {
        match self {
            Finding::Legal { points } => Verdict::Legal { points },
            Finding::Illegal(why) => Verdict::Illegal { line: why.line },
        }
    }
}

/// A pass over the lines of a trace.
#[derive(Drop)]
pub struct Pass {
    /// What the lines told that fit.
    pub judge: Judge,
    pub points: usize,
    /// The first line that doesn't fit, and why.
    pub illegal: Option<TraceMisfit>,
}

impl Pass {
    /// Before the first line after the head.
    fn new(alloc: Global, head: Head) -> Result<Pass, AllocError>
        requires { IsHead head }
        ensures { IfOk result (λ p. IsFresh p × (p.judge.head ≡ head)) }
    {
        Ok(Pass {
            judge: Judge::new(alloc, head)?,
            points: 0,
            illegal: None,
        })
    }

    /// Judges the entry at this line, unless a line before it didn't fit.
    fn take(&mut self, line: usize, entry: &Line)
        requires sound { IsSound self.old.judge }
        requires inside { IsInside (length self.old.judge.stages.items) (length self.old.judge.objects.items)
            entry.now.fact }
        requires room { self.old.points < max_bytes }
        ensures takes { Takes self.old line entry.now self.new }
        ensures sound { IsSound self.new.judge }
        ensures head { self.new.judge.head ≡ self.old.judge.head }
        ensures stages { length self.new.judge.stages.items ≡ length self.old.judge.stages.items }
        ensures objects { length self.new.judge.objects.items ≡ length self.old.judge.objects.items }
        ensures points { self.new.points ≤ self.old.points + 1 }
    {
        if self.illegal.is_some() {
            return;
        }
        if let Err(misfit) = self.judge.accept(entry) {
            self.illegal = Some(TraceMisfit { line, misfit });
            return;
        }
        if entry.fact.is_point() {
            self.points += 1;
        }
    }

    /// What is found at the last line, which has this number of events.
    fn finding(&self, line: usize, last: u32) -> Finding
        ensures { result
            ≡ found_at self.now.illegal self.now.points line self.now.judge.place.event
            (nat_lt last self.now.judge.place.event) }
    {
        let latest = self.judge.place.event;
        match self.illegal {
            Some(why) => Finding::Illegal(why),
            None => {
                if last < latest {
                    Finding::Illegal(TraceMisfit {
                        line,
                        misfit: Misfit::EndFalls { latest },
                    })
                } else {
                    Finding::Legal {
                        points: self.points,
                    }
                }
            }
        }
    }
}

/// What is wrong with what stands after the last line feed, where there was no `end` line.
pub(crate) fn unended_by(rest: &str) -> Fault
    ensures { result ≡ unended rest.now }
{
    match rest.as_bytes() {
        [] => Fault::Cut,
        [_, ..] => Fault::UnknownWord,
    }
}

fn judge_lines(mut pass: Pass, text: &str) -> Result<Finding, TraceFault>
    requires fresh { IsFresh pass }
    requires small { length text.now ≤ max_bytes }
    ensures { AnswersLines (lines_read 2 pass.judge.head [] (lines_of text.now)) result }
{
    let mut line = 2;
    let mut rest = text;
    while let Some((first, after)) = cut(rest, '\n') {
        let read = match line_of(&pass.judge.head, first) {
            Ok(read) => read,
            Err(fault) => return Err(TraceFault { line, fault }),
        };
        match read {
            Read::Told(entry) => pass.take(line, &entry),
            Read::End(last) => {
                if after.is_empty() {
                    return Ok(pass.finding(line, last));
                }
                return Err(TraceFault {
                    line: line + 1,
                    fault: Fault::Cut,
                });
            }
        }
        line += 1;
        rest = after;
    }
    Err(TraceFault {
        line,
        fault: unended_by(rest),
    })
}

fn pass_of(alloc: Global, text: &str) -> Result<Pass, Fault>
    ensures { MakesPass (head_read text.now) result }
{
    let head = head_of(text)?;
    Ok(Pass::new(alloc, head)?)
}

fn explain_text(alloc: Global, text: &str) -> Result<Finding, TraceFault>
    requires { length text.now ≤ max_bytes }
    ensures { Tells (text_read (lines_of text.now)) result }
{
    let Some((first, rest)) = cut(text, '\n') else {
        return Err(TraceFault {
            line: 1,
            fault: unended_by(text),
        });
    };
    match pass_of(alloc, first) {
        Ok(pass) => judge_lines(pass, rest),
        Err(fault) => Err(TraceFault { line: 1, fault }),
    }
}

/// Whether the bytes are a legal trace, or the first line that doesn't fit those before it and why; else, as [`check`]
/// does, the first fault. The reasons are tried in this order: the line's event, its thread, its mutex.
pub fn explain(alloc: Global, bytes: &[u8]) -> Result<Finding, TraceFault>
    ensures { Tells (trace_read bytes.now) result }
{
    if bytes.len() > MAX_BYTES {
        return Err(TraceFault {
            line: 1,
            fault: Fault::TooLong,
        });
    }
    match text_of(bytes) {
        Ok(text) => explain_text(alloc, text),
        Err(line) => Err(TraceFault {
            line,
            fault: Fault::NotUtf8,
        }),
    }
}

/// Whether the bytes are a legal trace, or the first line that doesn't fit those before it; where they are no trace,
/// their first fault, wherever a line doesn't fit. Only lack of memory, at line 1, may come in the place of a verdict
/// or of a later line's fault.
pub fn check(alloc: Global, bytes: &[u8]) -> Result<Verdict, TraceFault>
    ensures { Answers (trace_read bytes.now) result }
{
    match explain(alloc, bytes) {
        Ok(finding) => Ok(finding.verdict()),
        Err(fault) => Err(fault),
    }
}
