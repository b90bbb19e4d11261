//! Reading a history line by line, from its first byte to its last.

ghost use Rattle.std.specs.Prelude.{◌≡◌, nat_lt, true};
ghost use Rattle.std.specs.Prelude.{not, reverse, IfOk, IfErr, IfSome};
ghost use Rattle.std.specs.Io.BufRead.{ends_with_byte, strip_last};
ghost use Rattle.lines.specs.Lines.{lines_of};
ghost use Rattle.histories.specs.Reading.{IsHead};
ghost use Rattle.judge_report.specs.Heard.{Begins, Closes, Cuts, Gives, Takes, begun, fault_at, heard_of, history_read};
ghost use Rattle.judge_report.specs.Heard.{IsUnread, lines_read, seen_with, unended};

use histories::{Entry, Fault, Head, HistoryFault, HistoryLine, Read, head_of, line_of};
use std::alloc::Global;
use std::io::{self, BufRead, ErrorKind};

/// A history that was read.
#[derive(Drop)]
pub struct History {
    /// The first line.
    pub head: Head,
    /// What is seen, in its order.
    pub lines: Vec<HistoryLine>,
    /// The latest event; at last the number on the last line.
    pub last: u64,
}

/// Why no history was read.
#[derive(Clone, Copy)]
pub enum ReadFault {
    /// The reader failed.
    Failed,
    /// No memory was left.
    Memory,
    /// The first fault of what was read.
    Ill(HistoryFault),
}

fn ill(line: u64, fault: Fault) -> ReadFault
    ensures { result ≡ ReadFault.Ill (fault_at line fault) }
{
    ReadFault::Ill(HistoryFault { line, fault })
}

/// Why a read failed.
fn failed(error: &io::Error) -> ReadFault
    ensures { IsUnread result }
{
    match error.kind() {
        ErrorKind::OutOfMemory => ReadFault::Memory,
        _ => ReadFault::Failed,
    }
}

/// Takes the line feed off that is at the end, if one does.
fn strip(line: &mut Vec<u8>) -> bool
    ensures feed { result ≡ ends_with_byte 10 line.old.items }
    ensures rest { line.new.items ≡ strip_last 10 line.old.items }
{
    let len = line.len();
    if len == 0 {
        return false;
    }
    if line[len - 1] != b'\n' {
        return false;
    }
    line.truncate(len - 1);
    true
}

/// Reads up to the next line feed, into `line`, which keeps what stands before it; false where there is none, and then
/// `line` has all that was left.
fn next_line<R: BufRead>(input: &mut R, line: &mut Vec<u8>) -> Result<bool, ReadFault>
    ensures cuts { IfOk result (λ whole. IfSome (R.remaining input.old)
        (λ bytes. Cuts bytes (R.remaining input.new) whole line.new.items)) }
    ensures fails { IfErr result IsUnread }
{
    line.clear();
    match input.read_until(b'\n', line) {
        Ok(_) => Ok(strip(line)),
        Err(error) => Err(failed(&error)),
    }
}

/// What is wrong with what stands after the last line feed, where there was no `end` line.
fn unended(rest: &[u8]) -> Fault
    ensures { result ≡ unended rest.now }
{
    if rest.is_empty() {
        Fault::Cut
    } else {
        Fault::UnknownWord
    }
}

impl History {
    /// Before the first line after the head.
    fn new(alloc: Global, head: Head) -> History
        ensures { heard_of result ≡ begun head }
    {
        History {
            head,
            lines: Vec::new(alloc),
            last: 0,
        }
    }

    /// Takes the number of this line's event, if it isn't below the one before.
    fn rise(&mut self, event: u64) -> bool
        ensures rises { result ≡ not (nat_lt event self.old.last) }
        ensures last { result ≡ true → self.new.last ≡ event }
        ensures head { self.new.head ≡ self.old.head }
        ensures lines { self.new.lines ≡ self.old.lines }
    {
        if event < self.last {
            return false;
        }
        self.last = event;
        true
    }

    /// Keeps what line `number` tells, if it tells what is seen.
    fn keep(&mut self, number: u64, event: u64, told: Option<Entry>) -> Result<(), ReadFault>
        ensures kept { IfOk result (λ _. reverse self.new.lines.items
            ≡ seen_with number event told (reverse self.old.lines.items)) }
        ensures head { self.new.head ≡ self.old.head }
        ensures last { self.new.last ≡ self.old.last }
        ensures wanted { IfErr result (λ e. e ≡ ReadFault.Memory) }
    {
        let Some(entry) = told else {
            return Ok(());
        };
        let line = HistoryLine {
            number,
            event,
            entry,
        };
        match self.lines.push(line) {
            Ok(()) => Ok(()),
            Err(_) => Err(ReadFault::Memory),
        }
    }

    /// Takes line `number`, and tells whether it is the last.
    fn take(&mut self, number: u64, line: &[u8]) -> Result<bool, ReadFault>
        requires { IsHead self.old.head }
        ensures takes { Takes (heard_of self.old) number line.now result (heard_of self.new) }
        ensures head { self.new.head ≡ self.old.head }
    {
        match line_of(&self.head, line) {
            Err(fault) => Err(ill(number, fault)),
            Ok(Read::Told(event, told)) => {
                if !self.rise(event) {
                    return Err(ill(number, Fault::OutOfRange));
                }
                match self.keep(number, event, told) {
                    Ok(()) => Ok(false),
                    Err(wanted) => Err(wanted),
                }
            }
            Ok(Read::End(count)) => {
                if self.rise(count) {
                    Ok(true)
                } else {
                    Err(ill(number, Fault::OutOfRange))
                }
            }
        }
    }
}

/// Nothing stands after the `end` line, at line `number`.
fn close<R: BufRead>(input: &mut R, line: &mut Vec<u8>, number: u64) -> Result<(), ReadFault>
    ensures { IfSome (R.remaining input.old) (λ bytes. Closes number (lines_of bytes) result) }
{
    let more = match next_line(input, line) {
        Ok(more) => more,
        Err(failure) => return Err(failure),
    };
    if more {
        return Err(ill(number, Fault::Cut));
    }
    if line.is_empty() {
        Ok(())
    } else {
        Err(ill(number, Fault::Cut))
    }
}

/// Reads the lines after the first.
fn read_lines<R: BufRead>(alloc: Global, head: Head, input: &mut R) -> Result<History, ReadFault>
    requires { IsHead head }
    ensures gives { IfSome (R.remaining input.old) (λ bytes. Gives (lines_read 2 (begun head) (lines_of bytes)) result) }
    ensures head { IfOk result (λ h. IsHead h.head) }
{
    let mut line = Vec::new(alloc);
    let mut history = History::new(alloc, head);
    for number in 2..u64::MAX {
        let whole = match next_line(input, &mut line) {
            Ok(whole) => whole,
            Err(failure) => return Err(failure),
        };
        if !whole {
            return Err(ill(number, unended(&line)));
        }
        let ends = match history.take(number, &line) {
            Ok(ends) => ends,
            Err(failure) => return Err(failure),
        };
        if ends {
            match close(input, &mut line, number + 1) {
                Ok(()) => return Ok(history),
                Err(failure) => return Err(failure),
            }
        }
    }
    // more lines than any file has
    Err(ReadFault::Failed)
}

/// Reads the first line.
fn read_head<R: BufRead>(alloc: Global, input: &mut R) -> Result<Head, ReadFault>
    ensures begins { IfSome (R.remaining input.old) (λ bytes. Begins bytes (R.remaining input.new) result) }
    ensures head { IfOk result IsHead }
{
    let mut line = Vec::new(alloc);
    let whole = match next_line(input, &mut line) {
        Ok(whole) => whole,
        Err(failure) => return Err(failure),
    };
    if !whole {
        return Err(ill(1, unended(&line)));
    }
    match head_of(&line) {
        Ok(head) => Ok(head),
        Err(fault) => Err(ill(1, fault)),
    }
}

/// Reads a history. It keeps what is seen, and of the text one line at a time.
pub fn read_history<R: BufRead>(alloc: Global, input: &mut R) -> Result<History, ReadFault>
    ensures gives { IfSome (R.remaining input.old) (λ bytes. Gives (history_read bytes) result) }
    ensures head { IfOk result (λ h. IsHead h.head) }
{
    match read_head(alloc, input) {
        Ok(head) => read_lines(alloc, head, input),
        Err(failure) => Err(failure),
    }
}
