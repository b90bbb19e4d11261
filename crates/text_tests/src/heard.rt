//! Histories that are written out.

ghost use Rattle.std.specs.Prelude.{IfSome};
ghost use Rattle.histories.specs.Reading.{IsHead};

use histories::{Head, HistoryLine, Read, head_of, line_of};
use lines::cut;
use std::alloc::Global;

/// What was read of a history's text.
#[derive(Drop)]
pub struct Heard {
    pub head: Head,
    pub lines: Vec<HistoryLine>,
}

/// The lines after the first, up to the `end` line; None where one is none, or no memory is left.
fn lines_in(alloc: Global, head: &Head, text: &str) -> Option<Vec<HistoryLine>>
    requires { IsHead head.now }
{
    let mut heard = Vec::new(alloc);
    let mut rest = text;
    for number in 2..u64::MAX {
        let (line, after) = cut(rest, '\n')?;
        match line_of(head, line.as_bytes()).ok()? {
            Read::Told(event, Some(entry)) => {
                let told = HistoryLine {
                    number,
                    event,
                    entry,
                };
                if heard.push(told).is_err() {
                    return None;
                }
            }
            Read::Told(_, None) => {}
            Read::End(_) => return Some(heard),
        }
        rest = after;
    }
    None
}

/// The history that the text is.
pub fn hear(alloc: Global, text: &str) -> Option<Heard>
    ensures { IfSome result (λ h. IsHead h.head) }
{
    let (first, rest) = cut(text, '\n')?;
    let head = head_of(first.as_bytes()).ok()?;
    let lines = lines_in(alloc, &head, rest)?;
    Some(Heard { head, lines })
}
