//! What the program does with a file.

use report::{Form, serve};
use std::io::Read;
use std::sync::Wait;
use std::thread::Threads;
use text_fixtures::{Answered, Faulty, Fixed, wants_memory};

/// A form of the program, the file being open as `input`.
pub fn served(
    rt: &(impl AllocGlobal + Threads + Wait + Sync),
    form: &Form<'_>,
    input: &mut impl Read,
) -> Answered {
    let mut printed = Vec::new(rt.alloc());
    let mut told = Vec::new(rt.alloc());
    let status = serve(rt, rt.alloc(), form, input, &mut printed, &mut told);
    Answered::new(status, printed, told)
}

/// Whether the program printed this and told nothing; or printed nothing, and told that memory was refused.
pub fn is_printed_or_wants_memory(status: u8, out: &Fixed, err: &Fixed, printed: &str) -> bool {
    if status == 0 {
        return out.bytes() == printed.as_bytes() && err.bytes().is_empty();
    }
    wants_memory(status, out, err, b"rfx: ")
}

/// Whether a form of the program prints this and tells nothing; or prints nothing, and tells that memory was refused.
pub fn is_served_or_wants_memory(
    rt: &(impl AllocGlobal + Threads + Wait + Sync),
    form: &Form<'_>,
    input: &mut impl Read,
    printed: &str,
) -> bool {
    let mut out = Fixed::new();
    let mut err = Fixed::new();
    let status = serve(rt, rt.alloc(), form, input, &mut out, &mut err);
    is_printed_or_wants_memory(status, &out, &err, printed)
}

/// Whether a form of the program, whose text a writer with this room can't hold, tells so and writes the text's
/// beginning.
pub fn is_told_of_room(
    rt: &(impl AllocGlobal + Threads + Wait + Sync),
    form: &Form<'_>,
    input: &mut impl Read,
    text: &str,
    room: usize,
) -> bool {
    let mut out = Faulty::new(rt.alloc(), room, false);
    let mut err = Vec::new(rt.alloc());
    let status = serve(rt, rt.alloc(), form, input, &mut out, &mut err);
    let front = text.as_bytes().get(..room).unwrap_or(b"");
    status == 1
        && out.held.as_slice() == front
        && err.as_slice() == b"rfx: cannot write\n".as_slice()
}
