//! `rfx check` of traces that are long or can't be read, and refused memory.

use crate::served::{is_printed_or_wants_memory, served};
use report::{Form, OUT_OF_MEMORY, serve};
use std::io::{Chain, Read, Repeat, Take, repeat};
use text_fixtures::{Fixed, slow_reader};

/// The first line of a trace.
const HEAD: &[u8] = b"trace 1 1 0\n";

/// A first line, and a second one of this length that no line feed ends.
fn long_trace(length: u64) -> Chain<&'static [u8], Take<Repeat>> {
    HEAD.chain(repeat(b'x').take(length))
}

#[test]
fn a_trace_of_many_parts_is_read(rt: HostRuntime) {
    for length in [8_179, 8_180, 8_181, 16_371, 16_372, 16_373, 50_000] {
        let served = served(&rt, &Form::Check("f"), &mut long_trace(length));
        assert!(rt; served.is(1, "", "rfx: line 2: fault 2: unknown word\n"));
    }
}

/// Of a trace that is too long one byte is read past the limit.
#[test]
fn a_trace_that_is_too_long_is_told(rt: HostRuntime) {
    let mut input = repeat(b'x').take(33_554_440);
    let served = served(&rt, &Form::Check("f"), &mut input);
    assert!(rt; served.is(1, "", "rfx: line 1: fault 4: too long\n"));
    assert!(rt; input.limit() == 7);
}

/// A reader that fails at the end of a short trace, and one that fails after many bytes.
#[test]
fn a_trace_that_cannot_be_read_is_told(rt: HostRuntime) {
    let cannot_read = "rfx: cannot read f\n";
    let mut short = slow_reader(b"trace 1 1 0\nend 0\n", true);
    assert!(rt; served(&rt, &Form::Check("f"), &mut short).is(1, "", cannot_read));
    let mut long = long_trace(20_000).chain(slow_reader(b"", true));
    assert!(rt; served(&rt, &Form::Check("f"), &mut long).is(1, "", cannot_read));
}

/// Passes too where any one allocation fails: nothing is printed then, and lack of memory is reported, of the reading
/// without a line.
#[test]
fn memory_for_a_trace(rt: HostRuntime) {
    let mut input = slow_reader(b"trace 1 1 0\nend 0\n", false);
    let mut out = Fixed::new();
    let mut err = Fixed::new();
    let form = Form::Check("f");
    let status = serve(&rt, rt.alloc(), &form, &mut input, &mut out, &mut err);
    assert!(rt; is_printed_or_wants_memory(status, &out, &err, "legal 0 points\n"));
    assert!(rt; input.left.is_empty() || err.bytes() == OUT_OF_MEMORY.as_bytes());
}

/// The same where the memory for a later part fails, after bytes that were read.
#[test]
fn memory_for_a_trace_of_many_parts(rt: HostRuntime) {
    let mut rest = repeat(b'x').take(20_000);
    let mut input = HEAD.chain(&mut rest);
    let mut out = Fixed::new();
    let mut err = Fixed::new();
    let form = Form::Check("f");
    let status = serve(&rt, rt.alloc(), &form, &mut input, &mut out, &mut err);
    let is_read = err.bytes() == "rfx: line 2: fault 2: unknown word\n".as_bytes();
    assert!(rt; status == 1 && out.bytes().is_empty());
    assert!(rt; is_read || is_printed_or_wants_memory(status, &out, &err, ""));
    assert!(rt; rest.limit() == 0 || err.bytes() == OUT_OF_MEMORY.as_bytes());
}
