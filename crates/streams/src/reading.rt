//! Reading all that a reader has, up to a limit.

ghost use Rattle.std.specs.Prelude.{◌≡◌, ◌≤◌, ◌<◌, length, take, vec_len, IfOk, IsErrOf};
ghost use Rattle.std.specs.Io.KnownBytes.{Consumes, IsAtEnd};
ghost use Rattle.streams.specs.Taken.{TakesAtMost, part_bytes};

use std::alloc::{AllocError, Global};
use std::io::{self, ErrorKind, Read};

/// How many bytes are read at a time, and asked for.
const PART: usize = 8_192;

/// Fills the buffer from its front, until it is full or the reader has no more, and tells how far. A read that was
/// interrupted is tried again.
fn fill<R: Read>(input: &mut R, buf: &mut [u8]) -> io::Result<usize>
    ensures within { IfOk result (λ n. n ≤ length buf.new) }
    ensures taken { IfOk result (λ n. Consumes (R.remaining input.old) (R.remaining input.new) (take n buf.new)) }
    ensures end { IfOk result (λ n. n < length buf.new → IsAtEnd (R.remaining input.new)) }
    ensures room { TakesAtMost (length buf.old) (R.remaining input.old) (R.remaining input.new) }
{
    let mut at = 0;
    for _ in 0..u64::MAX {
        if at >= buf.len() {
            return Ok(at);
        }
        match input.read(&mut buf[at..]) {
            Ok(0) => return Ok(at),
            Ok(n) => at += n,
            Err(e) => {
                if e.kind() != ErrorKind::Interrupted {
                    return Err(e);
                }
            }
        }
    }
    // a reader that is interrupted at every read
    Err(io::Error::from(ErrorKind::Other))
}

/// Why not all was read.
#[derive(Clone, Copy, Debug, PartialEq, Eq)]
pub enum ReadFault {
    /// No memory was left for the next bytes.
    Memory,
    /// The reader failed. Some bytes may have been read.
    Failed,
}

/// A buffer of this many bytes, each 0.
fn zeros(alloc: Global, len: usize) -> Result<Vec<u8>, AllocError>
    requires { len ≤ part_bytes }
    ensures { IfOk result (λ v. vec_len v ≡ len) }
{
    vec![in alloc; 0; len]
}

/// The next bytes that the reader has: all of them, or the first `room`, where it has as many or more.
fn read_part<R: Read>(alloc: Global, input: &mut R, room: usize) -> Result<Vec<u8>, ReadFault>
    requires { room ≤ part_bytes }
    ensures within { IfOk result (λ v. vec_len v ≤ room) }
    ensures taken { IfOk result (λ v. Consumes (R.remaining input.old) (R.remaining input.new) v.items) }
    ensures end { IfOk result (λ v. vec_len v < room → IsAtEnd (R.remaining input.new)) }
    ensures memory { IsErrOf result ReadFault.Memory → input.new ≡ input.old }
    ensures limit { TakesAtMost room (R.remaining input.old) (R.remaining input.new) }
{
    let Ok(mut bytes) = zeros(alloc, room) else {
        return Err(ReadFault::Memory);
    };
    let Ok(len) = fill(input, &mut bytes) else {
        return Err(ReadFault::Failed);
    };
    bytes.truncate(len);
    Ok(bytes)
}

/// All that the reader has; or its first `limit` bytes, where it has as many or more. The memory grows with the bytes.
pub fn read_below<R: Read>(alloc: Global, input: &mut R, limit: usize) -> Result<Vec<u8>, ReadFault>
    ensures within { IfOk result (λ v. vec_len v ≤ limit) }
    ensures taken { IfOk result (λ v. Consumes (R.remaining input.old) (R.remaining input.new) v.items) }
    ensures end { IfOk result (λ v. vec_len v < limit → IsAtEnd (R.remaining input.new)) }
    ensures limit { TakesAtMost limit (R.remaining input.old) (R.remaining input.new) }
{
    let mut bytes = Vec::new(alloc);
    while bytes.len() < limit {
        let room = PART.min(limit - bytes.len());
        let part = read_part(alloc, input, room)?;
        if bytes.extend_from_slice(&part).is_err() {
            return Err(ReadFault::Memory);
        }
        if part.len() < room {
            return Ok(bytes);
        }
    }
    Ok(bytes)
}
