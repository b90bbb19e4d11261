//! What tables and replies tell of a mutex in the same words.

ghost use Rattle.std.specs.Prelude.{◌≡◌};
ghost use Rattle.streams.specs.Leaves.{Leaves};
ghost use Rattle.texts.specs.MutexLines.{word_digits, mutex_start};

use std::io::{self, Write};
use streams::{put, put_text};

/// The word in 16 hexadecimal digits, the highest first.
fn digits(word: u64) -> [u8; 16]
    ensures { result ≡ word_digits word }
{
    let mut digits = [0; 16];
    let _ = hex::encode_to_slice(word.to_be_bytes(), &mut digits);
    digits
}

/// `mutex NAME CELL OWNER` and a space: CELL in 16 hexadecimal digits, OWNER a thread's name or a hyphen.
pub fn write_mutex_start<W: Write>(
    out: &mut W,
    name: &str,
    cell: u64,
    owner: &str,
) -> io::Result<()>
    ensures { Leaves (W.contents out.old) (W.contents out.new) result (mutex_start name.now cell owner.now) }
{
    put(out, &["mutex ", name, " "])?;
    put_text(out, &digits(cell))?;
    put(out, &[" ", owner, " "])
}
