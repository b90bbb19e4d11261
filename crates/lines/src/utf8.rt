//! The text that bytes are.

ghost use Rattle.std.specs.Prelude.{◌≡◌, ◌+◌, ◌≤◌, ◌<◌, ◌==◌, ◌^◌, true, false, length, take, count_by, MatchResult};
ghost use Rattle.std.specs.Str.{is_utf8};
ghost use Rattle.lines.specs.Lines.{bad_line};

/// The line of the byte at `len`.
fn line_at(bytes: &[u8], len: usize) -> usize
    requires at { len ≤ length bytes.now }
    requires small { length bytes.now < 2 ^ 32 }
    ensures { result ≡ count_by (λ b. b == 10) (take len bytes.now) + 1 }
{
    bytes[..len].iter().filter(|b| **b == b'\n').count() + 1
}

/// The text that the bytes are; where they aren't UTF-8, the line of the first byte that is no part of a character,
/// from 1.
pub fn text_of(bytes: &[u8]) -> Result<&str, usize>
    requires small { length bytes.now < 2 ^ 32 }
    ensures { MatchResult result
        (λ text. (is_utf8 bytes.now ≡ true) × (text.now ≡ bytes.now))
        (λ line. (is_utf8 bytes.now ≡ false) × (line ≡ bad_line bytes.now)) }
{
    match str::from_utf8(bytes) {
        Ok(text) => Ok(text),
        Err(e) => Err(line_at(bytes, e.valid_up_to())),
    }
}
