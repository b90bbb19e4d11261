//! Names, and numbers after them.

ghost use Rattle.std.specs.Prelude.{◌≡◌, true, nat_lt};
ghost use Rattle.std.specs.List.{list_all};
ghost use Rattle.std.specs.Str.Parse.{digits_value};
ghost use Rattle.lines.specs.Numbers.{is_number};
ghost use Rattle.script.specs.Forms.{is_name, is_name_byte};

use crate::limits::MAX_NAME;

fn are_name_bytes(bytes: &[u8]) -> bool
    ensures { result ≡ list_all is_name_byte bytes.now }
{
    bytes.iter().all(|b| b.is_ascii_lowercase() || b.is_ascii_digit() || *b == b'_')
}

/// Whether the word is spelled as a name: 1 to [`MAX_NAME`] of `a` to `z`, `0` to `9` and `_`, the
/// first a letter.
pub fn is_word_name(word: &str) -> bool
    ensures { result ≡ is_name word.now }
{
    match word.as_bytes() {
        [first, rest @ ..] => {
            first.is_ascii_lowercase() && rest.len() < MAX_NAME && are_name_bytes(rest)
        }
        [] => false,
    }
}

/// Whether the digits write a number below `limit`.
pub fn is_below(digits: &str, limit: u32) -> bool
    requires { is_number digits.now ≡ true }
    ensures { result ≡ nat_lt (digits_value 10 digits.now) limit }
{
    match digits.parse::<u32>() {
        Ok(number) => number < limit,
        Err(_) => false,
    }
}
