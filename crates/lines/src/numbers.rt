//! The numbers that words write.

ghost use Rattle.std.specs.Prelude.{◌≡◌, true};
ghost use Rattle.std.specs.List.{list_all};
ghost use Rattle.std.specs.Char.{is_ascii_digit};
ghost use Rattle.std.specs.Str.Parse.{digits_value};
ghost use Rattle.lines.specs.Numbers.{is_number, within};

fn are_digits(bytes: &[u8]) -> bool
    ensures { result ≡ list_all is_ascii_digit bytes.now }
{
    bytes.iter().all(|b| b.is_ascii_digit())
}

/// Whether the word is spelled as a number: decimal digits with no leading zero.
pub fn is_number_word(word: &str) -> bool
    ensures { result ≡ is_number word.now }
{
    match word.as_bytes() {
        [] => false,
        [only] => only.is_ascii_digit(),
        [first, ..] => *first != b'0' && are_digits(word.as_bytes()),
    }
}

/// The number that the digits write, where it is from `low` to `high`.
pub fn number_in(digits: &str, low: u32, high: u32) -> Option<u32>
    requires { is_number digits.now ≡ true }
    ensures { result ≡ within low high (digits_value 10 digits.now) }
{
    match digits.parse::<u32>() {
        Ok(number) if low <= number && number <= high => Some(number),
        _ => None,
    }
}
