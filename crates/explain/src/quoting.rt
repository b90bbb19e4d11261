//! The lines of a file.

ghost use Rattle.std.specs.Prelude.{◌≡◌, ◌-◌, ◌<◌, ◌^◌, length, option_map, slice_get};
ghost use Rattle.lines.specs.Lines.{lines_of};
ghost use Rattle.explain.specs.Stray.{is_last, line_of, lines_in};

use lines::{cut, text_of};

/// The line at this index, from 0. After the last line feed stands a line too, which may be empty.
fn nth_line(text: &str, index: usize) -> Option<&str>
    ensures { option_map (λ t. t.now) result ≡ slice_get (lines_of text.now) index }
{
    let mut left = index;
    let mut rest = text;
    'lines: while let Some((line, behind)) = cut(rest, '\n') {
        if left == 0 {
            return Some(line);
        }
        left -= 1;
        rest = behind;
    }
    if left == 0 { Some(rest) } else { None }
}

/// The line with this number, from 1.
pub fn line_at(text: &str, number: usize) -> Option<&str>
    ensures { option_map (λ t. t.now) result ≡ slice_get (lines_of text.now) (number - 1) }
{
    nth_line(text, number.saturating_sub(1))
}

/// The line with this number, and no letter where there is none.
pub fn line_of(text: &str, number: usize) -> &str
    ensures { result.now ≡ line_of text.now number }
{
    line_at(text, number).unwrap_or("")
}

/// Whether no line comes after the one with this number.
pub fn is_last(text: &str, number: usize) -> bool
    ensures { result ≡ is_last (lines_of text.now) number }
{
    nth_line(text, number).is_none()
}

/// The text that the bytes are, and none where they are no text.
pub fn lines_in(bytes: &[u8]) -> &str
    requires { length bytes.now < 2 ^ 32 }
    ensures { result.now ≡ lines_in bytes.now }
{
    match text_of(bytes) {
        Ok(text) => text,
        Err(_line) => "",
    }
}
