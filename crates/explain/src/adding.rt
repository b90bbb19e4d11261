//! Texts that are put together.

ghost use Rattle.std.specs.Prelude.{◌≡◌, ◌++◌, length, replicate, OnOk};
ghost use Rattle.std.specs.List.{flat_map};
ghost use Rattle.explain.specs.Shown.{is_hidden, shown, shown_char};

use reasons::add;
use std::alloc::AllocError;

/// How many columns of a line are shown.
pub const WIDTH: usize = 200;

/// Adds a byte so often.
pub fn add_run(text: &mut Vec<u8>, byte: u8, count: usize) -> Result<(), AllocError>
    ensures { OnOk result (text.new.items ≡ text.old.items ++ replicate count byte) }
{
    for done in 0..count {
        text.push(byte)?;
    }
    Ok(())
}

/// Whether a character can't be seen, or turns others about.
fn is_hidden(c: char) -> bool
    ensures { result ≡ is_hidden c }
{
    let code = c as u32;
    (0x80 <= code && code <= 0x9f)
        || code == 0x61c
        || (0x200b <= code && code <= 0x200f)
        || (0x2028 <= code && code <= 0x202e)
        || (0x2060 <= code && code <= 0x2069)
        || code == 0xfeff
}

/// Adds a character of a line as it is shown: a control character as the picture that Unicode has of it, another one
/// that can't be seen as the replacement character.
fn add_char(text: &mut Vec<u8>, c: char) -> Result<(), AllocError>
    ensures { OnOk result (text.new.items ≡ text.old.items ++ shown_char c) }
{
    let code = c as u32;
    if code < 32 {
        return text.extend_from_slice(&[0xe2, 0x90, 0x80 + code as u8]);
    }
    if code == 127 {
        return text.extend_from_slice(&[0xe2, 0x90, 0xa1]);
    }
    if is_hidden(c) {
        return text.extend_from_slice(&[0xef, 0xbf, 0xbd]);
    }
    let mut encoded = [0; 4];
    text.extend_from_slice(c.encode_utf8(&mut encoded).as_bytes())
}

/// Adds a line as it is shown: no more of it than has room, and an ellipsis where it is longer.
pub fn add_shown(text: &mut Vec<u8>, line: &str) -> Result<(), AllocError>
    ensures { OnOk result (text.new.items ≡ text.old.items ++ shown line.now) }
{
    let mut count = 0;
    for c in line.chars() {
        if count == WIDTH {
            add(text, &["\u{2026}"])?;
            return Ok(());
        }
        add_char(text, c)?;
        count += 1;
    }
    Ok(())
}
