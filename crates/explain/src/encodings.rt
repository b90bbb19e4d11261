//! What is said of bytes that are no text.

ghost use Rattle.std.specs.Prelude.{◌≡◌, ◌<◌, ◌==◌, ◌^◌, length};
ghost use Rattle.std.specs.List.{list_any};
ghost use Rattle.std.specs.Str.Lossy.{utf8_valid_len};
ghost use Rattle.explain.specs.Advised.{looks_of, no_text};

use crate::explanation::{Advice, Looks, Note};

/// How many bytes come before the first that is no part of a character in UTF-8.
fn valid_len(bytes: &[u8]) -> usize
    ensures { result ≡ utf8_valid_len bytes.now }
{
    match str::from_utf8(bytes) {
        Ok(_) => bytes.len(),
        Err(error) => error.valid_up_to(),
    }
}

fn has_zero(bytes: &[u8]) -> bool
    ensures { result ≡ list_any (λ b. b == 0) bytes.now }
{
    bytes.iter().any(|b| *b == 0)
}

/// What the bytes look like: they begin with a byte order mark of UTF-16, or have a byte that no text has, or neither.
fn looks_of(bytes: &[u8]) -> Looks
    ensures { result ≡ looks_of bytes.now }
{
    if bytes.starts_with(&[0xff, 0xfe]) || bytes.starts_with(&[0xfe, 0xff]) {
        Looks::Utf16
    } else if has_zero(bytes) {
        Looks::Binary
    } else {
        Looks::Latin1
    }
}

/// What is said of bytes that aren't UTF-8.
pub fn no_text(bytes: &[u8]) -> Advice<'static>
    requires { length bytes.now < 2 ^ 32 }
    ensures { result ≡ no_text bytes.now }
{
    let bad = valid_len(bytes) + 1;
    Advice::only(Note::BadByte(bad)).besides(Note::LooksSo(looks_of(bytes)))
}
