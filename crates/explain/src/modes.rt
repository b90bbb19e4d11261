//! The mode to which the lines of a script point.

ghost use Rattle.std.specs.Prelude.{◌≡◌, ◌<◌, ◌==◌, [], ◌∷◌, length, IfSome, MatchOption};
ghost use Rattle.std.specs.List.{slice_split};
ghost use Rattle.lines.specs.Lines.{lines_of, words_of};
ghost use Rattle.grammar.specs.Nexts.{mode_of_word};
ghost use Rattle.explain.specs.Explains.{mode_in};
ghost use Rattle.explain.specs.Stray.{word_of};

use grammar::mode_of_word;
use script::Mode;

/// What comes before the first of these bytes, and what after it; None where there is none.
fn cut(bytes: &[u8], at: u8) -> Option<(&[u8], &[u8])>
    ensures parts { MatchOption result
        (slice_split (λ b. b == at) bytes.now ≡ bytes.now ∷ [])
        (λ x. slice_split (λ b. b == at) bytes.now ≡ x.0.now ∷ slice_split (λ b. b == at) x.1.now) }
    ensures shorter { IfSome result (λ x. length x.1.now < length bytes.now) }
{
    match bytes.iter().position(|b| *b == at) {
        Some(end) => Some((&bytes[..end], &bytes[end + 1..])),
        None => None,
    }
}

/// The mode whose scripts alone have lines with this first word; it needn't be text.
fn mode_of_first(word: &[u8]) -> Option<Mode>
    ensures { result ≡ mode_of_word word.now }
{
    match str::from_utf8(word) {
        Ok(word) => mode_of_word(word),
        Err(_) => None,
    }
}

/// The mode whose scripts alone have lines like this one.
fn mode_of_line(line: &[u8]) -> Option<Mode>
    ensures { result ≡ mode_of_word (word_of (words_of line.now) 0) }
{
    match cut(line, b' ') {
        Some((first, _)) => mode_of_first(first),
        None => mode_of_first(line),
    }
}

/// The mode that the first line points to which only scripts of one mode have; the machine's, where none does. What
/// comes after the last line feed is a line too, and a line needn't be text after its first word.
pub fn mode_of(bytes: &[u8]) -> Mode
    ensures { result ≡ mode_in (lines_of bytes.now) }
{
    let mut rest = bytes;
    'lines: while let Some((line, behind)) = cut(rest, b'\n') {
        if let Some(mode) = mode_of_line(line) {
            return mode;
        }
        rest = behind;
    }
    mode_of_line(rest).unwrap_or(Mode::Run)
}
