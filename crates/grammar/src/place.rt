//! The words of a line, and where they stand.

ghost use Rattle.std.specs.Prelude.{◌≡◌, ◌<◌, ◌^◌, length, option_map, slice_get};
ghost use Rattle.lines.specs.Lines.{words_of};
ghost use Rattle.grammar.specs.Wrongs.{ends_at, offset_of};

use lines::cut;

/// Word `index` of a line, from 0.
pub fn word_at(text: &str, index: usize) -> Option<&str>
    ensures { option_map (λ w. w.now) result ≡ slice_get (words_of text.now) index }
{
    let mut left = index;
    let mut rest = text;
    'words: while let Some((word, behind)) = cut(rest, ' ') {
        if left == 0 {
            return Some(word);
        }
        left -= 1;
        rest = behind;
    }
    if left == 0 { Some(rest) } else { None }
}

/// Where word `index` of a line begins and ends, in bytes. Where the line has fewer words, one after its last would
/// begin one byte after its end, and it has no width.
pub fn place_of(text: &str, index: usize) -> (usize, usize)
    ensures start { result.0 ≡ offset_of index (words_of text.now) }
    ensures end { result.1 ≡ ends_at index (words_of text.now) }
{
    let mut left = index;
    let mut start = 0;
    let mut rest = text;
    'words: while let Some((word, behind)) = cut(rest, ' ') {
        if left == 0 {
            return (start, start + word.len());
        }
        left -= 1;
        start += word.len() + 1;
        rest = behind;
    }
    let end = start + rest.len();
    if left == 0 {
        (start, end)
    } else {
        (end + 1, end + 1)
    }
}
