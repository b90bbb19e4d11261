//! The words of a line.

ghost use Rattle.std.specs.Prelude.{◌≡◌, ◌<◌, ◌==◌, [], ◌∷◌, length, IfSome, MatchOption};
ghost use Rattle.std.specs.List.{slice_split};
ghost use Rattle.lines.specs.Lines.{words_of};
ghost use Rattle.lines.specs.Words.{AreWords};

/// The words of a line, for the numbers of words that a line can have which says anything.
#[derive(Clone, Copy)]
pub enum Words<'a> {
    One(&'a str),
    Two(&'a str, &'a str),
    Three(&'a str, &'a str, &'a str),
    Four(&'a str, &'a str, &'a str, &'a str),
    Five(&'a str, &'a str, &'a str, &'a str, &'a str),
    Six(&'a str, &'a str, &'a str, &'a str, &'a str, &'a str),
    /// There are more.
    Many,
}

/// What stands before the first `at`, an ASCII character, and what after it; None where there is none.
pub fn cut(text: &str, at: char) -> Option<(&str, &str)>
    requires { at < 128 }
    ensures parts { MatchOption result
        (slice_split (λ b. b == at) text.now ≡ text.now ∷ [])
        (λ x. slice_split (λ b. b == at) text.now ≡ x.0.now ∷ slice_split (λ b. b == at) x.1.now) }
    ensures shorter { IfSome result (λ x. length x.1.now < length text.now) }
{
    text.split_once(at)
}

/// The words between single spaces.
pub fn words_in(text: &str) -> Words<'_>
    ensures { AreWords (words_of text.now) result }
{
    let Some((first, rest)) = cut(text, ' ') else {
        return Words::One(text);
    };
    let Some((second, rest)) = cut(rest, ' ') else {
        return Words::Two(first, rest);
    };
    let Some((third, rest)) = cut(rest, ' ') else {
        return Words::Three(first, second, rest);
    };
    let Some((fourth, rest)) = cut(rest, ' ') else {
        return Words::Four(first, second, third, rest);
    };
    let Some((fifth, rest)) = cut(rest, ' ') else {
        return Words::Five(first, second, third, fourth, rest);
    };
    let Some(_) = cut(rest, ' ') else {
        return Words::Six(first, second, third, fourth, fifth, rest);
    };
    Words::Many
}
