//! What the words of a command line ask for.

ghost use Rattle.std.specs.Prelude.{◌≡◌, map, option_map, Some};
ghost use Rattle.draw_report.specs.Asked.{asked_by, Asked, Asks};
ghost use Rattle.draw_report.specs.Reading.{asked_behind, asked_of, is_legend, no_wish, seen, wished_for};
ghost use Rattle.draw_report.specs.Reading.{with_file, with_kind, with_option, with_script, with_word};

use streams::is_file;

/// What a picture is made of.
#[derive(Clone, Copy, Debug, PartialEq, Eq)]
pub enum Kind {
    /// Rows of text, for a terminal.
    Text,
    /// Scalable vector graphics.
    Svg,
    /// A page of HTML to step through, with that picture.
    Html,
}

/// What a command line asks for.
#[derive(Clone, Copy, Debug, PartialEq, Eq)]
pub enum Form<'a> {
    /// `--svg` or `--html`, `--script SCRIPT` and FILE, in any order, each once at most: the trace or the history in
    /// this file is drawn, or the one on standard input, with the names of the script. No name of a file begins with a hyphen.
    Picture(Kind, Option<&'a str>, &'a str),
    /// `--legend` alone: what the signs of pictures in text mean.
    Legend,
    /// Every other command line, those that ask for help or the version among them.
    Usage,
}

/// The file that is drawn where none is named.
pub const STANDARD_INPUT: &str = "/dev/stdin";

/// What the words of a command line said so far.
#[derive(Clone, Copy)]
struct Said<'a> {
    /// What the picture is made of, where a word said so.
    kind: Option<Kind>,
    /// Whether the last word was `--script`: the next one names the script.
    awaits_script: bool,
    script: Option<&'a str>,
    file: Option<&'a str>,
}

impl<'a> Said<'a> {
    fn nothing() -> Said<'a>
        ensures { seen result ≡ no_wish }
    {
        Said {
            kind: None,
            awaits_script: false,
            script: None,
            file: None,
        }
    }

    fn with_kind(self, kind: Kind) -> Option<Said<'a>>
        ensures { option_map seen result ≡ with_kind (seen self.entry) kind }
    {
        if self.kind.is_some() {
            return None;
        }
        Some(Said {
            kind: Some(kind),
            ..self
        })
    }

    fn with_option(self) -> Option<Said<'a>>
        ensures { option_map seen result ≡ with_option (seen self.entry) }
    {
        if self.script.is_some() {
            return None;
        }
        Some(Said {
            awaits_script: true,
            ..self
        })
    }

    fn with_script(self, word: &'a str) -> Option<Said<'a>>
        ensures { option_map seen result ≡ with_script (seen self.entry) word.now }
    {
        if !is_file(word) {
            return None;
        }
        Some(Said {
            awaits_script: false,
            script: Some(word),
            ..self
        })
    }

    fn with_file(self, word: &'a str) -> Option<Said<'a>>
        ensures { option_map seen result ≡ with_file (seen self.entry) word.now }
    {
        if self.file.is_some() || !is_file(word) {
            return None;
        }
        Some(Said {
            file: Some(word),
            ..self
        })
    }

    /// What is said with one word more; nothing, where it can't be there.
    fn with(self, word: &'a str) -> Option<Said<'a>>
        ensures { option_map seen result ≡ with_word (seen self.entry) word.now }
    {
        if self.awaits_script {
            self.with_script(word)
        } else if word == "--svg" {
            self.with_kind(Kind::Svg)
        } else if word == "--html" {
            self.with_kind(Kind::Html)
        } else if word == "--script" {
            self.with_option()
        } else {
            self.with_file(word)
        }
    }

    fn form(self) -> Form<'a>
        ensures { asked_by result ≡ wished_for (seen self.entry) }
    {
        if self.awaits_script {
            return Form::Usage;
        }
        let kind = self.kind.unwrap_or(Kind::Text);
        Form::Picture(kind, self.script, self.file.unwrap_or(STANDARD_INPUT))
    }
}

/// The form of a picture's words, after those that said this.
fn form_behind<'a>(said: Said<'a>, words: &'a [&'a str]) -> Form<'a>
    ensures { asked_by result ≡ asked_behind (Some (seen said.entry)) (map (λ w. w.now) words.now) }
{
    match words {
        [] => said.form(),
        [word, rest @ ..] => match said.with(word) {
            Some(said) => form_behind(said, rest),
            None => Form::Usage,
        },
    }
}

fn is_legend(words: &[&str]) -> bool
    ensures { result ≡ is_legend (map (λ w. w.now) words.now) }
{
    match words {
        [word] => *word == "--legend",
        [] | [_, _, ..] => false,
    }
}

fn read<'a>(words: &'a [&'a str]) -> Form<'a>
    ensures { asked_by result ≡ asked_of (map (λ w. w.now) words.now) }
{
    match words {
        [] => Form::Usage,
        [_, rest @ ..] => {
            if is_legend(rest) {
                Form::Legend
            } else {
                form_behind(Said::nothing(), rest)
            }
        }
    }
}

/// The form of a command line, of which the first word is the program's name. It is the only one that these words ask
/// for.
pub fn form_of_words<'a>(words: &'a [&'a str]) -> Form<'a>
    ensures value { asked_by result ≡ asked_of (map (λ w. w.now) words.now) }
    ensures asks { Asks (map (λ w. w.now) words.now) (asked_by result) }
    ensures alone { (a : Asked) → Asks (map (λ w. w.now) words.now) a → a ≡ asked_by result }
{
    read(words)
}
