//! What the words of a command line ask for.

ghost use Rattle.std.specs.Prelude.{◌≡◌, map};
ghost use Rattle.explain.specs.Asked.{asked_by, asked_of};

use streams::is_file;

/// What a command line asks for.
#[derive(Clone, Copy, Debug, PartialEq, Eq)]
pub enum Form<'a> {
    /// `rfx-explain FILE`: the script or the trace in this file is explained. The name doesn't begin with a hyphen.
    File(&'a str),
    /// Every other command line, those that ask for help or the version among them.
    Usage,
}

/// The form of a command line, of which the first word is the program's name.
pub fn form_of_words<'a>(words: &'a [&'a str]) -> Form<'a>
    ensures { asked_by result ≡ asked_of (map (λ w. w.now) words.now) }
{
    match words {
        [_, file] => {
            if is_file(file) {
                Form::File(file)
            } else {
                Form::Usage
            }
        }
        [] => Form::Usage,
        [_] => Form::Usage,
        [_, _, _, ..] => Form::Usage,
    }
}
