//! Names of files, part by part.

ghost use Rattle.std.specs.Prelude.{◌≡◌};
ghost use Rattle.judge_report.specs.Paths.{AreOwn, IsNext, are_same, directory_of, in_one_directory, is_from_root, leads};

use lines::cut;

/// A step over a name.
#[derive(Clone, Copy)]
enum Step<'a> {
    /// A part that leads to another directory, and what follows.
    Directory(&'a str, &'a str),
    /// The last part, the file's own name.
    Own(&'a str),
}

/// Whether a part of a name leads to another directory.
fn leads(part: &str) -> bool
    ensures { result ≡ leads part.now }
{
    match part.as_bytes() {
        [] => false,
        [byte] => *byte != b'.',
        _ => true,
    }
}

/// The next step over a name.
fn next_step(name: &str) -> Step<'_>
    ensures { IsNext name.now result }
{
    let mut rest = name;
    'parts: while let Some((part, behind)) = cut(rest, '/') {
        if leads(part) {
            return Step::Directory(part, behind);
        }
        rest = behind;
    }
    Step::Own(rest)
}

fn is_from_root(name: &str) -> bool
    ensures { result ≡ is_from_root name.now }
{
    match name.as_bytes() {
        [first, ..] => *first == b'/',
        [] => false,
    }
}

/// The own names of two files, if their names lead to one directory from where they begin.
fn own_names_from<'a>(first: &'a str, second: &'a str) -> Option<(&'a str, &'a str)>
    ensures { AreOwn (are_same (directory_of first.now) (directory_of second.now)) first.now second.now result }
{
    let mut one = first;
    let mut other = second;
    'steps: loop {
        match next_step(one) {
            Step::Directory(part, rest) => match next_step(other) {
                Step::Directory(its, behind) => {
                    if part != its {
                        return None;
                    }
                    one = rest;
                    other = behind;
                }
                Step::Own(_) => return None,
            },
            Step::Own(own) => match next_step(other) {
                Step::Directory(..) => return None,
                Step::Own(its) => return Some((own, its)),
            },
        }
    }
}

/// The own names of two files, if their names lead to one directory: repeated slashes and `.` change nothing.
pub fn own_names<'a>(first: &'a str, second: &'a str) -> Option<(&'a str, &'a str)>
    ensures { AreOwn (in_one_directory first.now second.now) first.now second.now result }
{
    if is_from_root(first) == is_from_root(second) {
        own_names_from(first, second)
    } else {
        None
    }
}
