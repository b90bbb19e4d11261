//! What is said of a file's bytes.

ghost use Rattle.std.specs.Prelude.{◌≡◌, ◌<◌, ◌^◌, length, IfOk};
ghost use Rattle.explain.specs.Advised.{IsAdvised};
ghost use Rattle.explain.specs.Explains.{IsOfKind, IsTitle, IsTold, begins_trace, behind_blanks, behind_mark};
ghost use Rattle.explain.specs.Explains.{is_trace, status_of};
ghost use Rattle.explain.specs.Stray.{lines_in};
ghost use Rattle.explain.specs.Texts.{explanation_text};

use crate::explanation::{Explanation, Title};
use crate::quoting::lines_in;
use crate::scripts::explain_script;
use crate::telling::explanation_text;
use crate::traces::explain_trace;
use std::alloc::{AllocError, Global};

/// The bytes after a byte order mark, if they begin with one.
fn behind_mark(bytes: &[u8]) -> &[u8]
    ensures { result.now ≡ behind_mark bytes.now }
{
    if bytes.starts_with(&[0xef, 0xbb, 0xbf]) {
        &bytes[3..]
    } else {
        bytes
    }
}

/// The bytes after blanks and tabs, if they begin with some.
fn behind_blanks(bytes: &[u8]) -> &[u8]
    ensures { result.now ≡ behind_blanks bytes.now }
{
    let mut rest = bytes;
    'blanks: while let [first, behind @ ..] = rest {
        if *first != b' ' && *first != b'\t' {
            return rest;
        }
        rest = behind;
    }
    rest
}

/// Whether the bytes begin as a trace's first line does, or in capitals.
fn begins_trace(bytes: &[u8]) -> bool
    ensures { result ≡ begins_trace bytes.now }
{
    if bytes.len() < 6 {
        return false;
    }
    bytes[..6].eq_ignore_ascii_case(b"trace ")
}

/// Whether the bytes are to be a trace.
fn is_trace(bytes: &[u8]) -> bool
    ensures { result ≡ is_trace bytes.now }
{
    begins_trace(behind_blanks(behind_mark(bytes)))
}

/// What is said of the bytes: of a trace, where they begin with `trace `, in capitals too, and after blanks or a byte
/// order mark; else of a script.
pub fn explain<'a>(alloc: Global, bytes: &'a [u8]) -> Result<Explanation<'a>, AllocError>
    requires { length bytes.now < 2 ^ 32 }
    ensures kind { IfOk result (λ x. IsOfKind (is_trace bytes.entry.now) x.title) }
    ensures title { IfOk result (λ x. IsTitle bytes.entry.now x.title) }
    ensures advised { IfOk result (λ x. IsAdvised bytes.entry.now x.title x.advice) }
{
    if is_trace(bytes) {
        explain_trace(alloc, bytes)
    } else {
        explain_script(alloc, bytes)
    }
}

/// The exit status: 0 for what is good or legal.
fn status_of(title: &Title) -> u8
    ensures { result ≡ status_of title.now }
{
    match *title {
        Title::Good { .. } => 0,
        Title::Legal { .. } => 0,
        Title::Script(..) => 1,
        Title::Trace(_) => 1,
        Title::Illegal(_) => 1,
    }
}

/// The text of what is said of a file, and the exit status.
#[derive(Drop)]
pub struct Told {
    pub text: Vec<u8>,
    pub status: u8,
}

/// The text of an explanation of these bytes, and the exit status.
fn tell_explanation(
    alloc: Global,
    file: &str,
    bytes: &[u8],
    explanation: &Explanation<'_>,
) -> Result<Told, AllocError>
    requires { length bytes.now < 2 ^ 32 }
    ensures text { IfOk result
        (λ t. t.text.items ≡ explanation_text file.now (lines_in bytes.now) explanation.entry.now) }
    ensures status { IfOk result (λ t. t.status ≡ status_of explanation.entry.now.title) }
{
    let text = explanation_text(alloc, file, lines_in(bytes), explanation)?;
    let status = status_of(&explanation.title);
    Ok(Told { text, status })
}

/// What is said of a file of this name.
pub fn tell(alloc: Global, file: &str, bytes: &[u8]) -> Result<Told, AllocError>
    requires { length bytes.now < 2 ^ 32 }
    ensures { IfOk result (λ t. IsTold file.now bytes.now t.text.items t.status) }
{
    match explain(alloc, bytes) {
        Ok(explanation) => tell_explanation(alloc, file, bytes, &explanation),
        Err(refused) => Err(refused),
    }
}
