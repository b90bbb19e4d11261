//! When workers begin.
ghost use Rattle.std.specs.Prelude.{◌≡◌};

use std::sync::{OnceLock, OnceToken, Wait};

/// Waits until it learns whether workers begin. The token shows what was recorded.
pub(crate) fn told<'a, R: Wait>(rt: &R, begins: &'a OnceLock<bool>) -> OnceToken<'a, bool>
    ensures { result.of ≡ begins.now.id }
{
    for _ in rt.forever() {
        if let Some(token) = begins.witness() {
            return token;
        }
        begins.wait(rt);
    }
    unreachable!()
}

/// Tells whether workers begin. It is recorded once.
pub(crate) fn tell<'a, R: Wait>(
    rt: &R,
    begins: &'a OnceLock<bool>,
    they_do: bool,
) -> OnceToken<'a, bool>
    ensures of { result.of ≡ begins.now.id }
    ensures value { result.value ≡ they_do }
{
    for _ in rt.forever() {
        if let Ok(token) = begins.set(rt, they_do) {
            return token;
        }
    }
    unreachable!()
}
