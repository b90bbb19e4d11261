//! How a thread sleeps, and how it is woken.
ghost use Rattle.std.specs.Prelude.{◌≡◌};

use crate::parker::{Drained, Due, Given, Parker, Taken};
use std::sync::Wait;

impl Parker {
    /// Sleeps until there is a token, and takes it.
    pub(crate) fn park<R: Wait>(&self, rt: &R) -> Taken {
        let mut token = self.bell.wait(rt, self.token.lock(rt));
        token.take()
    }

    /// Takes away what token there is.
    pub(crate) fn drain<R: Wait>(&self, rt: &R) -> Drained
        ensures { result.thread ≡ self.now.thread }
    {
        let mut token = self.token.lock(rt);
        token.clear();
        self.drained(token)
    }

    /// Gives the thread a token.
    pub(crate) fn unpark<R: Wait>(&self, rt: &R, due: Due) -> Given
        requires { due.thread ≡ self.now.thread }
        ensures { result.thread ≡ self.now.thread }
    {
        let mut token = self.token.lock(rt);
        token.put(&due);
        self.bell.ring(token, due)
    }
}
