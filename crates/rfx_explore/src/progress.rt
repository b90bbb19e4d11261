//! What is shown on a terminal while a script is explored.

use outcomes::Progress;
use std::io::IsTerminal;
use std::time::Instant;

/// Erases the line of the terminal that begins at the cursor.
const ERASED: &str = "\x1b[K";

/// Shows how many states were reached, once a second, if standard error is a terminal.
#[derive(Drop)]
pub struct Shown<'a> {
    rt: &'a HostRuntime,
    is_watched: bool,
    is_shown: bool,
    last: Option<Instant>,
}

impl<'a> Shown<'a> {
    /// Nothing was shown yet.
    pub fn new(rt: &'a HostRuntime) -> Shown<'a> {
        Shown {
            rt,
            is_watched: rt.stderr().is_terminal(),
            is_shown: false,
            last: Instant::now(rt).ok(),
        }
    }
}

impl Progress for Shown<'_> {
    fn reached(&mut self, states: usize) {
        if !self.is_watched {
            return;
        }
        let Some(last) = self.last else {
            return;
        };
        let Ok(since) = last.elapsed(self.rt) else {
            return;
        };
        if since.as_secs() >= 1 {
            let _ = eprint!(self.rt; "rfx-explore: {states} states\r");
            self.is_shown = true;
            self.last = Instant::now(self.rt).ok();
        }
    }

    fn ended(&mut self) {
        if self.is_shown {
            let _ = self.rt.eprint(ERASED);
        }
    }
}
