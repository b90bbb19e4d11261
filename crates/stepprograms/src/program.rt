//! Step programs: calls and walks that say which access comes next, and get its answer.
ghost use Rattle.std.specs.Prelude.{◌≡◌};
ghost use Rattle.stepprograms.specs.declared.access.Access.{Access};
ghost use Rattle.stepprograms.specs.declared.access.Answer.{Answer};
ghost use Rattle.stepprograms.specs.declared.program.Progress.{Progress};
ghost use Rattle.stepprograms.specs.Programs.{UnlessReturned};

use crate::access::{Access, Answer};
use lockword::Reply;
use posixmutex::Point;

/// How far an answer brought a program, with the point where that access decided its operation.
#[derive(Clone, Copy, Debug, PartialEq, Eq)]
pub enum Progress {
    Goes { point: Option<Point> },
    Returns { reply: Reply, point: Option<Point> },
}

/// A call of a thread, a part of one, or the kernel's walk over a dead thread's list, as a value: it says which access
/// it makes next, and gets what that was answered. Whoever runs it has the words, the queues and the locks. So one
/// program runs on a plain memory, event by event, and on words that running threads share.
pub trait StepProgram {
    /// Whether it has accesses to make.
    ghost is_under_way: { Self → Type 0 };

    /// The access that comes next.
    ghost access: { Self → Access };

    /// The program as an answer leaves it.
    ghost moved: { Self → Answer → Self };

    /// How far an answer brings it.
    ghost progress: { Self → Answer → Progress };

    /// The access that comes next, of a program that hasn't returned.
    fn next(&self) -> Access
        requires { is_under_way self.now }
        ensures { result ≡ access self.now };

    /// Goes on with an answer. One that no such access has counts as `Fault`.
    fn resume(&mut self, answer: Answer) -> Progress
        requires { is_under_way self.old }
        ensures moved { self.new ≡ moved self.old answer }
        ensures progress { result ≡ progress self.old answer }
        ensures goes { UnlessReturned result (is_under_way self.new) };
}
