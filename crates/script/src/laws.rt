//! What holds of every script.

ghost use Rattle.script.specs.Dying.{DeathsAreAsTold};
ghost use Rattle.script.specs.Killing.{KillallKillsOneProcess};
ghost use Rattle.script.specs.Processes.{OneProcessWithoutALine, ProcessesAreAsTold};
ghost use Rattle.script.specs.Silence.{SilentLinesSayNothing};
ghost use Rattle.script.specs.Resting.{ThreadsComeToRest};

/// An empty line or a comment says nothing: without it, a script's names and commands, except for their lines, or its
/// fault, are the same. So they depend on the other lines alone, if there are no more than
/// [`MAX_LINES`](crate::MAX_LINES).
pub fn silent_lines_say_nothing()
    ensures { SilentLinesSayNothing }
{}

/// Whatever happened before, a thread that is awake in a call or dying ends its call, falls asleep or is reaped after
/// as many steps as `go` makes, and not before. So [`REST_STEPS`](crate::REST_STEPS) cuts no call off.
pub fn threads_come_to_rest()
    ensures { ThreadsComeToRest }
{}

/// In every script that is read, each process has the base that its own line gives, and process 0 has base 0. Each
/// thread is of the process that its own line names, or of process 0 if the line names none. `killall` is about the
/// process that it names.
pub fn processes_are_as_told()
    ensures { ProcessesAreAsTold }
{}

/// A script that declares no process has the machine of one process, where addresses are places.
pub fn one_process_without_a_line()
    ensures { OneProcessWithoutALine }
{}

/// Whatever happened before, `killall` is one kill of each thread that the script has in that process, in the order of
/// ids, and of no other thread.
pub fn killall_kills_one_process()
    ensures { KillallKillsOneProcess }
{}

/// In every script that is read, the deaths that its commands ask for, in their order, are those of its `die` lines.
/// Each is of the thread that the line names, before the access that it gives. A thread's number is its place, from 1,
/// among those that `thread` lines declare, in their order; these names, too, are taken from the lines' words.
pub fn deaths_are_as_told()
    ensures { DeathsAreAsTold }
{}
