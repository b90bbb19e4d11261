//! The layout of a script's words.
ghost use Rattle.std.specs.Prelude.{◌≡◌, ◌+◌, length, take};
ghost use Rattle.script.specs.Playing.{layout_of};

use crate::parsed::Script;
use memorymap::{CONDITION_LIMIT, Layout, PROCESS_LIMIT};

impl Script {
    /// Where its words lie: the layout of its threads, each of its process, its mutexes and its condition variables.
    /// Process 0 maps the words at 0, and the others at the bases that they were declared with.
    pub fn layout(&self) -> Layout
        ensures { result ≡ layout_of self.now }
    {
        let bases = bases_of(self);
        let mutexes = mutexes_of(self);
        Layout::with_processes(
            self.members(),
            &bases[..usize::from(self.processes()) + 1],
            self.mutexes(),
            &mutexes[..usize::from(self.conditions())],
        )
        .unwrap()
    }
}

/// The bases of a script's processes, that of process 0 first.
fn bases_of(script: &Script) -> [u64; PROCESS_LIMIT]
    ensures { take (length script.now.processes + 1) result ≡ (layout_of script.now).bases }
{
    let mut bases = [0; PROCESS_LIMIT];
    for earlier in 0..script.processes() {
        let process = earlier + 1;
        bases[usize::from(process)] = script.base(process);
    }
    bases
}

/// The mutexes of a script's condition variables.
fn mutexes_of(script: &Script) -> [u16; CONDITION_LIMIT]
    ensures { take (length script.now.conditions) result ≡ (layout_of script.now).conditions }
{
    let mut mutexes = [0; CONDITION_LIMIT];
    for condition in 0..script.conditions() {
        mutexes[usize::from(condition)] = script.condition(condition).mutex;
    }
    mutexes
}
