//! What is measured.

/// Which calls.
#[derive(Clone, Copy, PartialEq, Eq)]
pub(crate) enum Case {
    One,
    Own,
    PingPong,
    Broadcast,
    Death,
}

/// By how many threads, and how often.
#[derive(Drop)]
pub(crate) struct Load {
    pub(crate) threads: u8,
    pub(crate) times: u32,
    pub(crate) case: Case,
}

impl Case {
    pub(crate) fn name(self) -> &'static str {
        match self {
            Case::One => "one",
            Case::Own => "own",
            Case::PingPong => "pingpong",
            Case::Broadcast => "broadcast",
            Case::Death => "death",
        }
    }

    fn named(name: &str) -> Option<Case> {
        match name {
            "one" => Some(Case::One),
            "own" => Some(Case::Own),
            "pingpong" => Some(Case::PingPong),
            "broadcast" => Some(Case::Broadcast),
            "death" => Some(Case::Death),
            _ => None,
        }
    }
}

impl Load {
    /// The load that these words ask for.
    pub(crate) fn of(threads: &str, times: &str, case: &str) -> Option<Load> {
        Some(Load {
            threads: threads.parse::<u8>().ok()?,
            times: times.parse::<u32>().ok()?,
            case: Case::named(case)?,
        })
    }

    /// How often each thread makes its calls.
    pub(crate) fn rounds(&self) -> u32 {
        match self.case {
            Case::One | Case::Own => self.times / u32::from(self.threads.max(1)),
            Case::PingPong | Case::Broadcast => self.times,
            Case::Death => 1,
        }
    }

    /// Of how many pairs, rounds, broadcasts or threads the time is.
    pub(crate) fn units(&self) -> u64 {
        let threads = u64::from(self.threads);
        match self.case {
            Case::One | Case::Own => u64::from(self.rounds()).wrapping_mul(threads),
            Case::PingPong | Case::Broadcast => u64::from(self.times),
            Case::Death => threads,
        }
    }

    /// Before which of its accesses a thread dies: after the eight of a lock and the two of a declaration.
    pub(crate) fn dies_before(&self) -> Option<u32> {
        if self.case == Case::Death {
            Some(11)
        } else {
            None
        }
    }
}
