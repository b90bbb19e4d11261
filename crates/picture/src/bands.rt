//! Which mutexes have bands, and what else a picture has.

ghost use Rattle.std.specs.Prelude.{◌≡◌, ◌≤◌, ◌<◌, IfSome};
ghost use Rattle.lockword.specs.Threads.{named_threads};
ghost use Rattle.picture.specs.Bands.{band_of, first_bands, has_long, least_letters};
ghost use Rattle.picture.specs.Bands.{one_more, shown, with_decision, with_mutex};
ghost use Rattle.picture.specs.Drawn.{extent_in};

use crate::names::Names;
use facts::Line;
use lockword::{MOST_THREADS, NAMED_THREADS};
use posixmutex::Decision;

/// How many mutexes have a band at most.
pub const BANDS: usize = 16;

/// How many lanes there are at most.
pub const LANES: u8 = NAMED_THREADS;

/// How many places there are where things are kept by threads' ids: 0 is no thread's.
pub const IDS: usize = MOST_THREADS as usize + 1;

/// The mutexes that have bands.
#[derive(Clone, Copy)]
pub struct Bands {
    /// Their numbers, from left to right; what comes after the last one says nothing.
    pub mutexes: [u16; 16],
    pub count: usize,
}

/// What a picture has, in text and in SVG.
#[derive(Clone, Copy)]
pub struct Extent {
    /// How many lanes.
    pub threads: u8,
    /// For how many letters of a name there is room.
    pub letters: u8,
    pub bands: Bands,
}

/// What a picture is drawn with: what things are called, and what it has.
#[derive(Clone, Copy)]
pub struct Sheet<'a> {
    pub names: &'a Names,
    pub extent: Extent,
}

impl Bands {
    /// The first mutexes, by their numbers.
    fn first(count: usize) -> Bands
        ensures { result ≡ first_bands count }
    {
        Bands {
            mutexes: [0, 1, 2, 3, 4, 5, 6, 7, 8, 9, 10, 11, 12, 13, 14, 15],
            count,
        }
    }

    /// Which band a mutex has.
    pub fn place(&self, mutex: u16) -> Option<usize>
        requires { self.now.count ≤ 16 }
        ensures value { result ≡ band_of self.now mutex }
        ensures inside { IfSome result (λ i. i < self.now.count) }
    {
        let mut place = None;
        for index in 0..self.count {
            if self.mutexes[index] == mutex {
                place = Some(index);
            }
        }
        place
    }

    /// One band more, of this mutex.
    fn and(self, mutex: u16) -> Bands
        requires { self.count < 16 }
        ensures { result ≡ one_more self mutex }
    {
        let mut mutexes = self.mutexes;
        mutexes[self.count] = mutex;
        Bands {
            mutexes,
            count: self.count + 1,
        }
    }

    /// One band more, unless the mutex has one, or there is no room.
    fn with_mutex(self, room: usize, mutex: u16) -> Bands
        requires room { room ≤ 16 }
        requires few { self.count ≤ room }
        ensures value { result ≡ with_mutex room self mutex }
        ensures few { result.count ≤ room }
    {
        match self.place(mutex) {
            Some(_) => self,
            None => {
                if room <= self.count {
                    self
                } else {
                    self.and(mutex)
                }
            }
        }
    }

    fn with_decision(self, room: usize, decision: Option<Decision>) -> Bands
        requires room { room ≤ 16 }
        requires few { self.count ≤ room }
        ensures value { result ≡ with_decision room self decision }
        ensures few { result.count ≤ room }
    {
        match decision {
            Some(decision) => self.with_mutex(room, decision.mutex),
            None => self,
        }
    }

    /// The bands of a trace of that many mutexes with these lines, where there is room for that many.
    fn of(room: usize, mutexes: u16, lines: &[Line]) -> Bands
        requires { room ≤ 16 }
        ensures value { result ≡ shown room mutexes lines.now }
        ensures few { result.count ≤ room }
    {
        if usize::from(mutexes) <= room {
            return Bands::first(usize::from(mutexes));
        }
        let mut bands = Bands::first(0);
        for line in lines {
            bands = bands.with_decision(room, line.fact.decision());
        }
        bands
    }

    /// Whether a band's mutex has a number of three digits or more.
    fn has_long(&self) -> bool
        requires { self.now.count ≤ 16 }
        ensures { result ≡ has_long self.now.mutexes self.now.count }
    {
        let mut has_long = false;
        for index in 0..self.count {
            has_long = has_long || 100 <= self.mutexes[index];
        }
        has_long
    }

    /// How many letters of a name have room at least.
    fn least_letters(&self) -> usize
        requires { self.now.count ≤ 16 }
        ensures { result ≡ least_letters self.now }
    {
        if self.has_long() { 4 } else { 0 }
    }
}

impl Extent {
    /// What the picture of a trace has, where there is room for that many bands.
    pub fn of(room: usize, names: &Names, threads: u8, mutexes: u16, lines: &[Line]) -> Extent
        requires { room ≤ 16 }
        ensures value { result ≡ extent_in room names.now threads mutexes lines.now }
        ensures few { result.threads ≤ named_threads }
        ensures narrow { result.bands.count ≤ 16 }
    {
        let bands = Bands::of(room, mutexes, lines);
        Extent {
            threads: threads.min(LANES),
            letters: names.letters(bands.least_letters()),
            bands,
        }
    }
}
