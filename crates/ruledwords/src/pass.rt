//! Words, what threads step on them with, and what they know.
ghost use Rattle.std.specs.Prelude.{◌≡◌, ◌≤◌};
ghost use Rattle.memorymap.specs.Layouts.{words_of};
ghost use Rattle.posixmutex.specs.Objects.{held_limit};
ghost use Rattle.ruledwords.specs.Rules.{card_of, IsOne};
ghost use Rattle.ruledwords.specs.Seen.{held as holding};

use crate::rule::History;
use atomic_table::Seat;
use cachelines::{Closed, Places};
use lockword::Tid;
use memorymap::Layout;
use posixmutex::Point;
use std::collections::LinkedList;
use std::marker::PhantomData;

/// The shared words of a layout's threads, mutexes and condition variables.
#[derive(Drop)]
pub struct Words {
    pub(crate) places: Places<View, Opening, History>,
    pub(crate) layout: Layout,
    pub ghost key: { places.table.shared.key.layout ≡ layout },
    pub ghost all: { places.count ≡ words_of places.table.shared.key.layout },
    pub ghost wide: { places.count ≡ words_of layout },
}

/// The thread lives.
#[derive(Drop)]
pub struct Live;

/// The thread has died, and its mutexes aren't marked yet.
#[derive(Drop)]
pub struct Dead;

/// The thread died, and the kernel has been through its list: it holds nothing.
#[derive(Drop)]
pub struct Reaped;

/// The pass is put aside: whether its thread lives is forgotten. It can only be there at the end of the words.
#[derive(Drop)]
pub struct Spent;

/// What one thread steps on the words with. It is used only with the words that it was made with.
#[derive(Drop)]
pub struct Pass<A> {
    pub(crate) seat: Seat<(), View>,
    pub(crate) thread: Tid,
    /// How many mutexes the thread holds.
    pub(crate) held: u16,
    pub(crate) state: PhantomData<A>,
    pub ghost one: { IsOne seat.me },
    pub ghost own: { (card_of seat.me.0).thread ≡ thread },
    pub ghost count: { held ≡ holding (card_of seat.me.0) },
    pub ghost few: { held ≤ held_limit },
}

/// A pass of one of two kinds, as of a thread that lives and of one that was reaped.
#[derive(Drop)]
pub enum EitherPass<A, B> {
    First(Pass<A>),
    Second(Pass<B>),
}

/// The words after the last step.
#[derive(Drop)]
pub struct Last {
    pub(crate) closed: Closed,
    pub(crate) layout: Layout,
    pub ghost wide: { closed.count ≡ words_of layout },
}

/// A change of a mutex's cell or of a condition variable's counter: whose it was, 0 for what was there at first, and
/// the word that it left. It is in contracts and proofs alone.
pub struct Change {
    pub thread: u64,
    pub word: u64,
}

/// What one thread knows of the shared words. It is in contracts and proofs alone: no value of it is made.
pub struct Card {
    /// How many threads there are.
    pub threads: u64,
    /// Whose card it is.
    pub thread: u64,
    /// The address that the thread has for place 0 of the words.
    pub base: u64,
    /// What it has seen of each mutex, by the place of its cell.
    pub seen: LinkedList<LinkedList<Point>>,
    /// How many of its exchanges found a changed cell.
    pub misses: u64,
    /// The word that its last access to a cell found, or its last look at a counter.
    pub last: u64,
    /// How many trims it has made.
    pub trims: u64,
    /// What its last load of a condition variable's counter found.
    pub counted: u64,
    /// The words that only this thread writes, by place, where they are known.
    pub values: LinkedList<Option<u64>>,
    /// The cells in which it saw WAITERS, by place.
    pub marks: LinkedList<bool>,
    /// What it knows of the changes of each cell and each counter, by place: the first of them, one after the other,
    /// and all that it made itself.
    pub changes: LinkedList<LinkedList<Change>>,
}

/// A pass has one card. While passes are dealt, or meet, one seat has several.
pub type View = LinkedList<Card>;

/// The layout of the words, and each word before the first step. It's the key of their rule.
#[derive(Drop)]
pub struct Opening {
    pub(crate) layout: Layout,
    pub(crate) words: Vec<u64>,
}
