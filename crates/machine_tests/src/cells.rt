//! Each call once, with words written out by hand from the ABI's bits (robust-futex-ABI).

use lockword::{Cell, ParseReplyError, Reply, Tid, replies_are_read_back};
use std::alloc::Global;

const WAITERS: u64 = 0x8000_0000;

const OWNER_DIED: u64 = 0x4000_0000;

const UNUSABLE: u64 = 0x1_0000_0000;

/// An id, and whether a thread has it.
static IDS: [(u8, bool); 5] = [
    (0, false),
    (1, true),
    (250, true),
    (251, false),
    (255, false),
];

/// Whether there is a thread with this id, if it should be, and it tells the id, and its place among all threads.
fn is_id(id: u8, there: bool) -> bool {
    match Tid::new(id) {
        Some(thread) => there && thread.get() == id && thread.as_index() + 1 == usize::from(id),
        None => !there,
    }
}

#[test]
fn a_thread_has_an_id_from_1_to_250(rt: HostRuntime) {
    for (id, there) in &IDS {
        assert!(rt; is_id(*id, *there), "of {id}");
    }
}

/// A word, its owner, and its flags: WAITERS, OWNER_DIED, unusable.
static CELLS: [(u64, u32, [bool; 3]); 6] = [
    (0, 0, [false, false, false]),
    (0x3fff_ffff, 0x3fff_ffff, [false, false, false]),
    (WAITERS + 7, 7, [true, false, false]),
    (OWNER_DIED + 7, 7, [false, true, false]),
    (UNUSABLE, 0, [false, false, true]),
    (u64::MAX, 0x3fff_ffff, [true, true, true]),
];

fn has_fields(word: u64, owner: u32, flags: [bool; 3]) -> bool {
    let cell = Cell::new(word);
    let [waiters, owner_died, unusable] = flags;
    cell.word() == word
        && cell.owner() == owner
        && cell.waiters() == waiters
        && cell.owner_died() == owner_died
        && cell.unusable() == unusable
}

#[test]
fn a_cell_has_an_owner_and_three_flags(rt: HostRuntime) {
    for (word, owner, flags) in &CELLS {
        assert!(rt; has_fields(*word, *owner, *flags), "of {word}");
    }
    assert!(rt; Cell::new(UNUSABLE + WAITERS + 3).low() == 0x8000_0003);
}

/// Words that may not be trimmed.
static NOT_TRIMMED: [u64; 5] = [
    0,
    WAITERS + 1,
    WAITERS + OWNER_DIED,
    WAITERS + UNUSABLE,
    WAITERS + (1 << 63),
];

fn is_trimmable(word: u64) -> bool {
    Cell::new(word).trimmable()
}

#[test]
fn a_free_cell_with_waiters_alone_is_trimmable(rt: HostRuntime) {
    assert!(rt; is_trimmable(WAITERS));
    for word in &NOT_TRIMMED {
        assert!(rt; !is_trimmable(*word), "of {word}");
    }
}

/// How a cell changes.
#[derive(Clone, Copy)]
enum Change {
    Waiting,
    Marked,
    /// The cell is taken by thread 5.
    Taken,
    /// The cell is released by thread 5.
    Released,
    /// Thread 5 makes it unusable.
    Spoiled,
}

/// A bit above all that have a meaning.
const ABOVE: u64 = 1 << 63;

/// A word, how it changes, and the word that it is then.
static CHANGES: [(u64, Change, u64); 6] = [
    (ABOVE + 5, Change::Waiting, ABOVE + WAITERS + 5),
    (WAITERS + 5, Change::Waiting, WAITERS + 5),
    (
        OWNER_DIED + WAITERS,
        Change::Taken,
        OWNER_DIED + WAITERS + 5,
    ),
    (WAITERS + 5, Change::Marked, WAITERS + OWNER_DIED),
    (ABOVE + WAITERS + 5, Change::Released, ABOVE + WAITERS),
    (
        OWNER_DIED + WAITERS + 5,
        Change::Spoiled,
        UNUSABLE + WAITERS,
    ),
];

/// The cell that is left; None where it can't change so.
fn changed(cell: Cell, change: Change) -> Option<Cell> {
    match change {
        Change::Waiting => Some(cell.waiting()),
        Change::Marked => Some(cell.marked()),
        Change::Taken => taken(cell),
        Change::Released => released(cell),
        Change::Spoiled => spoiled(cell),
    }
}

fn taken(cell: Cell) -> Option<Cell> {
    let thread = Tid::new(5)?;
    if cell.owner() == 0 {
        Some(cell.taken(thread))
    } else {
        None
    }
}

fn released(cell: Cell) -> Option<Cell> {
    let thread = Tid::new(5)?;
    if cell.owner() == u32::from(thread.get()) {
        Some(cell.released(thread))
    } else {
        None
    }
}

fn spoiled(cell: Cell) -> Option<Cell> {
    let thread = Tid::new(5)?;
    if cell.owner() == u32::from(thread.get()) && cell.owner_died() {
        Some(cell.spoiled(thread))
    } else {
        None
    }
}

fn becomes(word: u64, change: Change, new: u64) -> bool {
    match changed(Cell::new(word), change) {
        Some(cell) => cell.word() == new,
        None => false,
    }
}

#[test]
fn a_cell_changes_by_its_bits(rt: HostRuntime) {
    for (word, change, new) in &CHANGES {
        assert!(rt; becomes(*word, *change, *new), "from {word} to {new}");
    }
}

/// A reply, its number and its name.
pub(crate) static REPLIES: [(Reply, u16, &str); 16] = [
    (Reply::OK, 0, "OK"),
    (Reply::EPERM, 1, "EPERM"),
    (Reply::ESRCH, 3, "ESRCH"),
    (Reply::EAGAIN, 11, "EAGAIN"),
    (Reply::EFAULT, 14, "EFAULT"),
    (Reply::EBUSY, 16, "EBUSY"),
    (Reply::EINVAL, 22, "EINVAL"),
    (Reply::EDEADLK, 35, "EDEADLK"),
    (Reply::ETIMEDOUT, 110, "ETIMEDOUT"),
    (Reply::EOWNERDEAD, 130, "EOWNERDEAD"),
    (Reply::ENOTRECOVERABLE, 131, "ENOTRECOVERABLE"),
    (Reply::XNOMEM, 1000, "X_NOMEM"),
    (Reply::XRACED, 1001, "X_RACED"),
    (Reply::XHELD, 1002, "X_HELD"),
    (Reply::XFULL, 1003, "X_FULL"),
    (Reply::XSTATE, 1004, "X_STATE"),
];

/// What a text is read as.
fn read(text: &str) -> Option<Reply> {
    text.parse().ok()
}

fn is_reply(reply: Reply, number: u16, name: &str) -> bool {
    reply.number() == number && reply.name() == name && read(name) == Some(reply)
}

#[test]
fn replies_have_numbers_and_names(rt: HostRuntime) {
    for (reply, number, name) in &REPLIES {
        assert!(rt; is_reply(*reply, *number, *name), "of {name}");
    }
    replies_are_read_back();
}

/// Texts that are no reply's name.
static NO_REPLIES: [&str; 6] = ["", "ok", "OK ", "XHELD", "EOWNERDIED", "0"];

/// Whether the error is printed so.
fn is_printed(alloc: Global, error: ParseReplyError, text: &str) -> bool {
    match error.to_string(alloc) {
        Ok(printed) => printed.as_str() == text,
        Err(_) => false,
    }
}

#[test]
fn other_texts_are_no_replies(rt: HostRuntime) {
    for text in &NO_REPLIES {
        assert!(rt; read(*text).is_none(), "of {text}");
    }
    assert!(rt; is_printed(rt.alloc(), ParseReplyError, "no reply has this name"));
}
