//! Accesses and answers as numbers.
ghost use Rattle.std.specs.Prelude.{◌≡◌};
ghost use Rattle.pazdrig_c.specs.Accesses.{plain, no_access, access_code, decided, with_point, answer_of};
ghost use Rattle.pazdrig_c.specs.Accesses.{operation_number};

use crate::structs::PzAccess;
use lockword::Reply;
use posixmutex::{Operation, Point};
use stepprograms::{Access, Answer};

/// The point of an access that has none.
const NO_POINT: u16 = 0xffff;

#[inline(always)]
fn plain(kind: u32, at: u64, a: u64, b: u64, most: u32, wakes: u32) -> PzAccess
    ensures { result ≡ plain kind at a b most wakes }
{
    PzAccess {
        at,
        a,
        b,
        kind,
        most,
        wakes,
        point: NO_POINT,
        operation: 0,
    }
}

/// What a call that has returned makes: nothing.
pub(crate) fn no_access() -> PzAccess
    ensures { result ≡ no_access }
{
    plain(0, 0, 0, 0, 0, 0)
}

/// The numbers of an access.
#[inline(always)]
pub(crate) fn coded(access: Access) -> PzAccess
    ensures { result ≡ access_code access }
{
    match access {
        Access::Load { at } => plain(1, at, 0, 0, 0, 0),
        Access::Store { at, value } => plain(2, at, value, 0, 0, 0),
        Access::Exchange { at, expected, new } => plain(3, at, expected, new, 0, 0),
        Access::FetchXor { at, operand } => plain(4, at, operand, 0, 0, 0),
        Access::FetchOr { at, operand } => plain(5, at, operand, 0, 0, 0),
        Access::FetchAnd { at, operand } => plain(6, at, operand, 0, 0, 0),
        Access::FetchAdd { at, operand } => plain(7, at, operand, 0, 0, 0),
        Access::Wait { at, expected } => plain(8, at, u64::from(expected), 0, 0, 0),
        Access::Wake { at, most } => plain(9, at, 0, 0, most, 0),
        Access::CmpRequeue {
            from,
            expected,
            wake,
            to,
            moves,
        } => plain(10, from, u64::from(expected), to, moves, wake),
        Access::Trim { at } => plain(11, at, 0, 0, 0, 0),
        Access::Requeue {
            from,
            wake,
            to,
            moves,
        } => plain(12, from, 0, to, moves, wake),
    }
}

/// With the point that the answer before it decided.
#[inline(always)]
pub(crate) fn with_point(point: Option<Point>, access: PzAccess) -> PzAccess
    ensures { result ≡ with_point point access }
{
    match point {
        Some(point) => PzAccess {
            point: point.reply.number(),
            operation: numbered(point.operation),
            ..access
        },
        None => access,
    }
}

/// With a point that no answer decided.
#[inline(always)]
pub(crate) fn decided(operation: Operation, reply: Reply, access: PzAccess) -> PzAccess
    ensures { result ≡ decided operation reply access }
{
    PzAccess {
        point: reply.number(),
        operation: numbered(operation),
        ..access
    }
}

fn numbered(operation: Operation) -> u8
    ensures { result ≡ operation_number operation }
{
    match operation {
        Operation::Lock => 0,
        Operation::TryLock => 1,
        Operation::Unlock => 2,
        Operation::Consistent => 3,
        Operation::Wait => 4,
        Operation::Signal => 5,
        Operation::Broadcast => 6,
        Operation::Death => 7,
        Operation::Reinit => 8,
        Operation::TimedLock => 9,
        Operation::TimedWait => 10,
    }
}

/// The answer with these numbers: `Fault` where none has them.
#[inline(always)]
pub(crate) fn answer(kind: u32, value: u64) -> Answer
    ensures { result ≡ answer_of kind value }
{
    match kind {
        1 => Answer::Value(value),
        2 => Answer::Stored,
        3 => Answer::Exchanged,
        4 => Answer::Changed(value),
        5 => Answer::Again,
        6 => Answer::Woken,
        7 => match u32::try_from(value) {
            Ok(woken) => Answer::Count(woken),
            Err(_) => Answer::Fault,
        },
        8 => Answer::Counts((value >> 32) as u32, (value & 0xffff_ffff) as u32),
        9 => Answer::Trimmed(value != 0),
        _ => Answer::Fault,
    }
}
