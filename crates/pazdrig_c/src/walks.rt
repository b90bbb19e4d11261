//! Walks over the lists of threads that died, access by access.
ghost use Rattle.std.specs.Prelude.{◌≡◌, ◌≢◌, ◌≤◌, ◌⊎◌, ◌<◌, IfSome, Some};
ghost use Rattle.exitwalk.specs.Standings.{Standing};
ghost use Rattle.exitwalk.specs.Walks.{begun, access_of};
ghost use Rattle.pazdrig_c.specs.Accesses.{answer_of, access_code};
ghost use Rattle.pazdrig_c.specs.Running.{IsThread};
ghost use Rattle.pazdrig_c.specs.Walks.{IsWalking, WalksOn, walk_code, marked_answer};

use crate::access::{answer, coded, no_access, with_point};
use crate::running::{GOES, INVALID, RETURNED};
use crate::structs::{PzAccess, PzWalk};
use exitwalk::{CodedRow, Row, Walk};
use lockword::{Cell, Tid};
use stepprograms::{Answer, Progress, StepProgram};

/// Begins the walk over the list of the thread that `walk` names, whose head is at its address, and tells the walk's
/// first access. 0; or 2, and nothing is written, where there is no such thread.
#[unsafe(no_mangle)]
pub extern "C" fn pz_walk_begin(walk: &mut PzWalk, access: &mut PzAccess) -> u32
    ensures begins { IsThread walk.old.thread
        → (result ≡ 0) × (walk.new ≡ walk_code (begun walk.old.thread walk.old.head))
        × (access.new ≡ access_code (access_of (begun walk.old.thread walk.old.head))) }
    ensures refused { (IsThread walk.old.thread → ⊥)
        → (result ≡ 2) × (walk.new ≡ walk.old) × (access.new ≡ access.old) }
{
    let Some(thread) = Tid::new(walk.thread) else {
        return INVALID;
    };
    let program = Walk::new(thread, walk.head);
    walk.row = CodedRow::of(&program.row());
    *access = coded(program.next());
    GOES
}

/// Tells the next access of a walk that was kept: for whoever goes on with it. 0; or 2, and nothing is written, where
/// no walk in progress has these numbers.
#[unsafe(no_mangle)]
pub extern "C" fn pz_walk_next(walk: &PzWalk, access: &mut PzAccess) -> u32
    ensures tells { (s : Standing) → IsWalking s → walk_code s ≡ walk.now
        → (result ≡ 0) × (access.new ≡ access_code (access_of s)) }
    ensures refused { ((s : Standing) → IsWalking s → walk_code s ≢ walk.now)
        → (result ≡ 2) × (access.new ≡ access.old) }
{
    match read(walk) {
        Some(program) => {
            *access = coded(program.next());
            GOES
        }
        None => INVALID,
    }
}

/// Goes on with the answer to the access told last: tells the next one, or that the walk has ended, with the death that
/// the answer tells. 0: it goes on; 1: it has ended; 2, and nothing is written: no walk in progress has these numbers.
#[unsafe(no_mangle)]
pub extern "C" fn pz_walk_step(
    walk: &mut PzWalk,
    access: &mut PzAccess,
    kind: u32,
    value: u64,
) -> u32
    ensures goes_on { (s : Standing) → IsWalking s → walk_code s ≡ walk.old
        → WalksOn s (answer_of kind value) result walk.new access.new }
    ensures refused { ((s : Standing) → IsWalking s → walk_code s ≢ walk.old)
        → (result ≡ 2) × (walk.new ≡ walk.old) × (access.new ≡ access.old) }
{
    match read(walk) {
        Some(program) => go_on(program, walk, access, answer(kind, value)),
        None => INVALID,
    }
}

/// Whether the word of a walk that was kept shows that the walk's next access, the exchange that marks it, was made
/// already, by a walker that died before it could keep so: it has another owner then. 1: it was, and is answered
/// `Exchanged`; 0: the access is to be made; 2: no walk in progress has these numbers.
#[unsafe(no_mangle)]
pub extern "C" fn pz_walk_again(walk: &PzWalk, word: u64) -> u32
    ensures tells { (s : Standing) → IsWalking s → walk_code s ≡ walk.now → result ≡ marked_answer s word }
    ensures refused { ((s : Standing) → IsWalking s → walk_code s ≢ walk.now) → result ≡ 2 }
{
    match read(walk) {
        Some(program) => match program.row() {
            Row::Mark { .. } if Cell::new(word).owner() != u32::from(walk.thread) => 1,
            _ => 0,
        },
        None => INVALID,
    }
}

/// The walk whose numbers these are; `None` where no walk in progress has them.
fn read(walk: &PzWalk) -> Option<Walk>
    ensures has_these { IfSome result (λ s. IsWalking s × (walk_code s ≡ walk.now)) }
    ensures each { (s : Standing) → IsWalking s → walk_code s ≡ walk.now → result ≡ Some s }
{
    let thread = Tid::new(walk.thread)?;
    let row = walk.row.row(thread, walk.head)?;
    Some(Walk::at(thread, walk.head, row))
}

fn go_on(mut program: Walk, walk: &mut PzWalk, access: &mut PzAccess, answer: Answer) -> u32
    requires walking { IsWalking program }
    requires numbers { walk_code program ≡ walk.old }
    ensures { WalksOn program answer result walk.new access.new }
{
    let progress = program.resume(answer);
    walk.row = CodedRow::of(&program.row());
    match progress {
        Progress::Goes { point } => {
            *access = with_point(point, coded(program.next()));
            GOES
        }
        Progress::Returns { point, .. } => {
            *access = with_point(point, no_access());
            RETURNED
        }
    }
}
