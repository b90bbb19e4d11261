//! Judging histories: whether what was seen of robust mutexes could have happened.
//!
//! [`judge`] answers that a history is legal, with a certificate: steps that were checked one by one (`certificates`), a
//! trace that shows the history. So what it finds legal is legal. It answers that a history is illegal at a line; then
//! the lines before that have a certificate, too, and with it they were refuted (`refuting`): no trace shows them. So
//! what it finds illegal is illegal. Else it answers that a history isn't decided at a line. If it finds no certificate
//! for doomed threads, it tries the moments at which they may have been killed (`kills`); so does `refuting`.
//!
//! Why a line is illegal is read off its thread's own lines (`specs/Reasons.antt`), not told by the search: it is out
//! of turn, or a return of the call that is named. A law says that these are so ([`reasons_hold`]), and another one
//! that each line that is out of turn has a reason ([`turns_have_reasons`]). [`evidence_of`] names the lines that say
//! how a mutex stood ([`evidence_is_newest`], [`death_is_named`], [`changes_are_the_objects`]). With the reason come
//! replies that the return could have told, each of which has a certificate ([`points_have_these_replies`] says which
//! are tried).
//!
//! Depends on `certificates`, for what is checked, on `completing`, for the search, on `refuting`, for what is refuted,
//! on `histories` and `facts`, for a history's lines, and on `posixmutex` and `lockword`, for operations, thread ids and
//! replies.
//!
//! ```text
//! match judge(rt.alloc(), &head, &lines)? {
//!     Judgement::Legal(steps) => println!(rt; "legal, in {} steps", steps.len())?,
//!     Judgement::Illegal { at, why, .. } => println!(rt; "illegal at line {}: {why:?}", lines[at].number)?,
//!     Judgement::Undecided(at) => println!(rt; "undecided at line {}", lines[at].number)?,
//! }
//! ```
#![tactic(auto)]

mod certificate;
mod evidence;
mod judging;
mod kills;
mod laws;
mod reason;
mod replies;

pub use evidence::{Change, EarlierReply, Evidence, evidence_of};
pub use judging::{Judgement, judge};
pub use laws::{
    changes_are_the_objects, death_is_named, evidence_is_newest, points_have_these_replies,
    reasons_hold, turns_have_reasons,
};
pub use reason::{OutOfTurn, Reason};
