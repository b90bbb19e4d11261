//! Pages of HTML to step through a trace.
//!
//! [`write_page`] writes one file: a frame, the trace's picture as `picture` draws it as SVG, and data. The title tells
//! the first death of an owner in the lines that are shown, and who gets its mutex ([`titles_tell_the_first_death`]). The data have the state after each line that fits
//! those before it, of the first 100,000: what each thread does, and what each mutex is (`state_behind`), as the judge of
//! traces has them ([`states_are_the_judges`], [`shown_lines_fit`], [`fitting_lines_are_shown`], [`flags_are_read`]).
//! They are whole states, and between them what each line changes; a reader gets just the states after the lines, in
//! their order ([`page_shows`]). What is written of a state is what the page's script reads ([`script_reads_states`]).
//! Names in the data are escaped ([`names_are_escaped`]), in quotes that they don't end ([`names_stand_in_quotes`]). How
//! the judge of traces found all of the trace comes after the data, with the line that doesn't fit, if there is one
//! ([`misfits_are_told`]), and why (`reason_text`).
//!
//! [`write_history_page`] writes the page of a trace that shows a history. The page says that it is of a history, and of
//! an illegal one what it is given to say (`history_page_text`); it shows the lines before the illegal one
//! ([`history_lines_are_shown`]). If memory is refused, neither writes anything; if a write
//! fails, a beginning of the page is written (`LeavesPage`).
//!
//! Depends on
//!
//! - `verdict`, for what is read of a trace and how it is judged, and `reasons`, for the words of that;
//! - `picture`, for the picture and names;
//! - `facts`, `posixmutex` and `lockword`, for lines, mutexes as objects, thread ids and replies;
//! - `streams`, for writing, `itoa`, for numbers, and `percent_encoding`, for names.
//!
//! ```text
//! let told = verdict::read_trace(rt.alloc(), b"trace 1 1 0\n1 begin t1 lock m0\nend 1\n")?;
//! let finding = verdict::explain(rt.alloc(), b"trace 1 1 0\n1 begin t1 lock m0\nend 1\n")?;
//! let mut page = Vec::new(rt.alloc());
//! write_page(rt.alloc(), &Names::none(rt.alloc()), &told, &finding, &mut page)?;
//! // <!DOCTYPE html> .. [1,["begin",1,"lock",0],[1,0,0,["lock",0],0,0]], .. <svg ..
//! ```
#![tactic(auto)]

mod data;
mod frame;
mod html;
mod laws;
mod naming;
mod pieces;
mod script;
mod state;
mod status;
mod stories;
mod texts;

pub use html::{write_history_page, write_page};
pub use laws::{
    fitting_lines_are_shown, flags_are_read, history_lines_are_shown, misfits_are_told,
    names_are_escaped, names_stand_in_quotes, page_shows, script_reads_states, shown_lines_fit,
    states_are_the_judges, titles_tell_the_first_death,
};
