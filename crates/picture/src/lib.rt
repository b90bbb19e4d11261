//! Pictures of traces: a lane for each thread, a band for each mutex, and each line of the trace drawn once, in the
//! lane of its thread and at its event.
//!
//! [`draw`] draws a trace as rows of text, [`draw_svg`] as scalable vector graphics, each byte for byte as `specs/`
//! says: what a lane shows between the lines of its thread, and which mark a line has in it. A mark is in its own
//! thread's lane (`marks_stand_in_their_lanes`), each lane in its own columns at every row
//! (`shown_lanes_stand_in_their_columns`), and in SVG the words of a line have room (`texts_have_room`) and each thing is
//! drawn at its lane, its band and its row (`svg_draws_in_place`). Lanes and bands show what the lines tell
//! (`lanes_show_threads`, `bands_show_mutexes`), each state in its own way (`states_are_told_apart`). If a write fails or
//! memory runs out, a beginning of the picture is written ([`Unwritten`]).
//!
//! Depends on `facts`, for the lines, on `posixmutex`, for mutexes as objects and operations, on `lockword`, for thread
//! ids and replies, on `streams`, for writing, on `itoa`, for numbers, and on `thiserror`, for messages.
//!
//! ```text
//! // `verdict` reads the lines; they needn't be legal.
//! let told = verdict::read_trace(rt.alloc(), b"trace 1 1 0\n1 begin t1 lock m0\nend 1\n")?;
//! let mut text = Vec::new(rt.alloc());
//! let (threads, mutexes) = (told.head.threads, told.head.mutexes);
//! draw(rt.alloc(), &Names::none(rt.alloc()), threads, mutexes, &told.lines, told.last, &mut text)?;
//! // " event  m0   t1"
//! // "     1  -    ┌ lock m0"
//! // "     1  end"
//! ```
#![tactic(auto)]

mod bands;
mod drawing;
mod heads;
mod lane;
mod laws;
mod layout;
mod names;
mod pieces;
mod places;
mod rows;
mod scene;
mod shapes;
mod style;
mod svg;
mod svg_drawing;
mod words;

pub use drawing::{Unwritten, draw};
pub use laws::{
    bands_show_mutexes, lanes_show_threads, marks_stand_in_their_lanes,
    pictures_have_room_for_names, shown_lanes_stand_in_their_columns, states_are_told_apart,
    svg_draws_in_place, text_draws_in_order, texts_have_room, used_mutexes_have_bands,
};
pub use names::Names;
pub use svg::Misfit;
pub use svg_drawing::{draw_svg, draw_svg_marked};
