//! What holds of every picture.

ghost use Rattle.picture.specs.Laws.{MarksStandInTheirLanes, PicturesHaveRoomForNames};
ghost use Rattle.picture.specs.Laws.{ShownLanesStandInTheirColumns, TextsHaveRoom, UsedMutexesHaveBands};
ghost use Rattle.picture.specs.Positions.{SvgDrawsInPlace, TextDrawsInOrder};
ghost use Rattle.picture.specs.States.{BandsShowMutexes, LanesShowThreads, StatesAreToldApart};

/// A line's mark is in its own thread's lane, after as many columns as the lanes before that one have, and in no
/// other lane.
pub fn marks_stand_in_their_lanes()
    ensures { MarksStandInTheirLanes }
{}

/// If a lane shows something at a row, as many columns come before it as the event, the bands and the lanes before it have.
/// A blank comes after each band, and after the words of a line if its arrow goes on to the right.
pub fn shown_lanes_stand_in_their_columns()
    ensures { ShownLanesStandInTheirColumns }
{}

/// The words of a line in an SVG picture begin next to its mark and end within the picture. If there are five lanes at most,
/// the words end before the marks of the next lane. Neither the names of two bands touch nor those of two lanes. All texts
/// are of a monospaced font at 11 pixels, whose letters take 7.5 pixels at most.
pub fn texts_have_room()
    ensures { TextsHaveRoom }
{}

/// Each picture has room for the names of a script: the laws above hold of all that are drawn.
pub fn pictures_have_room_for_names()
    ensures { PicturesHaveRoomForNames }
{}

/// If a trace has more mutexes than a picture has room for, the mutexes with the first points or deaths have bands.
/// Otherwise all mutexes have one.
pub fn used_mutexes_have_bands()
    ensures { UsedMutexesHaveBands }
{}

/// After each line, a lane shows what its thread does by the lines up to there: the newest begin, return, kill, reaping or
/// renewal of the thread says whether it is in a call, dead or reaped, and the newest sleep or wake of a call says whether
/// it sleeps.
pub fn lanes_show_threads()
    ensures { LanesShowThreads }
{}

/// If the points and deaths of some lines are a legal history of POSIX mutexes, then after these lines each band shows the
/// object that this history leaves of its mutex: its owner, that an owner died, and that it is unusable.
pub fn bands_show_mutexes()
    ensures { BandsShowMutexes }
{}

/// Names, signs, words, colours and shapes are those of the documented tables. Each state of a lane has its own sign in text, and
/// each state of a mutex its own words and its own colour. Each kind of line has its sign, its words, its colour and its
/// shape.
pub fn states_are_told_apart()
    ensures { StatesAreToldApart }
{}

/// An SVG picture draws each thing at its place:
///
/// - a line's mark in the middle of its thread's lane; an arrow to it from the middle of the lane that the arrow comes from;
/// - the name of a lane or a band, and what it shows, at this lane or band;
/// - line k of the trace at row k, with the state after it, and the last row above the foot, which is within the picture.
pub fn svg_draws_in_place()
    ensures { SvgDrawsInPlace }
{}

/// A picture in text has a row for each line of the trace, with the state after this line, and its last row has the number
/// of events.
pub fn text_draws_in_order()
    ensures { TextDrawsInOrder }
{}
