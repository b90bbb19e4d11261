//! How much room a picture in text has: about a hundred columns, and more where names are long.

ghost use Rattle.std.specs.Prelude.{◌≡◌, ◌≤◌};
ghost use Rattle.picture.specs.Layouts.{band_room, band_width, gap, is_wide, plain_width, width};

use crate::bands::Extent;

/// How many columns the number of an event takes, with the blanks after it.
pub const EVENT: usize = 8;

/// Whether lanes are wide enough for the words of their lines.
pub fn is_wide(extent: &Extent) -> bool
    ensures { result ≡ is_wide extent.now }
{
    extent.threads <= 8
}

/// How many columns a lane takes, where names are short.
fn plain_width(threads: u8) -> usize
    ensures value { result ≡ plain_width threads }
    ensures some { 1 ≤ result }
{
    match threads {
        0..=3 => 24,
        4 => 18,
        5 => 14,
        6 => 12,
        7 | 8 => 11,
        9..=16 => 4,
        17..=32 => 2,
        _ => 1,
    }
}

/// How many columns a lane takes: with room for words it has room for a sign, `to NAME` and a blank.
pub fn width(extent: &Extent) -> usize
    ensures value { result ≡ width extent.now }
    ensures some { 1 ≤ result }
{
    let plain = plain_width(extent.threads);
    if is_wide(extent) {
        plain.max(usize::from(extent.letters) + 6)
    } else {
        plain
    }
}

/// How many columns a band takes: it has room for a name, a mark and a blank.
pub fn band_width(extent: &Extent) -> usize
    ensures value { result ≡ band_width extent.now }
    ensures few { result ≤ 257 }
{
    (usize::from(extent.letters) + 2).max(5)
}

/// How many bands there is room for.
pub fn band_room(threads: u8) -> usize
    ensures value { result ≡ band_room threads }
    ensures few { result ≤ 16 }
{
    match threads {
        0..=2 => 8,
        8 => 2,
        _ => 4,
    }
}

/// How many columns stand between the sign of a lane and the next lane.
pub fn gap(extent: &Extent, lane: u8) -> usize
    ensures { result ≡ gap extent.now lane }
{
    if lane == extent.threads {
        0
    } else {
        width(extent) - 1
    }
}
