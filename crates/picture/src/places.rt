//! Where things are in an SVG picture, in its pixels. Time runs downwards, a line of the trace after the other.

ghost use Rattle.std.specs.Prelude.{◌≡◌, ◌≤◌, ◌<◌, ◌+◌, ◌*◌, ◌^◌};
ghost use Rattle.picture.specs.Places.{along, apart, band_apart, band_middle, band_wide};
ghost use Rattle.picture.specs.Places.{band_x, lane_x, name_room, row_y, words_room, words_x};

use crate::bands::Extent;

/// Where the number of an event ends.
pub const NUMBER_X: u32 = 48;

/// How much room the words of any line take: it is also what comes after the middle of the last lane.
pub fn words_room(extent: &Extent) -> u32
    ensures value { result ≡ words_room extent.now }
    ensures few { result ≤ 2260 }
{
    220 + 8 * u32::from(extent.letters.max(5))
}

/// How much room a name takes.
fn name_room(extent: &Extent) -> u32
    ensures value { result ≡ name_room extent.now }
    ensures few { result ≤ 2048 }
{
    8 * u32::from(extent.letters) + 8
}

/// How far a lane is from the next one: the more lanes, the nearer. Up to five have room for the words of each line.
fn apart(extent: &Extent) -> u32
    ensures value { result ≡ apart extent.now }
    ensures few { result ≤ 2260 }
{
    let least: u32 = match extent.threads {
        0..=5 => return words_room(extent),
        6..=8 => 120,
        9..=16 => 60,
        _ => 30,
    };
    least.max(name_room(extent))
}

/// How far a lane is from the first one.
fn along(extent: &Extent, lane: u8) -> u32
    ensures value { result ≡ along extent.now lane }
    ensures few { result ≤ 2260 * 255 }
{
    apart(extent) * u32::from(lane.saturating_sub(1))
}

/// How far a band is from the next one: it has room for a name.
fn band_apart(extent: &Extent) -> u32
    ensures value { result ≡ band_apart extent.now }
    ensures some { 26 ≤ result }
    ensures few { result ≤ 2048 }
{
    name_room(extent).max(26)
}

/// How wide a band is.
pub fn band_wide(extent: &Extent) -> u32
    ensures value { result ≡ band_wide extent.now }
    ensures few { result ≤ 2048 }
{
    band_apart(extent) - 4
}

/// The left end of a band.
pub fn band_x(extent: &Extent, band: usize) -> u32
    requires { band ≤ 16 }
    ensures value { result ≡ band_x extent.now band }
    ensures few { result ≤ 64 + 2048 * 16 }
{
    64 + band_apart(extent) * (band as u32)
}

/// The middle of a band.
pub fn band_middle(extent: &Extent, band: usize) -> u32
    requires { band ≤ 16 }
    ensures { result ≡ band_x extent.now band + band_middle extent.now }
{
    band_x(extent, band) + band_wide(extent) / 2
}

/// The middle of a lane.
pub fn lane_x(extent: &Extent, lane: u8) -> u32
    requires { extent.now.bands.count ≤ 16 }
    ensures value { result ≡ lane_x extent.now lane }
    ensures low { 50 ≤ result }
    ensures high { result < 2 ^ 20 }
{
    band_x(extent, extent.bands.count) + 20 + along(extent, lane)
}

/// Where the words of a line begin, by the middle of its lane.
pub fn words_x(middle: u32) -> u32
    requires { middle < 2 ^ 20 }
    ensures { result ≡ words_x middle }
{
    middle + 10
}

/// The middle of a line's row, the first line being number 1.
pub fn row_y(line: usize) -> u128
    ensures value { result ≡ row_y line }
    ensures low { 30 ≤ result }
    ensures high { result < 2 ^ 70 }
{
    30 + 18 * (line as u128)
}
