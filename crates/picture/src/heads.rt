//! The rows above all lanes.

ghost use Rattle.std.specs.Prelude.{◌≡◌, ◌++◌, ◌≤◌, ◌<◌, string_bytes, IfOk};
ghost use Rattle.lockword.specs.Threads.{named_threads};
ghost use Rattle.picture.specs.Heads.{band_heads, heads, lane_heads, letter, letter_at};
ghost use Rattle.picture.specs.Heads.{letters, letters_below, letters_down, name_width};
ghost use Rattle.picture.specs.Heads.{narrow_heads, next_row, numbers_down, ten_sign, tens, units};

use crate::bands::{Extent, Sheet};
use crate::layout::{EVENT, band_width, gap, is_wide, width};
use crate::pieces::{add, add_padded, fill};
use itoa::Buffer;
use std::alloc::AllocError;

fn add_band_heads(text: &mut String, sheet: &Sheet<'_>) -> Result<(), AllocError>
    requires { sheet.now.extent.bands.count ≤ 16 }
    ensures { IfOk result
        (λ _. string_bytes text.new ≡ string_bytes text.old ++ band_heads sheet.now.names.now sheet.now.extent) }
{
    for band in 0..sheet.extent.bands.count {
        let mut digits = Buffer::new();
        let label = sheet
            .names
            .mutex(sheet.extent.bands.mutexes[band], &mut digits);
        add_padded(text, &[label.head, label.tail], band_width(&sheet.extent))?;
    }
    Ok(())
}

/// How many columns a lane's name takes: as many as the lane, where another one comes after it.
fn name_width(extent: &Extent, lane: u8) -> usize
    ensures { result ≡ name_width extent.now lane }
{
    if lane == extent.threads {
        0
    } else {
        width(extent)
    }
}

/// The names of all lanes, side by side.
fn add_lane_heads(text: &mut String, sheet: &Sheet<'_>) -> Result<(), AllocError>
    requires { sheet.now.extent.threads ≤ named_threads }
    ensures { IfOk result
        (λ _. string_bytes text.new ≡ string_bytes text.old ++ lane_heads sheet.now.names.now sheet.now.extent) }
{
    for index in 0..sheet.extent.threads {
        let mut digits = Buffer::new();
        let lane = index + 1;
        let label = sheet.names.thread(lane, &mut digits);
        add_padded(
            text,
            &[label.head, label.tail],
            name_width(&sheet.extent, lane),
        )?;
    }
    Ok(())
}

/// The first sign of a lane's number: its tens, where it has any.
fn ten_sign(digits: &mut Buffer, lane: u8) -> &str
    ensures { result.now ≡ ten_sign lane }
{
    if lane < 10 {
        "t"
    } else {
        digits.format(lane / 10)
    }
}

/// The first signs of the lanes' numbers, where these are written downwards.
fn add_tens(text: &mut String, extent: &Extent) -> Result<(), AllocError>
    requires { extent.now.threads ≤ named_threads }
    ensures { IfOk result (λ _. string_bytes text.new ≡ string_bytes text.old ++ tens extent.now) }
{
    for index in 0..extent.threads {
        let mut digits = Buffer::new();
        let lane = index + 1;
        add(text, &[ten_sign(&mut digits, lane)])?;
        fill(text, " ", gap(extent, lane))?;
    }
    Ok(())
}

/// And the second ones.
fn add_units(text: &mut String, extent: &Extent) -> Result<(), AllocError>
    requires { extent.now.threads ≤ named_threads }
    ensures { IfOk result (λ _. string_bytes text.new ≡ string_bytes text.old ++ units extent.now) }
{
    for index in 0..extent.threads {
        let mut digits = Buffer::new();
        let lane = index + 1;
        add(text, &[digits.format(lane % 10)])?;
        fill(text, " ", gap(extent, lane))?;
    }
    Ok(())
}

/// The next row, up to the first lane.
fn add_next_row(text: &mut String, extent: &Extent) -> Result<(), AllocError>
    requires { extent.now.bands.count ≤ 16 }
    ensures { IfOk result (λ _. string_bytes text.new ≡ string_bytes text.old ++ next_row extent.now) }
{
    add(text, &["\n"])?;
    fill(text, " ", EVENT + band_width(extent) * extent.bands.count)
}

/// The numbers of all lanes, downwards.
fn add_numbers_down(text: &mut String, extent: &Extent) -> Result<(), AllocError>
    requires few { extent.now.threads ≤ named_threads }
    requires narrow { extent.now.bands.count ≤ 16 }
    ensures { IfOk result (λ _. string_bytes text.new ≡ string_bytes text.old ++ numbers_down extent.now) }
{
    add_tens(text, extent)?;
    add_next_row(text, extent)?;
    add_units(text, extent)
}

/// A letter of a name, or a blank after its last one.
fn add_letter_at(text: &mut String, name: &str, place: usize) -> Result<(), AllocError>
    ensures { IfOk result (λ _. string_bytes text.new ≡ string_bytes text.old ++ letter_at name.now place) }
{
    let bytes = name.as_bytes();
    if place < bytes.len() {
        text.push(char::from(bytes[place]))
    } else {
        text.push_str(" ")
    }
}

/// A letter of the name of the lane after that many others.
fn add_letter(
    text: &mut String,
    sheet: &Sheet<'_>,
    place: usize,
    index: u8,
) -> Result<(), AllocError>
    requires { index < named_threads }
    ensures { IfOk result
        (λ _. string_bytes text.new
        ≡ string_bytes text.old ++ letter sheet.now.names.now sheet.now.extent place index) }
{
    add_letter_at(text, sheet.names.lane(index), place)?;
    fill(text, " ", gap(&sheet.extent, index + 1))
}

/// A letter of each lane's name.
fn add_letters(text: &mut String, sheet: &Sheet<'_>, place: usize) -> Result<(), AllocError>
    requires { sheet.now.extent.threads ≤ named_threads }
    ensures { IfOk result
        (λ _. string_bytes text.new ≡ string_bytes text.old ++ letters sheet.now.names.now sheet.now.extent place) }
{
    for index in 0..sheet.extent.threads {
        add_letter(text, sheet, place, index)?;
    }
    Ok(())
}

/// The same in the next row.
fn add_letters_below(text: &mut String, sheet: &Sheet<'_>, place: usize) -> Result<(), AllocError>
    requires few { sheet.now.extent.threads ≤ named_threads }
    requires narrow { sheet.now.extent.bands.count ≤ 16 }
    requires few_letters { place < 64 }
    ensures { IfOk result
        (λ _. string_bytes text.new
        ≡ string_bytes text.old ++ letters_below sheet.now.names.now sheet.now.extent place) }
{
    add_next_row(text, &sheet.extent)?;
    add_letters(text, sheet, place + 1)
}

/// The names of all lanes, downwards: that many rows below the first.
fn add_letters_down(text: &mut String, sheet: &Sheet<'_>, rows: usize) -> Result<(), AllocError>
    requires few { sheet.now.extent.threads ≤ named_threads }
    requires narrow { sheet.now.extent.bands.count ≤ 16 }
    requires low { rows ≤ 64 }
    ensures { IfOk result
        (λ _. string_bytes text.new ≡ string_bytes text.old ++ letters_down sheet.now.names.now sheet.now.extent rows) }
{
    add_letters(text, sheet, 0)?;
    for row in 0..rows {
        add_letters_below(text, sheet, row)?;
    }
    Ok(())
}

fn add_narrow_heads(text: &mut String, sheet: &Sheet<'_>) -> Result<(), AllocError>
    requires few { sheet.now.extent.threads ≤ named_threads }
    requires narrow { sheet.now.extent.bands.count ≤ 16 }
    ensures { IfOk result
        (λ _. string_bytes text.new ≡ string_bytes text.old ++ narrow_heads sheet.now.names.now sheet.now.extent) }
{
    if sheet.names.threads() == 0 {
        add_numbers_down(text, &sheet.extent)
    } else {
        add_letters_down(text, sheet, sheet.names.thread_letters() - 1)
    }
}

/// The rows above all lanes: what is in which column.
pub fn add_heads(text: &mut String, sheet: &Sheet<'_>) -> Result<(), AllocError>
    requires few { sheet.now.extent.threads ≤ named_threads }
    requires narrow { sheet.now.extent.bands.count ≤ 16 }
    ensures { IfOk result
        (λ _. string_bytes text.new ≡ string_bytes text.old ++ heads sheet.now.names.now sheet.now.extent) }
{
    add(text, &[" event  "])?;
    add_band_heads(text, sheet)?;
    if is_wide(&sheet.extent) {
        add_lane_heads(text, sheet)?;
    } else {
        add_narrow_heads(text, sheet)?;
    }
    add(text, &["\n"])
}
