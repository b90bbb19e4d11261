//! Texts that grow piece by piece.

ghost use Rattle.std.specs.Prelude.{◌≡◌, ◌≤◌, ◌++◌, codes, map, string_bytes, IfOk};
ghost use Rattle.std.specs.List.{concat, repeat};
ghost use Rattle.picture.specs.Pieces.{less, padded};

use std::alloc::AllocError;

/// Adds the pieces to a text.
pub fn add(text: &mut String, pieces: &[&str]) -> Result<(), AllocError>
    ensures { IfOk result (λ _. string_bytes text.new ≡ string_bytes text.old ++ concat (map (λ p. p.now) pieces.now)) }
{
    for piece in pieces {
        text.push_str(piece)?;
    }
    Ok(())
}

/// Adds a piece that many times.
pub fn fill(text: &mut String, piece: &str, count: usize) -> Result<(), AllocError>
    ensures { IfOk result (λ _. string_bytes text.new ≡ string_bytes text.old ++ repeat count piece.now) }
{
    for _time in 0..count {
        text.push_str(piece)?;
    }
    Ok(())
}

/// How many of the columns the pieces leave, of which each byte takes one.
pub fn room(columns: usize, pieces: &[&str]) -> usize
    ensures value { result ≡ less columns (map (λ p. p.now) pieces.now) }
    ensures few { result ≤ columns }
{
    let mut left = columns;
    for piece in pieces {
        left = left.saturating_sub(piece.len());
    }
    left
}

/// Adds the pieces, and blanks up to that many columns.
pub fn add_padded(text: &mut String, pieces: &[&str], columns: usize) -> Result<(), AllocError>
    ensures { IfOk result
        (λ _. string_bytes text.new ≡ string_bytes text.old ++ padded columns (map (λ p. p.now) pieces.now)) }
{
    add(text, pieces)?;
    fill(text, " ", room(columns, pieces))
}
