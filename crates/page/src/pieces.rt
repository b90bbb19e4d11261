//! Texts that grow piece by piece.

ghost use Rattle.std.specs.Prelude.{◌≡◌, ◌++◌, decimal, map, string_bytes, IfOk};
ghost use Rattle.std.specs.List.{concat};

use itoa::Buffer;
use std::alloc::AllocError;

/// Adds the pieces to a text.
pub fn add(text: &mut String, pieces: &[&str]) -> Result<(), AllocError>
    ensures { IfOk result (λ _. string_bytes text.new ≡ string_bytes text.old ++ concat (map (λ p. p.now) pieces.now)) }
{
    for piece in pieces {
        text.push_str(piece)?;
    }
    Ok(())
}

/// Adds a piece.
pub fn add_word(text: &mut String, word: &str) -> Result<(), AllocError>
    ensures { IfOk result (λ _. string_bytes text.new ≡ string_bytes text.old ++ word.now) }
{
    text.push_str(word)?;
    Ok(())
}

/// Adds a number, in decimal digits.
pub fn add_number(text: &mut String, number: u64) -> Result<(), AllocError>
    ensures { IfOk result (λ _. string_bytes text.new ≡ string_bytes text.old ++ decimal number) }
{
    let mut digits = Buffer::new();
    add_word(text, digits.format(number))
}
