//! Writing all of a text, or a beginning of it.

ghost use Rattle.std.specs.Prelude.{◌≡◌, length, map};
ghost use Rattle.std.specs.List.{concat};
ghost use Rattle.streams.specs.Leaves.{Leaves};
ghost use Rattle.streams.specs.Pieces.{piece_text, pieces_text};

use itoa::Buffer;
use std::io::{self, ErrorKind, Write};

/// Writes the text. A write that was interrupted is tried again. At an error, one of 0 bytes among them, a beginning
/// of the text is written.
pub fn put_text<W: Write>(out: &mut W, text: &[u8]) -> io::Result<()>
    ensures { Leaves (W.contents out.old) (W.contents out.new) result text.now }
{
    let mut at = 0;
    for _ in 0..u64::MAX {
        if at >= text.len() {
            return Ok(());
        }
        match out.write(&text[at..]) {
            Ok(0) => return Err(io::Error::from(ErrorKind::WriteZero)),
            Ok(n) => at += n,
            Err(e) => {
                if e.kind() != ErrorKind::Interrupted {
                    return Err(e);
                }
            }
        }
    }
    // a writer that is interrupted at every write
    Err(io::Error::from(ErrorKind::Other))
}

/// Writes the pieces one after the other. At an error a beginning of them is written.
pub fn put<W: Write>(out: &mut W, pieces: &[&str]) -> io::Result<()>
    ensures { Leaves (W.contents out.old) (W.contents out.new) result (concat (map (λ p. p.now) pieces.now)) }
{
    for piece in pieces {
        put_text(out, piece.as_bytes())?;
    }
    Ok(())
}

/// A piece of a text.
#[derive(Clone, Copy, Debug)]
pub enum Piece<'a> {
    Word(&'a str),
    /// Written in decimal digits.
    Number(u64),
}

fn put_piece<W: Write>(out: &mut W, piece: Piece<'_>) -> io::Result<()>
    ensures { Leaves (W.contents out.old) (W.contents out.new) result (piece_text piece.entry) }
{
    match piece {
        Piece::Word(word) => put_text(out, word.as_bytes()),
        Piece::Number(number) => {
            let mut digits = Buffer::new();
            put_text(out, digits.format(number).as_bytes())
        }
    }
}

/// Writes the pieces, words and numbers, one after the other. At an error a beginning of them is written.
pub fn put_pieces<W: Write>(out: &mut W, pieces: &[Piece<'_>]) -> io::Result<()>
    ensures { Leaves (W.contents out.old) (W.contents out.new) result (pieces_text pieces.now) }
{
    for &piece in pieces {
        put_piece(out, piece)?;
    }
    Ok(())
}
