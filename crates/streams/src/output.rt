//! Writers of which it is known that they have let go of what they kept back.

ghost use Rattle.std.specs.Prelude.{◌≡◌, [], OnOk, ⊤};
ghost use Rattle.std.specs.Io.Buffered.{writer_buffer};
ghost use Rattle.std.specs.Io.KnownBytes.{Keeps};

use std::io::{self, BufWriter, Write};

/// A writer that may keep back what it is given, until it lets go of it.
pub trait Output: Write {
    /// Keeps nothing back.
    ghost is_let_go: { Self → Type 0 };

    /// Lets go of what was kept back.
    fn let_go(&mut self) -> io::Result<()>
        ensures kept { Keeps (Self.contents self.old) (Self.contents self.new) }
        ensures gone { OnOk result (is_let_go self.new) };
}

/// Keeps nothing back where its buffer is empty. What the writer below it does with the bytes then is in no contract
/// of the library.
impl<W: Write + Drop> Output for BufWriter<W> {
    ghost is_let_go = { λ w. writer_buffer w ≡ [] };

    fn let_go(&mut self) -> io::Result<()> {
        self.flush()
    }
}

/// Bytes in memory are never kept back.
impl Output for Vec<u8> {
    ghost is_let_go = { λ _. ⊤ };

    fn let_go(&mut self) -> io::Result<()> {
        Ok(())
    }
}
