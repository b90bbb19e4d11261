//! Opening files.

ghost use Rattle.std.specs.Prelude.{ℕ, List, Option, Result, Ok, Err, ⊤, IfOk, IfErr};
ghost use Rattle.std.specs.IoError.{error_kind};
ghost use Rattle.std.specs.declared.io.ErrorKind.{ErrorKind as Kind};

use std::io::{self, Read};

/// What opens files.
pub trait Opener {
    /// An open file.
    type Input: Read + Drop;

    /// What opening the file of this name may give: a reader that has these bytes left, where they are known, or an
    /// error of this kind.
    ghost opens: { Self → List ℕ → Result (Option (List ℕ)) Kind → Type 0 } = { λ _ _ _. ⊤ };

    /// Opens the file of this name for reading.
    fn open(&self, file: &str) -> io::Result<Self::Input>
        ensures opened { IfOk result (λ input. opens self.now file.now (Ok (Self.Input.remaining input))) }
        ensures refused { IfErr result (λ e. opens self.now file.now (Err (error_kind e))) };
}
