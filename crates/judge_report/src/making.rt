//! Making and removing files.

ghost use Rattle.std.specs.Prelude.{ℕ, List, Option, ⊤, IfOk};

use std::io::{self, Write};

/// What makes and removes files.
pub trait Maker {
    /// A file that is written.
    type File: Write + Drop;

    /// What making the file of this name may give: a writer that holds these bytes, where they are known.
    ghost makes: { Self → List ℕ → Option (List ℕ) → Type 0 } = { λ _ _ _. ⊤ };

    /// The writing of the file of this name ended, with a writer that held these bytes, where they are known.
    ghost fills: { Self → List ℕ → Option (List ℕ) → Type 0 } = { λ _ _ _. ⊤ };

    /// The file of this name was removed, or there was none.
    ghost lacks: { Self → List ℕ → Type 0 } = { λ _ _. ⊤ };

    /// Makes the file of this name, empty.
    fn make(&self, name: &str) -> io::Result<Self::File>
        ensures { IfOk result (λ file. makes self.now name.now (Self.File.contents file)) };

    /// Ends the writing of the file of this name: nothing is kept back.
    fn fill(&self, name: &str, file: Self::File) -> io::Result<()>
        ensures { IfOk result (λ _. fills self.now name.now (Self.File.contents file)) };

    /// Removes the file of this name; false if there is none.
    fn remove(&self, name: &str) -> io::Result<bool>
        ensures { IfOk result (λ _. lacks self.now name.now) };
}
