//! Lists that grow, and values that are shared.
ghost use Rattle.std.specs.Prelude.{◌≡◌, IfOk, OnOk, [], ◌∷◌, ◌++◌};

use memorymap::NoMem;
use std::alloc::{AllocError, Global};
use std::rc::Rc;

/// Adds an item at the end of a list.
pub(crate) fn add<T: Drop>(list: &mut Vec<T>, item: T) -> Result<(), NoMem>
    ensures { OnOk result (list.new.items ≡ list.old.items ++ item ∷ []) }
{
    match list.push(item) {
        Ok(()) => Ok(()),
        Err(failed) => Err(NoMem::from(AllocError::from(failed))),
    }
}

/// A value that several owners share.
pub(crate) fn shared<T: Drop>(alloc: Global, value: T) -> Result<Rc<T, Global>, NoMem>
    ensures { IfOk result (λ rc. rc.value ≡ value) }
{
    match Rc::new(alloc, value) {
        Ok(rc) => Ok(rc),
        Err(failed) => Err(NoMem::from(AllocError::from(failed))),
    }
}
