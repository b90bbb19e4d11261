//! What calls are about, and what is recorded of them.
ghost use Rattle.std.specs.Prelude.{◌≡◌, ◌<◌, true};
ghost use Rattle.condvar.specs.Ops.{is_in, mutex_of};
ghost use Rattle.protocol.specs.Ops.{begun_of};

use condvar::Op;
use facts::Begun;
use memorymap::Layout;

/// The mutex that a call of the layout is about, which is the layout's too.
pub(crate) fn mutex_of(layout: &Layout, op: Op) -> u16
    requires { is_in layout.now op ≡ true }
    ensures value { result ≡ mutex_of layout.now op }
    ensures inside { result < layout.now.mutexes }
{
    // What a layout always is is known once its words are counted.
    let _words = layout.words();
    op.mutex(layout)
}

/// A call of the layout, as its begin is recorded.
pub(crate) fn begun(layout: &Layout, op: Op) -> Begun
    requires { is_in layout.now op ≡ true }
    ensures { result ≡ begun_of layout.now op }
{
    Begun {
        operation: op.operation(),
        mutex: op.mutex(layout),
        condition: op.condition(),
    }
}
