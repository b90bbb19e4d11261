//! Threads by their ids.

use buckets::Batch;
use lockword::Tid;
use std::process::Abort;

/// The thread with an id.
pub(crate) fn thread(rt: &impl Abort, id: u8) -> Tid {
    Tid::new(id).expect(rt, "a thread has this id")
}

/// Those in a batch are the threads with these ids, in this order.
pub(crate) fn has_ids(rt: &impl Abort, batch: &Batch, ids: &[u8]) {
    assert!(rt; batch.len() == ids.len());
    assert!(rt; batch.is_empty() == ids.is_empty());
    assert!(rt; batch.get(ids.len()).is_none());
    for place in 0..ids.len() {
        match batch.get(place) {
            Some(thread) => assert!(rt; thread.get() == ids[place]),
            None => assert!(rt; false),
        }
    }
}
