//! How threads' lives end in a pass, and begin again.

use crate::lives::Turn;
use crate::pass::Pass;
use crate::stop::{Stop, place};
use lockword::Tid;

impl Pass {
    /// Ends the call in which a thread dies, or marks it where nobody knows when it dies. Tells its mutex.
    fn cut(&mut self, thread: Tid, doomed: bool) -> Result<Option<u16>, Stop> {
        let Turn::Calling(mutex) = self.turn(thread) else {
            return Ok(None);
        };
        let Some(contended) = self.mutexes.get_mut(usize::from(mutex)) else {
            return Err(Stop::Lost);
        };
        let Some((at, call)) = contended.call_of(thread) else {
            return Err(Stop::Lost);
        };
        if !doomed {
            contended.end(at, &call);
            return Ok(Some(mutex));
        }
        let mark = if call.mark == 0 && call.may_take() {
            contended.mark()?
        } else {
            call.mark
        };
        if let Some(pending) = contended.pending.get_mut(at) {
            pending.mark = mark;
            pending.doomed = true;
        }
        Ok(Some(mutex))
    }

    /// Closes the mutexes that a thread may have left.
    fn close_left(&mut self, thread: Tid) -> Result<(), Stop> {
        for at in 0..usize::MAX {
            let left = match self.lives.get(place(thread)) {
                Some(life) => life.left.get(at).copied(),
                None => None,
            };
            let Some(mutex) = left else {
                break;
            };
            if let Some(contended) = self.mutexes.get_mut(usize::from(mutex)) {
                contended.merge(self.alloc)?;
            }
            self.close(mutex)?;
        }
        Ok(())
    }

    pub(crate) fn die(&mut self, thread: Tid, doomed: bool) -> Result<(), Stop> {
        if self.dead[place(thread)] {
            return Err(Stop::Refused);
        }
        self.dead[place(thread)] = true;
        let calls = self.cut(thread, doomed)?;
        let alloc = self.alloc;
        let Some(life) = self.lives.get_mut(place(thread)) else {
            return Err(Stop::Lost);
        };
        life.leave(alloc, calls)?;
        if !doomed || calls.is_none() {
            life.turn = Turn::Dying;
        }
        self.close_left(thread)
    }

    pub(crate) fn reap(&mut self, thread: Tid) -> Result<(), Stop> {
        if self.turn(thread) == Turn::Reaped {
            return Err(Stop::Refused);
        }
        if !self.dead[place(thread)] {
            return Err(Stop::Refused);
        }
        self.set_turn(thread, Turn::Reaped);
        for at in 0..usize::MAX {
            let left = match self.lives.get(place(thread)) {
                Some(life) => life.left.get(at).copied(),
                None => None,
            };
            let Some(mutex) = left else {
                break;
            };
            let Some(contended) = self.mutexes.get_mut(usize::from(mutex)) else {
                return Err(Stop::Lost);
            };
            contended.states.retain(|state| state.owner != Some(thread));
            if contended.states.is_empty() {
                return Err(Stop::Lost);
            }
            if let Some((at, call)) = contended.call_of(thread) {
                contended.end(at, &call);
            }
        }
        self.close_left(thread)?;
        if let Some(life) = self.lives.get_mut(place(thread)) {
            life.left.clear();
        }
        Ok(())
    }

    pub(crate) fn renew(&mut self, thread: Tid) -> Result<(), Stop> {
        if self.turn(thread) != Turn::Reaped {
            return Err(Stop::Refused);
        }
        self.dead[place(thread)] = false;
        self.set_turn(thread, Turn::Resting);
        Ok(())
    }
}
