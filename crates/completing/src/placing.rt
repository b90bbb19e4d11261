//! Where the steps of mutexes stand between a history's lines.

use crate::contended::Step;
use crate::pass::{Look, Pass};
use crate::stop::{Stop, keep};
use facts::Fact;
use lockword::Reply;
use posixmutex::{Decision, HELD_LIMIT, Object, Operation};
use std::alloc::Global;

/// A step, and where it stands.
#[derive(Clone, Copy)]
pub struct Placed {
    /// After this line.
    pub gap: u32,
    pub mutex: u16,
    /// After this many steps of its mutex that change it.
    pub order: u32,
    /// Changes nothing.
    pub looks: bool,
    pub fact: Fact,
}

/// A mutex as a step leaves it, and when.
#[derive(Clone, Copy)]
struct Left {
    at: u32,
    object: Object,
}

fn fact_of(mutex: u16, step: &Step) -> Fact {
    match step.operation {
        Operation::Death => Fact::Death(step.thread, mutex),
        operation => Fact::Point(Decision {
            thread: step.thread,
            mutex,
            operation,
            reply: step.reply,
        }),
    }
}

/// The mutex after this many of its steps.
fn object_behind(left: &[Left], steps: usize) -> Object {
    match left.get(steps.wrapping_sub(1)) {
        Some(step) => step.object,
        None => Object::new(),
    }
}

/// When the last of this many steps was.
fn moment_before(left: &[Left], steps: usize) -> Option<u32> {
    match left.get(steps.wrapping_sub(1)) {
        Some(step) => Some(step.at),
        None => None,
    }
}

/// Places the steps of a mutex that change it, and tells what they leave.
fn place_steps(
    alloc: Global,
    mutex: u16,
    steps: &[Step],
    placed: &mut Vec<Placed>,
) -> Result<Vec<Left>, Stop> {
    let mut left: Vec<Left> = Vec::new(alloc);
    let mut order: u32 = 0;
    for step in steps {
        let before = object_behind(&left, left.len());
        let Some(object) = before.step(0, step.thread, step.operation, step.reply) else {
            return Err(Stop::Lost);
        };
        order = order.wrapping_add(1);
        keep(
            &mut left,
            Left {
                at: step.at,
                object,
            },
        )?;
        let place = Placed {
            gap: step.at,
            mutex,
            order,
            looks: false,
            fact: fact_of(mutex, step),
        };
        keep(placed, place)?;
    }
    Ok(left)
}

/// Whether the look finds what it returned.
fn finds(look: &Look, object: Object) -> bool {
    let held = if look.reply == Reply::XHELD {
        HELD_LIMIT
    } else {
        0
    };
    match object.step(held, look.thread, look.operation, look.reply) {
        Some(after) => after == object,
        None => false,
    }
}

/// The latest moment of its call at which a look finds what it returned, and after how many steps.
fn moment_of(look: &Look, left: &[Left]) -> Result<(u32, u32), Stop> {
    let mut behind = left.partition_point(|step| step.at < look.end);
    let mut gap = look.end.wrapping_sub(1);
    for _ in 0..usize::MAX {
        if finds(look, object_behind(left, behind)) {
            return match u32::try_from(behind) {
                Ok(order) => Ok((gap, order)),
                Err(_) => Err(Stop::Lost),
            };
        }
        let Some(at) = moment_before(left, behind) else {
            return Err(Stop::Lost);
        };
        if at < look.begin {
            return Err(Stop::Lost);
        }
        gap = at;
        behind = behind.wrapping_sub(1);
    }
    Err(Stop::Lost)
}

/// Places the looks at a mutex, the first of these.
fn place_looks(
    mutex: u16,
    looks: &[Look],
    left: &[Left],
    placed: &mut Vec<Placed>,
) -> Result<usize, Stop> {
    let mut count: usize = 0;
    for look in looks {
        if look.mutex != mutex {
            break;
        }
        let (gap, order) = moment_of(look, left)?;
        let place = Placed {
            gap,
            mutex,
            order,
            looks: true,
            fact: Fact::Point(Decision {
                thread: look.thread,
                mutex,
                operation: look.operation,
                reply: look.reply,
            }),
        };
        keep(placed, place)?;
        count = count.wrapping_add(1);
    }
    Ok(count)
}

/// Places all steps, in their order.
pub fn place_all(alloc: Global, pass: &Pass) -> Result<Vec<Placed>, Stop> {
    let mut looks = Vec::new(alloc);
    for look in &pass.looks {
        keep(&mut looks, *look)?;
    }
    looks.sort_unstable_by_key(|look: &Look| (look.mutex, look.end));
    let mut rest: &[Look] = &looks;
    let mut placed = Vec::new(alloc);
    for (mutex, contended) in pass.mutexes.iter().enumerate() {
        let Ok(mutex) = u16::try_from(mutex) else {
            return Err(Stop::Lost);
        };
        let left = place_steps(alloc, mutex, &contended.decided, &mut placed)?;
        let count = place_looks(mutex, rest, &left, &mut placed)?;
        if count <= rest.len() {
            let (_, behind) = rest.split_at(count);
            rest = behind;
        }
    }
    placed.sort_unstable_by_key(|step: &Placed| (step.gap, step.mutex, step.order, step.looks));
    Ok(placed)
}
