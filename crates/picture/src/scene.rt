//! What all lanes and bands show, line after line.

ghost use Rattle.std.specs.Prelude.{◌≡◌, ◌≤◌};
ghost use Rattle.facts.specs.Facts.{decision_of};
ghost use Rattle.posixmutex.specs.Objects.{stepped};
ghost use Rattle.picture.specs.Scenes.{actor_of, behind, first_scene, lanes_behind, objects_behind};

use crate::bands::{Bands, IDS};
use crate::lane::Lane;
use facts::{Fact, Line};
use lockword::{Reply, Tid};
use posixmutex::{Decision, Object, Operation};

/// What all lanes and bands show after a line.
#[derive(Clone, Copy)]
pub struct Scene {
    /// Indexed by the threads' ids, from 0, which is no thread's.
    pub lanes: [Lane; IDS],
    /// The mutexes that have bands, from left to right.
    pub objects: [Object; 16],
    /// The number of the line's event, 0 before the first line.
    pub event: u32,
    /// Whose event it is, where a line tells.
    pub actor: Option<Tid>,
}

/// What a mutex is after a point or a death, also after one that its object doesn't allow.
fn stepped(object: Object, decision: &Decision) -> Object
    ensures { result ≡ stepped object decision.now.thread decision.now.operation decision.now.reply }
{
    match decision.operation {
        Operation::Lock | Operation::TryLock => match decision.reply {
            Reply::OK | Reply::EOWNERDEAD => Object {
                owner: Some(decision.thread),
                ..object
            },
            _ => object,
        },
        Operation::Unlock => match decision.reply {
            Reply::OK => Object {
                owner: None,
                inconsistent: false,
                unusable: object.inconsistent || object.unusable,
            },
            _ => object,
        },
        Operation::Consistent => match decision.reply {
            Reply::OK => Object {
                inconsistent: false,
                ..object
            },
            _ => object,
        },
        Operation::Death => match decision.reply {
            Reply::OK => Object {
                owner: None,
                inconsistent: true,
                unusable: object.unusable,
            },
            _ => object,
        },
        Operation::Reinit => match decision.reply {
            Reply::OK => Object::new(),
            _ => object,
        },
        Operation::TimedLock | Operation::Wait | Operation::TimedWait => object,
        Operation::Signal | Operation::Broadcast => object,
    }
}

/// Whose this event is, of which the first lines tell: the thread of the first of them that isn't told of what the
/// event did to another one.
fn actor_of(event: u32, lines: &[Line]) -> Option<Tid>
    ensures { result ≡ actor_of event lines.now }
{
    for line in lines {
        if line.event != event {
            return None;
        }
        if !line.fact.is_passive() {
            return Some(line.fact.thread());
        }
    }
    None
}

fn lanes_behind(lanes: [Lane; IDS], fact: &Fact) -> [Lane; IDS]
    ensures { result ≡ lanes_behind lanes fact.now }
{
    let mut lanes = lanes;
    let thread = usize::from(fact.thread().get());
    lanes[thread] = lanes[thread].after(fact);
    lanes
}

fn objects_behind(bands: &Bands, objects: [Object; 16], decision: Option<Decision>) -> [Object; 16]
    requires { bands.now.count ≤ 16 }
    ensures { result ≡ objects_behind bands.now objects decision }
{
    let mut objects = objects;
    if let Some(decision) = decision {
        if let Some(band) = bands.place(decision.mutex) {
            objects[band] = stepped(objects[band], &decision);
        }
    }
    objects
}

impl Scene {
    /// Before the first line.
    pub fn new() -> Scene
        ensures { result ≡ first_scene }
    {
        Scene {
            lanes: [Lane::Idle; IDS],
            objects: [Object::new(); 16],
            event: 0,
            actor: None,
        }
    }

    /// After a line, the first of `lines`.
    pub fn behind(self, bands: &Bands, line: &Line, lines: &[Line]) -> Scene
        requires { bands.now.count ≤ 16 }
        ensures { result ≡ behind bands.now self line.now lines.now }
    {
        let actor = if line.event == self.event {
            self.actor
        } else {
            actor_of(line.event, lines)
        };
        Scene {
            lanes: lanes_behind(self.lanes, &line.fact),
            objects: objects_behind(bands, self.objects, line.fact.decision()),
            event: line.event,
            actor,
        }
    }
}
