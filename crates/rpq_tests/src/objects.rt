//! Runs with objects of the test's own, which leave or run out of memory while they are told.

use crate::memory::{CYCLE, PATHS, RunSummary, TestRun, given_of, has_written, outcome_of};
use rpq_base::{Event, Memory};
use rpq_io::OpenGate;
use standing::{Roll, Standing, Stay};
use std::alloc::Global;
use std::process::Abort;

/// The first two blocks that a run of [`PATHS`] over [`CYCLE`] writes.
const TWO_BLOCKS: &str = "@1 1 1 r a x +\n+ q r x\n@2 1 1 x a y +\n+ q r y\n+ q x y\n";

/// Keeps what it hears, and leaves at its second event.
#[derive(Drop)]
struct LeavingObject {
    roll: Roll,
    calls: u8,
    is_gone: bool,
}

impl Standing for LeavingObject {
    ghost seen = { λ object. record {
      wanted = object.roll.wanted;
      numbers = object.roll.numbers;
      heard = object.roll.heard;
      said = object.roll.said;
      gone = object.is_gone;
    } };

    fn wants(&self, query: u32) -> bool {
        self.roll.wants(query)
    }

    fn tell(&mut self, event: &Event) -> Result<Stay, Memory> {
        self.roll.tell(event)?;
        self.calls = self.calls.saturating_add(1);
        self.is_gone = self.calls >= 2;
        Ok(if self.is_gone {
            Stay::Leave
        } else {
            Stay::Keep
        })
    }

    fn say(&self) -> Result<Vec<u8>, Memory> {
        self.roll.say()
    }
}

/// Keeps what it hears, and has no memory for its third event.
#[derive(Drop)]
struct ShortObject {
    roll: Roll,
    calls: u8,
}

impl Standing for ShortObject {
    ghost seen = { λ object. object.roll };

    fn wants(&self, query: u32) -> bool {
        self.roll.wants(query)
    }

    fn tell(&mut self, event: &Event) -> Result<Stay, Memory> {
        self.calls = self.calls.saturating_add(1);
        if self.calls == 3 {
            return Err(Memory);
        }
        self.roll.tell(event)
    }

    fn say(&self) -> Result<Vec<u8>, Memory> {
        self.roll.say()
    }
}

/// What a run is to answer: its status, how many objects stayed and left, what the one object says,
/// and what is written on the events.
#[derive(Clone, Copy)]
struct WantedRun<'a> {
    status: u8,
    stayed: usize,
    left: usize,
    says: &'a [u8],
    events: &'a str,
}

/// Whether all these objects say this.
fn all_say(objects: &[Box<dyn Standing>], wanted: &[u8]) -> bool {
    for object in objects {
        if !says(object, wanted) {
            return false;
        }
    }
    true
}

/// Whether the object says this.
fn says(object: &Box<dyn Standing>, wanted: &[u8]) -> bool {
    match object.say() {
        Ok(said) => said.as_slice() == wanted,
        Err(Memory) => false,
    }
}

/// What a run of [`PATHS`] over [`CYCLE`] with this object is given, of which this write of the
/// events fails.
fn given_with(
    rt: &impl Abort,
    alloc: Global,
    object: Box<dyn Standing>,
    failing_write: u64,
) -> TestRun {
    let texts = [PATHS, CYCLE, ""];
    let standing = list_of(rt, alloc, object);
    given_of(rt, alloc, &["q", "s"], texts, &[failing_write], standing)
}

/// Whether a run with one object, which was given this and has this outcome, answers what it is to.
fn ends_so(given: &TestRun, outcome: &RunSummary, wanted: &WantedRun) -> bool {
    outcome.status == wanted.status
        && given.standing.len() == wanted.stayed
        && outcome.left.len() == wanted.left
        && has_written(&given.events, wanted.events)
        && all_say(&given.standing, wanted.says)
        && all_say(&outcome.left, wanted.says)
}

/// A list of this one object.
fn list_of(rt: &impl Abort, alloc: Global, object: Box<dyn Standing>) -> Vec<Box<dyn Standing>> {
    let mut objects = Vec::with_capacity(alloc, 1).expect(rt, "memory");
    objects.push_reserved(object);
    objects
}

/// A roll of the events of the first query.
fn roll(rt: &impl Abort, alloc: Global) -> Roll {
    let mut wanted = Vec::new(alloc);
    wanted.push(0).expect(rt, "memory");
    Roll::new(alloc, wanted)
}

#[test]
fn an_object_that_left_before_a_failed_write(rt: HostRuntime) {
    let alloc = rt.alloc();
    let object = LeavingObject {
        roll: roll(&rt, alloc),
        calls: 0,
        is_gone: false,
    };
    let wanted = WantedRun {
        status: 6,
        stayed: 0,
        left: 1,
        says: b"roll 2 0",
        events: TWO_BLOCKS,
    };
    let object = Box::new(alloc, object).expect(&rt, "memory");
    let mut given = given_with(&rt, alloc, object, 3);
    let outcome = outcome_of(&rt, alloc, &mut given, &OpenGate);
    assert!(rt; ends_so(&given, &outcome, &wanted));
}

#[test]
fn an_object_without_memory_for_an_event(rt: HostRuntime) {
    let alloc = rt.alloc();
    let object = ShortObject {
        roll: roll(&rt, alloc),
        calls: 0,
    };
    let wanted = WantedRun {
        status: 8,
        stayed: 1,
        left: 0,
        says: b"roll 2 0",
        events: TWO_BLOCKS,
    };
    let object = Box::new(alloc, object).expect(&rt, "memory");
    let mut given = given_with(&rt, alloc, object, 0);
    let outcome = outcome_of(&rt, alloc, &mut given, &OpenGate);
    assert!(rt; ends_so(&given, &outcome, &wanted));
}
