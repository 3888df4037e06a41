//! Objects that are told of events together.

ghost use Rattle.std.specs.Prelude.{◌≡◌, ◌+◌, ◌≤◌, [], ◌∷◌, map, vec_len, vec_capacity};
ghost use Rattle.std.specs.Prelude.{IfOk, IfErr, OnOk, OnErr};
ghost use Rattle.standing.specs.Circles.{as_seen, circle_value, leaves};
ghost use Rattle.standing.specs.Circles.{Tells, TellsEach, TellsFront, TellsSome};
ghost use Rattle.standing.specs.Told.{HasHeard};

use crate::object::{Standing, Stay};
use rpq_base::{Event, Memory};
use std::alloc::Global;
use std::marker::Model;

/// Objects that are told of events, and those of them that left. The objects are boxed, unless
/// another type is given.
///
/// Contracts see the members and those that left; `as_seen` shows each of them as an object is
/// seen.
#[derive(Drop)]
pub struct Circle<S = Box<dyn Standing>> {
    members: Vec<S>,
    left: Vec<S>,
}

impl<S> Model for Circle<S> {
    ghost use Rattle.std.specs.Prelude.{◌+◌, ◌≤◌, vec_len, vec_capacity};
    ghost use Rattle.standing.specs.Circles.{Parts};

    ghost Value = { Parts S };

    ghost view = { λ circle. record {
      members = circle.members.items;
      left = circle.left.items;
    } };

    ghost invariant = { λ circle.
        vec_len circle.members + vec_len circle.left ≤ vec_capacity circle.left };
}

/// Tells an object of an event, if it wants it. Answers whether it leaves.
fn hear<S: Standing>(object: &mut S, event: &Event) -> Result<bool, Memory>
    ensures heard { OnOk result
        (HasHeard (event.now ∷ []) (S.seen object.old) (S.seen object.new)) }
    ensures leaves { IfOk result (λ answer. answer ≡ leaves event.now (S.seen object.new)) }
    ensures unchanged { OnErr result (S.seen object.new ≡ S.seen object.old) }
{
    if !object.wants(event.query) {
        return Ok(false);
    }
    Ok(object.tell(event)? == Stay::Leave)
}

/// Tells the members of an event, and moves those who leave behind those who left before.
fn tell_members<S: Standing>(
    members: &mut Vec<S>,
    left: &mut Vec<S>,
    event: &Event,
) -> Result<(), Memory>
    requires { vec_len members.old + vec_len left.old ≤ vec_capacity left.old }
    ensures ok { OnOk result (Tells event.now
        (circle_value (map S.seen members.old.items) (map S.seen left.old.items))
        (circle_value (map S.seen members.new.items) (map S.seen left.new.items))) }
    ensures err { OnErr result (TellsSome event.now
        (circle_value (map S.seen members.old.items) (map S.seen left.old.items))
        (circle_value (map S.seen members.new.items) (map S.seen left.new.items))) }
    ensures room { vec_len members.new + vec_len left.new ≤ vec_capacity left.new }
{
    let mut place = 0;
    while place < members.len() {
        if hear(&mut members[place], event)? {
            left.push_reserved(members.remove(place));
        } else {
            place += 1;
        }
    }
    Ok(())
}

impl<S: Standing> Circle<S> {
    /// All objects are members. The list of those who leave is reserved here, so that no telling
    /// needs memory for it. Where memory is refused the objects come back.
    pub fn new(alloc: Global, members: Vec<S>) -> Result<Circle<S>, (Vec<S>, Memory)>
        ensures members { IfOk result (λ circle. circle.members ≡ members.items) }
        ensures left { IfOk result (λ circle. circle.left ≡ []) }
        ensures refused { IfErr result (λ back. back.0.items ≡ members.items) }
    {
        match Vec::with_capacity(alloc, members.len()) {
            Ok(left) => Ok(Circle { members, left }),
            Err(refused) => Err((members, Memory::from(refused))),
        }
    }

    /// Tells each member that wants the event's query, in order. One that answers that it leaves
    /// goes behind those who left before. Where memory is refused, the members before the one that
    /// refused have heard the event, and no other has.
    pub fn tell_all(&mut self, event: &Event) -> Result<(), Memory>
        ensures ok { OnOk result
            (Tells event.now (as_seen S.seen self.old) (as_seen S.seen self.new)) }
        ensures err { OnErr result
            (TellsSome event.now (as_seen S.seen self.old) (as_seen S.seen self.new)) }
    {
        tell_members(&mut self.members, &mut self.left, event)
    }

    /// Tells all of the events, one after another. Where memory is refused, a front of them was
    /// told, and the event behind it to the members before the one that refused.
    pub fn tell_each(&mut self, events: &[Event]) -> Result<(), Memory>
        ensures ok { OnOk result
            (TellsEach events.now (as_seen S.seen self.old) (as_seen S.seen self.new)) }
        ensures err { OnErr result
            (TellsFront events.now (as_seen S.seen self.old) (as_seen S.seen self.new)) }
    {
        for event in events {
            self.tell_all(event)?;
        }
        Ok(())
    }

    /// The objects that are still told of events.
    pub fn members(&self) -> &[S]
        ensures { result.now ≡ self.now.members }
    {
        &self.members
    }

    /// The objects that left.
    pub fn left(&self) -> &[S]
        ensures { result.now ≡ self.now.left }
    {
        &self.left
    }

    /// The members, and those who left.
    pub fn parts(self) -> (Vec<S>, Vec<S>)
        ensures members { result.0.items ≡ self.members }
        ensures left { result.1.items ≡ self.left }
    {
        (self.members, self.left)
    }
}
