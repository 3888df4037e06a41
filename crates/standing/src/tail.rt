//! The object that keeps the last events.

ghost use Rattle.std.specs.Prelude.{◌≡◌, ◌≤◌, [], ◌∷◌, ◌++◌, None, IfOk, OnOk, OnErr};
ghost use Rattle.std.specs.Prelude.{is_ok, flat_map, codes, if◌then◌else◌};
ghost use Rattle.standing.specs.New.{IsNewObject};
ghost use Rattle.standing.specs.Objects.{stay_of};
ghost use Rattle.standing.specs.Said.{event_text};
ghost use Rattle.standing.specs.Tails.{last_of, tail_object};
ghost use Rattle.standing.specs.Told.{IsTold};

use crate::counter::Counter;
use crate::object::{Standing, Stay};
use circular_buffer::HeapCircularBuffer;
use rpq_base::{Event, Memory, TryClone};
use std::alloc::Global;
use std::marker::{Model, PhantomData};
use text_parts::push_decimal;

/// Keeps the last `K` events that it heard. It never leaves.
pub type Tail<const K: usize> = LastEvents<AtMost<K>>;

/// The number `K`, as a type.
#[derive(Drop)]
pub struct AtMost<const K: usize>;

/// Keeps the last events that it heard, as many as `N` says. It never leaves.
///
/// Contracts see the queries that it wants, the numbers of the events that it heard, how many it
/// keeps at most, and those that it keeps, oldest first. The number is a type, since an object
/// whose type has a number for a parameter can't be boxed.
#[derive(Drop)]
pub struct LastEvents<N: Drop> {
    counter: Counter,
    last: HeapCircularBuffer<Event>,
    most: PhantomData<N>,
}

impl<N: Drop> Model for LastEvents<N> {
    ghost use Rattle.standing.specs.Tails.{TailValue};

    ghost Value = { TailValue };

    ghost view = { λ tail. record {
      wanted = tail.counter.wanted;
      numbers = tail.counter.numbers;
      most = tail.last.capacity;
      kept = tail.last.items;
    } };
}

impl<const K: usize> LastEvents<AtMost<K>> {
    /// Wants these queries. The room for the events is taken here.
    #[tactic(auto, unfolding(crate::specs::Said::tail_text))]
    pub fn new(alloc: Global, wanted: Vec<u32>) -> Result<Tail<K>, Memory>
        requires { (1 ≤ K) × (K ≤ 64) }
        ensures object { IfOk result (λ tail.
            IsNewObject wanted.items (codes "tail") None (tail_object tail)) }
        ensures most { IfOk result (λ tail. tail.most ≡ K) }
        ensures kept { IfOk result (λ tail. tail.kept ≡ []) }
    {
        let last = HeapCircularBuffer::with_capacity(alloc, K)?;
        Ok(LastEvents {
            counter: Counter::new(wanted),
            last,
            most: PhantomData,
        })
    }
}

/// Writes an event behind the text.
#[tactic(auto, unfolding(crate::specs::Said::event_text))]
fn push_event(text: &mut Vec<u8>, event: &Event) -> Result<(), Memory>
    ensures { OnOk result (text.new.items ≡ text.old.items ++ event_text event.now) }
{
    text.push(b' ')?;
    text.push(if event.added { b'+' } else { b'-' })?;
    push_decimal(text, u64::from(event.query))?;
    text.push(b',')?;
    text.extend_from_slice(event.pair.from.as_bytes())?;
    text.push(b',')?;
    text.extend_from_slice(event.pair.to.as_bytes())?;
    Ok(())
}

/// Writes events behind the text.
fn push_events(text: &mut Vec<u8>, events: &[Event]) -> Result<(), Memory>
    ensures { OnOk result (text.new.items ≡ text.old.items ++ flat_map event_text events.now) }
{
    for event in events {
        push_event(text, event)?;
    }
    Ok(())
}

impl<N: Drop> Standing for LastEvents<N> {
    ghost use Rattle.standing.specs.Tails.{tail_object};

    ghost seen = { λ tail. tail_object tail };

    fn wants(&self, query: u32) -> bool {
        self.counter.wants(query)
    }

    /// Tells the object of an event. It keeps the last ones of those that it kept and of this one.
    fn tell(&mut self, event: &Event) -> Result<Stay, Memory>
        ensures told { OnOk result
            (IsTold (event.now ∷ []) (tail_object self.old) (tail_object self.new)) }
        ensures answer { IfOk result (λ stay. stay ≡ stay_of (tail_object self.new)) }
        ensures most { self.new.most ≡ self.old.most }
        ensures kept { self.new.kept ≡ (if is_ok result
            then last_of self.old.most (self.old.kept ++ event.now ∷ []) else self.old.kept) }
        ensures unchanged { OnErr result (tail_object self.new ≡ tail_object self.old) }
    {
        let _ = self.last.push_back(event.copy()?);
        self.counter.count(event);
        Ok(Stay::Keep)
    }

    #[tactic(auto, unfolding(crate::specs::Said::tail_text))]
    fn say(&self) -> Result<Vec<u8>, Memory> {
        let mut text = Vec::new(self.counter.allocator());
        text.extend_from_slice(b"tail")?;
        let (first, second) = self.last.as_slices();
        push_events(&mut text, first)?;
        push_events(&mut text, second)?;
        Ok(text)
    }
}
