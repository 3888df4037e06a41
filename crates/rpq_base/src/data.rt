//! Labels, edges, tuples, entries, pairs and events.

use crate::memory::{Memory, TryClone};
use crate::name::Name;
use std::marker::Model;

/// The greatest time of a tuple: 2^62 - 1. Times are plain numbers in the stream's own unit.
pub const MAX_TIME: u64 = (1 << 62) - 1;

/// The label of an edge. A label with `back` is for an edge that is taken backwards: it differs from
/// the one without, and comes after it.
#[derive(Debug, PartialEq, Eq, PartialOrd, Ord)]
pub struct Label {
    pub name: Name,
    pub back: bool,
}

/// A labelled edge from one vertex to another. Edges have no order.
#[derive(Debug, PartialEq, Eq)]
pub struct Edge {
    pub from: Name,
    pub label: Label,
    pub to: Name,
}

/// What a tuple does: it inserts an edge, deletes one, or lets time pass. An insert may have an end
/// of its own, `until`: the edge is seen at clocks below it alone.
#[derive(Debug, PartialEq, Eq)]
pub enum Act {
    Insert { edge: Edge, until: Option<u64> },
    Delete(Edge),
    Tick,
}

/// A streaming graph tuple: an act and its time. The time, and the own end of an insert that has
/// one, are at most [`MAX_TIME`].
///
/// Source: the streaming graph tuples of Pacaci, Bonifati and Özsu, SIGMOD 2020.
#[derive(Debug, PartialEq, Eq)]
pub struct Tuple {
    pub time: u64,
    pub act: Act,
}

impl Model for Tuple {
    ghost use Rattle.rpq_base.specs.TupleValue.{TupleValue, IsInRange};

    ghost Value = { TupleValue };

    ghost view = { λ tuple. record { time = tuple.time; act = tuple.act } };

    ghost invariant = { λ tuple. IsInRange tuple.time tuple.act };

    ghost inverse = { λ tuple. record { time = tuple.time; act = tuple.act } };
}

/// A tuple in a history, with the number of its stream. Streams are numbered from 1.
#[derive(Debug, PartialEq, Eq)]
pub struct Entry {
    pub stream: u32,
    pub tuple: Tuple,
}

/// An answer of a query: a path leads from the one vertex to the other.
#[derive(Debug, PartialEq, Eq, PartialOrd, Ord)]
pub struct Pair {
    pub from: Name,
    pub to: Name,
}

/// A change of a query's answers: the pair is gained where `added`, else lost. Queries are numbered
/// from 0.
#[derive(Debug, PartialEq, Eq)]
pub struct Event {
    pub query: u32,
    pub added: bool,
    pub pair: Pair,
}

// Drops are by hand: of a derived one each crate that drops the value would prove all parts anew.
impl Drop for Label {
    fn drop(self) {
        let Label {
            name: _name,
            back: _back,
        } = self;
    }
}

impl Drop for Edge {
    fn drop(self) {
        let Edge {
            from: _from,
            label: _label,
            to: _to,
        } = self;
    }
}

impl Drop for Act {
    fn drop(self) {
        match self {
            Act::Insert {
                edge: _edge,
                until: _until,
            } => {}
            Act::Delete(_edge) => {}
            Act::Tick => {}
        }
    }
}

impl Drop for Tuple {
    fn drop(self) {
        let Tuple {
            time: _time,
            act: _act,
        } = self;
    }
}

impl Drop for Entry {
    fn drop(self) {
        let Entry {
            stream: _stream,
            tuple: _tuple,
        } = self;
    }
}

impl Drop for Pair {
    fn drop(self) {
        let Pair {
            from: _from,
            to: _to,
        } = self;
    }
}

impl Drop for Event {
    fn drop(self) {
        let Event {
            query: _query,
            added: _added,
            pair: _pair,
        } = self;
    }
}

impl TryClone for Label {
    fn copy(&self) -> Result<Label, Memory> {
        Ok(Label {
            name: self.name.copy()?,
            back: self.back,
        })
    }
}

impl TryClone for Edge {
    fn copy(&self) -> Result<Edge, Memory> {
        Ok(Edge {
            from: self.from.copy()?,
            label: self.label.copy()?,
            to: self.to.copy()?,
        })
    }
}

impl TryClone for Act {
    fn copy(&self) -> Result<Act, Memory> {
        match self {
            Act::Insert { edge, until } => Ok(Act::Insert {
                edge: edge.copy()?,
                until: *until,
            }),
            Act::Delete(edge) => Ok(Act::Delete(edge.copy()?)),
            Act::Tick => Ok(Act::Tick),
        }
    }
}

impl TryClone for Tuple {
    fn copy(&self) -> Result<Tuple, Memory> {
        Ok(Tuple {
            time: self.time,
            act: self.act.copy()?,
        })
    }
}

impl TryClone for Entry {
    fn copy(&self) -> Result<Entry, Memory> {
        Ok(Entry {
            stream: self.stream,
            tuple: self.tuple.copy()?,
        })
    }
}

impl TryClone for Pair {
    fn copy(&self) -> Result<Pair, Memory> {
        Ok(Pair {
            from: self.from.copy()?,
            to: self.to.copy()?,
        })
    }
}

impl TryClone for Event {
    fn copy(&self) -> Result<Event, Memory> {
        Ok(Event {
            query: self.query,
            added: self.added,
            pair: self.pair.copy()?,
        })
    }
}
