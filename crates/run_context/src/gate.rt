//! What a run tells of its workers and its readers.

/// A worker that comes to a gate.
#[derive(Clone, Copy, Debug, PartialEq, Eq)]
pub enum Who {
    /// The worker of the stream with this number. Streams are numbered from 1.
    Stream(u32),
    /// The worker on trees with this number. They are numbered from 1 in each call.
    Trees(u32),
    /// The worker on queries with this number. They are numbered from 1 in each front of entries.
    Queries(u32),
}

/// What is told of a run's workers, each before its first piece of work, and of its readers'
/// answers.
///
/// A test holds a worker in [`pass`](Gate::pass) until another has come there too, and so shows
/// that both run at the same time. Both calls return, and a run rests on nothing else of them.
pub trait Gate: Sync {
    /// A worker is about to begin.
    fn pass(&self, who: Who);

    /// A change gets one worker, and a further one for each so many trees that it may touch. A
    /// thread costs more than a few trees do; a test of workers side by side asks for fewer.
    fn trees_per_worker(&self) -> usize {
        4000
    }

    /// An ask of this session, from 1, was answered at this position of the history.
    fn replied(&self, session: u32, position: u64);
}

/// The gate of the program, which does nothing.
#[derive(Clone, Copy, Debug)]
pub struct OpenGate;

impl Gate for OpenGate {
    fn pass(&self, _who: Who) {}

    fn replied(&self, _session: u32, _position: u64) {}
}
