//! Runs of [`rpq_run::run`] over files and sinks in memory, sources and sinks that fail, threads
//! that wait for each other, and nothing but tests.
//!
//! The runs show by worked examples what no clause of `run` says: that streams, workers on trees,
//! sessions, readers and the engine go on at the same time, that a faulty line is told before the
//! next one is read, and what becomes of the objects of the caller. The other tests show what the
//! sources, the sinks and the files of `rpq_io` do where a call fails. Runs that need no thread and
//! no object of the test's own are requests of `run_cases`.
#![tactic(auto)]

#[cfg(test)]
mod beside;
#[cfg(test)]
mod edge;
#[cfg(test)]
mod faults;
#[cfg(test)]
mod memory;
#[cfg(test)]
mod objects;
#[cfg(test)]
mod readers;
#[cfg(test)]
mod streams;
#[cfg(test)]
mod watched;
#[cfg(test)]
mod workers;
