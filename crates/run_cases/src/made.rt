//! A run over what is given.

use crate::given::RunInput;
use crate::left::{RunOutput, left_of};
use crate::outside::outside_of;
use rpq_base::Memory;
use rpq_io::OpenGate;
use rpq_run::run;
use standing::{Standing, Tally};
use std::alloc::Global;
use std::random::RandomSource;
use std::sync::Wait;
use std::thread::Threads;

/// What a run over what is given leaves behind. No other function calls [`run`], and this one
/// promises nothing: so the contract of the run is carried no further.
pub fn left_by<R: RandomSource + Threads + Wait + Sync>(
    rt: &R,
    alloc: Global,
    given: &RunInput,
) -> anyhow::Result<RunOutput> {
    let mut standing: Vec<Box<dyn Standing>> = Vec::new(alloc);
    if let Some(tally) = tally_of(alloc, given)? {
        standing.push(tally)?;
    }
    let mut outside = outside_of(alloc, given)?;
    let report = run(
        rt,
        alloc,
        &outside.words,
        &mut outside.files,
        &mut outside.events,
        &mut outside.errors,
        &mut standing,
        &OpenGate,
    );
    left_of(alloc, outside, standing, report)
}

/// A tally of all events, if one is to be among the objects.
fn tally_of(alloc: Global, given: &RunInput) -> Result<Option<Box<Tally>>, Memory> {
    if given.is_counted {
        Ok(Some(Box::new(alloc, Tally::all(alloc)?)?))
    } else {
        Ok(None)
    }
}
