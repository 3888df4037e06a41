//! The steps of the entries are counted, and the objects told of their events.

ghost use Rattle.std.specs.Prelude.{◌≡◌, ◌+◌, ◌^◌, ◌≤◌, ⊤, length, OnOk, OnErr};
ghost use Rattle.engine_loop.specs.Telling.{TellsOn};
ghost use Rattle.entry_steps.specs.Steps.{events_of};
ghost use Rattle.generated_run.specs.Summary.{all_of};
ghost use Rattle.generated_run.specs.Totals.{no_totals, HasCounted};
ghost use Rattle.standing.specs.Circles.{as_seen};

use crate::totals::Totals;
use engine_loop::{StepSink, tell_events};
use entry_steps::Step;
use history_model::Why;
use query_file::Compiled;
use rpq_base::{Entry, Memory};
use standing::{Circle, Standing};
use std::alloc::Global;

/// What a run counts, and the objects that are told of the events.
#[derive(Drop)]
pub struct EventCounts<O> {
    pub alloc: Global,
    pub totals: Totals,
    pub circle: Circle<O>,
}

impl<O: Standing> EventCounts<O> {
    /// Nothing was counted yet, and these objects were told of nothing. Takes no memory.
    pub fn new(alloc: Global, circle: Circle<O>) -> EventCounts<O>
        ensures totals { result.totals ≡ no_totals }
        ensures circle { result.circle ≡ circle }
    {
        EventCounts {
            alloc,
            totals: Totals::new(),
            circle,
        }
    }
}

impl<O: Standing> StepSink for EventCounts<O> {
    ghost use Rattle.generated_run.specs.Counts.{CountsSteps};

    ghost taken = { λ counts. counts.totals.entries };

    ghost takes = { λ _ entries steps why old new. CountsSteps O.seen entries steps why old new };

    /// Counts the events of each step, and tells the objects of them. The only error is
    /// [`Why::Memory`].
    fn take(
        &mut self,
        _queries: &[Compiled],
        _entries: &[Entry],
        steps: &[Step<'_>],
    ) -> Result<(), Why> {
        match tell_steps(self.alloc, &mut self.circle, &mut self.totals, steps) {
            Ok(()) => Ok(()),
            Err(_) => Err(Why::Memory),
        }
    }

    fn goes_on() {}
}

/// Tells the objects of the events of each step, in order, and counts them. Where memory runs out,
/// which is the only error, a front of them was told.
fn tell_steps<O: Standing>(
    alloc: Global,
    circle: &mut Circle<O>,
    totals: &mut Totals,
    steps: &[Step<'_>],
) -> Result<(), Memory>
    requires { totals.old.entries + length steps.now ≤ 2 ^ 61 }
    ensures told { OnOk result (TellsOn (all_of (events_of steps.now)) ⊤
        (as_seen O.seen circle.old) (as_seen O.seen circle.new)) }
    ensures part { OnErr result (TellsOn (all_of (events_of steps.now)) ⊥
        (as_seen O.seen circle.old) (as_seen O.seen circle.new)) }
    ensures counted { OnOk result (HasCounted (length steps.now)
        (all_of (events_of steps.now)) totals.old totals.new) }
{
    for i in 0..steps.len() {
        let step = &steps[i];
        tell_events(alloc, circle, &step.events)?;
        totals.count(&step.events);
    }
    Ok(())
}
