//! What takes the steps of entries.

ghost use Rattle.std.specs.Prelude.{◌≡◌, ℕ, ◌<◌, ◌≤◌, ◌+◌, ◌^◌, List, Option, length, map, All};
ghost use Rattle.std.specs.Result.{result_err};
ghost use Rattle.entry_steps.specs.Steps.{StepValue};
ghost use Rattle.engine_loop.specs.Sinks.{GoesOn};
ghost use Rattle.history_model.specs.declared.line.Why.{Why as Reason};
ghost use Rattle.rpq_base.specs.Plain.{IsPlain};
ghost use Rattle.rpq_base.specs.declared.data.Entry.{Entry as EntryTaken};
ghost use Rattle.rpq_model.specs.Query.{Query};

use entry_steps::Step;
use history_model::Why;
use query_file::Compiled;
use rpq_base::Entry;

/// What takes the steps of entries, front after front.
///
/// Contracts see how many steps it has `taken`, and from one moment to another the steps that it
/// `takes`: those of these entries, all of them or, for some reason, a part.
pub trait StepSink {
    ghost taken: { Self → ℕ };

    ghost takes: { List Query → List EntryTaken → List StepValue → Option Reason →
        Self → Self → Type 0 };

    /// Takes the step of each of these entries, which stands in the entry's place. The error is why
    /// not all of them were taken.
    fn take(
        &mut self,
        queries: &[Compiled],
        entries: &[Entry],
        steps: &[Step<'_>],
    ) -> Result<(), Why>
        requires plain { All IsPlain entries.now }
        requires numbers { All (λ step. All (λ event. event.query < length queries.now)
            step.events) steps.now }
        requires as_many { length steps.now ≡ length entries.now }
        requires short { taken self.old + length entries.now ≤ 2 ^ 61 }
        ensures { takes (map (λ each. each.def) queries.now) entries.now steps.now
            (result_err result) self.old self.new };

    /// Does nothing. Its contract is the law that what is taken goes on, front after front.
    fn goes_on()
        ensures { GoesOn taken takes };
}
