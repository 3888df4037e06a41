//! Where entries come from.

ghost use Rattle.std.specs.Prelude.{◌≡◌, ◌≢◌, ℕ, ◌<◌, ◌≤◌, ◌++◌, true, false, List, [], length, Ok};
ghost use Rattle.std.specs.Prelude.{IfOk, OnOk, OnErr};
ghost use Rattle.entry_steps.specs.Evaluator.{EvaluatorValue, StandsAfter, StandsInFor};
ghost use Rattle.engine_loop.specs.Loop.{IsRunnable};
ghost use Rattle.engine_loop.specs.Sources.{ComesNext, GetsOn, IsAsFar, HasTheSame, ShowsOnly};
ghost use Rattle.engine_loop.specs.Sources.{Repeats, StaysAs};
ghost use Rattle.engine_loop.specs.declared.source.AfterShrink.{AfterShrink as Wish};
ghost use Rattle.rpq_base.specs.declared.data.Entry.{Entry as EntryGiven};

use crate::sink::StepSink;
use entry_steps::Evaluator;
use rpq_base::{Entry, Memory};

/// What an engine has to do once its source has given up what no query sees any more.
#[derive(Clone, Copy)]
pub enum AfterShrink {
    /// It goes on as it is.
    GoOn,
    /// It is rebuilt over what is kept, so that it gives up as much itself.
    Rebuild,
}

/// Where the entries come from that an engine answers.
///
/// Contracts see the entries that it has `given`, front after front, and the last `front` of them;
/// those that it has `kept`, which stand in for all that it gave before that front, and are the
/// same where it can show these once more; its `home`, which no call changes; the evaluators that it
/// `feeds`; and that it `is_over`.
pub trait EntrySource {
    /// What no call changes.
    type Home;

    ghost home: { Self → Self.Home };

    ghost given: { Self → List EntryGiven };

    ghost kept: { Self → List EntryGiven };

    ghost front: { Self → List EntryGiven };

    // It may give the evaluator what comes next, or what is kept, once more.
    ghost feeds: { Self → EvaluatorValue → Type 0 };

    ghost is_over: { Self → Type 0 };

    /// Gives the next front, of at most as many entries as the evaluator takes at once, and answers
    /// whether there is one. It waits for entries where none is there. The front before is kept
    /// then. The only error is [`Memory`].
    ///
    /// Whoever waits has nothing left to do: the evaluator answered all that was given, and the sink
    /// took it.
    fn next<K: StepSink>(&mut self, evaluator: &Evaluator, sink: &K) -> Result<bool, Memory>
        requires feeds { feeds self.old evaluator.now }
        requires done { (evaluator.now.position ≡ length (given self.old))
            × (K.taken sink.now ≡ length (given self.old)) }
        ensures home { home self.new ≡ home self.old }
        ensures feeds { feeds self.new evaluator.now }
        ensures kept { OnOk result (kept self.new ≡ kept self.old ++ front self.old) }
        ensures more { result ≡ Ok true
            → ComesNext evaluator.now (given self.old) (given self.new) (front self.new) }
        ensures over { result ≡ Ok false → is_over self.new × (given self.new ≡ given self.old)
            × (front self.new ≡ []) }
        ensures err { OnErr result
            ((more : List EntryGiven) × (given self.new ≡ given self.old ++ more)) };

    /// The front that was given last.
    fn front(&self) -> &[Entry]
        ensures { result.now ≡ front self.now };

    /// How many entries are kept.
    fn kept_count(&self) -> u64
        requires { (evaluator : EvaluatorValue) × feeds self.now evaluator }
        ensures { result ≡ length (kept self.now) };

    /// Of the entries that are kept, the next behind so many first ones: some of them, at least
    /// one. The only error is [`Memory`].
    fn again(&mut self, from: u64) -> Result<Vec<Entry>, Memory>
        requires feeds { (evaluator : EvaluatorValue) × feeds self.old evaluator }
        requires some { from < length (kept self.old) }
        ensures stays { StaysAs home given kept front feeds self.old self.new }
        ensures repeats { IfOk result (λ entries. Repeats (kept self.old) from entries.items) };

    /// Whether it is about to show answers to somebody, as far as it knows. It decides time alone:
    /// the workers bring up to date then what is shown.
    fn wants_view(&self) -> bool;

    /// Shows those who read along, if there are any, the answers over all that was given, which the
    /// evaluator has just answered and the sink has taken. The only error is [`Memory`].
    fn publish<K: StepSink>(&mut self, evaluator: &mut Evaluator, sink: &K) -> Result<(), Memory>
        requires feeds { (before : EvaluatorValue) × feeds self.old before
            × GetsOn before evaluator.old }
        requires stands { StandsAfter evaluator.old (given self.old) }
        requires taken { K.taken sink.now ≡ length (given self.old) }
        ensures has { HasTheSame home given kept front self.old self.new }
        ensures shows { ShowsOnly (given self.old) evaluator.old evaluator.new }
        ensures ok { OnOk result (feeds self.new evaluator.new) }
        ensures err { OnErr result ((before : EvaluatorValue)
            → feeds self.old before → feeds self.new before) };

    /// Gives up what no query sees any more of the entries that it keeps for itself, where that is
    /// worth it, and says whether the engine has to be rebuilt then, over what is kept: the last
    /// front is a part of it in that case. It is called once the answers were shown. A source that
    /// can show its entries once more from elsewhere keeps none for itself, and does nothing. The
    /// only error is [`Memory`].
    fn shrink(&mut self, evaluator: &Evaluator) -> Result<AfterShrink, Memory>
        requires feeds { feeds self.old evaluator.now }
        requires runs { IsRunnable evaluator.now }
        requires stands { StandsAfter evaluator.now (given self.old) }
        ensures home { home self.new ≡ home self.old }
        ensures given { given self.new ≡ given self.old }
        ensures feeds { (other : EvaluatorValue) → IsAsFar evaluator.now other
            → feeds self.new other }
        ensures kept { OnOk result ((history : List EntryGiven)
            → StandsInFor evaluator.now (kept self.old ++ front self.old) history
            → StandsInFor evaluator.now (kept self.new ++ front self.new) history) }
        ensures rebuild { result ≡ Ok Wish.Rebuild → front self.new ≡ [] };
}
