//! Laws of the definitions. The functions do nothing: their contracts are the laws.

ghost use Rattle.std.specs.Prelude.{◌≡◌, ◌≢◌, ℕ, List, Option};
ghost use Rattle.rpq_words.specs.declared.settings.RunMode.TheVariants.{Streams};
ghost use Rattle.rpq_words.specs.declared.settings.Settings.{Settings};
ghost use Rattle.rpq_words.specs.declared.settings.StreamSettings.{StreamSettings};
ghost use Rattle.rpq_words.specs.Views.{mode_of};
ghost use Rattle.rpq_text.specs.Statuses.{done_status, memory_status};
ghost use Rattle.rpq_run.specs.AnyStatus.{AnyStatus};
ghost use Rattle.rpq_run.specs.Done.{NothingRose};
ghost use Rattle.rpq_run.specs.Faultless.{AreFaultless, SmallRunCanBeDone};
ghost use Rattle.rpq_run.specs.Headline.{Headline, IsTold, Told};
ghost use Rattle.rpq_run.specs.Outcome.{Objects, Openings, Outcome, Sinks, meanings};
ghost use Rattle.rpq_run.specs.RunsStreams.{RunsStreams};

use entry_steps::{steps_have_join_events, steps_have_the_events};
use query_file::{one_outcome, one_two_way_outcome, two_way_examples};
use rpq_io::Files;
use rpq_words::settings_examples;
use saved_window::saved_text_is_read;

/// A run over streams that is done, where the files and the sink of the events tell their bytes:
/// the events written are those of one history that holds each stream's tuples once, in order;
/// where paths are told, one that shows it stands behind each gained pair; after each entry the
/// pairs emitted and not retracted are the answers, and the bindings emitted and not retracted are
/// those over the answers; each object that stayed heard all events that it wants; each session is
/// told the answers at positions that never fall, and so is each reader beside the run, up to the
/// end of what its file asks; the window that is saved is that of the history; where faulty lines
/// are told apart, all of each stream are told on its own sink; nothing is written on the errors;
/// and unless the run goes on as long as its streams do, the whole history is in memory.
pub fn headline<F: Files>()
    ensures { (given : Settings) (holds : List ℕ → Option (List ℕ)) (sinks : Sinks F.Sink)
        (objects : Objects) (outcome : Outcome F.Source F.Sink) (told : Told)
        → RunsStreams (meanings F.Source.left F.Source.faults F.Sink.written F.Sink.faults)
        given holds sinks objects outcome → outcome.status ≡ done_status
        → IsTold (meanings F.Source.left F.Source.faults F.Sink.written F.Sink.faults)
        given holds sinks told
        → Headline (meanings F.Source.left F.Source.faults F.Sink.written F.Sink.faults)
        told sinks objects outcome }
{
    one_outcome(); // these are called for their clauses
    one_two_way_outcome();
    steps_have_the_events();
    steps_have_join_events();
}

/// A run over streams that ends with any status, where the files and the sink of the events tell
/// their bytes: what is written is a front of what [`headline`] says, and all of it unless the
/// status is that of a failed write or of out of memory. Where a stream ended for want of memory no
/// window is saved, and a failed write of the window isn't told as want of memory, unless memory
/// ran out for a reader. What is told of the faulty lines of a stream is a front of what there is
/// to tell, unless a read of the stream failed.
pub fn any_status<F: Files>()
    ensures { (given : Settings) (holds : List ℕ → Option (List ℕ)) (sinks : Sinks F.Sink)
        (objects : Objects) (outcome : Outcome F.Source F.Sink) (told : Told)
        → RunsStreams (meanings F.Source.left F.Source.faults F.Sink.written F.Sink.faults)
        given holds sinks objects outcome
        → IsTold (meanings F.Source.left F.Source.faults F.Sink.written F.Sink.faults)
        given holds sinks told
        → AnyStatus (meanings F.Source.left F.Source.faults F.Sink.written F.Sink.faults)
        told sinks outcome }
{
    one_outcome(); // these are called for their clauses
    one_two_way_outcome();
}

/// A run over streams, where the files and the sink of the events tell their bytes: if no file has
/// a fault but lines that are told apart, the history may have all tuples, nothing fails, and
/// memory doesn't run out, then all is done, as [`headline`] says it.
pub fn faultless_is_done<F: Files>()
    ensures { (given : Settings) (holds : List ℕ → Option (List ℕ)) (sinks : Sinks F.Sink)
        (objects : Objects) (outcome : Outcome F.Source F.Sink) (told : Told)
        (openings : Openings) (run : StreamSettings) → mode_of given ≡ Streams run
        → RunsStreams (meanings F.Source.left F.Source.faults F.Sink.written F.Sink.faults)
        given holds sinks objects outcome
        → IsTold (meanings F.Source.left F.Source.faults F.Sink.written F.Sink.faults)
        given holds sinks told → AreFaultless told
        → NothingRose (meanings F.Source.left F.Source.faults F.Sink.written F.Sink.faults)
        given openings sinks outcome → outcome.status ≢ memory_status
        → Headline (meanings F.Source.left F.Source.faults F.Sink.written F.Sink.faults)
        told sinks objects outcome }
{
    one_outcome(); // these are called for their clauses
    one_two_way_outcome();
    steps_have_the_events();
    steps_have_join_events();
}

/// A small run that can be done.
pub fn small_run_can_be_done()
    ensures { SmallRunCanBeDone }
{
    one_two_way_outcome(); // these are called for their clauses
    two_way_examples();
    settings_examples();
    saved_text_is_read();
}
