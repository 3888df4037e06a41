//! A law of two runs. The function does nothing: its contract is the law.

ghost use Rattle.rpq_run.specs.Continued.{Continues, GoesOn, IsToldRun, StreamRun};
ghost use Rattle.rpq_run.specs.Outcome.{meanings};

use crate::laws::headline;
use query_file::one_outcome;
use rpq_io::Files;
use saved_window::{saved_continues, saved_text_is_read};
use tuple_text::line_by_parts;

/// A run that saves its window, and a second one that goes on from what was saved: together they
/// give what one run over all their tuples gives. Behind the saved tuples each query has the same
/// answers with the same ends as behind the whole history of the first run, after each tuple that
/// follows, and the joins have the same bindings. Each such tuple brings the same events and the
/// same changes of bindings. Without paths the text of the first run, followed by the blocks of the
/// new tuples with their positions counted on, is the text of one run.
///
/// A third run may go on from the second one, and so on. So all this is said of whatever entries
/// the first run's history stands for: its own, or those of earlier runs and its own.
///
/// Clocks, late tuples, deletes of saved edges and several windows need no condition: the answers
/// that are compared are those of the definition, over all entries. What isn't the same are the
/// positions in a block's first line and in a path: they count the saved tuples in the place of the
/// history.
pub fn continued<F: Files>()
    ensures { (first second : StreamRun F.Source F.Sink)
        → IsToldRun (meanings F.Source.left F.Source.faults F.Sink.written F.Sink.faults) first
        → IsToldRun (meanings F.Source.left F.Source.faults F.Sink.written F.Sink.faults) second
        → GoesOn (meanings F.Source.left F.Source.faults F.Sink.written F.Sink.faults)
        first second
        → Continues (meanings F.Source.left F.Source.faults F.Sink.written F.Sink.faults)
        first second }
{
    headline::<F>(); // these are called for their clauses
    one_outcome();
    saved_continues();
    saved_text_is_read();
    line_by_parts();
}
