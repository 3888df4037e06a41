//! That threads may share a history and the definitions of its queries, and take a pass.

ghost use Rattle.std.specs.Thread.{IsSend, IsSync};
ghost use Rattle.history_model.specs.contracts.line.Line.{the_row as line_row};
ghost use Rattle.turn_lock.specs.contracts.pass.Pass.{the_row as pass_row};
ghost use Rattle.stream_history.specs.contracts.journal.Journal.{the_row as journal_row};
ghost use Rattle.stream_history.specs.contracts.terms.Terms.{the_row as terms_row};
ghost use Rattle.stream_history.specs.contracts.terms.JournalKept.TheImpl.{ghosts};
ghost use Rattle.stream_history.specs.contracts.history.History.{the_row as history_row};
ghost use Rattle.rpq_model.specs.contracts.query.QueryDef.{the_row as query_row};

use rpq_model::QueryDef;
use stream_history::{History, Pass};

/// Does nothing. It says that threads may share values of this type, which is found more easily for
/// a type alone than for all that a closure captures.
fn threads_share<T: Sync>(value: &T)
    ensures { IsSync T.row }
{
    let _ = value;
}

/// Does nothing. It says the same of the elements of a slice.
fn threads_share_each<T: Sync>(values: &[T])
    ensures { IsSync T.row }
{
    let _ = values;
}

/// Does nothing. It says that threads may share a history.
pub(crate) fn threads_share_histories(history: &History)
    ensures { IsSync history_row }
{
    threads_share(history)
}

/// Does nothing. It says that threads may share definitions of queries.
pub(crate) fn threads_share_queries(queries: &[QueryDef])
    ensures { IsSync query_row }
{
    threads_share_each(queries)
}

/// Does nothing. It says that a thread may be handed values of this type.
fn threads_take<T: Send>(value: &T)
    ensures { IsSend T.row }
{
    let _ = value;
}

/// Does nothing. It says that a thread may be handed a pass.
pub(crate) fn threads_take_passes(pass: &Pass)
    ensures { IsSend (pass_row journal_row line_row terms_row ghosts) }
{
    threads_take(pass)
}
