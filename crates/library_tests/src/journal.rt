//! A test of a journal: its refusals and its look-ups.

ghost use Rattle.std.specs.Prelude.{◌≡◌, ◌≢◌, ℕ, [], length, IfOk};
ghost use Rattle.rpq_base.specs.Plain.{IsPlainTuple};
ghost use Rattle.history_model.specs.Lines.{entries, IsShut};
ghost use Rattle.answer_view.specs.View.{IsViewOf};
ghost use Rattle.stream_history.specs.Journal.{empty_view, IsSound, IsOpen};

use answer_rows::Rows;
use answer_view::View;
use history_model::Why;
use path_syntax::Expr;
use plain_checks::plain_view;
use rpq_base::{Act, Label, Memory, Name, Tuple};
use rpq_model::{Mode, QueryDef, Window};
use std::alloc::Global;
use std::process::Abort;
use std::sync::Arc;
use stream_history::{AppendFault, Journal, PublishFault};

/// A tuple that lets time pass.
pub(crate) fn tick(time: u32) -> Tuple
    ensures { IsPlainTuple result }
{
    Tuple {
        time: u64::from(time),
        act: Act::Tick,
    }
}

/// A query.
fn query(rt: &impl Abort, alloc: Global) -> QueryDef {
    QueryDef {
        name: Name::new(alloc, b"q").expect(rt, "a name"),
        window: Window { size: 10, slide: 5 },
        mode: Mode::Arbitrary,
        expr: Expr::Atom(Label {
            name: Name::new(alloc, b"a").expect(rt, "a name"),
            back: false,
        }),
    }
}

/// One query, as a history has it.
pub(crate) fn one_query(rt: &impl Abort, alloc: Global) -> Arc<Vec<QueryDef>>
    ensures { length result.value.items ≡ 1 }
{
    let mut queries = Vec::new(alloc);
    queries.push(query(rt, alloc)).expect(rt, "memory");
    Arc::new(alloc, queries).expect(rt, "memory")
}

/// The view of one query over no entries.
pub(crate) fn first_view(rt: &impl Abort, alloc: Global) -> Arc<View>
    ensures { result.value ≡ empty_view 1 }
{
    let mut rows = Vec::new(alloc);
    rows.push(Rows::new(alloc)).expect(rt, "memory");
    View::new(alloc, 0, 0, rows).expect(rt, "memory")
}

/// A history of two streams that takes one entry.
fn small_history(rt: &impl Abort, alloc: Global) -> Journal
    ensures lines { result.lines ≡ [] }
    ensures streams { result.terms.streams ≡ 2 }
    ensures sound { IsSound result }
{
    let first = first_view(rt, alloc);
    Journal::new(alloc, one_query(rt, alloc), 2, 1, first).expect(rt, "memory")
}

/// Appends a tuple that lets time pass.
fn write(journal: &mut Journal, stream: u32, time: u32) -> Result<u64, AppendFault>
    requires { IsOpen journal.old stream }
    ensures open { (other : ℕ) → IsOpen journal.old other → IsOpen journal.new other }
    ensures goes_on { (IsShut journal.old.lines → ⊥) → IsShut journal.new.lines → ⊥ }
{
    journal.append(stream, tick(time))
}

/// Ends a stream.
fn end(journal: &mut Journal, stream: u32)
    requires { IsOpen journal.old stream }
    ensures open { (other : ℕ) → other ≢ stream → IsOpen journal.old other →
        IsOpen journal.new other }
    ensures goes_on { (IsShut journal.old.lines → ⊥) → IsShut journal.new.lines → ⊥ }
{
    journal.end_stream(stream);
}

/// The view over the entries, from scratch.
fn view_of(alloc: Global, journal: &Journal) -> Result<Arc<View>, Memory>
    ensures { IfOk result (λ view.
        IsViewOf journal.now.terms.queries (entries journal.now.lines) view.value) }
{
    // A journal that keeps all its entries has no more.
    if journal.base() != 0 || journal.length() > 1 << 30 {
        return Err(Memory);
    }
    plain_view(alloc, journal.queries(), journal.entries_from(0))
}

/// Publishes the view over the entries.
fn publish(alloc: Global, journal: &mut Journal) -> Result<(), PublishFault>
    requires { IsShut journal.old.lines → ⊥ }
    ensures open { (stream : ℕ) → IsOpen journal.old stream → IsOpen journal.new stream }
    ensures goes_on { IsShut journal.new.lines → ⊥ }
{
    let view = view_of(alloc, journal)?;
    journal.publish(view)
}

/// Shuts the history since a write failed.
fn shut(journal: &mut Journal)
    requires { IsShut journal.old.lines → ⊥ }
    ensures { (stream : ℕ) → IsOpen journal.old stream → IsOpen journal.new stream }
{
    journal.shut(Why::Write);
}

/// Whether the history tells that it has one entry, of time 5, which was published.
fn tells_one_entry(journal: &Journal) -> bool {
    let one = (journal.length() == 1) & (journal.published() == 1);
    let there = journal.entries_from(journal.base()).len();
    let view = journal.view();
    one & (there == 1) & (view.position() == 1) & (view.clock() == 5)
}

/// Whether a history refuses what it should, and tells of its streams what it should.
fn refuses_and_tells(rt: &impl Abort, alloc: Global) -> bool {
    let mut journal = small_history(rt, alloc);
    let first = write(&mut journal, 1, 5) == Ok(1);
    let full = write(&mut journal, 2, 6) == Err(AppendFault::Full(1));
    let published = publish(alloc, &mut journal) == Ok(());
    let behind = publish(alloc, &mut journal) == Err(PublishFault::Behind(1));
    end(&mut journal, 2);
    let goes_on = !journal.all_ended() & journal.shut_reason().is_none();
    shut(&mut journal);
    let closed = write(&mut journal, 1, 7) == Err(AppendFault::Closed(Why::Write));
    end(&mut journal, 1);
    let ended = journal.all_ended() & (journal.shut_reason() == Some(Why::Write));
    let refuses = full & behind & closed;
    first & published & refuses & goes_on & ended & tells_one_entry(&journal)
}

#[test]
fn a_journal_refuses_and_tells(rt: HostRuntime) {
    assert!(rt; refuses_and_tells(&rt, rt.alloc()));
}
