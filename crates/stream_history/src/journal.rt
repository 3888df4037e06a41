//! The journal of a history.

ghost use Rattle.std.specs.Prelude.{◌≡◌, ℕ, ◌≤◌, ◌↔◌, Some, Err, length, drop, IsTrue, IfOk};
ghost use Rattle.std.specs.Prelude.{OnOk, OnErr};
ghost use Rattle.rpq_base.specs.Plain.{IsPlainTuple};
ghost use Rattle.history_model.specs.declared.line.Why.{Why as Reason};
ghost use Rattle.history_model.specs.Lines.{append_line, end_line, shut_line};
ghost use Rattle.history_model.specs.Lines.{entries, published};
ghost use Rattle.history_model.specs.Lines.{AllEnded, IsShutFor, IsShut};
ghost use Rattle.stream_history.specs.Journal.{AreTerms, empty_view, ShowsFront, IsSound, IsOpen};
ghost use Rattle.stream_history.specs.Journal.{IsFullAt, IsBehind, first_journal, with_line};
ghost use Rattle.stream_history.specs.Journal.{with_view, KeepsAll, Forgets};
ghost use Rattle.stream_history.specs.Kept.{AreStreams};
ghost use Rattle.stream_history.specs.declared.fault.AppendFault.{AppendFault as NotAppended};
ghost use Rattle.stream_history.specs.declared.fault.PublishFault.{PublishFault as NotPublished};

use crate::fault::{AppendFault, PublishFault};
use crate::laws::first_view;
use answer_view::View;
use ghost_list::GhostList;
use history_model::{Call, CallAct, Why, legal_by_lines, lines_are_joined};
use kept_list::KeptList;
use rpq_base::{Entry, Memory, Tuple};
use rpq_model::QueryDef;
use std::alloc::Global;
use std::marker::Model;
use std::sync::Arc;

/// A history of so many streams, which takes so many entries: its lines, and the view of the
/// queries that was published last. The engine has the number 0, and the streams are numbered
/// from 1.
///
/// Contracts see what it was made with, the list of its lines, how many of its first entries are gone
/// from memory, and the view.
#[derive(Drop)]
pub struct Journal {
    queries: Arc<Vec<QueryDef>>,
    streams: u32,
    cap: u64,
    /// The entries that were appended, of which the first may be gone.
    entries: KeptList<Entry>,
    /// What was called, which takes no memory: contracts alone speak of it.
    calls: GhostList<Call>,
    view: Arc<View>,
    /// The streams that haven't ended.
    running: Vec<u32>,
    /// Why the history was shut, if it was.
    shut: Option<Why>,
}

impl Model for Journal {
    ghost use Rattle.stream_history.specs.Journal.{JournalValue};
    ghost use Rattle.std.specs.Coded.{codes};
    ghost use Rattle.rpq_model.specs.QueryCode.{query_code};

    ghost Value = { JournalValue };

    ghost coded = { Prim.hlevel (codes, query_code) };

    ghost use Rattle.stream_history.specs.Kept.{journal_of, IsKept};

    ghost view = { λ journal. journal_of (record {
      queries = journal.queries.value.items;
      streams = journal.streams;
      cap = journal.cap;
    }) journal.calls journal.entries.items journal.entries.base journal.view.value };

    ghost invariant = { λ journal. IsKept (journal_of (record {
      queries = journal.queries.value.items;
      streams = journal.streams;
      cap = journal.cap;
    }) journal.calls journal.entries.items journal.entries.base journal.view.value)
        journal.calls journal.entries.items journal.running.items journal.shut };
}

impl Journal {
    /// A history of so many streams that takes so many entries, with no lines yet. The view is that
    /// of these queries over no entries. The only error is [`Memory`].
    pub fn new(
        alloc: Global,
        queries: Arc<Vec<QueryDef>>,
        streams: u32,
        cap: u64,
        first: Arc<View>,
    ) -> Result<Journal, Memory>
        requires terms { AreTerms (record {
          queries = queries.value.items;
          streams = streams;
          cap = cap;
        }) }
        requires first { first.value ≡ empty_view (length queries.value.items) }
        ensures journal { IfOk result (λ journal. journal ≡ first_journal (record {
          queries = queries.value.items;
          streams = streams;
          cap = cap;
        }) first.value) }
        ensures sound { IfOk result IsSound }
    {
        legal_by_lines();
        first_view();
        let running = streams_to(alloc, streams)?;
        Ok(Journal {
            queries,
            streams,
            cap,
            entries: KeptList::new(alloc),
            calls: GhostList::new(),
            view: first,
            running,
            shut: None,
        })
    }

    /// Appends a tuple of the stream, and answers the position of its entry, counted from 1.
    ///
    /// The errors are, in this order, [`AppendFault::Closed`] where the history is shut,
    /// [`AppendFault::Full`] where it has as many entries as it takes, and [`AppendFault::Memory`].
    /// After an error it is what it was.
    pub fn append(&mut self, stream: u32, tuple: Tuple) -> Result<u64, AppendFault>
        requires open { IsOpen self.old stream }
        requires plain { IsPlainTuple tuple }
        ensures line { OnOk result (self.new ≡ with_line self.old (append_line stream tuple)) }
        ensures position { IfOk result (λ position.
            position ≡ length (entries self.new.lines)) }
        ensures closed { (why : Reason) →
            (result ≡ Err (NotAppended.Closed why)) ↔ IsShutFor self.old.lines why }
        ensures full { (cap : ℕ) →
            (result ≡ Err (NotAppended.Full cap)) ↔ IsFullAt self.old cap }
        ensures unchanged { OnErr result (self.new ≡ self.old) }
        ensures terms { self.new.terms ≡ self.old.terms }
        ensures sound { IsSound self.new }
    {
        if let Some(why) = self.shut {
            return Err(AppendFault::Closed(why));
        }
        if self.entries.length() == self.cap {
            return Err(AppendFault::Full(self.cap));
        }
        legal_by_lines();
        lines_are_joined();
        self.entries.push(Entry { stream, tuple })?;
        self.calls.push(&Call {
            by: stream,
            act: CallAct::Append,
        });
        Ok(self.entries.length())
    }

    /// Ends the stream. Takes no memory.
    pub fn end_stream(&mut self, stream: u32)
        requires { IsOpen self.old stream }
        ensures line { self.new ≡ with_line self.old (end_line stream) }
        ensures terms { self.new.terms ≡ self.old.terms }
        ensures sound { IsSound self.new }
    {
        legal_by_lines();
        lines_are_joined();
        self.calls.push(&Call {
            by: stream,
            act: CallAct::EndStream,
        });
        self.running.retain(|each| *each != stream);
    }

    /// Publishes a view over the first entries, as many as its position says.
    ///
    /// The only error is [`PublishFault::Behind`], if the position isn't beyond the one that was
    /// published last. After it the history is what it was. Takes no memory.
    pub fn publish(&mut self, view: Arc<View>) -> Result<(), PublishFault>
        requires goes_on { IsShut self.old.lines → ⊥ }
        requires there { view.value.position ≤ length (entries self.old.lines) }
        requires shows { ShowsFront self.old.terms.queries (entries self.old.lines) view.value }
        ensures line { OnOk result (self.new ≡ with_view self.old view.value) }
        ensures behind { (fault : NotPublished) →
            (result ≡ Err fault) ↔ IsBehind self.old view.value fault }
        ensures unchanged { OnErr result (self.new ≡ self.old) }
        ensures terms { self.new.terms ≡ self.old.terms }
        ensures sound { IsSound self.new }
    {
        let last = self.view.position();
        let number = view.position();
        if number <= last {
            return Err(PublishFault::Behind(last));
        }
        legal_by_lines();
        lines_are_joined();
        self.calls.push(&Call {
            by: 0,
            act: CallAct::Publish(number),
        });
        self.view = view;
        Ok(())
    }

    /// Shuts the history, so that nothing is appended or published any more. Takes no memory.
    pub fn shut(&mut self, why: Why)
        requires { IsShut self.old.lines → ⊥ }
        ensures line { self.new ≡ with_line self.old (shut_line why) }
        ensures terms { self.new.terms ≡ self.old.terms }
        ensures sound { IsSound self.new }
    {
        legal_by_lines();
        lines_are_joined();
        self.calls.push(&Call {
            by: 0,
            act: CallAct::Shut(why),
        });
        self.shut = Some(why);
    }

    /// The queries.
    pub fn queries(&self) -> &Arc<Vec<QueryDef>>
        ensures { result.now.value.items ≡ self.now.terms.queries }
    {
        &self.queries
    }

    /// The number of streams.
    pub fn streams(&self) -> u32
        ensures { result ≡ self.now.terms.streams }
    {
        self.streams
    }

    /// How many entries it takes.
    pub fn cap(&self) -> u64
        ensures { result ≡ self.now.terms.cap }
    {
        self.cap
    }

    /// The number of entries.
    pub fn length(&self) -> u64
        ensures length { result ≡ length (entries self.now.lines) }
        ensures sound { IsSound self.now }
    {
        self.entries.length()
    }

    /// How many of the first entries are gone.
    pub fn base(&self) -> u64
        ensures base { result ≡ self.now.base }
        ensures within { self.now.base ≤ length (entries self.now.lines) }
        ensures whole { KeepsAll self.now.terms → self.now.base ≡ 0 }
    {
        self.entries.base()
    }

    /// The entries, of which nothing is copied.
    pub fn into_entries(self) -> KeptList<Entry>
        ensures items { result.items ≡ entries self.lines }
        ensures base { result.base ≡ self.base }
        ensures whole { KeepsAll self.terms → result.base ≡ 0 }
    {
        let Journal {
            queries: _,
            streams: _,
            cap: _,
            entries,
            calls: _,
            view: _,
            running: _,
            shut: _,
        } = self;
        entries
    }

    /// The entries behind so many first ones, which are at least those that are gone.
    pub fn entries_from(&self, from: u64) -> &[Entry]
        requires there { self.now.base ≤ from }
        requires within { from ≤ length (entries self.now.lines) }
        ensures { result.now ≡ drop from (entries self.now.lines) }
    {
        self.entries.after(from)
    }

    /// Gives up the first entries, so many of them, and adds no line. No more are gone then, unless
    /// more were, and at most twice as many are there as are behind them. Takes no memory.
    pub fn forget_first(&mut self, count: u64)
        requires forgets { KeepsAll self.old.terms → ⊥ }
        requires there { count ≤ length (entries self.old.lines) }
        ensures forgets { Forgets count self.old self.new }
        ensures terms { self.new.terms ≡ self.old.terms }
        ensures lines { self.new.lines ≡ self.old.lines }
        ensures sound { IsSound self.new }
    {
        self.entries.forget_first(count);
    }

    /// The view that was published last, or the first one.
    pub fn view(&self) -> &Arc<View>
        ensures view { result.now.value ≡ self.now.view }
        ensures sound { IsSound self.now }
    {
        &self.view
    }

    /// How many entries were published last, 0 for none.
    pub fn published(&self) -> u64
        ensures { result ≡ published self.now.lines }
    {
        self.view.position()
    }

    /// Whether all streams have ended.
    pub fn all_ended(&self) -> bool
        ensures { IsTrue result ↔ AllEnded self.now.terms.streams self.now.lines }
    {
        self.running.is_empty()
    }

    /// Why the history was shut, or none where it wasn't.
    pub fn shut_reason(&self) -> Option<Why>
        ensures { (why : Reason) → (result ≡ Some why) ↔ IsShutFor self.now.lines why }
    {
        self.shut
    }
}

/// The numbers of so many streams.
fn streams_to(alloc: Global, streams: u32) -> Result<Vec<u32>, Memory>
    requires { streams ≤ 64 }
    ensures { IfOk result (λ numbers. AreStreams streams numbers.items) }
{
    let mut numbers = Vec::with_capacity(alloc, streams as usize)?;
    for number in 0..streams {
        numbers.push(number + 1)?;
    }
    Ok(numbers)
}
