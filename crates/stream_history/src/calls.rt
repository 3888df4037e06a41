//! What threads do with a history.

ghost use Rattle.std.specs.Prelude.{◌≡◌, ℕ, ◌+◌, ◌<◌, ◌≤◌, ◌↔◌, Some, None, Err, length, take, drop};
ghost use Rattle.std.specs.Prelude.{IsTrue, IfOk, IfErr, IfSome, IsSome, OnOk, OnErr};
ghost use Rattle.rpq_base.specs.Plain.{IsPlainTuple};
ghost use Rattle.history_model.specs.declared.line.Why.{Why as Reason};
ghost use Rattle.history_model.specs.Lines.{append_line, end_line, publish_line, shut_line};
ghost use Rattle.history_model.specs.Lines.{entries, published, AllEnded, IsShutFor};
ghost use Rattle.stream_history.specs.Journal.{KeepsAll, ShowsFront, IsSound};
ghost use Rattle.stream_history.specs.History.{IsPassOf, IsOpenPass, IsEnginePass, IsFeedingPass};
ghost use Rattle.stream_history.specs.History.{HasSeen, HasAdded, AreFull, IsOver};
ghost use Rattle.stream_history.specs.declared.fault.AppendFault.{AppendFault as NotAppended};
ghost use Rattle.stream_history.specs.declared.fault.PublishFault.{PublishFault as NotPublished};

use crate::bell::{EntryRings, ViewRings};
use crate::fault::{AppendFault, PublishFault};
use crate::history::{History, Pass};
use crate::journal::Journal;
use answer_view::View;
use history_model::{Why, legal_by_lines, legal_is_sound};
use rpq_base::{Entry, Memory, Tuple, copy_all};
use std::alloc::Global;
use std::sync::{Arc, Wait};

/// The most entries that one [`History::after`] gives.
const MOST: usize = 256;

/// The entries behind a position, or the first of them, how many entries there are, whether all
/// streams have ended, and what the bell of the entries had heard by then.
#[derive(Drop)]
pub struct Front {
    pub entries: Vec<Entry>,
    pub length: u64,
    pub all_ended: bool,
    pub heard: EntryRings,
}

/// The view that was published last, how many entries there are, whether all streams have ended,
/// why the history was shut, if it was, and what the bell of the views had heard by then.
#[derive(Drop)]
pub struct Looked {
    pub view: Arc<View>,
    pub length: u64,
    pub all_ended: bool,
    pub shut: Option<Why>,
    pub heard: ViewRings,
}

impl History {
    /// Appends a tuple of the pass's stream, and answers the position of its entry, counted from 1.
    ///
    /// The errors are, in this order, [`AppendFault::Closed`] where the history is shut,
    /// [`AppendFault::Full`] where it has as many entries as it takes, and [`AppendFault::Memory`].
    /// It costs a turn.
    pub fn append<R: Wait>(&self, rt: &R, pass: &mut Pass, tuple: Tuple) -> Result<u64, AppendFault>
        requires open { IsOpenPass self.now pass.old }
        requires plain { IsPlainTuple tuple }
        ensures line { OnOk result
            (HasAdded self.now pass.old (append_line pass.old.number tuple) pass.new) }
        ensures position { IfOk result (λ position. position ≡ length (entries pass.new.seen)) }
        ensures refused { OnErr result (HasSeen self.now pass.old pass.new) }
        ensures closed { (why : Reason) →
            (result ≡ Err (NotAppended.Closed why)) ↔ IsShutFor pass.new.seen why }
        ensures full { OnErr result ((cap : ℕ) →
            (result ≡ Err (NotAppended.Full cap)) ↔ AreFull self.now.terms pass.new.seen cap) }
    {
        let stream = pass.number();
        let mut journal = self.turns.take(rt, pass);
        let answer = journal.append(stream, tuple);
        self.room.count(&journal);
        self.turns.give(pass, journal);
        self.entry_bell.ring(pass);
        answer
    }

    /// Ends the pass's stream. It costs a turn, and takes no memory.
    pub fn end_stream<R: Wait>(&self, rt: &R, pass: &mut Pass)
        requires { IsOpenPass self.now pass.old }
        ensures { HasAdded self.now pass.old (end_line pass.old.number) pass.new }
    {
        let stream = pass.number();
        let mut journal = self.turns.take(rt, pass);
        journal.end_stream(stream);
        self.turns.give(pass, journal);
        self.entry_bell.ring(pass);
        self.view_bell.ring(pass);
    }

    /// Publishes a view over the first entries, as many as its position says.
    ///
    /// The only error is [`PublishFault::Behind`], if the position isn't beyond the one that was
    /// published last. It costs a turn, and takes no memory.
    pub fn publish<R: Wait>(
        &self,
        rt: &R,
        pass: &mut Pass,
        view: Arc<View>,
    ) -> Result<(), PublishFault>
        requires engine { IsFeedingPass self.now pass.old }
        requires there { view.value.position ≤ length (entries pass.old.seen) }
        requires shows { ShowsFront self.now.terms.queries (entries pass.old.seen) view.value }
        ensures line { OnOk result
            (HasAdded self.now pass.old (publish_line view.value.position) pass.new) }
        ensures refused { OnErr result (HasSeen self.now pass.old pass.new) }
        ensures behind { (position : ℕ) → (result ≡ Err (NotPublished.Behind position))
            ↔ (position ≡ published pass.old.mine) × (view.value.position ≤ position) }
        ensures only { IfErr result (λ fault.
            fault ≡ NotPublished.Behind (published pass.old.mine)) }
    {
        legal_by_lines();
        legal_is_sound();
        let position = view.position();
        let mut journal = self.turns.take(rt, pass);
        let answer = journal.publish(view);
        let are_ended = journal.all_ended();
        self.turns.give(pass, journal);
        self.ring_for_view(pass, position, are_ended);
        answer
    }

    // Wakes those who wait for this position, or all if no further entry is to come.
    fn ring_for_view(&self, pass: &Pass, position: u64, are_ended: bool)
        requires { pass.now.found ≡ None }
    {
        if are_ended {
            self.view_bell.ring(pass);
        } else {
            self.view_bell.ring_at(pass, position);
        }
    }

    /// Shuts the history, so that nothing is appended or published any more. It costs a turn, and
    /// takes no memory.
    pub fn shut<R: Wait>(&self, rt: &R, pass: &mut Pass, why: Why)
        requires { IsFeedingPass self.now pass.old }
        ensures { HasAdded self.now pass.old (shut_line why) pass.new }
    {
        let mut journal = self.turns.take(rt, pass);
        journal.shut(why);
        self.turns.give(pass, journal);
        self.room.shut();
        self.entry_bell.ring(pass);
        self.view_bell.ring(pass);
        self.room_bell.ring(pass);
    }

    /// The entries behind so many first ones, all of them or the first 256. Answers none where some
    /// of these are gone, which a history that keeps all its entries never does.
    ///
    /// The engine of a history with readers has to publish what it got before it asks for more, but
    /// for the last entries, as many as [`History::lag`] says. The only error is [`Memory`]. It
    /// costs a turn, in which the entries are copied. With the first call the engine begins, so
    /// that streams wait for room from there on.
    pub fn after<R: Wait>(
        &self,
        rt: &R,
        alloc: Global,
        pass: &mut Pass,
        from: u64,
    ) -> Result<Option<Front>, Memory>
        requires engine { IsEnginePass self.now pass.old }
        requires there { from ≤ length (entries pass.old.seen) }
        requires published { 0 < self.now.readers
            → from ≤ published pass.old.mine + self.now.lag }
        ensures pass { HasSeen self.now pass.old pass.new }
        ensures entries { IfOk result (λ found. IfSome found (λ front.
            front.entries.items ≡ take 256 (drop from (entries pass.new.seen)))) }
        ensures length { IfOk result (λ found. IfSome found (λ front.
            front.length ≡ length (entries pass.new.seen))) }
        ensures all_ended { IfOk result (λ found. IfSome found (λ front.
            IsTrue front.all_ended ↔ AllEnded self.now.terms.streams pass.new.seen)) }
        ensures heard { IfOk result (λ found. IfSome found (λ front.
            front.heard ≡ pass.new.seen)) }
        ensures there { KeepsAll self.now.terms → IfOk result (λ found. IsSome found) }
    {
        self.room.begin();
        let journal = self.turns.take(rt, pass);
        let front = front_of(alloc, &journal, from, self.entry_bell.heard(&journal));
        self.turns.give(pass, journal);
        front
    }

    /// Gives up the first entries, so many of them, which the engine has answered, and published if
    /// there are readers. All that is known of the history stays so.
    ///
    /// It costs a turn, and takes no memory. At most twice as many entries stay as aren't given up.
    /// Streams that wait for room go on once half of it is free.
    pub fn forget<R: Wait>(&self, rt: &R, pass: &mut Pass, count: u64)
        requires engine { IsFeedingPass self.now pass.old }
        requires forgets { KeepsAll self.now.terms → ⊥ }
        requires there { count ≤ length (entries pass.old.seen) }
        requires published { 0 < self.now.readers → count ≤ published pass.old.mine }
        ensures { HasSeen self.now pass.old pass.new }
    {
        let mut journal = self.turns.take(rt, pass);
        journal.forget_first(count);
        self.turns.give(pass, journal);
        self.ring_for_room(pass, count);
    }

    // Wakes those who wait for room, if so many answered entries leave half of it free.
    fn ring_for_room(&self, pass: &Pass, count: u64)
        requires { pass.now.found ≡ None }
    {
        if self.room.answer(count) {
            self.room_bell.ring(pass);
        }
    }

    /// Sleeps while the history has no room for the pass's stream: while 65,536 entries or more are
    /// there that the engine hasn't said by [`History::forget`] to have answered.
    ///
    /// A history that keeps all its entries always has room, and so has one whose engine hasn't
    /// begun or that is shut. Where there is room this is two atomic reads, and no turn. No clause
    /// says that anybody is woken.
    pub fn wait_for_room<R: Wait>(&self, rt: &R, pass: &Pass)
        requires { IsOpenPass self.now pass.now }
    {
        let _ = pass;
        if self.keeps_all() {
            return;
        }
        for _ in rt.forever() {
            // A ring after this look ends the sleep.
            let heard = self.room_bell.rings();
            if self.room.is_free() {
                break;
            }
            self.room_bell.sleep_beyond(rt, heard);
        }
    }

    /// The view that was published last, and what else a reader wants to know. The only error is
    /// [`Memory`]. It costs a turn, and the view is shared.
    pub fn look<R: Wait>(&self, rt: &R, pass: &mut Pass) -> Result<Looked, Memory>
        requires { IsPassOf self.now pass.old }
        ensures pass { HasSeen self.now pass.old pass.new }
        ensures position { IfOk result (λ looked.
            looked.view.value.position ≡ published pass.new.seen) }
        ensures shows { IfOk result (λ looked.
            ShowsFront self.now.terms.queries (entries pass.new.seen) looked.view.value) }
        ensures length { IfOk result (λ looked. looked.length ≡ length (entries pass.new.seen)) }
        ensures all_ended { IfOk result (λ looked.
            IsTrue looked.all_ended ↔ AllEnded self.now.terms.streams pass.new.seen) }
        ensures shut { IfOk result (λ looked. (why : Reason) →
            (looked.shut ≡ Some why) ↔ IsShutFor pass.new.seen why) }
        ensures heard { IfOk result (λ looked. looked.heard ≡ pass.new.seen) }
    {
        let journal = self.turns.take(rt, pass);
        let looked = look_at(&journal, self.view_bell.heard(&journal));
        self.turns.give(pass, journal);
        looked
    }

    /// Sleeps until an entry is appended, a stream ends, or the history is shut, unless some of this
    /// came since a [`History::after`] heard this. It may return earlier, so look again after it.
    ///
    /// Who sleeps has nothing to do: it answered all the entries that were there, published the
    /// answers if there are readers, and further entries may come. `answered` says how many entries
    /// it answered; contracts alone read it and the pass. No clause says that anybody is woken.
    pub fn sleep_until_entries<R: Wait>(
        &self,
        rt: &R,
        pass: &Pass,
        heard: EntryRings,
        answered: u64,
    )
        requires engine { IsFeedingPass self.now pass.now }
        requires heard { heard ≡ pass.now.seen }
        requires answered { answered ≡ length (entries pass.now.seen) }
        requires goes_on { AllEnded self.now.terms.streams pass.now.seen → ⊥ }
        requires published { 0 < self.now.readers → published pass.now.mine ≡ answered }
    {
        let _ = pass;
        let _ = answered;
        self.entry_bell.sleep(rt, heard);
    }

    /// Whether a reader sleeps until a view at this position or an earlier one is published. It is
    /// one atomic read, and no turn. No clause says what it answers: a view may be published that
    /// nobody waits for.
    pub fn is_view_wanted(&self, position: u64) -> bool {
        self.view_bell.is_waited_for(position)
    }

    /// Sleeps until a view at this position or a later one is published, a stream ends, the last
    /// view is published, or the history is shut, unless some of this came since a
    /// [`History::look`] heard this. It may return earlier, so look again after it.
    ///
    /// Who sleeps has nothing to do: the position wasn't published, and a further one may come. No
    /// clause says that anybody is woken.
    pub fn sleep_until_views<R: Wait>(&self, rt: &R, heard: ViewRings, position: u64)
        requires waits { published heard < position }
        requires goes_on { IsOver self.now.terms.streams heard (published heard) → ⊥ }
    {
        self.view_bell.sleep(rt, heard, position);
    }
}

// What stands behind so many first entries, with what was heard, or none where some of it is gone.
fn front_of(
    alloc: Global,
    journal: &Journal,
    from: u64,
    heard: EntryRings,
) -> Result<Option<Front>, Memory>
    requires { from ≤ length (entries journal.now.lines) }
    ensures entries { IfOk result (λ found. IfSome found (λ front.
        front.entries.items ≡ take 256 (drop from (entries journal.now.lines)))) }
    ensures length { IfOk result (λ found. IfSome found (λ front.
        front.length ≡ length (entries journal.now.lines))) }
    ensures all_ended { IfOk result (λ found. IfSome found (λ front.
        IsTrue front.all_ended ↔ AllEnded journal.now.terms.streams journal.now.lines)) }
    ensures heard { IfOk result (λ found. IfSome found (λ front. front.heard ≡ heard)) }
    ensures there { IfOk result (λ found. IsSome found ↔ journal.now.base ≤ from) }
    ensures sound { IsSound journal.now }
{
    let length = journal.length();
    if from < journal.base() {
        return Ok(None);
    }
    let behind = journal.entries_from(from);
    let count = MOST.min(behind.len());
    Ok(Some(Front {
        entries: copy_all(alloc, &behind[..count])?,
        length,
        all_ended: journal.all_ended(),
        heard,
    }))
}

// What a reader finds, with what was heard.
fn look_at(journal: &Journal, heard: ViewRings) -> Result<Looked, Memory>
    ensures view { IfOk result (λ looked. looked.view.value ≡ journal.now.view) }
    ensures length { IfOk result (λ looked. looked.length ≡ length (entries journal.now.lines)) }
    ensures all_ended { IfOk result (λ looked.
        IsTrue looked.all_ended ↔ AllEnded journal.now.terms.streams journal.now.lines) }
    ensures shut { IfOk result (λ looked. (why : Reason) →
        (looked.shut ≡ Some why) ↔ IsShutFor journal.now.lines why) }
    ensures heard { IfOk result (λ looked. looked.heard ≡ heard) }
    ensures sound { IsSound journal.now }
{
    Ok(Looked {
        view: Arc::try_clone(journal.view())?,
        length: journal.length(),
        all_ended: journal.all_ended(),
        shut: journal.shut_reason(),
        heard,
    })
}
