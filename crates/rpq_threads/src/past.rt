//! The entries that the engine was given, for the time when it is rebuilt.

ghost use Rattle.std.specs.Prelude.{◌≡◌, [], OnOk, OnErr};
ghost use Rattle.rpq_threads.specs.Past.{PastIsNew, PastShrinks, PastTakes, window_of};

use crate::window::KeptWindow;
use engine_loop::AfterShrink;
use rpq_base::{Entry, Memory};
use rpq_model::QueryDef;
use std::alloc::Global;
use stream_history::History;

/// Where the entries are that the engine was given before.
#[derive(Drop)]
pub enum Past<'a> {
    /// In the history, which keeps all its entries.
    InHistory,
    /// Here, as far as they are needed, since the history forgets them.
    Kept(KeptWindow<'a>),
}

impl<'a> Past<'a> {
    /// No entry was given yet. Takes no memory.
    pub fn new(alloc: Global, history: &History, queries: &'a [QueryDef]) -> Past<'a>
        ensures { PastIsNew history.now.terms queries.now result }
    {
        if history.keeps_all() {
            Past::InHistory
        } else {
            Past::Kept(KeptWindow::new(alloc, queries))
        }
    }

    /// Takes more entries, which were given behind the others. The only error is [`Memory`], after
    /// which all is as it was.
    pub fn take(&mut self, more: &mut Vec<Entry>) -> Result<(), Memory>
        ensures ok { OnOk result (PastTakes self.old more.old.items self.new) }
        ensures moved { OnOk result (more.new.items ≡ []) }
        ensures err { OnErr result ((PastTakes self.old [] self.new)
            × (more.new.items ≡ more.old.items)) }
    {
        match self {
            Past::InHistory => {
                more.clear();
                Ok(())
            }
            Past::Kept(window) => window.take(more),
        }
    }

    /// Gives up what no query sees any more, if that is worth it.
    pub fn shrink(&mut self) -> AfterShrink
        ensures { PastShrinks self.old result self.new }
    {
        match self {
            Past::InHistory => AfterShrink::GoOn,
            Past::Kept(window) => window.shrink(),
        }
    }

    /// What was kept in the place of the history, if the history didn't keep it.
    pub fn into_window(self) -> Option<Vec<Entry>>
        ensures { result ≡ window_of self.entry }
    {
        match self {
            Past::InHistory => None,
            Past::Kept(window) => Some(window.entries),
        }
    }
}
