//! The log of the ends that come or go.

ghost use Rattle.std.specs.Prelude.{◌≡◌, [], OnOk};
ghost use Rattle.place_table.specs.Table.{TableValue};
ghost use Rattle.source_tree.specs.Product.{AreFinals};
ghost use Rattle.wide_search.specs.Lifts.{ReportsLifts};
ghost use Rattle.end_log.specs.Log.{AreEndChangesIn, AreGone};

use crate::listing::{all_finals, list_came, list_went, log_came, log_went};
use crate::moved::Moved;
use crate::runs::log_moved;
use crate::states::StatesAt;
use dfa_table::Dfa;
use place_table::{Lost, PlaceTable};
use rpq_base::Memory;
use source_tree::{EndChange, Outcome};
use std::alloc::Global;
use std::marker::Model;
use wide_search::Lift;

/// The ends that came or went with the last change, with room that is kept for the next one.
#[derive(Drop)]
pub struct EndLog {
    moved: Vec<Moved>,
    seen: StatesAt,
    changes: Vec<EndChange>,
}

impl Model for EndLog {
    ghost use Rattle.end_log.specs.Log.{EndLogValue};

    ghost Value = { EndLogValue };

    ghost view = { λ ends. record { log = ends.changes.items } };
}

impl EndLog {
    /// An empty log, which takes no memory.
    pub fn new(alloc: Global) -> EndLog
        ensures { result ≡ record { log = [] } }
    {
        EndLog {
            moved: Vec::new(alloc),
            seen: StatesAt::new(alloc),
            changes: Vec::new(alloc),
        }
    }

    /// Makes the log empty, and keeps its memory.
    pub fn clear(&mut self)
        ensures { self.new.log ≡ [] }
    {
        self.changes.clear();
    }

    /// The ends that came or went with the last change, each once.
    pub fn log(&self) -> &[EndChange]
        ensures { result.now ≡ self.now.log }
    {
        &self.changes
    }

    /// Makes the log that of the ends that come with a raise, of which these are the lifts. The
    /// only error is [`Memory`]. Where one state is final, this is a pass over the lifts.
    pub fn log_gained(
        &mut self,
        table: &PlaceTable,
        dfa: &Dfa,
        finals: &[u32],
        lifts: &[Lift],
    ) -> Result<(), Memory>
        requires finals { AreFinals dfa.now finals.now }
        ensures { OnOk result ((old : TableValue) → ReportsLifts old table.now lifts.now →
            AreEndChangesIn finals.now old table.now self.new.log) }
    {
        self.changes.clear();
        all_finals(dfa, finals);
        if finals.len() == 1 {
            return log_came(finals[0], lifts, &mut self.changes);
        }
        self.moved.clear();
        list_came(dfa, lifts, &mut self.moved)?;
        log_moved(
            table,
            dfa,
            Outcome::Gained,
            &mut self.moved,
            &mut self.seen,
            &mut self.changes,
        )
    }

    /// Makes the log that of the ends that go with these nodes. The only error is [`Memory`]. Where
    /// one state is final, this is a pass over the nodes.
    pub fn log_lost(
        &mut self,
        table: &PlaceTable,
        dfa: &Dfa,
        finals: &[u32],
        gone: &[Lost],
    ) -> Result<(), Memory>
        requires finals { AreFinals dfa.now finals.now }
        ensures { OnOk result ((old : TableValue) → AreGone old table.now gone.now →
            AreEndChangesIn finals.now old table.now self.new.log) }
    {
        self.changes.clear();
        all_finals(dfa, finals);
        if finals.len() == 1 {
            return log_went(finals[0], gone, &mut self.changes);
        }
        self.moved.clear();
        list_went(dfa, gone, &mut self.moved)?;
        log_moved(
            table,
            dfa,
            Outcome::Lost,
            &mut self.moved,
            &mut self.seen,
            &mut self.changes,
        )
    }
}
