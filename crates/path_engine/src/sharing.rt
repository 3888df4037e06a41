//! That threads may be handed the parts of a front, and the indexes of queries. The functions do
//! nothing: each says so of one type, which is found more easily than for all that a call of many
//! threads takes at once.

ghost use denote.Builtin.{bool as bool_row, u32 as u32_row};
ghost use Rattle.std.specs.Thread.{IsSend};
ghost use Rattle.std.specs.contracts.alloc.Global.{the_row as heap_row};
ghost use Rattle.std.specs.contracts.impls.GlobalAllocator.TheImpl.{ghosts};
ghost use Rattle.std.specs.contracts.vec.Vec.{the_row as vec_row};
ghost use Rattle.dfa_table.specs.contracts.dfa.Dfa.{the_row as dfa_row};
ghost use Rattle.edge_store.specs.contracts.store.EdgeStore.{the_row as store_row};
ghost use Rattle.source_index.specs.contracts.dues.Dues.{the_row as dues_row};
ghost use Rattle.source_index.specs.contracts.holders.Holders.{the_row as holders_row};
ghost use Rattle.source_tree.specs.contracts.change.EndChange.{the_row as change_row};
ghost use Rattle.source_table.specs.contracts.table.SourceTable.{the_row as table_row};
ghost use Rattle.delta_forest.specs.contracts.forest.Forest.{the_row as forest_row};
ghost use Rattle.query_index.specs.contracts.index.QueryIndex.{the_row as index_row};
ghost use Rattle.window_clock.specs.contracts.clock.WindowClock.{the_row as clock_row};
ghost use Rattle.answer_rows.specs.contracts.rows.Rows.{the_row as rows_row};
ghost use Rattle.end_events.specs.contracts.numbered_event.NumberedEvent.{the_row as event_row};
ghost use Rattle.rpq_base.specs.contracts.memory.Memory.{the_row as memory_row};
ghost use Rattle.std.specs.contracts.result.Result.{the_row as result_row};
ghost use Rattle.path_engine.specs.contracts.front.Share.{the_row as share_row};
ghost use Rattle.path_engine.specs.contracts.parts.Part.{the_row as part_row};

use crate::front::Share;
use crate::parts::Part;
use answer_rows::Rows;
use delta_forest::Forest;
use dfa_table::Dfa;
use edge_store::EdgeStore;
use end_events::NumberedEvent;
use query_index::QueryIndex;
use rpq_base::Memory;
use source_index::{Dues, Holders};
use source_table::SourceTable;
use source_tree::EndChange;
use std::alloc::Global;
use window_clock::WindowClock;

/// Threads may be handed values of this type.
fn threads_take<T: Send>(values: &[T])
    ensures { IsSend T.row }
{
    let _ = values;
}

/// Threads may be handed the lists of a forest.
fn threads_take_lists()
    ensures heap { IsSend heap_row }
    ensures numbers { IsSend (vec_row u32_row heap_row ghosts) }
    ensures changes { IsSend (vec_row change_row heap_row ghosts) }
{
    threads_take::<Global>(&[]);
    threads_take::<Vec<u32>>(&[]);
    threads_take::<Vec<EndChange>>(&[]);
}

/// Threads may be handed automata and stores of edges.
fn threads_take_stores()
    ensures dfa { IsSend dfa_row }
    ensures store { IsSend store_row }
{
    threads_take::<Dfa>(&[]);
    threads_take::<EdgeStore>(&[]);
}

/// Threads may be handed the trees of all sources, and what finds those that a change may touch.
fn threads_take_tables()
    ensures table { IsSend table_row }
    ensures holders { IsSend holders_row }
    ensures dues { IsSend dues_row }
{
    threads_take::<SourceTable>(&[]);
    threads_take::<Holders>(&[]);
    threads_take::<Dues>(&[]);
}

/// Threads may be handed clocks of windows and rows.
fn threads_take_rows()
    ensures clock { IsSend clock_row }
    ensures rows { IsSend rows_row }
{
    threads_take::<WindowClock>(&[]);
    threads_take::<Rows>(&[]);
}

/// Threads may be handed forests.
fn threads_take_forests()
    ensures { IsSend forest_row }
{
    threads_take_lists();
    threads_take_stores();
    threads_take_tables();
    threads_take::<Forest>(&[])
}

/// Threads may be handed what a list of roots is made of.
fn threads_take_roots()
    ensures numbers { IsSend (vec_row u32_row heap_row ghosts) }
    ensures flags { IsSend (vec_row bool_row heap_row ghosts) }
{
    threads_take::<Vec<u32>>(&[]);
    threads_take::<Vec<bool>>(&[]);
}

/// Threads may be handed the indexes of queries.
pub(crate) fn threads_take_indexes()
    ensures { IsSend index_row }
{
    threads_take_forests();
    threads_take_rows();
    threads_take_roots();
    threads_take::<QueryIndex>(&[])
}

/// Threads may be handed the events of several entries.
fn threads_take_events()
    ensures { IsSend (result_row (vec_row (vec_row event_row heap_row ghosts) heap_row ghosts)
        memory_row) }
{
    threads_take::<Result<Vec<Vec<NumberedEvent>>, Memory>>(&[])
}

/// Threads may be handed what queries have of a front.
fn threads_take_shares()
    ensures { IsSend share_row }
{
    threads_take_indexes();
    threads_take_events();
    threads_take::<Share>(&[])
}

/// Threads may be handed lists of these.
fn threads_take_all_shares()
    ensures { IsSend (vec_row share_row heap_row ghosts) }
{
    threads_take_shares();
    threads_take::<Vec<Share>>(&[])
}

/// Threads may be handed the parts of a front.
pub(crate) fn threads_take_parts()
    ensures { IsSend part_row }
{
    threads_take_all_shares();
    threads_take::<Part>(&[])
}
