//! What holds of indexes and their forests without a call.

ghost use Rattle.query_index.specs.IndexLaws.{BareForestsReachNothing, MoreNamesKeepIndexes};

use index_laws::stores_follow;

/// An index stays that of its query and history when more names get numbers.
pub fn more_names_keep_indexes()
    ensures { MoreNamesKeepIndexes }
{
    stores_follow();
}

/// A forest of a query over a history isn't without trees where a vertex is reached.
pub fn bare_forests_reach_nothing()
    ensures { BareForestsReachNothing }
{}
