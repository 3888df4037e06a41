//! What one thread takes its turns with.
ghost use Rattle.std.specs.Prelude.{◌≡◌};

use crate::kept::Kept;
use crate::view::SeatView;
use atomic_table::Seat;
use std::marker::Model;

/// A pass of some [`Turns`](crate::Turns), by which a thread takes its turns. It is four bytes, its
/// number, and may go to another thread.
///
/// Contracts see it as the record of its number, the lines that it had seen at the end of its last
/// turn, its own lines among them, the value's fixed part, and the lines that its turn found where
/// it holds one. A pass that is dropped in its turn blocks all the others for ever.
#[derive(Drop)]
pub struct Pass<V: Kept> {
    pub(crate) seat: Seat<Option<V>, SeatView<V::Line, V::Fixed>>,
    pub(crate) number: u32,
}

impl<V: Kept> Model for Pass<V> {
    ghost use Rattle.std.specs.Prelude.{◌≡◌, []};
    ghost use Rattle.turn_lock.specs.Passes.{PassValue};
    ghost use Rattle.turn_lock.specs.Seats.{pass_of, IsBetweenSteps};

    ghost Value = { PassValue V.Line V.Fixed };

    ghost view = { λ p. pass_of p.seat.table_id p.seat.me.0 };

    ghost invariant = { λ p.
        IsBetweenSteps p.seat.me.0.stage p.seat.me.1 × (p.seat.me.0.heard ≡ [])
        × (p.seat.me.0.known.number ≡ p.number) };
}

impl<V: Kept> Pass<V> {
    /// Its number, counted from 0 in the order in which the passes were made.
    pub fn number(&self) -> u32
        ensures { result ≡ self.now.number }
    {
        self.number
    }
}
