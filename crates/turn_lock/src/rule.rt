//! The rule of the table, and what each step on it tells.
ghost use Rattle.turn_lock.specs.Turn.{IsKept, fresh, spent};
ghost use Rattle.turn_lock.specs.Steps.{Draws, LooksAt, GivesBack};
ghost use Rattle.turn_lock.specs.Steps.{first_part, next_seat, with_other};
ghost use Rattle.std.specs.Prelude.{Some};

use crate::kept::Kept;
use crate::view::{SeatView, Start};
use atomic_table::{Join, Play, Split, TableRule};
use std::marker::PhantomData;

pub struct InTurn;

impl<V: Kept> TableRule<Option<V>, SeatView<V::Line, V::Fixed>, Start<V>> for InTurn {
    ghost holds = { λ key. IsKept V.lines V.fixed V.author (V.fixed key.value.value) key.passes };

    ghost first = { λ key. fresh 0 1 (Some (V.fixed key.value.value)) };
}

pub(crate) struct Draw;

impl<V, L, F> Play<Option<V>, SeatView<L, F>> for Draw {
    ghost then = { λ _. Draws };
}

pub(crate) struct Look<V> {
    marker: PhantomData<V>,
}

impl<V: Kept> Play<Option<V>, SeatView<V::Line, V::Fixed>> for Look<V> {
    ghost then = { λ _ m. LooksAt V.lines V.fixed V.author m.0.stage m };
}

pub(crate) struct PassOn<V> {
    marker: PhantomData<V>,
}

impl<V: Kept> Play<Option<V>, SeatView<V::Line, V::Fixed>> for PassOn<V> {
    ghost then = { λ _ m _ you. GivesBack V.lines m.0.stage m.1 m you };
}

pub(crate) struct Cut;

impl<L, F> Split<SeatView<L, F>> for Cut {
    ghost left = { first_part };

    ghost right = { next_seat };
}

pub(crate) struct Glue;

impl<L, F> Join<SeatView<L, F>> for Glue {
    ghost both = { with_other };

    ghost spent = { spent };
}
