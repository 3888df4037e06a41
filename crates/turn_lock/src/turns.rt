//! A value that threads take in turn.
ghost use Rattle.std.specs.Prelude.{◌≡◌, ◌%◌, ◌^◌, Some};
ghost use Rattle.turn_lock.specs.declared.view.Stage.TheVariants.{Waits};
ghost use Rattle.turn_lock.specs.Passes.{holding, learned, AddsInTurn, IsAtRest, Knows};
ghost use Rattle.turn_lock.specs.Steps.{Lifts};

use crate::kept::Kept;
use crate::pass::Pass;
use crate::rule::{Draw, InTurn, Look, PassOn};
use crate::view::{SeatView, Start};
use atomic_table::{Seat, Table};
use std::alloc::Global;
use std::hint::spin_loop;
use std::marker::Model;
use std::sync::Wait;

pub(crate) type TurnSeat<V> = Seat<Option<V>, SeatView<<V as Kept>::Line, <V as Kept>::Fixed>>;

// Words of the table: how many tickets were drawn, and how many turns have ended.
const DRAWN: usize = 0;

const ENDED: usize = 1;

// Looks before a thread sleeps.
const LOOKS: u32 = 64;

// A sleep compares 32 bits.
const LOW: u64 = 0xffff_ffff;

/// A value of which each thread with a [`Pass`] may take its turn.
///
/// Contracts see it as which turns they are and how many passes they have. Memory is asked for when
/// it is made, and never later.
///
/// No clause says that a wait ends, in which order those who wait are served, or how long a turn
/// takes: a body that waits for ever meets each contract. By its tickets, threads are served in the
/// order in which they asked. A pass that is dropped in its turn blocks all the others for ever.
#[derive(Drop)]
pub struct Turns<V: Kept> {
    pub(crate) table: Table<Option<V>, SeatView<V::Line, V::Fixed>, Start<V>, InTurn, Global>,
    pub(crate) passes: u32,
}

impl<V: Kept> Model for Turns<V> {
    ghost use Rattle.std.specs.Prelude.{◌≡◌, ◌<◌};
    ghost use Rattle.turn_lock.specs.Passes.{TurnsValue};

    ghost Value = { TurnsValue };

    ghost view = { λ t. record { id = t.table.shared.table_id; passes = t.passes } };

    ghost invariant = { λ t.
        (t.table.shared.table_id.words ≡ 2) × (t.table.shared.table_id.slots ≡ 1)
        × (t.table.shared.key.passes ≡ t.passes) × (0 < t.passes) };
}

impl<V: Kept> Turns<V> {
    /// Waits for the pass's turn, and answers the value. All that the pass knew is so of it.
    ///
    /// Where nobody else has or wants a turn this is one atomic addition, one atomic read and a
    /// move of the value: with a [`Turns::give`] some 30 ns, as measured on one x86-64 machine.
    /// Whoever has to wait looks some times more, and then sleeps until a turn ends.
    pub fn take<R: Wait>(&self, rt: &R, pass: &mut Pass<V>) -> V
        requires { IsAtRest self.now pass.old }
        ensures value { Knows V.author (V.fixed result) (V.lines result) pass.old }
        ensures pass { pass.new ≡ holding pass.old (V.lines result) }
    {
        let ticket = self
            .table
            .shared
            .fetch_add::<Draw>(&mut pass.seat, DRAWN, 1);
        self.wait(rt, &mut pass.seat, ticket);
        self.table.shared.exchange(&mut pass.seat, 0, None).unwrap()
    }

    // Waits until the ticket is served, and takes the slot.
    fn wait<R: Wait>(&self, rt: &R, seat: &mut TurnSeat<V>, ticket: u64)
        requires table { seat.old.table_id ≡ self.now.id }
        requires ticket { (drawn : _)
            × (drawn % 2 ^ 64 ≡ ticket) × (seat.old.me.0.stage ≡ Waits drawn) }
        ensures table { seat.new.table_id ≡ seat.old.table_id }
        ensures slot { (drawn : _) × Lifts V.lines V.fixed V.author drawn seat.old.me seat.new.me }
    {
        let mut looks = 0;
        for _ in rt.forever() {
            let served = self.table.shared.load::<Look<V>>(seat, ENDED);
            if served == ticket {
                break;
            }
            if looks < LOOKS {
                looks += 1;
                spin_loop();
            } else {
                self.table.shared.park(rt, ENDED, (served & LOW) as u32);
            }
        }
    }

    /// Ends the pass's turn, and puts the value back with the lines that the turn added. Then the
    /// pass has seen all its lines.
    ///
    /// This is a move of the value, one atomic addition and one atomic read, and a system call
    /// where somebody waits, which wakes all who sleep.
    pub fn give(&self, pass: &mut Pass<V>, value: V)
        requires turns { pass.old.id ≡ self.now.id }
        requires fixed { Some (V.fixed value) ≡ pass.old.fixed }
        requires lines { AddsInTurn V.author pass.old (V.lines value) }
        ensures { pass.new ≡ learned pass.old (V.lines value) }
    {
        let shared = &self.table.shared;
        drop(shared.exchange(&mut pass.seat, 0, Some(value)));
        let ended = shared.fetch_add::<PassOn<V>>(&mut pass.seat, ENDED, 1);
        // Whoever draws after this look sees that the turn has ended.
        if shared.peek(DRAWN) != ended.wrapping_add(1) {
            shared.wake_all(ENDED);
        }
    }
}
