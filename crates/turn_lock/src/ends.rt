//! How turns begin, and how they end.
ghost use Rattle.std.specs.Prelude.{◌≡◌, ◌<◌, ◌≤◌, [], ◌∷◌, map, Some, IfOk, IfErr};
ghost use Rattle.std.specs.List.{All};
ghost use Rattle.std.specs.Vec.{vec_len, vec_capacity};
ghost use Rattle.turn_lock.specs.declared.view.Stage.TheVariants.{Idle};
ghost use Rattle.turn_lock.specs.Passes.{newcomers, IsAtRest, AreAll, Knows};
ghost use Rattle.turn_lock.specs.Seats.{known_of};
ghost use Rattle.turn_lock.specs.Turn.{fresh};

use crate::kept::Kept;
use crate::pass::Pass;
use crate::rule::{Cut, Glue};
use crate::turns::{TurnSeat, Turns};
use crate::view::Start;
use atomic_table::{Refused, Table};
use rpq_base::Memory;
use std::alloc::Global;
use std::snapshot::Snapshot;

impl<V: Kept> Turns<V> {
    /// Turns of the value, and their passes in the order of their numbers, from 0 on. Where memory
    /// runs out the value comes back.
    ///
    /// All the memory that the turns ever need is asked for here: two words, room for the value,
    /// and the list of the passes, four bytes for each.
    pub fn new(
        alloc: Global,
        value: V,
        passes: u32,
    ) -> Result<(Turns<V>, Vec<Pass<V>>), (V, Memory)>
        requires passes { 0 < passes }
        requires lines { V.lines value ≡ [] }
        ensures passes { IfOk result (λ r. r.0.passes ≡ passes) }
        ensures newcomers { IfOk result (λ r. r.1.items ≡ newcomers r.0.id (V.fixed value) passes) }
        ensures err { IfErr result (λ e. e.0 ≡ value) }
    {
        let mut dealt = match Vec::with_capacity(alloc, passes as usize) {
            Ok(dealt) => dealt,
            Err(refused) => return Err((value, Memory::from(refused))),
        };
        let mut slots = match Vec::with_capacity(alloc, 1) {
            Ok(slots) => slots,
            Err(refused) => return Err((value, Memory::from(refused))),
        };
        let start = Start {
            value: Snapshot::of(&value),
            passes,
        };
        slots.push_reserved(Some(value));
        match Table::new(alloc, &[0, 0], slots, &start) {
            Ok((table, seat)) => {
                let turns = Turns { table, passes };
                turns.deal(seat, &mut dealt);
                Ok((turns, dealt))
            }
            Err(Refused { slots }) => Err((only(slots), Memory)),
        }
    }

    // Makes the other passes out of the first one's seat.
    fn deal(&self, mut seat: TurnSeat<V>, dealt: &mut Vec<Pass<V>>)
        requires table { seat.table_id ≡ self.now.id }
        requires first { seat.me ≡ (fresh 0 1 seat.me.0.known.fixed, []) }
        requires empty { dealt.old.items ≡ [] }
        requires room { self.now.passes ≤ vec_capacity dealt.old }
        requires some { 0 < self.now.passes }
        ensures { (fixed : _) → seat.me.0.known.fixed ≡ Some fixed
            → dealt.new.items ≡ newcomers self.now.id fixed self.now.passes }
    {
        let last = self.passes - 1;
        for number in 0..last {
            let next = self.table.shared.split_seat::<Cut>(&mut seat);
            dealt.push_reserved(Pass { seat, number });
            seat = next;
        }
        dealt.push_reserved(Pass { seat, number: last });
    }

    /// Ends the turns, and answers the value. All that the passes knew is so of it, and it has no
    /// other lines than theirs.
    ///
    /// It takes all the passes, in any order, none of which may hold a turn, so it never waits.
    /// That is one atomic read for each of them.
    pub fn close(self, passes: Vec<Pass<V>>) -> V
        requires all { AreAll self.passes passes.items }
        requires rest { All (IsAtRest self) passes.items }
        ensures passes { All (Knows V.author (V.fixed result) (V.lines result)) passes.items }
        ensures authors { All (λ line. V.author line < self.passes) (V.lines result) }
    {
        let seat = self.gather(passes);
        let Turns { table, passes: _ } = self;
        let mut closed = table.close_with(seat);
        let value = closed.take(0).unwrap();
        closed.free();
        value
    }

    // Joins the seats of all passes to one.
    fn gather(&self, passes: Vec<Pass<V>>) -> TurnSeat<V>
        requires rest { All (IsAtRest self.now) passes.items }
        requires some { 0 < vec_len passes }
        ensures table { result.table_id ≡ self.now.id }
        ensures rest { result.me.0.stage ≡ Idle }
        ensures all { map known_of passes.items ≡ result.me.0.known ∷ result.me.0.heard }
    {
        let mut passes = passes.into_iter();
        let Some(first) = passes.next() else {
            unreachable!()
        };
        let Pass { mut seat, .. } = first;
        for Pass { seat: other, .. } in passes {
            self.table.shared.join_seat::<Glue>(&mut seat, other);
        }
        seat
    }
}

// The only slot's value.
fn only<V: Kept>(mut slots: Vec<Option<V>>) -> V
    requires { (value : V) × (slots.items ≡ Some value ∷ []) }
    ensures { slots.items ≡ Some result ∷ [] }
{
    match slots.pop() {
        Some(Some(value)) => value,
        _ => unreachable!(),
    }
}
