// The lock.
ghost use Rattle.std.specs.Prelude.{◌≡◌, ℕ, ◌+◌, ◌%◌, ◌^◌, ◌<◌, ◌≤◌, Some, [], ◌∷◌, length, slice_get, IfOk, IfErr};
ghost use Rattle.hl_turn.specs.Entries.{by_seat};
ghost use Rattle.hl_turn.specs.Jobs.{held_after};
ghost use Rattle.hl_turn.specs.Asking.{MayAsk};
ghost use Rattle.hl_turn.specs.Views.{knowing, IsFresh};
ghost use Rattle.hl_turn.specs.Lock.{IsSeatOf, AreSeatsOf};
ghost use Rattle.hl_turn.specs.Calls.{IsAnswered};

use crate::object::Object;
use crate::rule::{InTurn, Terms};
use crate::seat::TurnSeat;
use crate::seats::{deal, gather};
use crate::steps;
use crate::view::View;
use atomic_table::{Refused, Table};
use std::alloc::{AllocError, Global};
use std::marker::Model;
use std::snapshot::Snapshot;
use std::sync::Wait;

/// An object that several threads work on in turn. Contracts see the lock's table, the object as it
/// was when the lock was made, and how many seats there are.
#[derive(Drop)]
pub struct Turn<T: Object> {
    table: Table<T, View<T, T::Entry, T::Item, T::Claim>, Terms<T>, InTurn, Global>,
}

impl<T: Object> Model for Turn<T> {
    ghost use Rattle.std.specs.Prelude.{◌≡◌, ◌<◌};
    ghost use Rattle.hl_turn.specs.Lock.{Lock};

    ghost Value = { Lock T };

    ghost view = { λ t. record {
      table = t.table.shared.table_id;
      opening = t.table.shared.key.opening.value;
      seats = t.table.shared.key.seats;
    } };

    ghost invariant = { λ t. (t.table.shared.table_id.words ≡ 3) × (t.table.shared.table_id.slots ≡ 1)
        × (0 < t.table.shared.key.seats) };
}

// The object of a row of one.
fn alone<T>(mut slots: Vec<T>) -> T
    requires { length slots.items ≡ 1 }
    ensures { slots.items ≡ result ∷ [] }
{
    let Some(object) = slots.pop() else {
        unreachable!()
    };
    slots.destroy_empty();
    object
}

// A row of one.
fn row_of<T>(alloc: Global, object: T) -> Result<Vec<T>, (AllocError, T)>
    ensures ok { IfOk result (λ v. v.items ≡ object ∷ []) }
    ensures err { IfErr result (λ e. e.1 ≡ object) }
{
    let mut slots = Vec::new(alloc);
    match slots.push(object) {
        Ok(()) => Ok(slots),
        Err(failed) => {
            slots.destroy_empty();
            Err((AllocError, failed.value))
        }
    }
}

impl<T: Object> Turn<T> {
    /// Makes the lock round the object, and its seats, which have the numbers 0 to `seats - 1` in that order.
    /// Only want of memory refuses it; the object is handed back then.
    pub fn new(
        alloc: Global,
        object: T,
        seats: u32,
    ) -> Result<(Turn<T>, Vec<TurnSeat<T>>), (AllocError, T)>
        requires some { 0 < seats }
        requires no_entries { T.entries object ≡ [] }
        requires no_jobs { T.jobs_out object object ≡ [] }
        ensures lock { IfOk result (λ r. (r.0.opening ≡ object) × (r.0.seats ≡ seats)) }
        ensures seats { IfOk result (λ r. (length r.1.items ≡ seats) × AreSeatsOf r.0 r.1.items) }
        ensures fresh { IfOk result (λ r. (k : ℕ) (seat : _) → slice_get r.1.items k ≡ Some seat
            → IsFresh seat.view) }
        ensures refused { IfErr result (λ e. e.1 ≡ object) }
    {
        let Ok(row) = Vec::with_capacity(alloc, seats as usize) else {
            return Err((AllocError, object));
        };
        let terms = Terms {
            opening: Snapshot::of(&object),
            seats,
        };
        let slots = row_of(alloc, object)?;
        match Table::new(alloc, &[0, 0, 0], slots, &terms) {
            Ok((table, first)) => {
                let row = deal(&table.shared, first, row, seats);
                Ok((Turn { table }, row))
            }
            Err(Refused { slots }) => Err((AllocError, alone(slots))),
        }
    }

    /// Waits for its turn, and answers what one call of the object's `step` answers.
    pub fn step<R: Wait>(
        &self,
        rt: &R,
        alloc: Global,
        seat: &mut TurnSeat<T>,
        event: T::Event,
    ) -> T::Answer
        requires seat { IsSeatOf self.now seat.old }
        requires may { MayAsk T.asks T.brings T.returns seat.old.view.number seat.old.view.holds event }
        ensures seat { IsSeatOf self.now seat.new × (seat.new.view.number ≡ seat.old.view.number) }
        ensures answered { IsAnswered T.entries T.seat_of T.legal_over T.jobs_out T.meets T.does
            self.now.opening seat.old.view event result seat.new.view }
        ensures holds { seat.new.view.holds ≡ held_after T.brings T.takes seat.old.view.holds event result }
        ensures counted { seat.old.view.steps < seat.new.view.steps }
    {
        steps::step(rt, &self.table.shared, &mut seat.place, alloc, event)
    }

    /// How many steps were counted, modulo 2^64. It doesn't wait, and the seat learns nothing else.
    pub fn progress(&self, seat: &mut TurnSeat<T>) -> u64
        requires seat { IsSeatOf self.now seat.old }
        ensures seat { IsSeatOf self.now seat.new }
        ensures counted { result ≡ seat.new.view.steps % 2 ^ 64 }
        ensures no_fewer { seat.old.view.steps ≤ seat.new.view.steps }
        ensures at_least { seat.new.view.steps < 2 ^ 64 → seat.old.view.steps ≤ result }
        ensures same { seat.new.view ≡ knowing seat.new.view.steps seat.old.view }
    {
        steps::progress(&self.table.shared, &mut seat.place)
    }

    /// Takes the object back, with all seats of the lock, in their order, none of which has a job out.
    pub fn close(self, seats: Vec<TurnSeat<T>>) -> T
        requires all { (length seats.items ≡ self.seats) × AreSeatsOf self seats.items }
        requires no_jobs { (k : ℕ) (seat : _) → slice_get seats.items k ≡ Some seat
            → seat.view.holds ≡ [] }
        ensures legal { T.legal_over self.opening result }
        ensures mine { (k : ℕ) (seat : _) → slice_get seats.items k ≡ Some seat
            → by_seat T.seat_of k (T.entries result) ≡ seat.view.mine }
        ensures no_others { (k : ℕ) → self.seats ≤ k → by_seat T.seat_of k (T.entries result) ≡ [] }
        ensures none_out { T.jobs_out self.opening result ≡ [] }
    {
        let Turn { table } = self;
        let place = gather(&table.shared, seats);
        let mut closed = table.close_with(place);
        let object = closed.take(0);
        closed.free();
        object
    }
}
