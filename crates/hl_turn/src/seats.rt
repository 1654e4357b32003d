// The row of a lock's seats: giving them out, and taking them in.
ghost use Rattle.std.specs.Prelude.{◌≡◌, ℕ, ◌+◌, ◌<◌, ◌≤◌, Some, [], length, vec_len, vec_capacity};
ghost use mathlib.Core.Option.{some};
ghost use lib.ListN.{get_elem?};
ghost use Rattle.hl_turn.specs.Views.{starting, IsFresh, IsKept};
ghost use Rattle.hl_turn.specs.declared.view.Stage.TheVariants.{Idle};

use crate::kinds::{Cut, Glue};
use crate::object::Object;
use crate::seat::TurnSeat;
use crate::steps::{Place, Words};

// A seat for each number, in order.
pub(crate) fn deal<T: Object>(
    words: &Words<T>,
    mut first: Place<T>,
    mut row: Vec<TurnSeat<T>>,
    seats: u32,
) -> Vec<TurnSeat<T>>
    requires row { (row.items ≡ []) × (vec_len row ≡ 0) × (seats ≤ vec_capacity row) × (0 < seats) }
    requires fits { (first.table_id ≡ words.now.table_id) × (words.now.table_id.words ≡ 3) × (words.now.key.seats ≡ seats) }
    requires first { first.me ≡ (starting words.now.key.opening.value, []) }
    ensures count { length result.items ≡ seats }
    ensures each { (k : ℕ) (t : _) → get_elem? result.items k ≡ some t
        → (t.view.number ≡ k) × (t.table ≡ words.now.table_id)
        × (t.view.opening ≡ Some words.now.key.opening.value) × IsFresh t.view }
{
    for i in 1..seats {
        let place = words.split_seat::<Cut>(&mut first);
        match row.push(TurnSeat { number: i, place }) {
            Ok(()) => {}
            Err(_) => unreachable!(),
        }
    }
    match row.insert(
        0,
        TurnSeat {
            number: 0,
            place: first,
        },
    ) {
        Ok(()) => {}
        Err(_) => unreachable!(),
    }
    row
}

// All seats in one.
pub(crate) fn gather<T: Object>(words: &Words<T>, mut seats: Vec<TurnSeat<T>>) -> Place<T>
    requires some { 0 < vec_len seats }
    requires fits { (words.now.table_id.words ≡ 3)
        × ((k : ℕ) (t : _) → get_elem? seats.items k ≡ some t → (t.table ≡ words.now.table_id) × (t.view.holds ≡ [])) }
    ensures fits { (result.table_id ≡ words.now.table_id) × (result.me.0.stage ≡ Idle) × (result.me.1 ≡ []) × (result.me.0.holds ≡ []) }
    ensures kept { (k : ℕ) (t : _) → get_elem? seats.items k ≡ some t → IsKept t.view.number t.view.mine result.me.0 }
{
    let Some(last) = seats.pop() else {
        unreachable!()
    };
    let TurnSeat {
        number: _,
        mut place,
    } = last;
    while let Some(seat) = seats.pop() {
        let TurnSeat {
            number: _,
            place: other,
        } = seat;
        words.join_seat::<Glue>(&mut place, other);
    }
    place
}
