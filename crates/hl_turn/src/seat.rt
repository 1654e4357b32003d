// What a thread works on the object with.
ghost use Rattle.std.specs.Prelude.{◌≡◌};

use crate::object::Object;
use crate::view::View;
use atomic_table::Seat;
use std::marker::Model;

/// A seat at one lock, between two calls. Contracts see the lock's table and what the seat knows.
#[derive(Drop)]
pub struct TurnSeat<T: Object> {
    pub(crate) number: u32,
    pub(crate) place: Seat<T, View<T, T::Entry, T::Item, T::Claim>>,
}

impl<T: Object> Model for TurnSeat<T> {
    ghost use Rattle.std.specs.Prelude.{◌≡◌, []};
    ghost use Rattle.hl_turn.specs.Lock.{Seated};
    ghost use Rattle.hl_turn.specs.declared.view.Stage.TheVariants.{Idle};

    ghost Value = { Seated T T.Entry T.Item T.Claim };

    ghost view = { λ s. record { table = s.place.table_id; view = s.place.me.0 } };

    ghost invariant = { λ s. (s.place.me.0.number ≡ s.number) × (s.place.me.0.stage ≡ Idle)
        × (s.place.me.1 ≡ []) };
}

impl<T: Object> TurnSeat<T> {
    /// The seat's number, which its entries name.
    pub fn number(&self) -> u32
        ensures { result ≡ self.now.view.number }
    {
        self.number
    }
}
