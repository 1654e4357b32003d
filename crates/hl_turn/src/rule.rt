// The rule of the lock, and what it is told once.
use crate::object::Object;
use crate::view::View;
use atomic_table::TableRule;
use std::snapshot::Snapshot;

// The object as it was when the lock was made, and how many seats there will be.
#[derive(Drop)]
pub(crate) struct Terms<T> {
    pub(crate) opening: Snapshot<T>,
    pub(crate) seats: u32,
}

pub(crate) struct InTurn;

impl<T: Object> TableRule<T, View<T, T::Entry, T::Item, T::Claim>, Terms<T>> for InTurn {
    ghost use Rattle.hl_turn.specs.Views.{starting};
    ghost use Rattle.hl_turn.specs.Rule.{LockRule};

    ghost holds = { λ k. LockRule T.entries T.seat_of T.legal_over T.jobs_out T.meets k.opening.value k.seats };

    ghost first = { λ k. starting k.opening.value };
}
