// What each kind of atomic step tells its seat. These types are for the proofs alone.
ghost use Rattle.std.specs.Prelude.{ℕ, List, []};
ghost use Rattle.hl_turn.specs.Views.{left, right, both, spent_view};
ghost use Rattle.hl_turn.specs.Kinds.{draws, takes_turn, counts_step, gives_back, looks};

use crate::object::Object;
use crate::view::View;
use atomic_table::{Join, Play, Split};
use std::marker::{Brand, PhantomData};

// An addition to the ticket: the seat draws it.
pub(crate) struct Draw;

impl<T: Object> Play<T, View<T, T::Entry, T::Item, T::Claim>> for Draw {
    ghost then = { λ s m r n. draws m r n };
}

// A load of serving: the seat has the object where it is its turn.
pub(crate) struct Take;

impl<T: Object> Play<T, View<T, T::Entry, T::Item, T::Claim>> for Take {
    ghost then = { λ s m r n. takes_turn T.entries T.legal_over T.jobs_out T.meets m r n };
}

// What a seat holds after its step. The call of `count` picks it.
pub(crate) trait Left<I> {
    ghost left: { List (ℕ × I) };
}

impl<I> Left<I> for Brand {
    ghost left = { [] };
}

// An addition to count: the step that the object made is counted.
pub(crate) struct Count<W> {
    marker: PhantomData<W>,
}

impl<T: Object, W: Left<T::Item>> Play<T, View<T, T::Entry, T::Item, T::Claim>> for Count<W> {
    ghost then = { λ s m r n. counts_step T.entries T.jobs_out W.left m n };
}

// An addition to serving: the seat gives the object back.
pub(crate) struct Give;

impl<T: Object> Play<T, View<T, T::Entry, T::Item, T::Claim>> for Give {
    ghost then = { λ s m r n. gives_back m n };
}

// A load of count.
pub(crate) struct Look;

impl<T: Object> Play<T, View<T, T::Entry, T::Item, T::Claim>> for Look {
    ghost then = { λ s m r n. looks m r n };
}

// The split of a seat.
pub(crate) struct Cut;

impl<T, E, I, C> Split<View<T, E, I, C>> for Cut {
    ghost left = { left };

    ghost right = { right };
}

// The joining of a seat into another.
pub(crate) struct Glue;

impl<T, E, I, C> Join<View<T, E, I, C>> for Glue {
    ghost both = { both };

    ghost spent = { spent_view };
}
