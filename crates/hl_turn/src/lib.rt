//! An object that several threads work on in turn, each by a seat of its own: a ticket lock over
//! one table, whose rule knows one list of entries.
#![tactic(auto)]

mod kinds;
mod object;
mod rule;
mod seat;
mod seats;
mod steps;
mod turn;
mod view;

pub use object::Object;
pub use seat::TurnSeat;
pub use turn::Turn;
pub use view::{Stage, View};
