//! Two small objects under the lock of `hl_turn`, and threads that work on them: the lock's tests,
//! and the wrong bodies that only an object can have.
#![tactic(auto)]

mod counter;
mod desk;
mod draws;
mod loans;
mod slip;
#[cfg(test)]
mod tests;

pub use counter::Counter;
pub use desk::{Ask, Desk, Page, Said, Wish};
pub use draws::{draw, draw_all};
pub use loans::{lend_all, lend_once};
pub use slip::Slip;
