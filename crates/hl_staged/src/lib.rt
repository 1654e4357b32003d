//! Slots, staged lines and the last blocks of files of a disk (`docs/FORMATS.md`, "The rules of a
//! mount", 12 to 14): each check tells an address that breaks its rule, or none.
#![tactic(auto)]

mod ends;
mod lines;
mod repeats;
mod slots;

pub use ends::check_ends;
pub use lines::check_lines;
pub use slots::check_slots;
