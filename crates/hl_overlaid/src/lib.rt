//! The nodes that a site has now: those of an image, with what an overlay holds of them; and the unit that makes them
//! those of every image (`docs/ARCHITECTURE.md`).
//!
//! These are definitions, and the modules of laws state what holds of them.
#![tactic(auto)]

pub mod change_laws;
pub mod draft_laws;
pub mod now_laws;
pub mod unit_laws;
