//! What is counted of the nodes that a site has now: the numbers in use, the charge, and the live blocks of each log
//! segment; and what each change, a unit and a checkpoint make of these counts.
//!
//! These are definitions, and the modules of laws state what holds of them.
#![tactic(auto)]

pub mod laws;
pub mod unit_laws;
