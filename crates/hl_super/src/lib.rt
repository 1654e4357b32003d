//! The label of a disk and its checkpoint records, each one block (`docs/FORMATS.md`, "Label" and
//! "Checkpoint record").
#![tactic(auto)]

mod label;
mod record;

pub use label::{Label, decode_label, encode_label};
pub use record::{Record, decode_record, encode_record, newest};
