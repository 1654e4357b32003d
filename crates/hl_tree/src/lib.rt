//! The rules of files, on a plain tree in memory.
#![tactic(auto)]

mod bytes;
mod call;
mod list;
mod moving;
mod node;
mod nodes;
mod path;
mod plain;
mod rows;

pub use call::{Call, Limits, Refusal, Reply};
pub use list::{Copied, List};
pub use node::Node;
pub use path::{Path, below, is_too_long};
pub use plain::PlainTree;
