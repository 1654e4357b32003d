//! What the nodes of a site are to be with the next unit: their shapes, where each of their blocks is, and the bytes of
//! those that are new; and the blocks of that unit.
//!
//! It knows no machine. A node is drafted by what was read of it; from then on changes take no memory. `Overlay::make`
//! adds the pointer blocks and the inodes to the new blocks, so that each pointer is the address that the block gets, or
//! the one that it had. A draft that isn't changed is a node that was read, and `Overlay::trim` lets it go.
#![tactic(auto)]

mod draft;
mod drafts;
mod making;
mod overlay;
mod pointers;

pub use draft::{NodeDraft, Shape};
pub use drafts::Drafts;
pub use making::{MadeUnit, used_of};
pub use overlay::{BlockNow, Overlay};
pub use pointers::{BLOCKS_MAX, DIRECT, Pointer, Pointers};
