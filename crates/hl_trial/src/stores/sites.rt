//! The sites of the trials.

use hl_addr::{Geometry, Numbers};
use std::alloc::{AllocError, Global};

/// A site of segments of 64 blocks, 13 lines, 512 inode numbers and one volume of four slots: the tables fill four blocks.
#[derive(Clone, Copy, Debug, PartialEq, Eq)]
pub enum Site {
    /// 16 log segments.
    Small,
    /// 80 log segments, of which the longest file takes 17.
    Wide,
}

impl Site {
    /// The numbers that lay it out.
    pub fn geometry(self, alloc: Global) -> Result<Geometry, AllocError> {
        let slots = vec![in alloc; 4; 1]?;
        let log = match self {
            Site::Small => 16,
            Site::Wide => 80,
        };
        Geometry::new(64, log, 13, 512, Numbers::of(slots)).ok_or(AllocError)
    }
}
