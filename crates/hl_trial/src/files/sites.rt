//! The sites of the trials.

use hl_addr::{Geometry, Numbers};
use hl_tree::Limits;
use std::alloc::{AllocError, Global};

/// A site of segments of 64 blocks, 13 lines and one volume of four slots, made anew.
#[derive(Clone, Copy, Debug, PartialEq, Eq)]
pub enum Site {
    /// A quota of 64 blocks, and 511 numbers for nodes.
    Small,
    /// A quota of 1,088 blocks, so that the longest file has room.
    Wide,
    /// A quota of 64 blocks, and 11 numbers for nodes.
    Few,
    /// A quota of 4,288 blocks, and 2,047 numbers for nodes.
    Many,
}

impl Site {
    /// The numbers that lay it out.
    pub fn geometry(self, alloc: Global) -> Result<Geometry, AllocError> {
        let slots = vec![in alloc; 4; 1]?;
        let (log, inodes) = match self {
            Site::Small => (16, 512),
            Site::Wide => (80, 512),
            Site::Few => (16, 12),
            Site::Many => (280, 2_048),
        };
        Geometry::new(64, log, 13, inodes, Numbers::of(slots)).ok_or(AllocError)
    }

    /// How many nodes its files may have, and how many bytes one of them.
    pub fn limits(self) -> Limits {
        let nodes = match self {
            Site::Small | Site::Wide => 511,
            Site::Few => 11,
            Site::Many => 2_047,
        };
        Limits {
            nodes,
            bytes: 4_243_456,
        }
    }

    /// The greatest charge that its files may have, in blocks.
    pub fn quota(self) -> u64 {
        match self {
            Site::Small | Site::Few => 64,
            Site::Wide => 1_088,
            Site::Many => 4_288,
        }
    }
}
