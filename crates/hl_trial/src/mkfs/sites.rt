//! The sites of the trials.

ghost use Rattle.std.specs.Prelude.{◌≡◌, IfSome};
ghost use Rattle.hl_log.specs.Logs.{site_blocks};

use hl_addr::{Geometry, Numbers};
use hl_super::Label;
use std::alloc::{AllocError, Global};

/// A site that is made.
#[derive(Clone, Copy, Debug, PartialEq, Eq)]
pub enum Site {
    /// Segments of 64 blocks, 16 log segments, 16 lines, 512 inode numbers and two volumes of 4 slots: the tables fill four
    /// blocks.
    Usual,
    /// Segments of 512 blocks, 16 log segments, 13 lines, 512 inode numbers and 64,768 slots: the tables fill 256 blocks,
    /// the most of any site.
    Large,
}

impl Site {
    /// The numbers that lay it out.
    pub fn geometry(self, alloc: Global) -> Result<Geometry, AllocError> {
        let made = match self {
            Site::Usual => {
                let slots = vec![in alloc; 4; 2]?;
                Geometry::new(64, 16, 16, 512, Numbers::of(slots))
            }
            Site::Large => {
                let mut slots = vec![in alloc; 4_096; 15]?;
                slots.push(3_328)?;
                Geometry::new(512, 16, 13, 512, Numbers::of(slots))
            }
        };
        made.ok_or(AllocError)
    }
}

/// The blocks of a site's disk.
pub(crate) fn disk_blocks(site: &Geometry) -> Option<u32>
    ensures { IfSome result (λ n. n ≡ site_blocks site.now) }
{
    (1 + site.log + site.lines).checked_mul(site.k)
}

/// The label of a site.
pub(crate) fn label(site: &Geometry) -> Label {
    Label {
        k: site.k,
        log: site.log,
        lines: site.lines,
        inodes: site.inodes,
    }
}
