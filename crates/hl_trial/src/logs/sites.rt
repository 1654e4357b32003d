//! The sites of the trials.

ghost use Rattle.std.specs.Prelude.{IfOk};
ghost use Rattle.hl_log.specs.Checkpoints.{IsOf};

use hl_addr::{Geometry, Numbers};
use hl_super::{Label, Record};
use std::alloc::{AllocError, Global};

/// 16 log segments of 64 blocks, 13 lines, 512 inode numbers, and one volume of four slots: the tables fill four blocks.
pub fn small(alloc: Global) -> Result<Geometry, AllocError> {
    let slots = vec![in alloc; 4; 1]?;
    Geometry::new(64, 16, 13, 512, Numbers::of(slots)).ok_or(AllocError)
}

/// 16 log segments of 512 blocks, 13 lines, 512 inode numbers, and 64,768 slots, of which 256 fill a block: the tables
/// fill 256 blocks, the most of any site.
pub fn large(alloc: Global) -> Result<Geometry, AllocError> {
    let mut slots = vec![in alloc; 4_096; 15]?;
    slots.push(3_328)?;
    Geometry::new(512, 16, 13, 512, Numbers::of(slots)).ok_or(AllocError)
}

/// The label of a site.
pub fn label(site: &Geometry) -> Label {
    Label {
        k: site.k,
        log: site.log,
        lines: site.lines,
        inodes: site.inodes,
    }
}

/// A first record, whose chain starts with the serial 1 at a block of segment 1.
pub fn record(alloc: Global, site: &Geometry, block: u32) -> Result<Record, AllocError>
    ensures { IfOk result (IsOf site.now) }
{
    Ok(Record {
        number: 0,
        serial: 1,
        seg: 1,
        block,
        tseg_serial: 1,
        format: 1,
        volumes: site.volumes.copy(alloc)?,
        tables: Numbers::of(Vec::new(alloc)),
    })
}
