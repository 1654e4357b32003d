//! The image with units: its tables say that the root lies at block 110; a unit of one part at block
//! 128 brings the root and a file, and behind it a part at block 131 brings another file and doesn't
//! end its unit. Record 4 is in block 2; record 3, behind which there is no chain, is in block 1.

use crate::images::changes::change;
use crate::images::hand_made::{blank, put_inode, put_part, put_record, put_tables};
use hl_bytes::BlockRecord;
use hl_summary::{Heading, INODE};
use std::alloc::{AllocError, Global};

fn inode_block(ino: u32) -> BlockRecord {
    BlockRecord { ino, index: INODE }
}

/// Seals the part at block 128 with the root and an inode of this number.
pub(crate) fn put_first(image: &mut [u8], number: u32) {
    let heading = Heading {
        serial: 7,
        next_seg: 2,
        next_block: 3,
        ends: true,
    };
    put_inode(image, 129, 1, 2);
    put_inode(image, 130, number, 1);
    put_part(image, 128, heading, &[inode_block(1), inode_block(2)]);
}

/// What stands behind the part at block 131, if that ends no unit.
const LAST: Heading = Heading {
    serial: 8,
    next_seg: 2,
    next_block: 5,
    ends: false,
};

fn put_last(image: &mut [u8]) {
    put_inode(image, 132, 5, 1);
    put_part(image, 131, LAST, &[inode_block(5)]);
}

/// Seals the part at block 131 as one that ends its unit.
pub(crate) fn put_last_that_ends(image: &mut [u8]) {
    let heading = Heading { ends: true, ..LAST };
    put_part(image, 131, heading, &[inode_block(5)]);
}

pub fn image_with_units(alloc: Global) -> Result<Vec<u8>, AllocError> {
    let mut image = blank(alloc)?;
    put_record(alloc, &mut image, 3, 40)?;
    put_record(alloc, &mut image, 4, 0)?;
    put_tables(alloc, &mut image)?;
    put_inode(&mut image, 110, 1, 2);
    put_first(&mut image, 2);
    put_last(&mut image);
    change(&mut image, "100+4=110");
    Ok(image)
}
