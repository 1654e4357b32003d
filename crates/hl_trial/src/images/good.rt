//! Two images that break no rule of a mount.
//!
//! The plain image has a directory a with a directory c, in which is a file e; a file b of 13
//! blocks, of which it has two; and an empty directory d. Block 110 is the inode of the root, 112
//! that of a, 114 of b, 118 of c and 120 of d, each with its bytes in the block behind it, and 116
//! is b's pointer block. The file e comes by the part of the log at block 128. The image with away
//! blocks has a file g besides, by its inode in block 121: its first block is in the segment with
//! serial 8, which is home in slot 1, and its second in that with serial 9, which is staged in line
//! 3 for slot 0. Lines 4 and 5 hold segments that no slot names.

use crate::images::changes::change;
use crate::images::hand_made::{
    blank, put_front, put_inode, put_part, put_pointers, put_record, put_tables,
};
use crate::segments::seal_one;
use hl_bytes::{BLOCK, BlockRecord, SegBuf};
use hl_found::ShelfSegment;
use hl_summary::{Heading, INODE};
use std::alloc::{AllocError, Global};

/// The numbers of the plain image: the label, the inode map and the segments that are used, the
/// inodes, the pointer of b to its last block, and the bytes of b and e.
const PLAIN: [&str; 8] = [
    "0+8=64 0+12=16 0+16=14 0+20=512",
    "100+4=110 100+8=112 100+12=114 100+16=118 100+24=120 101+0=1 101+8=1",
    "110+16=18 110+32=111",
    "112+16=6 112+32=113",
    "114+16=49252 114+32=115 114+80=116 116+0=117",
    "118+16=6 118+32=119",
    "115+0=0x04030201 115+4092=0x08070605 117+96=0x0c0b0a09",
    "130+16=5 130+32=129",
];

/// The numbers that the image with away blocks has besides: the next tertiary serial, the slots,
/// the inode of g, and its entry in the root.
const WITH_AWAY: [&str; 4] = [
    "2+32=10",
    "102+0=1 102+4=3 102+8=9 102+16=2 102+24=8",
    "100+28=121 121+16=4146 121+32=slot+65 121+36=slot+1",
    "110+16=24 111+18=7 111+22=0x6701",
];

/// Writes the inodes, with no bytes.
fn put_inodes(image: &mut [u8]) {
    for (block, number, kind) in [
        (110, 1, 2),
        (112, 2, 2),
        (114, 3, 1),
        (118, 4, 2),
        (120, 6, 2),
        (130, 5, 1),
    ] {
        put_inode(image, block, number, kind);
    }
}

/// Writes the bytes of the directories and of e.
fn put_bytes(image: &mut [u8]) {
    let root = [
        2, 0, 0, 0, 1, b'a', 3, 0, 0, 0, 1, b'b', 6, 0, 0, 0, 1, b'd',
    ];
    put_front(image, 111, &root);
    put_front(image, 113, &[4, 0, 0, 0, 1, b'c']);
    put_front(image, 119, &[5, 0, 0, 0, 1, b'e']);
    put_front(image, 129, b"hello");
}

/// Writes the unit that brings e.
fn put_unit(image: &mut [u8]) {
    let heading = Heading {
        serial: 7,
        next_seg: 2,
        next_block: 3,
        ends: true,
    };
    let bytes = BlockRecord { ino: 5, index: 0 };
    let inode = BlockRecord {
        ino: 5,
        index: INODE,
    };
    put_part(image, 128, heading, &[bytes, inode]);
}

pub fn plain_image(alloc: Global) -> Result<Vec<u8>, AllocError> {
    let mut image = blank(alloc)?;
    put_front(&mut image, 0, b"HLLABEL1");
    put_record(alloc, &mut image, 4, 0)?;
    put_tables(alloc, &mut image)?;
    put_inodes(&mut image);
    put_pointers(&mut image, 116);
    for text in PLAIN {
        change(&mut image, text);
    }
    put_bytes(&mut image);
    put_unit(&mut image);
    Ok(image)
}

/// A segment of one block, which begins with these bytes.
fn segment_of(alloc: Global, serial: u64, bytes: &[u8]) -> Result<SegBuf, AllocError> {
    let mut segment = SegBuf::new(alloc, 64)?;
    if 2 <= segment.blocks() && bytes.len() <= BLOCK {
        segment.block_mut(1)[..bytes.len()].copy_from_slice(bytes);
    }
    seal_one(&mut segment, serial, BlockRecord { ino: 7, index: 0 });
    Ok(segment)
}

fn put_line(image: &mut [u8], line: usize, segment: &SegBuf) {
    if line < 14 {
        put_front(image, 64 * (17 + line), segment.part(0, segment.blocks()));
    }
}

pub fn image_with_away(alloc: Global) -> Result<Vec<u8>, AllocError> {
    let mut image = plain_image(alloc)?;
    put_inode(&mut image, 121, 7, 1);
    for text in WITH_AWAY {
        change(&mut image, text);
    }
    put_line(&mut image, 3, &segment_of(alloc, 9, &[9; 50])?);
    put_line(&mut image, 4, &segment_of(alloc, 7, &[7; 1])?);
    put_line(&mut image, 5, &segment_of(alloc, 6, &[6; 1])?);
    Ok(image)
}

/// A shelf with the segment that is home.
pub(crate) fn shelf(alloc: Global) -> Result<Vec<ShelfSegment>, AllocError> {
    let segment = segment_of(alloc, 8, &[8; BLOCK])?;
    let bytes = segment.part(0, segment.blocks()).to_vec(alloc)?;
    let mut shelf = Vec::new(alloc);
    shelf.push(ShelfSegment { serial: 8, bytes })?;
    Ok(shelf)
}
