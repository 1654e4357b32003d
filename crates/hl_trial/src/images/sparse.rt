//! The sparse image, whose tables name two numbers and stage slot 0 in line 3 with the serial 9.
//! Block 70 is the inode of the root, of 6 bytes in block 72; block 71 that of number 2, a file of
//! 14 blocks, of which 1 is block 73 and 13 is block 1 of slot 0, with its pointers in block 74.

use crate::images::changes::change;
use crate::images::hand_made::{blank, put_front, put_inode, put_pointers, put_record, put_tables};
use std::alloc::{AllocError, Global};

/// Block 1 of slot 0.
pub const AWAY: u32 = 4_294_966_977;

/// The label, the next tertiary serial, the tables, the inodes, a block of the file and its pointer
/// block.
const NUMBERS: [&str; 7] = [
    "0+8=64 0+12=16 0+16=14 0+20=512",
    "2+32=10",
    "100+4=70 100+8=71 102+0=1 102+4=3 102+8=9",
    "70+16=6 70+32=72",
    "71+16=57344 71+24=5 71+36=73 71+80=74",
    "73+0=0x07060504",
    "74+4=slot+1",
];

pub fn sparse_image(alloc: Global) -> Result<Vec<u8>, AllocError> {
    let mut image = blank(alloc)?;
    put_front(&mut image, 0, b"HLLABEL1");
    put_record(alloc, &mut image, 4, 0)?;
    put_tables(alloc, &mut image)?;
    put_inode(&mut image, 70, 1, 2);
    put_inode(&mut image, 71, 2, 1);
    put_pointers(&mut image, 74);
    for text in NUMBERS {
        change(&mut image, text);
    }
    Ok(image)
}
