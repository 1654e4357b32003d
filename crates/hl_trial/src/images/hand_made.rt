//! Makers of hand-made images. The table blocks stand in blocks 100 to 103.

use hl_addr::{Geometry, NOTHING, Numbers};
use hl_bytes::{BLOCK, BlockRecord, end_page, put_u32};
use hl_summary::{Heading, seal_with};
use hl_super::{Record, encode_record};
use hl_tables::Tables;
use std::alloc::{AllocError, Global};

/// The blocks up to the end of the lines, and their bytes.
pub(crate) const BLOCKS: usize = 1_984;

pub const BYTES: usize = 8_126_464;

/// The first of the four table blocks.
pub(crate) const TABLES: usize = 100;

pub(crate) fn site(alloc: Global) -> Result<Geometry, AllocError> {
    let volumes = Numbers::of(vec![in alloc; 4; 1]?);
    Geometry::new(64, 16, 14, 512, volumes).ok_or(AllocError)
}

/// Writes a number at a place of a block, and with it the digest of the label or of a record, if the
/// image has that place.
pub(crate) fn put(image: &mut [u8], field: (usize, usize, u32)) -> bool {
    if BLOCKS <= field.0 || 4_093 <= field.1 || image.len() != BYTES {
        return false;
    }
    put_u32(image, BLOCK * field.0 + field.1, field.2);
    if field.0 < 3 {
        end_page(&mut image[BLOCK * field.0..BLOCK * field.0 + BLOCK], 4_064);
    }
    true
}

/// Writes bytes from the start of a block on.
pub(crate) fn put_front(image: &mut [u8], block: usize, bytes: &[u8]) {
    if block < BLOCKS && image.len() == BYTES && bytes.len() <= BYTES - BLOCK * block {
        image[BLOCK * block..BLOCK * block + bytes.len()].copy_from_slice(bytes);
    }
}

/// Writes the inode of an empty file or, with kind 2, an empty directory.
pub(crate) fn put_inode(image: &mut [u8], block: usize, number: u32, kind: u32) {
    put_front(image, block, b"HLINODE1");
    put(image, (block, 8, number));
    put(image, (block, 12, kind));
    for i in 0..13 {
        put(image, (block, 32 + 4 * i, NOTHING));
    }
}

/// Writes a pointer block that names no block.
pub(crate) fn put_pointers(image: &mut [u8], block: usize) {
    for i in 0..1_024 {
        put(image, (block, 4 * i, NOTHING));
    }
}

/// The record of this number, behind which the chain goes on at a block of segment 2.
fn record_of(alloc: Global, number: u64, block: u32) -> Result<Record, AllocError> {
    Ok(Record {
        number,
        serial: 7,
        seg: 2,
        block,
        tseg_serial: 1,
        format: 1,
        volumes: Numbers::of(vec![in alloc; 4; 1]?),
        tables: Numbers::of([100, 101, 102, 103].to_vec(alloc)?),
    })
}

/// Writes the record of a number into its block, if that is below 4.
fn put_encoded(image: &mut [u8], rec: &Record) {
    let at = 1 + (rec.number % 2 == 0) as usize;
    let fits = rec.volumes.items().len() <= 32 && rec.tables.items().len() <= 256;
    if image.len() == BYTES && fits {
        encode_record(rec, &mut image[BLOCK * at..BLOCK * at + BLOCK]);
    }
}

/// Writes the record of this number into its block, 1 or 2.
pub(crate) fn put_record(
    alloc: Global,
    image: &mut [u8],
    number: u64,
    block: u32,
) -> Result<(), AllocError> {
    put_encoded(image, &record_of(alloc, number, block)?);
    Ok(())
}

/// Seals a part of the log that begins at a block of the disk and changes no tables.
pub(crate) fn put_part(image: &mut [u8], from: usize, heading: Heading, blocks: &[BlockRecord]) {
    let count = blocks.len();
    if from < 1_024 && count <= 63 && image.len() == BYTES {
        let part = &mut image[BLOCK * from..BLOCK * from + BLOCK * (1 + count)];
        seal_with(heading, blocks, &[], part);
    }
}

/// Writes the table blocks of tables.
fn put_table_blocks(image: &mut [u8], tables: &Tables) {
    for i in 0..tables.blocks() {
        if i < 4 && image.len() == BYTES {
            let from = BLOCK * (TABLES + i as usize);
            tables.write_block(i, &mut image[from..from + BLOCK]);
        }
    }
}

/// Writes the table blocks of a site where nothing is in use.
pub(crate) fn put_tables(alloc: Global, image: &mut [u8]) -> Result<(), AllocError> {
    put_table_blocks(image, &Tables::new(alloc, &site(alloc)?)?);
    Ok(())
}

/// A disk of zeros.
pub(crate) fn blank(alloc: Global) -> Result<Vec<u8>, AllocError> {
    vec![in alloc; 0; BYTES]
}
