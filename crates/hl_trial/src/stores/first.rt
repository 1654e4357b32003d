//! The first image of a site: in segment 1 the root, which is an empty directory, in block 1, the tables in blocks 2 to 5,
//! and the log's head at block 8; and the tertiary segments of its away blocks.

ghost use Rattle.std.specs.Prelude.{◌≡◌, IfSome};
ghost use Rattle.hl_log.specs.Logs.{site_blocks};

use crate::segments::seal_one;
use hl_addr::{Geometry, NOTHING, Numbers};
use hl_bytes::{BLOCK, BlockRecord, SegBuf};
use hl_inode::{Inode, Kind, encode};
use hl_super::{Label, Record, encode_label, encode_record};
use hl_tables::Tables;
use hl_tseg::Slot;
use std::alloc::{AllocError, Global};

/// What a first image has.
#[derive(Clone, Copy, Debug, PartialEq, Eq)]
pub enum First {
    /// The root alone.
    Root,
    /// Besides the root a file of number 2, with its inode in block 6. Its first block is that of the segment `STAGED` in
    /// slot 0, which is staged in line 3; its second is that of the segment `HOME` in slot 1, which no line holds.
    Away,
}

/// A tertiary segment of one block, which is block 1 of the segment and the same byte again and again.
#[derive(Clone, Copy, Debug, PartialEq, Eq)]
pub struct Tertiary {
    pub serial: u64,
    /// Which block of number 2 it is.
    pub index: u32,
    pub byte: u8,
}

/// The segment of a first image that is staged.
pub const STAGED: Tertiary = Tertiary {
    serial: 9,
    index: 0,
    byte: 9,
};

/// The segment of a first image that is home.
pub const HOME: Tertiary = Tertiary {
    serial: 8,
    index: 1,
    byte: 8,
};

impl Tertiary {
    /// Its bytes, as many as a line's of a site of segments of `k` blocks.
    pub fn sealed(self, alloc: Global, k: u32) -> Result<SegBuf, AllocError> {
        let mut buf = SegBuf::new(alloc, k)?;
        if 2 <= buf.blocks() {
            buf.block_mut(1).fill(self.byte);
        }
        let record = BlockRecord {
            ino: 2,
            index: self.index,
        };
        seal_one(&mut buf, self.serial, record);
        Ok(buf)
    }
}

/// Block 1 of the segments of slots 0 and 1.
const AWAY: [u32; 2] = [4_294_966_977, 4_294_967_041];

/// The blocks of a site's disk.
pub fn disk_blocks(site: &Geometry) -> Option<u32>
    ensures { IfSome result (λ n. n ≡ site_blocks site.now) }
{
    (1 + site.log + site.lines).checked_mul(site.k)
}

/// Puts a block of an image, if the image has it.
fn put_block(image: &mut [u8], at: u32, block: &[u8; BLOCK]) {
    let start = BLOCK * at as usize;
    if start + BLOCK <= image.len() {
        image[start..start + BLOCK].copy_from_slice(block);
    }
}

fn put_label(image: &mut [u8], site: &Geometry) {
    let mut block = [0; BLOCK];
    let label = Label {
        k: site.k,
        log: site.log,
        lines: site.lines,
        inodes: site.inodes,
    };
    encode_label(&label, &mut block);
    put_block(image, 0, &block);
}

fn put_root(image: &mut [u8], site: &Geometry) {
    let mut block = [0; BLOCK];
    let root = Inode {
        number: 1,
        kind: Kind::Dir,
        size: 0,
        used: 0,
        direct: [NOTHING; 12],
        single: NOTHING,
    };
    encode(&root, &mut block);
    put_block(image, site.k + 1, &block);
}

/// Puts a segment into an image from a block on, if the image has it.
fn put_segment(image: &mut [u8], at: u32, segment: &SegBuf) {
    let start = BLOCK * at as usize;
    let bytes = segment.part(0, segment.blocks());
    if start + bytes.len() <= image.len() {
        image[start..start + bytes.len()].copy_from_slice(bytes);
    }
}

fn put_away_file(image: &mut [u8], site: &Geometry) {
    let mut block = [0; BLOCK];
    let mut direct = [NOTHING; 12];
    direct[0] = AWAY[0];
    direct[1] = AWAY[1];
    let file = Inode {
        number: 2,
        kind: Kind::File,
        size: 8_192,
        used: 7,
        direct,
        single: NOTHING,
    };
    encode(&file, &mut block);
    put_block(image, site.k + 6, &block);
}

fn put_tables(image: &mut [u8], site: &Geometry, tables: &Tables) {
    for i in 0..tables.blocks() {
        let mut block = [0; BLOCK];
        tables.write_block(i, &mut block);
        put_block(image, i.saturating_add(site.k + 2), &block);
    }
}

fn put_record(alloc: Global, image: &mut [u8], site: &Geometry) -> Result<(), AllocError> {
    let mut block = [0; BLOCK];
    let tables = [site.k + 2, site.k + 3, site.k + 4, site.k + 5];
    let rec = Record {
        number: 1,
        serial: 1,
        seg: 1,
        block: 8,
        tseg_serial: 10,
        format: 1,
        volumes: site.volumes.copy(alloc)?,
        tables: Numbers::of(tables.to_vec(alloc)?),
    };
    encode_record(&rec, &mut block);
    put_block(image, 1, &block);
    Ok(())
}

/// The tables of a first image.
fn tables_of(alloc: Global, site: &Geometry, first: First) -> Result<Tables, AllocError> {
    let mut tables = Tables::new(alloc, site)?;
    tables.set_inode(1, site.k + 1);
    tables.set_used(1, true);
    if first == First::Away && 2 < site.inodes && 1 < site.slots() {
        tables.set_inode(2, site.k + 6);
        let staged = Slot::Staged {
            line: 3,
            serial: STAGED.serial,
        };
        let home = Slot::Home {
            serial: HOME.serial,
        };
        tables.slots_mut().set(0, staged);
        tables.slots_mut().set(1, home);
    }
    Ok(tables)
}

/// A first image; none where the site's disk has no room for it.
pub fn image_of(alloc: Global, site: &Geometry, first: First) -> Result<Vec<u8>, AllocError> {
    let blocks = disk_blocks(site).ok_or(AllocError)?;
    let mut image = vec![in alloc; 0; BLOCK * blocks as usize]?;
    let bytes = image.as_mut_slice();
    put_label(bytes, site);
    put_root(bytes, site);
    if first == First::Away {
        put_away_file(bytes, site);
        let line = site.k * (1 + site.log + 3);
        put_segment(bytes, line, &STAGED.sealed(alloc, site.k)?);
    }
    put_tables(bytes, site, &tables_of(alloc, site, first)?);
    put_record(alloc, bytes, site)?;
    Ok(image)
}
