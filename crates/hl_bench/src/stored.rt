//! Blocks put into a store, made to last and read back.

use crate::counted::{Calls, Counted};
use hl_addr::Geometry;
use hl_bytes::{BLOCK, get_u32};
use hl_log::UnitAnswer;
use hl_media::Machine;
use hl_store::{Found, Prepared, Store};
use hl_trial::stores::{Plain, PlainNode, is_number, make, open_over};
use std::alloc::{AllocError, Global};

/// The blocks of a unit, which are those of one file.
const UNIT: u32 = 64;

/// The number of the file of a unit.
fn number_of(unit: u32) -> u32 {
    unit.saturating_add(2)
}

/// The file of a unit of so many blocks, whose marks go on from those of the units before.
fn file_of(alloc: Global, unit: u32, count: u32) -> Result<PlainNode, AllocError> {
    let mut blocks = Vec::new(alloc);
    for i in 0..count {
        blocks.push(Plain::Filled(unit.wrapping_mul(UNIT).wrapping_add(i)))?;
    }
    Ok(PlainNode::file(blocks, 1))
}

/// Puts so many blocks in units; whether that succeeded.
fn put_all<M: Machine>(
    alloc: Global,
    store: &mut Store<M>,
    blocks: u32,
) -> Result<bool, AllocError> {
    for unit in 0..blocks.div_ceil(UNIT) {
        let left = blocks.saturating_sub(unit.saturating_mul(UNIT));
        let file = file_of(alloc, unit, left.min(UNIT))?;
        if make(store, alloc, number_of(unit), &file) != Some(Prepared::Ready) {
            return Ok(false);
        }
        if !matches!(store.flush(alloc), UnitAnswer::Written { .. }) {
            return Ok(false);
        }
    }
    Ok(true)
}

/// Whether a block is read with its mark.
fn is_read<M: Machine>(alloc: Global, store: &mut Store<M>, mark: u32) -> bool {
    let mut bytes = [0; BLOCK];
    let ino = number_of(mark / UNIT);
    if !is_number(store, ino) {
        return false;
    }
    let found = store.block(alloc, ino, mark % UNIT, &mut bytes);
    found == Found::Bytes && get_u32(&bytes, 0) == mark
}

/// Whether so many blocks are read with their marks.
fn read_all<M: Machine>(alloc: Global, store: &mut Store<M>, blocks: u32) -> bool {
    for mark in 0..blocks {
        if !is_read(alloc, store, mark) {
            return false;
        }
    }
    true
}

/// Puts so many blocks into a store on a disk that has this image, and reads them back, and answers the calls of the disk;
/// none where one failed, or the blocks are others.
pub fn run_store<M: Machine + Drop>(
    alloc: Global,
    machine: M,
    site: &Geometry,
    image: &[u8],
    blocks: u32,
) -> Result<Option<Calls>, AllocError> {
    let Some(mut store) = open_over(alloc, site, image, Counted::of(machine))? else {
        return Ok(None);
    };
    if !put_all(alloc, &mut store, blocks)? || !read_all(alloc, &mut store, blocks) {
        return Ok(None);
    }
    Ok(Some(store.machine().calls()))
}
