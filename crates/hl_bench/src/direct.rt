//! Blocks written, synced and read on a disk without a store.

ghost use Rattle.std.specs.Prelude.{◌+◌, ◌≤◌, IsTrue};

use crate::counted::{Calls, Counted};
use hl_bytes::{BLOCK, SegBuf};
use hl_media::{Machine, write_synced};
use hl_trial::stores::Plain;
use std::alloc::{AllocError, Global};

/// The block at which the first part is written.
const START: u32 = 64;

/// The longest part, in blocks.
const LONGEST: u32 = 64;

/// What is done on the disk: parts, each behind one block of zeros and as long as the others or by one block longer, which
/// have so many blocks together with these zeros, and are read back a block at a time.
#[derive(Clone, Copy, Debug, PartialEq, Eq)]
pub struct Shape {
    pub parts: u32,
    pub blocks: u32,
    pub reads: u32,
}

impl Shape {
    /// The blocks of a part.
    fn length(self, part: u32) -> u32 {
        let blocks = self.blocks.saturating_sub(self.parts);
        match (
            blocks.checked_div(self.parts),
            blocks.checked_rem(self.parts),
        ) {
            (Some(length), Some(rest)) => length.saturating_add((part < rest) as u32),
            _ => 0,
        }
    }
}

/// Whether a disk has so many blocks from one on.
fn has_blocks<M: Machine>(machine: &M, at: u32, count: u32) -> bool
    ensures { IsTrue result → at + count ≤ M.blocks machine.now }
{
    match at.checked_add(count) {
        Some(end) => end <= machine.blocks(),
        None => false,
    }
}

/// Puts the block of a mark into a buffer, if it has that block.
fn put_mark(buf: &mut SegBuf, i: u32, mark: u32) {
    if i < buf.blocks() {
        let bytes = Plain::Filled(mark).bytes();
        buf.block_mut(i).copy_from_slice(&bytes);
    }
}

/// Puts blocks of the marks from one on into the first blocks of a buffer.
fn fill(buf: &mut SegBuf, count: u32, mark: u32) {
    for i in 0..count.min(LONGEST) {
        put_mark(buf, i, mark.wrapping_add(i));
    }
}

/// Writes a block of zeros, and a part behind it, each with a sync; whether that succeeded.
fn write_part<M: Machine>(machine: &mut M, at: u32, length: u32, buf: &mut SegBuf) -> bool {
    fill(buf, length, at);
    if LONGEST < length || buf.blocks() < length || !has_blocks(machine, at, 1 + length) {
        return false;
    }
    let behind = at.saturating_add(1);
    let zeros = [0; BLOCK];
    write_synced(machine, at, &zeros).is_ok()
        && write_synced(machine, behind, buf.part(0, length)).is_ok()
}

/// Reads a block, if the disk has it; whether that succeeded.
fn read_block<M: Machine>(machine: &mut M, at: u32) -> bool {
    let mut bytes = [0; BLOCK];
    has_blocks(machine, at, 1) && machine.read(at, &mut bytes).is_ok()
}

/// Reads so many blocks, one at a time; whether that succeeded.
fn read_blocks<M: Machine>(machine: &mut M, count: u32) -> bool {
    for i in 0..count {
        if !read_block(machine, START.saturating_add(i)) {
            return false;
        }
    }
    true
}

/// Does this on a disk, and answers its calls; none where one failed.
pub fn run_direct<M: Machine + Drop>(
    alloc: Global,
    machine: M,
    shape: Shape,
) -> Result<Option<Calls>, AllocError> {
    let mut machine = Counted::of(machine);
    let mut buf = SegBuf::new(alloc, LONGEST)?;
    let mut at = START;
    for part in 0..shape.parts {
        let length = shape.length(part);
        if !write_part(&mut machine, at, length, &mut buf) {
            return Ok(None);
        }
        at = at.saturating_add(length).saturating_add(1);
    }
    if !read_blocks(&mut machine, shape.reads) {
        return Ok(None);
    }
    Ok(Some(machine.calls()))
}
