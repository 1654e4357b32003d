//! The disk of a run.

use hl_addr::Geometry;
use hl_bytes::BLOCK;
use hl_host::FileMachine;
use hl_media::{Machine, write_synced};
use hl_trial::stores::{First, disk_blocks, image_of};
use std::alloc::{AllocError, Global};
use std::fs::File;
use std::io::{self, Sink};

/// The disk's file in the current folder.
const DISK: &str = "bench.img";

/// A disk of zeros of a site in a new file. Where the file can't be made each call fails.
pub fn new_disk(rt: HostRuntime, site: &Geometry) -> FileMachine<File, Sink> {
    let blocks = disk_blocks(site).unwrap_or(0);
    FileMachine::new(new_file(rt, blocks), blocks, io::sink())
}

/// A new file of so many blocks of zeros in place of what was there.
fn new_file(rt: HostRuntime, blocks: u32) -> Option<File> {
    let file = File::options()
        .read(true)
        .write(true)
        .create(true)
        .truncate(true)
        .open(&rt, DISK)
        .ok()?;
    file.set_len(4096 * (blocks as u64)).ok()?;
    Some(file)
}

/// Writes the first image of a site, and syncs, and answers the image; none where that fails.
pub fn put_first<M: Machine>(
    alloc: Global,
    machine: &mut M,
    site: &Geometry,
) -> Result<Option<Vec<u8>>, AllocError> {
    let image = image_of(alloc, site, First::Root)?;
    if image.len() != BLOCK * machine.blocks() as usize {
        return Ok(None);
    }
    match write_synced(machine, 0, image.as_slice()) {
        Ok(()) => Ok(Some(image)),
        Err(_) => Ok(None),
    }
}
