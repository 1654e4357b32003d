//! Logs of a site on disks in memory.

ghost use Rattle.std.specs.Prelude.{◌≡◌, ◌≤◌, ◌+◌, ◌*◌, IfOk, IfSome, IsTrue, length};
ghost use Rattle.hl_image.specs.Places.{IsLogPlace, log_end};
ghost use Rattle.hl_log.specs.Free.{AreClean};
ghost use Rattle.hl_log.specs.Logs.{site_blocks};
ghost use Rattle.hl_trial.specs.Units.{IsOfSite};

use crate::logs::sites::{label, record};
use hl_addr::Geometry;
use hl_bytes::{BLOCK, Block, put_zeros};
use hl_image::chain_parts;
use hl_log::{Log, Unit, UnitAnswer};
use hl_media::Machine;
use hl_mem::MemMachine;
use hl_super::{Record, decode_record, newest};
use std::alloc::{AllocError, Global};

/// The blocks of a site's disk.
fn disk_blocks(site: &Geometry) -> Option<u32>
    ensures { IfSome result (λ n. n ≡ site_blocks site.now) }
{
    (1 + site.log + site.lines).checked_mul(site.k)
}

/// A disk of zeros.
pub fn zeros(alloc: Global, site: &Geometry) -> Result<Vec<u8>, AllocError> {
    let blocks = disk_blocks(site).ok_or(AllocError)?;
    vec![in alloc; 0; BLOCK * blocks as usize]
}

/// Where the log of an image goes on: the place behind its cut chain, and the serial of the part that is to stand there.
/// None where the image is no disk of the site.
fn chain_end(
    alloc: Global,
    site: &Geometry,
    image: &[u8],
    rec: &Record,
) -> Result<Option<(u32, u32, u64)>, AllocError> {
    if !has_log(site, image) {
        return Ok(None);
    }
    let parts = chain_parts(alloc, image, site, rec)?;
    match parts.as_slice().last() {
        None => Ok(Some((rec.seg, rec.block, rec.serial))),
        Some(part) => {
            let last = &part.summary;
            Ok(Some((
                last.next_seg,
                last.next_block,
                last.serial.saturating_add(1),
            )))
        }
    }
}

/// Whether a part may begin there: a segment of the log, with room for a block behind the part's summary.
fn is_log_place(site: &Geometry, seg: u32, block: u32) -> bool
    ensures { IsTrue result → IsLogPlace site.now (record { seg = seg; block = block }) }
{
    1 <= seg && seg <= site.log && block as u64 + 2 <= site.k as u64
}

/// A machine whose disk has these bytes; none where they are no disk of the site.
fn machine_of(
    alloc: Global,
    site: &Geometry,
    image: &[u8],
) -> Result<Option<MemMachine>, AllocError>
    ensures { IfOk result (λ machine. IfSome machine (λ m. site_blocks site.now ≤ m.blocks)) }
{
    let Some(blocks) = disk_blocks(site) else {
        return Ok(None);
    };
    if image.len() != BLOCK * blocks as usize {
        return Ok(None);
    }
    let machine = MemMachine::of_image(alloc, image)?;
    if machine.blocks() < blocks {
        return Ok(None);
    }
    Ok(Some(machine))
}

/// The log of a machine, whose chain ends at this place before this serial; none where no part may begin there.
fn open_at(
    alloc: Global,
    machine: MemMachine,
    site: &Geometry,
    rec: Record,
    end: (u32, u32),
    serial: u64,
) -> Result<Option<Log<MemMachine>>, AllocError>
    requires { site_blocks site.now ≤ machine.blocks }
{
    if !is_log_place(site, end.0, end.1) {
        return Ok(None);
    }
    match Log::open(alloc, machine, site, rec, end, serial) {
        Ok(log) => Ok(Some(log)),
        Err(_) => Err(AllocError),
    }
}

/// The log of a disk with these bytes, opened at the end of the cut chain that starts at a block of segment 1. None where
/// they are no disk of the site, or the chain ends where no part may begin.
pub fn open_on(
    alloc: Global,
    site: &Geometry,
    image: &[u8],
    block: u32,
) -> Result<Option<Log<MemMachine>>, AllocError> {
    let rec = record(alloc, site, block)?;
    let Some((seg, block, serial)) = chain_end(alloc, site, image, &rec)? else {
        return Ok(None);
    };
    match machine_of(alloc, site, image)? {
        Some(machine) => open_at(alloc, machine, site, rec, (seg, block), serial),
        None => Ok(None),
    }
}

/// Loses a block of an image: it becomes zeros, if the image has it.
pub fn lose(image: &mut [u8], block: u32) {
    let start = BLOCK * block as usize;
    if start + BLOCK <= image.len() {
        put_zeros(image, start, start + BLOCK);
    }
}

/// The three segments behind the head's, where a chain that goes up has no part yet. None where the log has fewer.
#[tactic(auto, using(crate::proofs::LogCleanLemmas::three_clean))]
fn clean_behind(site: &Geometry, head: u32) -> Option<[u32; 3]>
    ensures { IfSome result (AreClean site.now head) }
{
    if head as u64 + 3 > site.log as u64 {
        return None;
    }
    Some([head + 1, head + 2, head + 3])
}

/// Writes a unit, with the three segments behind the head's; none where there are fewer.
pub fn write(log: &mut Log<MemMachine>, unit: &Unit) -> Option<UnitAnswer>
    requires { IsOfSite log.old.geometry unit.now }
{
    let clean = clean_behind(log.geometry(), log.head().0)?;
    Some(log.write_unit(unit, &clean))
}

/// So many blocks, for tables.
fn tables(alloc: Global, count: u32) -> Result<Vec<Block>, AllocError>
    ensures { IfOk result (λ all. length all.items ≡ count) }
{
    let mut all = Vec::new(alloc);
    for number in 0..count {
        all.push(Block {
            bytes: [(number % 251) as u8; BLOCK],
        })?;
    }
    Ok(all)
}

/// Writes a checkpoint, with the three segments behind the head's; none where there are fewer.
pub fn checkpoint(
    alloc: Global,
    log: &mut Log<MemMachine>,
) -> Result<Option<UnitAnswer>, AllocError> {
    let rec = record(alloc, log.geometry(), 0)?;
    let blocks = tables(alloc, log.geometry().table_blocks())?;
    let Some(clean) = clean_behind(log.geometry(), log.head().0) else {
        return Ok(None);
    };
    Ok(Some(log.checkpoint(alloc, blocks.as_slice(), &rec, &clean)))
}

/// Whether the image has the log's segments.
fn has_log(site: &Geometry, image: &[u8]) -> bool
    ensures { IsTrue result → 4096 * log_end site.now ≤ length image.now }
{
    let log_end = site.k as usize * site.log as usize + site.k as usize;
    log_end <= image.len() / BLOCK
}

/// How many parts the image's chain has, up to the last one that ends a unit; none where it is no disk of the site.
pub fn chain_length(
    alloc: Global,
    site: &Geometry,
    image: &[u8],
    rec: &Record,
) -> Result<Option<usize>, AllocError> {
    if !has_log(site, image) {
        return Ok(None);
    }
    Ok(Some(chain_parts(alloc, image, site, rec)?.as_slice().len()))
}

/// The newest record of an image, if it has one.
pub fn newest_record(
    alloc: Global,
    site: &Geometry,
    image: &[u8],
) -> Result<Option<Record>, AllocError> {
    if image.len() < 3 * BLOCK {
        return Ok(None);
    }
    let label = label(site);
    let first = decode_record(alloc, &image[BLOCK..2 * BLOCK], 1, &label)?;
    let second = decode_record(alloc, &image[2 * BLOCK..3 * BLOCK], 2, &label)?;
    Ok(newest(first, second))
}
