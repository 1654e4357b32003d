//! Stores opened on what is found in an image.

ghost use Rattle.std.specs.Prelude.{◌≡◌, ◌+◌, ◌*◌, ◌<◌, ◌≤◌, IfOk, IfSome, IsTrue, OnOk, length};
ghost use Rattle.hl_addr.specs.Layout.{Layout};
ghost use Rattle.hl_bytes.specs.Buffers.{block_of};
ghost use Rattle.hl_image.specs.Places.{IsLogPlace, log_end};
ghost use Rattle.hl_log.specs.Logs.{site_blocks};
ghost use Rattle.hl_tables.specs.Values.{AreTables};
ghost use Rattle.hl_trial.specs.Parts.{AreCleanTo, AreOfLog};

use crate::stores::first::disk_blocks;
use hl_addr::Geometry;
use hl_bytes::BLOCK;
use hl_found::{FoundContents, LiveAt, contents_of, live_blocks, next_tertiary};
use hl_image::ChainPart;
use hl_lines::{LineState, LineTable};
use hl_log::Log;
use hl_media::Machine;
use hl_mem::MemMachine;
use hl_nodes::{FoundBlock, FoundNode};
use hl_store::{Store, StoreParts};
use hl_super::Record;
use hl_tables::Tables;
use hl_tseg::Slot;
use std::alloc::{AllocError, Global};

/// Whether the image has the log's segments.
pub fn has_log(site: &Geometry, image: &[u8]) -> bool
    ensures { IsTrue result → 4096 * log_end site.now ≤ length image.now }
{
    let log_end = site.k as usize * site.log as usize + site.k as usize;
    log_end <= image.len() / BLOCK
}

/// The segment, the block and the serial where the log goes on behind the chain of a record.
fn chain_end(rec: &Record, chain: &[ChainPart]) -> (u32, u32, u64) {
    match chain.last() {
        None => (rec.seg, rec.block, rec.serial),
        Some(part) => {
            let last = &part.summary;
            (
                last.next_seg,
                last.next_block,
                last.serial.saturating_add(1),
            )
        }
    }
}

/// Whether a part may begin there: a segment of the log, with room for a block behind the part's summary.
fn is_log_place(site: &Geometry, seg: u32, block: u32) -> bool
    ensures { IsTrue result → IsLogPlace site.now (record { seg = seg; block = block }) }
{
    1 <= seg && seg <= site.log && block as u64 + 2 <= site.k as u64
}

/// Whether a segment has a part of the chain.
fn has_part(chain: &[ChainPart], seg: u32) -> bool {
    for part in chain {
        if part.seg == seg {
            return true;
        }
    }
    false
}

/// Pushes a segment that the tables don't use and in which no part of the chain lies, unless it is the head's.
fn push_clean(
    clean: &mut Vec<u32>,
    found: &FoundContents,
    head: u32,
    seg: u32,
) -> Result<(), AllocError>
    requires low { 1 ≤ seg }
    requires high { seg ≤ length found.now.tables.used }
    requires few { seg < 4097 }
    requires clean { AreCleanTo head seg clean.old.items }
    ensures { OnOk result (AreCleanTo head (seg + 1) clean.new.items) }
{
    let is_used = found.tables.used(seg) || has_part(found.chain.as_slice(), seg);
    if !is_used && seg != head {
        clean.push(seg)?;
    }
    Ok(())
}

/// The segments that the tables don't use and in which no part of the chain lies, but for the head's.
fn clean_of(
    alloc: Global,
    site: &Geometry,
    found: &FoundContents,
    head: u32,
) -> Result<Vec<u32>, AllocError>
    requires { length found.now.tables.used ≡ site.now.log }
    ensures clean { IfOk result (λ clean. AreCleanTo head (site.now.log + 1) clean.items) }
    ensures limits { site.now.log ≤ 4096 }
{
    let mut clean = Vec::new(alloc);
    'segments: for seg in 1..site.log + 1 {
        push_clean(&mut clean, found, head, seg)?;
    }
    Ok(clean)
}

/// How many of the blocks lie in each log segment, from 1 on.
fn live_of(alloc: Global, site: &Geometry, lives: &[LiveAt]) -> Result<Vec<u32>, AllocError>
    ensures { IfOk result (λ live. length live.items ≡ site.now.log) }
{
    let mut live: Vec<u32> = vec![in alloc; 0; site.log as usize]?;
    for at in lives {
        let segment = (at.address / site.k) as usize;
        if 1 <= segment && segment <= live.len() {
            live[segment - 1] = live[segment - 1].saturating_add(1);
        }
    }
    Ok(live)
}

/// The last use of each number.
fn uses_of(
    alloc: Global,
    site: &Geometry,
    nodes: &[Option<FoundNode>],
) -> Result<Vec<u64>, AllocError>
    ensures { IfOk result (λ uses. length uses.items ≡ site.now.inodes) }
{
    let mut uses: Vec<u64> = vec![in alloc; 0; site.inodes as usize]?;
    for (number, node) in nodes.iter().enumerate() {
        if let Some(node) = node
            && number < uses.len()
        {
            uses[number] = node.used;
        }
    }
    Ok(uses)
}

/// What a node is charged.
fn charge_of(node: &FoundNode) -> u32 {
    let mut charge: u32 = 1;
    let mut far: u32 = 0;
    for (i, block) in node.blocks.as_slice().iter().enumerate() {
        if matches!(block, FoundBlock::Here(_)) {
            charge = charge.saturating_add(1);
        }
        if 12 <= i && !matches!(block, FoundBlock::Hole) {
            far = 1;
        }
    }
    charge.saturating_add(far)
}

/// What the nodes are charged.
fn charge_of_all(nodes: &[Option<FoundNode>]) -> u32 {
    let mut charge: u32 = 0;
    for node in nodes {
        if let Some(node) = node {
            charge = charge.saturating_add(charge_of(node));
        }
    }
    charge
}

/// Says that the line of a slot that is staged holds its segment, where the line is empty.
fn stage(lines: &mut LineTable, count: u32, tseg: u32, slot: Slot)
    requires { length lines.old.states ≡ count }
    ensures { length lines.new.states ≡ length lines.old.states }
{
    if let Slot::Staged { line, .. } = slot {
        if line < count && lines.state(line) == LineState::Empty && lines.of(tseg).is_none() {
            lines.stage(tseg, line);
        }
    }
}

/// The lines of a site, of which those of the slots that are staged hold their segments.
fn lines_of(alloc: Global, site: &Geometry, slots: &[Slot]) -> Result<LineTable, AllocError>
    ensures { IfOk result (λ lines. length lines.states ≡ site.now.lines) }
{
    let mut lines = LineTable::new(alloc, site.lines)?;
    'slots: for (tseg, slot) in slots.iter().enumerate() {
        if let Ok(tseg) = u32::try_from(tseg) {
            stage(&mut lines, site.lines, tseg, *slot);
        }
    }
    Ok(lines)
}

/// What a store is opened with, where the log's head is in a segment.
fn parts_of(
    alloc: Global,
    site: &Geometry,
    head: u32,
    found: FoundContents,
    lives: &[LiveAt],
) -> Result<StoreParts, AllocError>
    requires { AreTables site.now found.tables }
    ensures { IfOk result (AreOfLog site.now head) }
{
    let tseg_serial = next_tertiary(&found);
    let clean = clean_of(alloc, site, &found, head)?;
    let FoundContents { tables, nodes, .. } = found;
    Ok(StoreParts {
        lines: lines_of(alloc, site, tables.slots().items())?,
        uses: uses_of(alloc, site, nodes.as_slice())?,
        live: live_of(alloc, site, lives)?,
        clean,
        charge: charge_of_all(nodes.as_slice()),
        tseg_serial,
        tables,
    })
}

/// A machine whose disk has these bytes, of which the calls of these numbers fail, counted from 1; none where they are no
/// disk of the site.
fn machine_of(
    alloc: Global,
    site: &Geometry,
    image: &[u8],
    failing: &[u64],
) -> Result<Option<MemMachine>, AllocError> {
    let Some(blocks) = disk_blocks(site) else {
        return Ok(None);
    };
    if image.len() != BLOCK * blocks as usize {
        return Ok(None);
    }
    let mut machine = MemMachine::of_image(alloc, image)?;
    for number in failing {
        machine.fail_call(alloc, *number)?;
    }
    Ok(Some(machine))
}

/// A store on a disk with these bytes, opened with what is found in them. The calls of these numbers fail. None where they
/// are no disk of the site that has contents.
pub fn open_on(
    alloc: Global,
    site: &Geometry,
    image: &[u8],
    failing: &[u64],
) -> Result<Option<Store<MemMachine>>, AllocError> {
    match machine_of(alloc, site, image, failing)? {
        Some(machine) => open_over(alloc, site, image, machine),
        None => Ok(None),
    }
}

/// Whether a machine has the blocks of a site.
fn is_large_enough<M: Machine>(site: &Geometry, machine: &M) -> bool
    ensures { IsTrue result → site_blocks site.now ≤ M.blocks machine.now }
{
    match disk_blocks(site) {
        Some(blocks) => blocks <= machine.blocks(),
        None => false,
    }
}

/// A store on a machine whose disk has these bytes, opened with what is found in them; none where they are no disk of the
/// site that has contents.
pub fn open_over<M: Machine + Drop>(
    alloc: Global,
    site: &Geometry,
    image: &[u8],
    machine: M,
) -> Result<Option<Store<M>>, AllocError> {
    if !has_log(site, image) || !is_large_enough(site, &machine) {
        return Ok(None);
    }
    let Some(found) = contents_of(alloc, image, site)? else {
        return Ok(None);
    };
    let lives = live_blocks(alloc, image, site, &found)?;
    let (seg, block, serial) = chain_end(&found.rec, found.chain.as_slice());
    if !is_log_place(site, seg, block) {
        return Ok(None);
    }
    let rec = record_copy(alloc, &found.rec)?;
    let parts = parts_of(alloc, site, seg, found, lives.as_slice())?;
    let Ok(log) = Log::open(alloc, machine, site, rec, (seg, block), serial) else {
        return Err(AllocError);
    };
    match Store::open(alloc, log, parts) {
        Ok(store) => Ok(Some(store)),
        Err(_) => Err(AllocError),
    }
}

fn record_copy(alloc: Global, rec: &Record) -> Result<Record, AllocError> {
    Ok(Record {
        number: rec.number,
        serial: rec.serial,
        seg: rec.seg,
        block: rec.block,
        tseg_serial: rec.tseg_serial,
        format: rec.format,
        volumes: rec.volumes.copy(alloc)?,
        tables: rec.tables.copy(alloc)?,
    })
}
