//! How much a change of a file changes what it is charged.

ghost use Rattle.std.specs.Prelude.{◌≡◌, ◌+◌, ◌-◌, ◌<◌, ◌≤◌, IfErr, IfOk, length};
ghost use Rattle.hl_log.specs.Logs.{OnlyReads};
ghost use Rattle.hl_store.specs.Finding.{ReadsNodes};
ghost use Rattle.hl_store.specs.Shapes.{IsNumber};
ghost use Rattle.hl_ranges.specs.Writing.{Stops};
ghost use Rattle.hl_calls.specs.Counting.{CountsEdge, CountsHere, FindsBlocks, HasCount, HasSize};
ghost use Rattle.hl_calls.specs.Growths.{GrowsByCut, GrowsByWrite};

use hl_media::Machine;
use hl_ranges::RangeStep;
use hl_store::{NodeFound, Placed, Store};
use std::alloc::Global;

/// How many bytes a block has.
const BLOCK_BYTES: u64 = 4_096;

/// How many blocks an inode points to itself.
const DIRECT: u32 = 12;

/// How many blocks a change adds to a charge, and how many it removes.
#[derive(Clone, Copy, Debug, PartialEq, Eq)]
pub struct Growth {
    pub added: u32,
    pub removed: u32,
}

/// How much a write changes what a file is charged: each block that it touches and that isn't resident is added, and so is a
/// pointer block, where it touches a block past the twelfth of a file that has none. It reads no data block.
pub fn write_growth<M: Machine>(
    store: &mut Store<M>,
    alloc: Global,
    ino: u32,
    at: u64,
    bytes: &[u8],
) -> Result<Growth, RangeStep>
    requires number { IsNumber store.old ino }
    requires some { 0 < length bytes.now }
    requires within { at + length bytes.now ≤ 4243456 }
    ensures growth { IfOk result (GrowsByWrite M.history store.old ino at bytes.now) }
    ensures stops { IfErr result (Stops M.faults store.old store.new) }
    ensures reads { ReadsNodes M.history store.old store.new }
    ensures machine { OnlyReads M.history M.blocks M.faults M.write_faults M.say_faults
        store.old.log.machine store.new.log.machine }
{
    let first = (at / BLOCK_BYTES) as u32;
    let end = (at + bytes.len() as u64).div_ceil(BLOCK_BYTES) as u32;
    let here = count_here(store, alloc, ino, first, end)?;
    let touched = end - first - here;
    if end <= DIRECT {
        return Ok(Growth {
            added: touched,
            removed: 0,
        });
    }
    let blocks = file_blocks(store, alloc, ino)?;
    let has_pointers = has_block(store, alloc, ino, DIRECT, blocks)?;
    let added = if has_pointers { touched } else { touched + 1 };
    Ok(Growth { added, removed: 0 })
}

/// How much a cut changes what a file is charged: each resident block past the new end is removed, and so is the pointer
/// block, where no block past the twelfth is left; the block in which it ends is added where it is away. It reads no data
/// block.
pub fn cut_growth<M: Machine>(
    store: &mut Store<M>,
    alloc: Global,
    ino: u32,
    size: u64,
) -> Result<Growth, RangeStep>
    requires number { IsNumber store.old ino }
    requires size { size ≤ 4243456 }
    ensures growth { IfOk result (GrowsByCut M.history store.old ino size) }
    ensures stops { IfErr result (Stops M.faults store.old store.new) }
    ensures reads { ReadsNodes M.history store.old store.new }
    ensures machine { OnlyReads M.history M.blocks M.faults M.write_faults M.say_faults
        store.old.log.machine store.new.log.machine }
{
    let before = file_size(store, alloc, ino)?;
    if before <= size {
        return Ok(Growth {
            added: 0,
            removed: 0,
        });
    }
    let end = before.div_ceil(BLOCK_BYTES) as u32;
    let kept = size.div_ceil(BLOCK_BYTES) as u32;
    let gone = count_here(store, alloc, ino, kept, end)?;
    let added = count_edge(store, alloc, ino, size)?;
    let had_pointers = has_block(store, alloc, ino, DIRECT, end)?;
    let has_pointers = has_block(store, alloc, ino, DIRECT, kept)?;
    let removed = if had_pointers && !has_pointers {
        gone + 1
    } else {
        gone
    };
    Ok(Growth { added, removed })
}

/// The size of a node, in bytes.
fn file_size<M: Machine>(store: &mut Store<M>, alloc: Global, ino: u32) -> Result<u64, RangeStep>
    requires number { IsNumber store.old ino }
    ensures size { IfOk result (HasSize M.history store.old ino) }
    ensures most { IfOk result (λ size. size ≤ 4243456) }
    ensures stops { IfErr result (Stops M.faults store.old store.new) }
    ensures reads { ReadsNodes M.history store.old store.new }
    ensures machine { OnlyReads M.history M.blocks M.faults M.write_faults M.say_faults
        store.old.log.machine store.new.log.machine }
{
    match store.node(alloc, ino) {
        NodeFound::Node(node) => Ok(node.size),
        NodeFound::Unused | NodeFound::Memory => Err(RangeStep::Memory),
        NodeFound::DiskFault => Err(RangeStep::DiskFault),
    }
}

/// How many blocks a node has, holes among them.
fn file_blocks<M: Machine>(store: &mut Store<M>, alloc: Global, ino: u32) -> Result<u32, RangeStep>
    requires number { IsNumber store.old ino }
    ensures blocks { IfOk result (HasCount M.history store.old ino) }
    ensures stops { IfErr result (Stops M.faults store.old store.new) }
    ensures reads { ReadsNodes M.history store.old store.new }
    ensures machine { OnlyReads M.history M.blocks M.faults M.write_faults M.say_faults
        store.old.log.machine store.new.log.machine }
{
    let size = file_size(store, alloc, ino)?;
    Ok(size.div_ceil(BLOCK_BYTES) as u32)
}

/// How many resident blocks a node has from one up to another.
fn count_here<M: Machine>(
    store: &mut Store<M>,
    alloc: Global,
    ino: u32,
    from: u32,
    end: u32,
) -> Result<u32, RangeStep>
    requires number { IsNumber store.old ino }
    requires order { from ≤ end }
    ensures count { IfOk result (CountsHere M.history store.old ino from end) }
    ensures most { IfOk result (λ count. count ≤ end - from) }
    ensures stops { IfErr result (Stops M.faults store.old store.new) }
    ensures reads { ReadsNodes M.history store.old store.new }
    ensures machine { OnlyReads M.history M.blocks M.faults M.write_faults M.say_faults
        store.old.log.machine store.new.log.machine }
{
    let mut count = 0;
    'each: for i in from..end {
        match store.place(alloc, ino, i) {
            Placed::Here => count += 1,
            Placed::Hole | Placed::Away { .. } => {}
            Placed::DiskFault => return Err(RangeStep::DiskFault),
            Placed::Memory => return Err(RangeStep::Memory),
        }
    }
    Ok(count)
}

/// One, if the block in which a size ends is away, and else none.
fn count_edge<M: Machine>(
    store: &mut Store<M>,
    alloc: Global,
    ino: u32,
    size: u64,
) -> Result<u32, RangeStep>
    requires number { IsNumber store.old ino }
    requires size { size ≤ 4243456 }
    ensures edge { IfOk result (CountsEdge M.history store.old ino size) }
    ensures stops { IfErr result (Stops M.faults store.old store.new) }
    ensures reads { ReadsNodes M.history store.old store.new }
    ensures machine { OnlyReads M.history M.blocks M.faults M.write_faults M.say_faults
        store.old.log.machine store.new.log.machine }
{
    if size % BLOCK_BYTES == 0 {
        return Ok(0);
    }
    match store.place(alloc, ino, (size / BLOCK_BYTES) as u32) {
        Placed::Away { .. } => Ok(1),
        Placed::Hole | Placed::Here => Ok(0),
        Placed::DiskFault => Err(RangeStep::DiskFault),
        Placed::Memory => Err(RangeStep::Memory),
    }
}

/// Whether a node has a block, resident or away, from one up to another. It looks no further than that.
fn has_block<M: Machine>(
    store: &mut Store<M>,
    alloc: Global,
    ino: u32,
    from: u32,
    end: u32,
) -> Result<bool, RangeStep>
    requires number { IsNumber store.old ino }
    ensures found { IfOk result (FindsBlocks M.history store.old ino from end) }
    ensures stops { IfErr result (Stops M.faults store.old store.new) }
    ensures reads { ReadsNodes M.history store.old store.new }
    ensures machine { OnlyReads M.history M.blocks M.faults M.write_faults M.say_faults
        store.old.log.machine store.new.log.machine }
{
    'each: for i in from..end {
        match store.place(alloc, ino, i) {
            Placed::Hole => {}
            Placed::Here | Placed::Away { .. } => return Ok(true),
            Placed::DiskFault => return Err(RangeStep::DiskFault),
            Placed::Memory => return Err(RangeStep::Memory),
        }
    }
    Ok(false)
}
