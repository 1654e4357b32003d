//! Reading bytes of a file.

ghost use Rattle.std.specs.Prelude.{◌≡◌, ◌+◌, ◌*◌, ◌/◌, ◌<◌, ◌≤◌, ◌^◌, length};
ghost use Rattle.hl_log.specs.Logs.{OnlyReads};
ghost use Rattle.hl_store.specs.Shapes.{IsNumber};
ghost use Rattle.hl_store.specs.Finding.{ReadsNodes};
ghost use Rattle.hl_ranges.specs.Ranges.{ReadsRange};
ghost use Rattle.hl_ranges.specs.Reading.{ReadsBlock, ReadsPart};

use crate::ranges::{BLOCK_BYTES, READ_MAX, RangeStep};
use hl_bytes::BLOCK;
use hl_media::Machine;
use hl_store::{Found, NodeFound, Store};
use std::alloc::Global;

/// Appends up to `len` bytes of a file from `at` on, and at most 32,768: fewer where the file ends before. Each block is read
/// once, and its bytes are copied once from there. What the read needs is at hand, as `read_needs` tells; else it counts as
/// want of memory.
pub fn read_range<M: Machine>(
    store: &mut Store<M>,
    alloc: Global,
    ino: u32,
    at: u64,
    len: u64,
    out: &mut Vec<u8>,
) -> RangeStep
    requires number { IsNumber store.old ino }
    requires at { at ≤ 4243456 }
    ensures range { ReadsRange M.history M.faults store.old store.new ino at len
        out.old.items out.new.items result }
    ensures reads { ReadsNodes M.history store.old store.new }
    ensures machine { OnlyReads M.history M.blocks M.faults M.write_faults M.say_faults
        store.old.log.machine store.new.log.machine }
{
    let size = match store.node(alloc, ino) {
        NodeFound::Node(node) => node.size,
        NodeFound::Unused => return RangeStep::Memory,
        NodeFound::DiskFault => return RangeStep::DiskFault,
        NodeFound::Memory => return RangeStep::Memory,
    };
    let end = (at + len.min(READ_MAX)).min(size);
    read_between(store, alloc, ino, at, end, out)
}

/// Appends the bytes of a file from `at` up to `end`, block by block.
fn read_between<M: Machine>(
    store: &mut Store<M>,
    alloc: Global,
    ino: u32,
    at: u64,
    end: u64,
    out: &mut Vec<u8>,
) -> RangeStep
    requires number { IsNumber store.old ino }
    requires end { end < 2 ^ 32 }
    ensures part { ReadsPart M.history M.faults store.old store.new ino at end
        out.old.items out.new.items result }
    ensures reads { ReadsNodes M.history store.old store.new }
    ensures machine { OnlyReads M.history M.blocks M.faults M.write_faults M.say_faults
        store.old.log.machine store.new.log.machine }
{
    if end <= at {
        return RangeStep::Done;
    }
    if out.reserve((end - at) as usize).is_err() {
        return RangeStep::Memory;
    }
    let before = out.as_slice().len();
    let mut from = at;
    'parts: while from < end {
        let to = end.min((from / BLOCK_BYTES + 1) * BLOCK_BYTES);
        match read_part(store, alloc, ino, from, to, out) {
            RangeStep::Done => {}
            RangeStep::DiskFault => {
                out.truncate(before);
                return RangeStep::DiskFault;
            }
            RangeStep::Memory => {
                out.truncate(before);
                return RangeStep::Memory;
            }
        }
        from = to;
    }
    RangeStep::Done
}

/// Appends the bytes of a file from `from` up to `to`, which lie in one block.
fn read_part<M: Machine>(
    store: &mut Store<M>,
    alloc: Global,
    ino: u32,
    from: u64,
    to: u64,
    out: &mut Vec<u8>,
) -> RangeStep
    requires number { IsNumber store.old ino }
    requires low { from < to }
    requires high { to ≤ 4096 * (from / 4096) + 4096 }
    requires few { to < 2 ^ 32 }
    ensures part { ReadsPart M.history M.faults store.old store.new ino from to
        out.old.items out.new.items result }
    ensures reads { ReadsNodes M.history store.old store.new }
    ensures machine { OnlyReads M.history M.blocks M.faults M.write_faults M.say_faults
        store.old.log.machine store.new.log.machine }
{
    let mut block = [0; BLOCK];
    match read_block(store, alloc, ino, (from / BLOCK_BYTES) as u32, &mut block) {
        RangeStep::Done => {}
        RangeStep::DiskFault => return RangeStep::DiskFault,
        RangeStep::Memory => return RangeStep::Memory,
    }
    let start = (from % BLOCK_BYTES) as usize;
    let count = (to - from) as usize;
    match out.extend_from_slice(&block[start..start + count]) {
        Ok(()) => RangeStep::Done,
        Err(_) => RangeStep::Memory,
    }
}

/// Reads block `i` of a file.
fn read_block<M: Machine>(
    store: &mut Store<M>,
    alloc: Global,
    ino: u32,
    i: u32,
    block: &mut [u8],
) -> RangeStep
    requires number { IsNumber store.old ino }
    requires size { length block.old ≡ 4096 }
    ensures block { ReadsBlock M.history M.faults store.old store.new ino i block.new result }
    ensures size { length block.new ≡ 4096 }
    ensures reads { ReadsNodes M.history store.old store.new }
    ensures machine { OnlyReads M.history M.blocks M.faults M.write_faults M.say_faults
        store.old.log.machine store.new.log.machine }
{
    match store.block(alloc, ino, i, block) {
        Found::Bytes => RangeStep::Done,
        Found::Hole => RangeStep::Done,
        Found::DiskFault => RangeStep::DiskFault,
        Found::Away(_) => RangeStep::Memory,
        Found::Memory => RangeStep::Memory,
    }
}
